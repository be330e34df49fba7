//! Chains of files in memory: what a dump of a leaf over parents shows, and each refusal of its links.

ghost use Rattle.link_rules.specs.Folders.{AllIdle};
ghost use Rattle.mem_store.specs.HostTold.{hosted_by};
ghost use Rattle.store_model.specs.Disk.{WhereTold};

use crate::common::{empty_host, ids_of, script_done};
use crate::files::FIXED;
use crate::stories::{Content, Step, go_on, play};
use mem_store::{MemHost, MemIds};
use std::alloc::Global;
use std::process::Abort;
use std::sync::Wait;
use std::thread::Threads;

static TWO_FILES: [Step; 5] = [
    // A base with blocks of 1 MB, all there; its sector 4,097 stands in the third.
    Step::Put("b.vhdx", Content::Plan(FIXED, &[(6_291_968, &[0x5A; 512])])),
    Step::Prepare(&[("make child c.vhdx --parent b.vhdx --block 2", "")]),
    // A child with blocks of 2 MB: the first is fully present, the second in part, with sector 4,096 alone.
    Step::Put("c.vhdx", Content::Longer(9_437_184)),
    Step::Put(
        "c.vhdx",
        Content::Patched(&[
            (3_145_728, &[6, 0, 0x40]),
            (3_145_736, &[7, 0, 0x60]),
            (3_162_112, &[6, 0, 0x80]),
            (6_290_944, &[0x3C; 512]),
            (6_291_456, &[0xA5; 1_024]),
            (8_389_120, &[1]),
        ]),
    ),
    Step::Dump(
        "dump c.vhdx 4095 3",
        &[
            (4_095, 4_096, "3c"),
            (4_096, 4_097, "a5"),
            (4_097, 4_098, "5a"),
        ],
    ),
];

#[test]
fn sectors_of_two_files(rt: HostRuntime) {
    play(&rt, rt.alloc(), &TWO_FILES);
}

const LINES: &[&str] = &[
    "dump c.vhdx 0 1",
    "info c.vhdx",
    "make child d.vhdx --parent c.vhdx",
];

const FOUND: &str = "{02020202-0202-0202-0202-020202020202}";

const OTHER: &str = "{2dc27766-f623-4200-9d64-115e9bfd4a08}";

const THIRD: &str = "{03030303-0303-0303-0303-030303030303}";

// Locators of a child, and how each line is refused then. The data_write identifiers are {02..} and {04..}.
static LINKS: [Step; 14] = [
    Step::Ids(&[[1; 16], [2; 16], [3; 16], [4; 16]]),
    Step::Prepare(&[
        ("make dynamic b.vhdx --sectors 2097152", ""),
        ("make child c.vhdx --parent b.vhdx", ""),
    ]),
    Step::Put(
        "c.vhdx",
        Content::Located(&[
            ("parent_linkage", OTHER),
            ("parent_linkage2", THIRD),
            ("relative_path", ".\\b.vhdx"),
        ]),
    ),
    Step::Refused(
        LINES,
        "refused 22 LinkageMismatch c.vhdx wanted {2dc27766-f623-4200-9d64-115e9bfd4a08} wanted2 {03030303-0303-0303-0303-030303030303} found {02020202-0202-0202-0202-020202020202}\n",
    ),
    Step::Put(
        "c.vhdx",
        Content::Located(&[("parent_linkage", OTHER), ("relative_path", ".\\b.vhdx")]),
    ),
    Step::Refused(
        LINES,
        "refused 22 LinkageMismatch c.vhdx wanted {2dc27766-f623-4200-9d64-115e9bfd4a08} wanted2 none found {02020202-0202-0202-0202-020202020202}\n",
    ),
    Step::Put(
        "c.vhdx",
        Content::Located(&[("parent_linkage", FOUND), ("relative_path", ".\\C.vhdx")]),
    ),
    Step::Refused(LINES, "refused 21 FileMissing C.vhdx\n"),
    Step::Put(
        "c.vhdx",
        Content::Located(&[("parent_linkage", FOUND), ("relative_path", ".\\c.vhdx")]),
    ),
    Step::Refused(LINES, "refused 25 ChainLoop c.vhdx name c.vhdx\n"),
    Step::Put(
        "c.vhdx",
        Content::Located(&[("parent_linkage", FOUND), ("relative_path", ".\\")]),
    ),
    Step::Refused(LINES, "refused 20 NoParentName c.vhdx\n"),
    Step::Put(
        "c.vhdx",
        Content::Located(&[("parent_linkage", "c.vhdx"), ("relative_path", ".\\")]),
    ),
    Step::Refused(LINES, "refused 19 BadLocator c.vhdx entry 0\n"),
];

#[test]
fn refused_links(rt: HostRuntime) {
    play(&rt, rt.alloc(), &LINKS);
}

// Makes the file 0 and so many children, each of the one before.
fn make_chain<R: Abort + Threads + Wait + Sync>(
    rt: &R,
    alloc: Global,
    children: u32,
    host: &mut MemHost,
    ids: &mut MemIds,
)
    requires { WhereTold (hosted_by host.old).folder AllIdle }
    ensures { WhereTold (hosted_by host.new).folder AllIdle }
{
    script_done(rt, alloc, "make dynamic 0 --sectors 1", "", host, ids);
    for parent in 0..children {
        let name = u64::from(parent) + 1;
        let line = format!(in alloc; "make child {name} --parent {parent}").expect(rt, "no memory");
        script_done(rt, alloc, line.as_str(), "", host, ids);
    }
}

static LONGEST: [Step; 2] = [
    Step::Dump("dump 63 0 1", &[(0, 1, "00")]),
    Step::Refused(&["dump 64 0 1"], "refused 24 ChainTooLong 0\n"),
];

#[test]
fn sixty_five_files(rt: HostRuntime) {
    let alloc = rt.alloc();
    let mut host = empty_host(alloc);
    let mut ids = ids_of(&rt, alloc, &[]);
    make_chain(&rt, alloc, 64, &mut host, &mut ids);
    go_on(&rt, alloc, &LONGEST, &mut host, &mut ids);
}
