//! Files that are opened: what `check` finds in them, what `repair` makes of them, and what is found then.

ghost use Rattle.link_rules.specs.Folders.{AllIdle};
ghost use Rattle.mem_store.specs.HostTold.{hosted_by};
ghost use Rattle.store_model.specs.Disk.{WhereTold};

use crate::common::{CHECK, CLEAN, REPAIR, REPAIRED, ask, ask_run, bytes_of, ids_of, line_done};
use crate::files::{
    CHILD, DYNAMIC, FIRST, FIXED, LOG, Patch, SECOND, changed, file_of, made, placed,
};
use mem_store::MemHost;
use std::alloc::Global;
use std::process::Abort;
use std::sync::Wait;
use std::thread::Threads;
use vhdx_app::Status;

// What is written over a file, what `check` prints of it, which bytes it replays, and what `repair` writes then.
type Row = (
    &'static [Patch],
    &'static str,
    &'static [Patch],
    &'static [Patch],
);

// How a check ends that prints this.
fn status_of(text: &str) -> Status {
    if text == CLEAN {
        Status::Done
    } else {
        Status::Findings
    }
}

// Asks that each row over a whole file is as it says. What is found stays, or the file is clean then.
fn each_repaired<R: Abort + Threads + Wait + Sync>(
    rt: &R,
    alloc: Global,
    whole: &[u8],
    rows: &[Row],
    stays: bool,
) {
    for (patches, found, replayed, written) in rows {
        let file = changed(rt, alloc, whole, patches);
        let looked = placed(rt, alloc, &file, replayed);
        let mended = changed(rt, alloc, &looked, written);
        let then = if stays { found } else { CLEAN };
        ask_run(rt, alloc, CHECK, &file, status_of(found), found, &looked);
        ask_run(rt, alloc, REPAIR, &file, Status::Done, REPAIRED, &mended);
        ask_run(rt, alloc, CHECK, &mended, status_of(then), then, &mended);
    }
}

const HEADER_1: &str = "finding 28 HeaderCopy f.vhdx copy 1\n";

const HEADER_2: &str = "finding 28 HeaderCopy f.vhdx copy 2\n";

const REGIONS_1: &str = "finding 29 RegionCopy f.vhdx copy 1\n";

const REGIONS_2: &str = "finding 29 RegionCopy f.vhdx copy 2\n";

const NAMED: &str = "finding 30 LogNamed f.vhdx\n";

const ALL: &str =
    "finding 28 HeaderCopy f.vhdx copy 2\nfinding 29 RegionCopy f.vhdx copy 1\nfinding 30 LogNamed f.vhdx\n";

static COPIES: [Row; 8] = [
    // a signature, a checksum, a number of entries that is wrong
    (&[(65_536, b"H")], HEADER_1, &[], FIRST),
    (&[(131_076, b"\0\0\0\0")], HEADER_2, &[], SECOND),
    (&[(196_612, b"\0\0\0\0")], REGIONS_1, &[], FIRST),
    (&[(262_144, b"R")], REGIONS_2, &[], FIRST),
    (&[(262_152, &[0, 8])], REGIONS_2, &[], FIRST),
    // a log that is named and holds nothing; and that with a copy of each
    (&[(131_120, &[7; 16])], NAMED, &[], FIRST),
    (
        &[(65_584, &[7; 16]), (131_072, b"H"), (196_612, b"\0\0\0\0")],
        ALL,
        &[],
        SECOND,
    ),
    // two copies with one number, of which the first is the current one
    (
        &[(65_544, &[2])],
        CLEAN,
        &[],
        &[(131_080, &[3]), (131_088, &[9; 16])],
    ),
];

static LOGS: [Row; 2] = [
    // an entry over sectors 0 to 7
    (
        &[(4_194_304, &[0x5A; 16]), (4_198_400, &[0x5A; 16])],
        NAMED,
        &[(4_194_304, &[0; 16])],
        FIRST,
    ),
    // one over the block allocation table, in which a state is wrong
    (
        &[(1_048_658, &[0x30]), (3_145_728, &[4])],
        NAMED,
        &[(3_145_728, &[0; 16])],
        FIRST,
    ),
];

#[test]
fn repaired_copies_and_logs(rt: HostRuntime) {
    let alloc = rt.alloc();
    let whole = file_of(&rt, alloc, FIXED);
    each_repaired(&rt, alloc, &whole, &COPIES, false);
    let logged = changed(&rt, alloc, &whole, &LOG);
    each_repaired(&rt, alloc, &logged, &LOGS, false);
}

const ENTRY_0: &str = "finding 19 BadLocator f.vhdx entry 0\n";

const ENTRY_1: &str = "finding 19 BadLocator f.vhdx entry 1\nfinding 20 NoParentName f.vhdx\n";

const ENTRY_2: &str = "finding 19 BadLocator f.vhdx entry 2\n";

const TWICE: &str =
    "finding 19 BadLocator f.vhdx entry 0\nfinding 19 BadLocator f.vhdx entry 1\nfinding 20 NoParentName f.vhdx\n";

const NO_NAME: &str = "finding 20 NoParentName f.vhdx\n";

// The locator stands at 2,162,728: its type, the number of its entries at 2,162,746, the two entries at 2,162,748 and 2,162,760, the keys
// at 2,162,772 and 2,162,876, the values at 2,162,800 and 2,162,902. Its length stands at 2,097,364.
static LOCATORS: [Row; 13] = [
    (&[(2_162_728, &[0])], ENTRY_0, &[], FIRST),
    (&[(2_097_364, &[19])], ENTRY_0, &[], FIRST),
    (&[(2_097_364, &[0])], ENTRY_0, &[], FIRST),
    // a value past the locator; a third entry, in the text of the first key
    (&[(2_097_364, &[189])], ENTRY_1, &[], FIRST),
    (&[(2_162_746, &[3])], ENTRY_2, &[], FIRST),
    // an odd length, half of a pair of units, a key twice
    (&[(2_162_770, &[15])], ENTRY_1, &[], FIRST),
    (&[(2_162_916, &[0, 0xD8])], ENTRY_1, &[], FIRST),
    (&[(2_162_760, &[44]), (2_162_768, &[28])], TWICE, &[], FIRST),
    // no linkage, one that is no identifier, no path, a path that ends in a separator
    (&[(2_162_772, b"q")], ENTRY_2, &[], FIRST),
    (&[(2_162_800, b"x")], ENTRY_0, &[], FIRST),
    (&[(2_162_876, b"s")], NO_NAME, &[], FIRST),
    (&[(2_162_916, b"\\")], NO_NAME, &[], FIRST),
    // nothing: a block of which some sectors are there, and their bitmap
    (
        &[
            (3_145_728, &[7, 0, 0x40]),
            (3_178_496, &[6, 0, 0x50]),
            (6_291_455, &[0]),
        ],
        CLEAN,
        &[],
        FIRST,
    ),
];

#[test]
fn locators_stay(rt: HostRuntime) {
    let whole = file_of(&rt, rt.alloc(), CHILD);
    each_repaired(&rt, rt.alloc(), &whole, &LOCATORS, true);
}

// Asks that a line over the host is done, prints this, and leaves this of f.vhdx.
fn ask_done<R: Abort + Threads + Wait + Sync>(
    rt: &R,
    alloc: Global,
    line: &str,
    host: &mut MemHost,
    text: &str,
    left: &[u8],
)
    requires { WhereTold (hosted_by host.old).folder AllIdle }
    ensures { WhereTold (hosted_by host.new).folder AllIdle }
{
    let mut ids = ids_of(rt, alloc, &[[9; 16]]);
    let out = line_done(rt, alloc, line, host, &mut ids);
    ask(rt, out.bytes.as_slice() == text.as_bytes(), line);
    ask(rt, bytes_of(host, "f.vhdx") == Some(left), line);
}

// The same of a check, a repair and one more check of a sound file, in a folder with its parent, if it has one, which stays.
fn ask_sound<R: Abort + Threads + Wait + Sync>(rt: &R, alloc: Global, lines: &[&str]) {
    let before = made(rt, alloc, lines);
    let whole = file_of(rt, alloc, lines);
    let mended = changed(rt, alloc, &whole, FIRST);
    let mut host = made(rt, alloc, lines);
    ask_done(rt, alloc, CHECK, &mut host, CLEAN, &whole);
    ask_done(rt, alloc, REPAIR, &mut host, REPAIRED, &mended);
    ask_done(rt, alloc, CHECK, &mut host, CLEAN, &mended);
    let same = bytes_of(&host, "b.vhdx") == bytes_of(&before, "b.vhdx");
    ask(rt, same, "another parent");
}

#[test]
fn sound_files(rt: HostRuntime) {
    for lines in [FIXED, DYNAMIC, CHILD] {
        ask_sound(&rt, rt.alloc(), lines);
    }
}
