//! Guests over a chain whose files below the leaf are sealed: each reads these by readers of its own. What is told where a reader fails, or
//! where a file can't be sealed.

ghost use Rattle.link_rules.specs.Folders.{AllIdle};
ghost use Rattle.mem_store.specs.HostTold.{hosted_by};
ghost use Rattle.store_model.specs.Disk.{WhereTold};

use crate::common::{
    DRAWN, DRAWN_LATER, add_from, ask, ask_at, empty_host, ids_of, is_one_of, made, run_script,
    script_done,
};
use crate::many::{Crowd, judge, script_of};
use mem_file::Step;
use mem_store::{MemHost, MemSink, ReaderFault};
use std::alloc::Global;
use std::process::Abort;
use std::sync::Wait;
use std::thread::Threads;
use vhdx_app::Status;

const SERVE: &str = "serve c.vhdx --workers 0";

// A base with a sector, and a child over it.
const PAIR: &[(&str, &str)] = &[
    ("make dynamic b.vhdx --sectors 8192 --block 1", ""),
    ("steps b.vhdx", "write 0 1 aa\n"),
    ("make child c.vhdx --parent b.vhdx", ""),
];

// A base with the sectors that many calls name, in two of its blocks, and a child over it.
const FULL: &[(&str, &str)] = &[
    ("make dynamic b.vhdx --sectors 8192 --block 1", ""),
    ("steps b.vhdx", "write 2040 32 51\n"),
    ("make child c.vhdx --parent b.vhdx", ""),
];

// Three files, each with a sector.
const THREE: &[(&str, &str)] = &[
    ("make dynamic a.vhdx --sectors 8192 --block 1", ""),
    ("steps a.vhdx", "write 0 1 aa\n"),
    ("make child b.vhdx --parent a.vhdx", ""),
    ("steps b.vhdx", "write 1 1 bb\n"),
    ("make child c.vhdx --parent b.vhdx", ""),
    ("steps c.vhdx", "write 2 1 cc\n"),
];

// A read of what each of the three has.
const READ: &str = "1 read 0 4\n";

const ANSWER: &str = "1 1 1 read 0 4 = 512*aa 512*bb 512*cc 512*00\n";

// What is told of it where a call of the store fails once its guest is served.
const SERVED: [&str; 4] = [
    ANSWER,
    "- 1 1 read 0 4 = refused 38 ReadFault a.vhdx count 1\n",
    "- 1 1 read 0 4 = refused 38 ReadFault b.vhdx count 1\n",
    "- 1 1 read 0 4 = refused 38 ReadFault c.vhdx count 1\n",
];

// The guest reads on by the reader that failed, and another one by its own.
#[test]
fn a_read_that_fails_keeps_its_place(rt: HostRuntime) {
    let alloc = rt.alloc();
    let mut host = made(&rt, alloc, PAIR);
    // The last guest takes the first reader.
    host.failing_reader = Some(ReaderFault { reader: 1, read: 1 });
    let script = "1 read 0 1\n1 read 0 1\n2 read 0 1\n";
    let mut ids = ids_of(&rt, alloc, &DRAWN);
    let (status, out) = run_script(&rt, alloc, SERVE, script, &mut host, &mut ids);
    ask(&rt, status == Status::Fault, "no fault");
    let texts = [
        "1 1 1 read 0 1 = refused 38 ReadFault b.vhdx count 1\n2 1 2 read 0 1 = 512*aa\n3 2 1 read 0 1 = 512*aa\n",
        "1 1 1 read 0 1 = refused 38 ReadFault b.vhdx count 1\n2 2 1 read 0 1 = 512*aa\n3 1 2 read 0 1 = 512*aa\n",
        "1 2 1 read 0 1 = 512*aa\n2 1 1 read 0 1 = refused 38 ReadFault b.vhdx count 1\n3 1 2 read 0 1 = 512*aa\n",
    ];
    ask(&rt, is_one_of(out.bytes.as_slice(), &texts), "another text");
}

// Eight guests read, half of it what the base alone has, while eight others change the leaf; then all read and change.
#[test]
fn one_history_over_a_sealed_base(rt: HostRuntime) {
    let alloc = rt.alloc();
    for crowd in [Crowd::Apart, Crowd::Mixed] {
        let mut host = made(&rt, alloc, FULL);
        let script = script_of(&rt, alloc, crowd, 50);
        let mut ids = ids_of(&rt, alloc, &DRAWN);
        let out = script_done(&rt, alloc, SERVE, &script, &mut host, &mut ids);
        let text = std::str::from_utf8(out.bytes.as_slice()).expect(&rt, "no text");
        judge(&rt, alloc, text, crowd, 50, 0x51);
    }
}

// A host of the three files of another one.
fn copied<R: Abort>(rt: &R, alloc: Global, other: &MemHost) -> MemHost
    ensures { WhereTold (hosted_by result).folder AllIdle }
{
    let mut host = empty_host(alloc);
    add_from(rt, alloc, &mut host, other, "a.vhdx");
    add_from(rt, alloc, &mut host, other, "b.vhdx");
    add_from(rt, alloc, &mut host, other, "c.vhdx");
    host
}

// A host of the three files behind the read, in which this call of a store failed, and what was printed.
fn failed<R: Abort + Threads + Wait + Sync>(
    rt: &R,
    alloc: Global,
    files: &MemHost,
    call: u64,
) -> (MemHost, Status, MemSink) {
    let mut host = copied(rt, alloc, files);
    host.keep_returned();
    host.failing_in_store = [call].to_vec(alloc).expect(rt, "no memory");
    let mut ids = ids_of(rt, alloc, &DRAWN);
    let (status, out) = run_script(rt, alloc, SERVE, READ, &mut host, &mut ids);
    (host, status, out)
}

// How many files were sealed in the store that came back last.
fn sealed_in(host: &MemHost) -> u64 {
    let Some(past) = &host.past else {
        return 0;
    };
    let Some(last) = past.last() else {
        return 0;
    };
    let mut sealed = 0u64;
    for change in &last.store.order {
        if let Step::Sealed = &change.step {
            sealed = sealed.saturating_add(1);
        }
    }
    sealed
}

// Asks that what was left of the files shows the same disk.
fn ask_unbroken<R: Abort + Threads + Wait + Sync>(
    rt: &R,
    alloc: Global,
    left: &MemHost,
    call: u64,
) {
    let mut host = copied(rt, alloc, left);
    let mut ids = ids_of(rt, alloc, &DRAWN_LATER);
    let out = script_done(rt, alloc, SERVE, READ, &mut host, &mut ids);
    ask_at(rt, is_one_of(out.bytes.as_slice(), &[ANSWER]), call);
}

// Whether the guest is served in a run in which this call fails.
fn is_served<R: Abort + Threads + Wait + Sync>(
    rt: &R,
    alloc: Global,
    files: &MemHost,
    call: u64,
) -> bool {
    let (_left, _status, out) = failed(rt, alloc, files, call);
    !out.bytes.starts_with(b"fault ")
}

// Asks that it isn't, and that so many files were sealed before.
fn ask_unserved<R: Abort + Threads + Wait + Sync>(
    rt: &R,
    alloc: Global,
    files: &MemHost,
    call: u64,
    sealed: u64,
) {
    let (left, status, out) = failed(rt, alloc, files, call);
    ask_at(rt, status == Status::Fault, call);
    let told = is_one_of(out.bytes.as_slice(), &["fault store 1\n"]);
    ask_at(rt, told && sealed_in(&left) == sealed, call);
    ask_unbroken(rt, alloc, &left, call);
}

// The first call that is made once the guest is served, found by halves: where one before it fails, the guest never is.
fn first_served<R: Abort + Threads + Wait + Sync>(rt: &R, alloc: Global, files: &MemHost) -> u64 {
    let mut low = 0u64;
    let mut high = 4_096u64;
    for _ in 0..12 {
        let middle = low.saturating_add(high) / 2;
        if is_served(rt, alloc, files, middle) {
            high = middle;
        } else {
            low = middle;
        }
    }
    high
}

// The last four calls before the guest is served ask for the length of the middle file and seal it, and then do the same of the base.
#[test]
fn sealing_that_fails(rt: HostRuntime) {
    let alloc = rt.alloc();
    let files = made(&rt, alloc, THREE);
    let first = first_served(&rt, alloc, &files);
    for (before, sealed) in [(5u64, 0u64), (4, 0), (3, 0), (2, 1), (1, 1)] {
        let call = first.saturating_sub(before);
        ask_unserved(&rt, alloc, &files, call, sealed);
    }
    for later in 0..100u64 {
        let call = first.saturating_add(later);
        let (left, status, out) = failed(&rt, alloc, &files, call);
        ask_at(&rt, is_one_of(out.bytes.as_slice(), &SERVED), call);
        ask_at(&rt, sealed_in(&left) == 2, call);
        if status == Status::Done {
            ask(&rt, later > 4, "too few calls");
            return;
        }
        ask_at(&rt, status == Status::Fault, call);
        ask_unbroken(&rt, alloc, &left, call);
    }
    panic!(rt; "too many calls")
}
