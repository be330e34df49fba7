//! What the tests of `check` and `repair` share.

ghost use Rattle.std.specs.Prelude.{◌≢◌};
ghost use Rattle.link_rules.specs.Folders.{AllIdle};
ghost use Rattle.mem_store.specs.HostTold.{hosted_by};
ghost use Rattle.store_model.specs.Disk.{WhereTold};

use mem_store::{Calls, Crash, MemHost, MemIds, MemSink, MemSource};
use std::alloc::Global;
use std::process::Abort;
use std::sync::Wait;
use std::thread::Threads;
use store_model::IdleGate;
use vhdx_app::{Status, run};
use vx_base::Name;

/// What a run meets: the identifier that is drawn, which calls fail, counted from 1, whether half of a write that fails is there then, and
/// what a crash is to leave.
#[derive(Clone, Copy)]
pub struct Case {
    pub id: [u8; 16],
    pub host: u64,
    pub store: u64,
    pub sink: u64,
    pub tears: bool,
    pub crash: Option<Crash>,
}

/// No call that fails.
pub const PLAIN: Case = Case {
    id: [9; 16],
    host: 0,
    store: 0,
    sink: 0,
    tears: false,
    crash: None,
};

/// The two lines, and what they print of a file in which nothing is wrong.
pub const CHECK: &str = "check f.vhdx";

pub const REPAIR: &str = "repair f.vhdx";

pub const CLEAN: &str = "clean\n";

pub const REPAIRED: &str = "repaired f.vhdx\n";

/// A host without a file.
pub fn empty_host(alloc: Global) -> MemHost
    ensures { WhereTold (hosted_by result).folder AllIdle }
{
    MemHost::new(alloc)
}

/// A host of one file, f.vhdx.
pub fn host_with<R: Abort>(rt: &R, alloc: Global, bytes: &[u8]) -> MemHost
    ensures { WhereTold (hosted_by result).folder AllIdle }
{
    let mut host = MemHost::new(alloc);
    let name = Name::new(alloc, "f.vhdx").expect(rt, "no name");
    host.put(&name, bytes).expect(rt, "no room");
    host
}

/// A list of this call.
pub fn listed<R: Abort>(rt: &R, alloc: Global, call: u64) -> Vec<u64> {
    [call].to_vec(alloc).expect(rt, "no memory")
}

/// The words of a line.
pub fn words_of<R: Abort>(rt: &R, alloc: Global, line: &str) -> Vec<String> {
    let mut list = Vec::new(alloc);
    for word in line.split(' ') {
        let word = String::from_str(alloc, word).expect(rt, "no memory");
        list.push(word).expect(rt, "no memory");
    }
    list
}

/// Identifiers: these, and then 1, 2 and so on.
pub fn ids_of<R: Abort>(rt: &R, alloc: Global, listed: &[[u8; 16]]) -> MemIds {
    let listed = listed.to_vec(alloc).expect(rt, "no memory");
    MemIds::new(listed)
}

/// A source of no bytes.
pub fn empty_source(alloc: Global) -> MemSource {
    MemSource {
        bytes: Vec::new(alloc),
        at: 0,
        piece: 7,
        faults: 0,
        calls: Calls::failing(Vec::new(alloc)),
    }
}

/// A sink that takes 1,000 bytes at once, and fails in this call.
pub fn sink_of<R: Abort>(rt: &R, alloc: Global, call: u64) -> MemSink {
    MemSink {
        bytes: Vec::new(alloc),
        most: 1_000,
        faults: 0,
        calls: Calls::failing(listed(rt, alloc, call)),
    }
}

/// Runs the words over the host.
pub fn run_words<R: Threads + Wait + Sync>(
    rt: &R,
    alloc: Global,
    words: &[String],
    host: &mut MemHost,
    ids: &mut MemIds,
    out: &mut MemSink,
) -> Status
    requires { WhereTold (hosted_by host.old).folder AllIdle }
    ensures { result ≢ Status.Fault → result ≢ Status.NoMemory → WhereTold (hosted_by host.new).folder AllIdle }
{
    let mut input = empty_source(alloc);
    run(rt, alloc, words, host, &mut input, out, ids, &IdleGate)
}

/// Runs a line that is done over the host. Gives what it printed.
pub fn line_done<R: Abort + Threads + Wait + Sync>(
    rt: &R,
    alloc: Global,
    line: &str,
    host: &mut MemHost,
    ids: &mut MemIds,
) -> MemSink
    requires { WhereTold (hosted_by host.old).folder AllIdle }
    ensures { WhereTold (hosted_by host.new).folder AllIdle }
{
    let words = words_of(rt, alloc, line);
    let mut out = sink_of(rt, alloc, 0);
    let status = run_words(rt, alloc, &words, host, ids, &mut out);
    match status {
        Status::Done => out,
        _ => panic!(rt; "{line} {status:?}"),
    }
}

/// Runs a line over one file, f.vhdx. Gives how it ended, what it printed, and what it left.
pub fn attempt<R: Abort + Threads + Wait + Sync>(
    rt: &R,
    alloc: Global,
    line: &str,
    file: &[u8],
    case: Case,
) -> (Status, MemSink, MemHost) {
    let mut host = host_with(rt, alloc, file);
    host.calls.failing = listed(rt, alloc, case.host);
    host.failing_in_store = listed(rt, alloc, case.store);
    host.tears = case.tears;
    host.crash = case.crash;
    let words = words_of(rt, alloc, line);
    let id = case.id;
    let mut ids = ids_of(rt, alloc, &[id]);
    let mut out = sink_of(rt, alloc, case.sink);
    let status = run_words(rt, alloc, &words, &mut host, &mut ids, &mut out);
    (status, out, host)
}

/// Asks that a line over the file ends with this status, this text, and this in the file.
pub fn ask_case<R: Abort + Threads + Wait + Sync>(
    rt: &R,
    alloc: Global,
    line: &str,
    file: &[u8],
    case: Case,
    status: Status,
    text: &str,
    left: &[u8],
) {
    let (met, out, host) = attempt(rt, alloc, line, file, case);
    let told = std::str::from_utf8(out.bytes.as_slice()).expect(rt, "no text");
    assert!(rt; met == status && told == text, "{line} {met:?}: {told}");
    ask(rt, bytes_of(&host, "f.vhdx") == Some(left), text);
}

/// The same where no call fails.
pub fn ask_run<R: Abort + Threads + Wait + Sync>(
    rt: &R,
    alloc: Global,
    line: &str,
    file: &[u8],
    status: Status,
    text: &str,
    left: &[u8],
) {
    ask_case(rt, alloc, line, file, PLAIN, status, text, left);
}

/// The bytes of the file of this name.
pub fn bytes_of<'a>(host: &'a MemHost, name: &str) -> Option<&'a [u8]> {
    for slot in &host.slots {
        if slot.name.as_bytes() == name.as_bytes()
            && let Some(file) = &slot.file
        {
            return Some(file.now.as_slice());
        }
    }
    None
}

/// Asks that this is so.
pub fn ask<R: Abort>(rt: &R, is_so: bool, what: &str) {
    assert!(rt; is_so, "{what}");
}

/// The same of a call or a moment of this number.
pub fn ask_at<R: Abort>(rt: &R, is_so: bool, number: u64) {
    assert!(rt; is_so, "{number}");
}
