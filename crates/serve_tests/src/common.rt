//! What the tests with several guests share.

ghost use Rattle.std.specs.Prelude.{◌≢◌, IsTrue};
ghost use Rattle.link_rules.specs.Folders.{AllIdle};
ghost use Rattle.mem_store.specs.HostTold.{hosted_by};
ghost use Rattle.store_model.specs.Disk.{WhereTold};

use mem_store::{Calls, MemHost, MemIds, MemSink, MemSource};
use std::alloc::Global;
use std::process::Abort;
use std::sync::Wait;
use std::thread::Threads;
use store_model::IdleGate;
use vhdx_app::{Status, run};
use vx_base::Name;

pub const BASE: &str = "make dynamic b.vhdx --sectors 2097152";

pub const CHILD: &str = "make child c.vhdx --parent b.vhdx";

/// What a session over a chain that was made draws, at most.
pub const DRAWN: [[u8; 16]; 8] = [
    [0x11; 16], [0x12; 16], [0x13; 16], [0x14; 16], [0x15; 16], [0x16; 16], [0x17; 16], [0x18; 16],
];

/// The same of a later one.
pub const DRAWN_LATER: [[u8; 16]; 8] = [
    [0x21; 16], [0x22; 16], [0x23; 16], [0x24; 16], [0x25; 16], [0x26; 16], [0x27; 16], [0x28; 16],
];

/// A host without a file.
pub fn empty_host(alloc: Global) -> MemHost
    ensures { WhereTold (hosted_by result).folder AllIdle }
{
    MemHost::new(alloc)
}

/// A host of one file.
pub fn host_with<R: Abort>(rt: &R, alloc: Global, name: &str, bytes: &[u8]) -> MemHost
    ensures { WhereTold (hosted_by result).folder AllIdle }
{
    let mut host = MemHost::new(alloc);
    let name = Name::new(alloc, name).expect(rt, "no name");
    host.put(&name, bytes).expect(rt, "no room");
    host
}

/// The words of a line.
pub fn words_of<R: Abort>(rt: &R, alloc: Global, line: &str) -> Vec<String> {
    let mut list = Vec::new(alloc);
    for word in line.split(' ') {
        let word = String::from_str(alloc, word).expect(rt, "no memory");
        list.push(word).expect(rt, "no memory");
    }
    list
}

/// Identifiers: these, and then 1, 2 and so on.
pub fn ids_of<R: Abort>(rt: &R, alloc: Global, listed: &[[u8; 16]]) -> MemIds {
    let listed = listed.to_vec(alloc).expect(rt, "no memory");
    MemIds::new(listed)
}

/// A source of these bytes, which are read 7 at a time.
pub fn source_of<R: Abort>(rt: &R, alloc: Global, bytes: &[u8]) -> MemSource {
    MemSource {
        bytes: bytes.to_vec(alloc).expect(rt, "no memory"),
        at: 0,
        piece: 7,
        faults: 0,
        calls: Calls::failing(Vec::new(alloc)),
    }
}

/// A sink that takes 1,000 bytes at once.
pub fn sink_of(alloc: Global) -> MemSink {
    MemSink {
        bytes: Vec::new(alloc),
        most: 1_000,
        faults: 0,
        calls: Calls::failing(Vec::new(alloc)),
    }
}

/// Runs the words over the host.
pub fn run_words<R: Threads + Wait + Sync>(
    rt: &R,
    alloc: Global,
    words: &[String],
    input: &mut MemSource,
    host: &mut MemHost,
    ids: &mut MemIds,
    out: &mut MemSink,
) -> Status
    requires { WhereTold (hosted_by host.old).folder AllIdle }
    ensures { result ≢ Status.Fault → result ≢ Status.NoMemory → WhereTold (hosted_by host.new).folder AllIdle }
{
    run(rt, alloc, words, host, input, out, ids, &IdleGate)
}

/// Runs a line's words over the host, with a script. Gives how it ended and what it printed.
pub fn run_script<R: Abort + Threads + Wait + Sync>(
    rt: &R,
    alloc: Global,
    line: &str,
    script: &str,
    host: &mut MemHost,
    ids: &mut MemIds,
) -> (Status, MemSink)
    requires { WhereTold (hosted_by host.old).folder AllIdle }
    ensures { result.0 ≢ Status.Fault → result.0 ≢ Status.NoMemory → WhereTold (hosted_by host.new).folder AllIdle }
{
    let words = words_of(rt, alloc, line);
    let mut input = source_of(rt, alloc, script.as_bytes());
    let mut out = sink_of(alloc);
    let status = run_words(rt, alloc, &words, &mut input, host, ids, &mut out);
    (status, out)
}

/// Runs a line with a script, which is done. Gives what it printed.
pub fn script_done<R: Abort + Threads + Wait + Sync>(
    rt: &R,
    alloc: Global,
    line: &str,
    script: &str,
    host: &mut MemHost,
    ids: &mut MemIds,
) -> MemSink
    requires { WhereTold (hosted_by host.old).folder AllIdle }
    ensures { WhereTold (hosted_by host.new).folder AllIdle }
{
    let (status, out) = run_script(rt, alloc, line, script, host, ids);
    match status {
        Status::Done => out,
        _ => panic!(rt; "{line} {status:?}"),
    }
}

/// Runs lines with their scripts, which are all done.
pub fn prepare<R: Abort + Threads + Wait + Sync>(
    rt: &R,
    alloc: Global,
    lines: &[(&str, &str)],
    host: &mut MemHost,
    ids: &mut MemIds,
)
    requires { WhereTold (hosted_by host.old).folder AllIdle }
    ensures { WhereTold (hosted_by host.new).folder AllIdle }
{
    for (line, script) in lines {
        script_done(rt, alloc, line, script, host, ids);
    }
}

/// A host of what these lines make.
pub fn made<R: Abort + Threads + Wait + Sync>(
    rt: &R,
    alloc: Global,
    lines: &[(&str, &str)],
) -> MemHost
    ensures { WhereTold (hosted_by result).folder AllIdle }
{
    let mut host = empty_host(alloc);
    let mut ids = ids_of(rt, alloc, &[]);
    prepare(rt, alloc, lines, &mut host, &mut ids);
    host
}

// Puts one more file, of a new name, into the host.
fn add_named<R: Abort>(rt: &R, host: &mut MemHost, name: &Name, bytes: &[u8])
    requires { WhereTold (hosted_by host.old).folder AllIdle }
    ensures { WhereTold (hosted_by host.new).folder AllIdle }
{
    host.put(name, bytes).expect(rt, "no room");
}

/// The same of a file that another host has.
pub fn add_from<R: Abort>(rt: &R, alloc: Global, host: &mut MemHost, other: &MemHost, name: &str)
    requires { WhereTold (hosted_by host.old).folder AllIdle }
    ensures { WhereTold (hosted_by host.new).folder AllIdle }
{
    let bytes = bytes_of(other, name).expect(rt, "no file");
    let name = Name::new(alloc, name).expect(rt, "no name");
    add_named(rt, host, &name, bytes);
}

/// The bytes of the file of this name.
pub fn bytes_of<'a>(host: &'a MemHost, name: &str) -> Option<&'a [u8]> {
    for slot in &host.slots {
        if slot.name.as_bytes() == name.as_bytes()
            && let Some(file) = &slot.file
        {
            return Some(file.now.as_slice());
        }
    }
    None
}

/// Asks that this is so.
pub fn ask<R: Abort>(rt: &R, is_so: bool, what: &str)
    ensures { IsTrue is_so }
{
    assert!(rt; is_so, "{what}");
}

/// The same of a row or a call of this number.
pub fn ask_at<R: Abort>(rt: &R, is_so: bool, number: u64) {
    assert!(rt; is_so, "{number}");
}

/// Whether a text is one of these.
pub fn is_one_of(text: &[u8], texts: &[&str]) -> bool {
    for other in texts {
        if text == other.as_bytes() {
            return true;
        }
    }
    false
}

/// The lines of a transcript that a guest's calls have.
pub fn lines_of(text: &str, guest: u64) -> u64 {
    let mut lines = 0u64;
    for line in text.lines() {
        let mut words = line.split(' ');
        words.next();
        if words
            .next()
            .is_some_and(|word| word.parse::<u64>() == Ok(guest))
        {
            lines = lines.saturating_add(1);
        }
    }
    lines
}

/// The guest and the number of a line's call.
pub fn caller_of(line: &str) -> Option<(u64, u64)> {
    let mut words = line.split(' ');
    words.next()?;
    let guest = words.next()?.parse::<u64>().ok()?;
    let number = words.next()?.parse::<u64>().ok()?;
    Some((guest, number))
}
