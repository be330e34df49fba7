//! What the tests of a merge beside guests share.

ghost use Rattle.std.specs.Prelude.{◌≢◌, IsTrue};
ghost use Rattle.link_rules.specs.Folders.{AllIdle};
ghost use Rattle.mem_store.specs.HostTold.{hosted_by};
ghost use Rattle.store_model.specs.Disk.{WhereTold};

use mem_store::{Calls, MemHost, MemIds, MemSink, MemSource};
use std::alloc::Global;
use std::process::Abort;
use std::sync::Wait;
use std::thread::Threads;
use store_model::{Gate, IdleGate};
use vhdx_app::{Status, run};
use vx_base::Name;

/// The line of a look at the disk.
pub const LOOK: &str = "steps c.vhdx --read-only";

/// What a session with a merge draws, at most.
pub const DRAWN: [[u8; 16]; 8] = [
    [0x11; 16], [0x12; 16], [0x13; 16], [0x14; 16], [0x15; 16], [0x16; 16], [0x17; 16], [0x18; 16],
];

/// The same of a later one.
pub const DRAWN_LATER: [[u8; 16]; 8] = [
    [0x21; 16], [0x22; 16], [0x23; 16], [0x24; 16], [0x25; 16], [0x26; 16], [0x27; 16], [0x28; 16],
];

/// A host without a file.
pub fn empty_host(alloc: Global) -> MemHost
    ensures { WhereTold (hosted_by result).folder AllIdle }
{
    MemHost::new(alloc)
}

/// The words of a line.
pub fn words_of<R: Abort>(rt: &R, alloc: Global, line: &str) -> Vec<String> {
    let mut list = Vec::new(alloc);
    for word in line.split(' ') {
        let word = String::from_str(alloc, word).expect(rt, "no memory");
        list.push(word).expect(rt, "no memory");
    }
    list
}

/// Identifiers: these, and then 1, 2 and so on.
pub fn ids_of<R: Abort>(rt: &R, alloc: Global, listed: &[[u8; 16]]) -> MemIds {
    let listed = listed.to_vec(alloc).expect(rt, "no memory");
    MemIds::new(listed)
}

/// A source of these bytes, which are read 7 at a time.
pub fn source_of<R: Abort>(rt: &R, alloc: Global, bytes: &[u8]) -> MemSource {
    MemSource {
        bytes: bytes.to_vec(alloc).expect(rt, "no memory"),
        at: 0,
        piece: 7,
        faults: 0,
        calls: Calls::failing(Vec::new(alloc)),
    }
}

/// A sink that takes 1,000 bytes at once.
pub fn sink_of(alloc: Global) -> MemSink {
    MemSink {
        bytes: Vec::new(alloc),
        most: 1_000,
        faults: 0,
        calls: Calls::failing(Vec::new(alloc)),
    }
}

/// Runs the words over the host, with a gate.
pub fn run_words<R: Threads + Wait + Sync, G: Gate + Sync>(
    rt: &R,
    alloc: Global,
    words: &[String],
    input: &mut MemSource,
    host: &mut MemHost,
    ids: &mut MemIds,
    out: &mut MemSink,
    gate: &G,
) -> Status
    requires { WhereTold (hosted_by host.old).folder AllIdle }
    ensures { result ≢ Status.Fault → result ≢ Status.NoMemory → WhereTold (hosted_by host.new).folder AllIdle }
{
    run(rt, alloc, words, host, input, out, ids, gate)
}

/// Runs a line's words over the host, with a script. Gives how it ended and what it printed.
pub fn run_script<R: Abort + Threads + Wait + Sync>(
    rt: &R,
    alloc: Global,
    line: &str,
    script: &str,
    host: &mut MemHost,
    ids: &mut MemIds,
) -> (Status, MemSink)
    requires { WhereTold (hosted_by host.old).folder AllIdle }
    ensures { result.0 ≢ Status.Fault → result.0 ≢ Status.NoMemory → WhereTold (hosted_by host.new).folder AllIdle }
{
    let words = words_of(rt, alloc, line);
    let mut input = source_of(rt, alloc, script.as_bytes());
    let mut out = sink_of(alloc);
    let status = run_words(
        rt, alloc, &words, &mut input, host, ids, &mut out, &IdleGate,
    );
    (status, out)
}

/// Runs a line with a script, which is done. Gives what it printed.
pub fn script_done<R: Abort + Threads + Wait + Sync>(
    rt: &R,
    alloc: Global,
    line: &str,
    script: &str,
    host: &mut MemHost,
    ids: &mut MemIds,
) -> MemSink
    requires { WhereTold (hosted_by host.old).folder AllIdle }
    ensures { WhereTold (hosted_by host.new).folder AllIdle }
{
    let (status, out) = run_script(rt, alloc, line, script, host, ids);
    match status {
        Status::Done => out,
        _ => panic!(rt; "{line} {status:?}"),
    }
}

/// Asks that this is so.
pub fn ask<R: Abort>(rt: &R, is_so: bool, what: &str)
    ensures { IsTrue is_so }
{
    assert!(rt; is_so, "{what}");
}

/// The same of a row or a call of this number.
pub fn ask_at<R: Abort>(rt: &R, is_so: bool, number: u64) {
    assert!(rt; is_so, "{number}");
}

// Puts one more file, of a new name, into the host.
fn add_named<R: Abort>(rt: &R, host: &mut MemHost, name: &Name, bytes: &[u8])
    requires { WhereTold (hosted_by host.old).folder AllIdle }
    ensures { WhereTold (hosted_by host.new).folder AllIdle }
{
    host.put(name, bytes).expect(rt, "no room");
}

/// The same of a name that is a text.
pub fn add<R: Abort>(rt: &R, alloc: Global, host: &mut MemHost, name: &str, bytes: &[u8])
    requires { WhereTold (hosted_by host.old).folder AllIdle }
    ensures { WhereTold (hosted_by host.new).folder AllIdle }
{
    let name = Name::new(alloc, name).expect(rt, "no name");
    add_named(rt, host, &name, bytes);
}

/// Runs lines with their scripts, which are all done.
pub fn prepare<R: Abort + Threads + Wait + Sync>(
    rt: &R,
    alloc: Global,
    lines: &[(&str, &str)],
    host: &mut MemHost,
    ids: &mut MemIds,
)
    requires { WhereTold (hosted_by host.old).folder AllIdle }
    ensures { WhereTold (hosted_by host.new).folder AllIdle }
{
    for (line, script) in lines {
        script_done(rt, alloc, line, script, host, ids);
    }
}

/// What a line with a script prints, which is done.
pub fn printed<R: Abort + Threads + Wait + Sync>(
    rt: &R,
    alloc: Global,
    line: &str,
    script: &str,
    host: &mut MemHost,
) -> MemSink
    requires { WhereTold (hosted_by host.old).folder AllIdle }
    ensures { WhereTold (hosted_by host.new).folder AllIdle }
{
    let mut ids = ids_of(rt, alloc, &[]);
    script_done(rt, alloc, line, script, host, &mut ids)
}

/// Whether this is what was printed.
pub fn says(out: &MemSink, text: &str) -> bool {
    out.bytes.as_slice() == text.as_bytes()
}

/// Asks that this was printed.
pub fn ask_text<R: Abort>(rt: &R, out: &MemSink, text: &str) {
    assert!(rt; says(out, text), "{text}");
}

/// What was printed.
pub fn text_of<'a, R: Abort>(rt: &R, out: &'a MemSink) -> &'a str {
    std::str::from_utf8(out.bytes.as_slice()).expect(rt, "no text")
}

/// A copy of the file of this name; nothing where there is none.
pub fn copy_of<R: Abort>(rt: &R, alloc: Global, host: &MemHost, name: &str) -> Vec<u8> {
    for slot in &host.slots {
        if slot.name.as_bytes() == name.as_bytes()
            && let Some(file) = &slot.file
        {
            return file.now.as_slice().to_vec(alloc).expect(rt, "no memory");
        }
    }
    Vec::new(alloc)
}

/// The lines of a transcript that a guest's calls have.
pub fn lines_of(text: &str, guest: u64) -> u64 {
    let mut lines = 0u64;
    for line in text.lines() {
        let mut words = line.split(' ');
        words.next();
        if words
            .next()
            .is_some_and(|word| word.parse::<u64>() == Ok(guest))
        {
            lines = lines.saturating_add(1);
        }
    }
    lines
}

/// The guest and the number of a line's call.
pub fn caller_of(line: &str) -> Option<(u64, u64)> {
    let mut words = line.split(' ');
    words.next()?;
    let guest = words.next()?.parse::<u64>().ok()?;
    let number = words.next()?.parse::<u64>().ok()?;
    Some((guest, number))
}

/// The line that serves guests beside a merge.
pub fn serve_line<R: Abort>(rt: &R, alloc: Global, workers: u32, name: &str) -> String {
    let line = format!(in alloc; "serve c.vhdx --workers {workers} --merge {name}");
    line.expect(rt, "no memory")
}
