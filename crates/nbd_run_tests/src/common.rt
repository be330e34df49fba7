//! What the tests with a client share.

ghost use Rattle.std.specs.Prelude.{◌≢◌, IsTrue};
ghost use Rattle.link_rules.specs.Folders.{AllIdle};
ghost use Rattle.mem_store.specs.HostTold.{hosted_by};
ghost use Rattle.store_model.specs.Disk.{WhereTold};

use mem_store::{Calls, MemHost, MemIds, MemSink, MemSource};
use std::alloc::Global;
use std::process::Abort;
use std::sync::Wait;
use std::thread::Threads;
use store_model::IdleGate;
use vhdx_app::{Status, run};

/// A disk of 1 GB, in blocks of 1 MB.
pub const DISK: &[(&str, &str)] = &[("make dynamic d.vhdx --sectors 2097152 --block 1", "")];

/// What a session draws, at most.
pub const DRAWN: [[u8; 16]; 8] = [
    [0x11; 16], [0x12; 16], [0x13; 16], [0x14; 16], [0x15; 16], [0x16; 16], [0x17; 16], [0x18; 16],
];

// A host without a file.
fn empty_host(alloc: Global) -> MemHost
    ensures { WhereTold (hosted_by result).folder AllIdle }
{
    MemHost::new(alloc)
}

// The words of a line.
fn words_of<R: Abort>(rt: &R, alloc: Global, line: &str) -> Vec<String> {
    let mut list = Vec::new(alloc);
    for word in line.split(' ') {
        let word = String::from_str(alloc, word).expect(rt, "no memory");
        list.push(word).expect(rt, "no memory");
    }
    list
}

// Identifiers: these, and then 1, 2 and so on.
fn ids_of<R: Abort>(rt: &R, alloc: Global, listed: &[[u8; 16]]) -> MemIds {
    let listed = listed.to_vec(alloc).expect(rt, "no memory");
    MemIds::new(listed)
}

/// A source of these bytes, which are read so many at a time; 0 for as many as are asked for.
pub fn source_of(alloc: Global, bytes: Vec<u8>, piece: usize) -> MemSource {
    MemSource {
        bytes,
        at: 0,
        piece: if piece == 0 { usize::MAX } else { piece },
        faults: 0,
        calls: Calls::failing(Vec::new(alloc)),
    }
}

/// A sink that takes 1,000 bytes at once.
pub fn sink_of(alloc: Global) -> MemSink {
    MemSink {
        bytes: Vec::new(alloc),
        most: 1_000,
        faults: 0,
        calls: Calls::failing(Vec::new(alloc)),
    }
}

// Runs the words over the host.
fn run_words<R: Threads + Wait + Sync>(
    rt: &R,
    alloc: Global,
    words: &[String],
    input: &mut MemSource,
    host: &mut MemHost,
    ids: &mut MemIds,
    out: &mut MemSink,
) -> Status
    requires { WhereTold (hosted_by host.old).folder AllIdle }
    ensures { result ≢ Status.Fault → result ≢ Status.NoMemory → WhereTold (hosted_by host.new).folder AllIdle }
{
    run(rt, alloc, words, host, input, out, ids, &IdleGate)
}

/// Runs a line's words over the host, and tells how it ended.
pub fn run_line<R: Abort + Threads + Wait + Sync>(
    rt: &R,
    alloc: Global,
    line: &str,
    input: &mut MemSource,
    host: &mut MemHost,
    out: &mut MemSink,
) -> Status
    requires { WhereTold (hosted_by host.old).folder AllIdle }
    ensures { result ≢ Status.Fault → result ≢ Status.NoMemory → WhereTold (hosted_by host.new).folder AllIdle }
{
    let words = words_of(rt, alloc, line);
    let mut ids = ids_of(rt, alloc, &DRAWN);
    run_words(rt, alloc, &words, input, host, &mut ids, out)
}

// Runs a line's words over the host, with identifiers, and tells how it ended and what it printed.
fn run_script<R: Abort + Threads + Wait + Sync>(
    rt: &R,
    alloc: Global,
    line: &str,
    script: &str,
    host: &mut MemHost,
    ids: &mut MemIds,
) -> (Status, MemSink)
    requires { WhereTold (hosted_by host.old).folder AllIdle }
    ensures { result.0 ≢ Status.Fault → result.0 ≢ Status.NoMemory → WhereTold (hosted_by host.new).folder AllIdle }
{
    let words = words_of(rt, alloc, line);
    let script = script.as_bytes().to_vec(alloc).expect(rt, "no memory");
    let mut input = source_of(alloc, script, 7);
    let mut out = sink_of(alloc);
    let status = run_words(rt, alloc, &words, &mut input, host, ids, &mut out);
    (status, out)
}

// Runs a line with a script, which is done. Gives what it printed.
fn script_done<R: Abort + Threads + Wait + Sync>(
    rt: &R,
    alloc: Global,
    line: &str,
    script: &str,
    host: &mut MemHost,
    ids: &mut MemIds,
) -> MemSink
    requires { WhereTold (hosted_by host.old).folder AllIdle }
    ensures { WhereTold (hosted_by host.new).folder AllIdle }
{
    let (status, out) = run_script(rt, alloc, line, script, host, ids);
    match status {
        Status::Done => out,
        _ => panic!(rt; "{line} {status:?}"),
    }
}

// Runs lines with their scripts, which are all done.
fn prepare<R: Abort + Threads + Wait + Sync>(
    rt: &R,
    alloc: Global,
    lines: &[(&str, &str)],
    host: &mut MemHost,
    ids: &mut MemIds,
)
    requires { WhereTold (hosted_by host.old).folder AllIdle }
    ensures { WhereTold (hosted_by host.new).folder AllIdle }
{
    for (line, script) in lines {
        script_done(rt, alloc, line, script, host, ids);
    }
}

/// A host of what these lines make.
pub fn made<R: Abort + Threads + Wait + Sync>(
    rt: &R,
    alloc: Global,
    lines: &[(&str, &str)],
) -> MemHost
    ensures { WhereTold (hosted_by result).folder AllIdle }
{
    let mut host = empty_host(alloc);
    let mut ids = ids_of(rt, alloc, &[]);
    prepare(rt, alloc, lines, &mut host, &mut ids);
    host
}

/// What a line prints, which is done.
pub fn printed<R: Abort + Threads + Wait + Sync>(
    rt: &R,
    alloc: Global,
    line: &str,
    host: &mut MemHost,
) -> MemSink
    requires { WhereTold (hosted_by host.old).folder AllIdle }
    ensures { WhereTold (hosted_by host.new).folder AllIdle }
{
    let mut ids = ids_of(rt, alloc, &[]);
    script_done(rt, alloc, line, "", host, &mut ids)
}

/// Runs a line with a client, whose bytes come so many at a time, and who ends the connection. Gives what it was sent.
pub fn client_done<R: Abort + Threads + Wait + Sync>(
    rt: &R,
    alloc: Global,
    line: &str,
    client: Vec<u8>,
    piece: usize,
    host: &mut MemHost,
) -> MemSink
    requires { WhereTold (hosted_by host.old).folder AllIdle }
    ensures { WhereTold (hosted_by host.new).folder AllIdle }
{
    let mut input = source_of(alloc, client, piece);
    let mut out = sink_of(alloc);
    let status = run_line(rt, alloc, line, &mut input, host, &mut out);
    match status {
        Status::Done => out,
        _ => panic!(rt; "{line} {status:?}"),
    }
}

/// The same where the run is refused, before a client is served or since it breaks the protocol; what is told names it. Gives what it was sent.
pub fn client_refused<R: Abort + Threads + Wait + Sync>(
    rt: &R,
    alloc: Global,
    line: &str,
    what: &str,
    input: &mut MemSource,
    host: &mut MemHost,
) -> MemSink
    requires { WhereTold (hosted_by host.old).folder AllIdle }
    ensures { WhereTold (hosted_by host.new).folder AllIdle }
{
    let mut out = sink_of(alloc);
    let status = run_line(rt, alloc, line, input, host, &mut out);
    match status {
        Status::Refused => out,
        _ => panic!(rt; "{what} {status:?}"),
    }
}

/// Asks that this is so.
pub fn ask<R: Abort>(rt: &R, is_so: bool, what: &str)
    ensures { IsTrue is_so }
{
    assert!(rt; is_so, "{what}");
}

/// Asks that these bytes were sent, and no others.
pub fn ask_sent<R: Abort>(rt: &R, out: &MemSink, wanted: &[u8], what: &str) {
    let found = out.bytes.len();
    let most = wanted.len();
    assert!(rt;
        out.bytes.as_slice() == wanted,
        "{what}: {found} bytes are not the {most} that are wanted"
    );
}

/// What was printed.
pub fn text_of<'a, R: Abort>(rt: &R, out: &'a MemSink) -> &'a str {
    std::str::from_utf8(out.bytes.as_slice()).expect(rt, "no text")
}

// Adds a sector with this byte alone, as a dump shows it.
fn put_sector<R: Abort>(rt: &R, alloc: Global, text: &mut String, sector: u64, byte: u8) {
    let place = format!(in alloc; "{sector} ").expect(rt, "no memory");
    text.push_str(&place).expect(rt, "no memory");
    let digits = format!(in alloc; "{byte:02x}").expect(rt, "no memory");
    for _ in 0..512 {
        text.push_str(&digits).expect(rt, "no memory");
    }
    text.push_str("\n").expect(rt, "no memory");
}

/// Asks that the sectors of the disk of a leaf from the first on hold these bytes, each one alone, as a dump shows them.
pub fn ask_sectors<R: Abort + Threads + Wait + Sync>(
    rt: &R,
    alloc: Global,
    leaf: &str,
    first: u64,
    bytes: &[u8],
    host: &mut MemHost,
)
    requires { WhereTold (hosted_by host.old).folder AllIdle }
    ensures { WhereTold (hosted_by host.new).folder AllIdle }
{
    let count = bytes.len();
    let dump = format!(in alloc; "dump {leaf} {first} {count}").expect(rt, "no memory");
    let out = printed(rt, alloc, &dump, host);
    let mut wanted = String::new(alloc);
    let mut sector = first;
    for byte in bytes {
        put_sector(rt, alloc, &mut wanted, sector, *byte);
        sector = sector.wrapping_add(1);
    }
    let found = text_of(rt, &out);
    assert!(rt;
        found == wanted.as_str(),
        "another disk from {first} on: {found}"
    );
}
