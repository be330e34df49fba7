//! Streams and readers in memory, whose listed calls fail and no other, and stores that come back.

use crate::asking::{are_bytes, ask, done, name_of};
use mem_file::Pick;
use mem_store::{Calls, Crash, MemHost, MemIds, MemReader, MemSink, MemSource, MemStore, Slot};
use std::alloc::Global;
use std::process::Abort;
use store_model::{Ids, Reader, Sink, Source};

// Calls of which this one fails.
fn failing<R: Abort>(rt: &R, alloc: Global, call: u64) -> Calls {
    Calls::failing(done(rt, [call].to_vec(alloc)))
}

// How many bytes each of three reads gives, if it doesn't fail.
static READS: [Option<usize>; 3] = [Some(2), None, Some(2)];

#[test]
fn listed_reads_fail(rt: HostRuntime) {
    let mut source = MemSource {
        bytes: done(&rt, b"abcde".to_vec(rt.alloc())),
        at: 0,
        piece: 2,
        faults: 0,
        calls: failing(&rt, rt.alloc(), 2),
    };
    let mut out = [0; 4];
    for (row, wanted) in READS.iter().enumerate() {
        ask(&rt, row, source.read(&mut out).ok() == *wanted);
    }
    ask(&rt, 3, out == *b"cd\0\0");
}

// How many bytes each of two writes takes, if it doesn't fail.
static WRITES: [Option<usize>; 2] = [None, Some(3)];

#[test]
fn listed_writes_fail(rt: HostRuntime) {
    let mut sink = MemSink {
        bytes: Vec::new(rt.alloc()),
        most: 3,
        faults: 0,
        calls: failing(&rt, rt.alloc(), 1),
    };
    for (row, wanted) in WRITES.iter().enumerate() {
        ask(&rt, row, sink.write(b"abcd").ok() == *wanted);
    }
    ask(&rt, 2, are_bytes(&sink.bytes, b"abc"));
}

// What each of three reads of a sealed file gives, if it doesn't fail.
static SEALED: [Option<[u8; 2]>; 3] = [Some(*b"bc"), None, Some(*b"bc")];

// Two bytes of the sealed file, the second and the third.
fn read(reader: &mut MemReader) -> Option<[u8; 2]> {
    let mut out = [0; 2];
    if reader.bytes.len() < 3 || reader.read_at(1, &mut out).is_err() {
        return None;
    }
    Some(out)
}

#[test]
fn a_listed_read_of_a_reader_fails(rt: HostRuntime) {
    let mut reader = MemReader {
        file: 0,
        bytes: done(&rt, b"abcd".to_vec(rt.alloc())),
        failed: 0,
        reads: 0,
        failing: Some(2),
    };
    for (row, wanted) in SEALED.iter().enumerate() {
        ask(&rt, row, read(&mut reader) == *wanted);
    }
    ask(&rt, 3, reader.failed == 1);
}

#[test]
fn listed_identifiers_come_first(rt: HostRuntime) {
    let mut ids = MemIds::new(done(&rt, [[7; 16]].to_vec(rt.alloc())));
    ask(&rt, 1, ids.draw() == [7; 16]);
    ask(&rt, 2, ids.draw()[15] == 1);
}

// Puts one file into the host, which is to keep the stores that come back, and a crash of the first of them.
fn keep_all<R: Abort>(rt: &R, alloc: Global, host: &mut MemHost) {
    let name = name_of(rt, alloc, "b");
    done(rt, host.put(&name, &[7]));
    host.crash = Some(Crash {
        store: 0,
        moment: 0,
        pick: Pick::Everything,
    });
    host.keep_returned();
}

// A store without a file.
fn empty_store(alloc: Global) -> MemStore {
    MemStore {
        alloc,
        files: Vec::new(alloc),
        order: Vec::new(alloc),
        calls: Calls::failing(Vec::new(alloc)),
        tears: false,
        failing_reader: None,
    }
}

fn has_seven(slot: &Slot) -> bool {
    match &slot.file {
        Some(file) => are_bytes(&file.now, &[7]),
        None => false,
    }
}

// Whether a host was left that has one file alone, of a single byte 7.
fn is_left(host: &Option<MemHost>) -> bool {
    match host {
        Some(host) => host.slots.len() == 1 && has_seven(&host.slots[0]),
        None => false,
    }
}

// How many stores were kept.
fn kept(host: &MemHost) -> usize {
    match &host.past {
        Some(past) => past.len(),
        None => 0,
    }
}

#[test]
fn a_store_that_comes_back_is_kept(rt: HostRuntime) {
    let mut host = MemHost::new(rt.alloc());
    keep_all(&rt, rt.alloc(), &mut host);
    let store = empty_store(rt.alloc());
    host.keep_past(&store);
    host.keep_crash(&store);
    ask(&rt, 1, kept(&host) == 1);
    drop(store);
    let left = host.take_crashed();
    ask(&rt, 2, is_left(&left));
    drop(left);
    drop(host);
}
