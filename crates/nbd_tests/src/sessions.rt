//! Whole sessions.

use crate::asking::{are_bytes, ask, done};
use crate::disk::{FakeDisk, Made};
use crate::told::ToldDisk;
use crate::waiting::{Client, Counted, Turn};
use crate::wire::{put, put_many, put_option, put_request, put_start};
use disk_calls::DiskCalls;
use guest_model::{ChainRefusal, Recorder};
use mem_store::{Calls, MemSink, MemSource};
use nbd_front::{NbdRefusal, Room, Served, serve};
use std::alloc::Global;
use std::cell::Cell;
use std::process::Abort;
use store_model::{Sink, Source};
use vx_base::Name;

// A disk of 1 GiB, of which the first so many bytes are kept; the call of this number, from 0 on, is refused.
fn new_disk<R: Abort>(
    rt: &R,
    alloc: Global,
    kept: usize,
    refused: usize,
    refusal: ChainRefusal,
) -> FakeDisk {
    FakeDisk {
        bytes: done(rt, vec![in alloc; 0u8; kept]),
        is_large: false,
        sectors: 2_097_152,
        made: Vec::new(alloc),
        refused,
        refusal,
    }
}

// A client's bytes in pieces, 0 for whole.
fn new_source(alloc: Global, bytes: Vec<u8>, piece: usize) -> MemSource {
    MemSource {
        bytes,
        at: 0,
        piece: if piece == 0 { usize::MAX } else { piece },
        faults: 0,
        calls: Calls::failing(Vec::new(alloc)),
    }
}

fn new_sink(alloc: Global) -> MemSink {
    MemSink {
        bytes: Vec::new(alloc),
        most: usize::MAX,
        faults: 0,
        calls: Calls::failing(Vec::new(alloc)),
    }
}

// Serves a disk by its name.
fn serve_named<R: Abort, D: DiskCalls, S: Source, K: Sink>(
    rt: &R,
    alloc: Global,
    disk: &mut D,
    source: &mut S,
    sink: &mut K,
) -> Served {
    let room = done(rt, Room::new(alloc));
    let name = done(rt, Name::new(alloc, "d.vhdx"));
    serve(room, name, false, disk, source, sink)
}

// Serves the client's bytes, which come in pieces.
fn serve_bytes<R: Abort>(
    rt: &R,
    alloc: Global,
    disk: &mut FakeDisk,
    bytes: Vec<u8>,
    piece: usize,
    sink: &mut MemSink,
) -> Served {
    let mut source = new_source(alloc, bytes, piece);
    serve_named(rt, alloc, disk, &mut source, sink)
}

// The 616 bytes of a client that writes a sector, reads it and disconnects; before it names the export it may ask for option 7.
fn write_and_read<R: Abort>(rt: &R, alloc: Global, asks: bool) -> Vec<u8> {
    let mut client = Vec::new(alloc);
    put(rt, &mut client, &[0, 0, 0, 3]);
    if asks {
        put_option(rt, &mut client, 7, 0);
    }
    put_option(rt, &mut client, 1, 0);
    put_request(rt, &mut client, 0, 1, 0, 512);
    put_many(rt, &mut client, 0xaa, 512);
    put_request(rt, &mut client, 0, 0, 0, 512);
    put_request(rt, &mut client, 0, 2, 0, 0);
    client
}

// The 572 bytes that it is sent, and the 20 for option 7.
fn wanted<R: Abort>(rt: &R, alloc: Global, asks: bool) -> Vec<u8> {
    let mut out = Vec::new(alloc);
    put(rt, &mut out, b"NBDMAGICIHAVEOPT\x00\x03");
    if asks {
        put(
            rt,
            &mut out,
            &[
                0x00, 0x03, 0xE8, 0x89, 0x04, 0x55, 0x65, 0xA9, 0, 0, 0, 7, 0x80, 0, 0, 1, 0, 0, 0,
                0,
            ],
        );
    }
    put(rt, &mut out, &[0, 0, 0, 0, 0x40, 0, 0, 0, 0, 0x2D]);
    put(rt, &mut out, b"\x67\x44\x66\x98\x00\x00\x00\x00cookie!!");
    put(rt, &mut out, b"\x67\x44\x66\x98\x00\x00\x00\x00cookie!!");
    put_many(rt, &mut out, 0xaa, 512);
    out
}

// A row: the bytes that come together (0 for all), and whether option 7 is asked for.
static ROWS: [(usize, bool); 4] = [(0, false), (1, false), (0, true), (1, true)];

#[test]
fn a_sector_is_written_and_read(rt: HostRuntime) {
    for (row, (piece, asks)) in ROWS.iter().enumerate() {
        let client = write_and_read(&rt, rt.alloc(), *asks);
        ask(&rt, row, client.len() == if *asks { 632 } else { 616 });
        let mut disk = new_disk(&rt, rt.alloc(), 4096, usize::MAX, ChainRefusal::NoRoom);
        let mut sink = new_sink(rt.alloc());
        let served = serve_bytes(&rt, rt.alloc(), &mut disk, client, *piece, &mut sink);
        ask(&rt, row, served.end.is_ok() && !served.fault);
        ask(&rt, row, sink.bytes.len() == if *asks { 592 } else { 572 });
        ask(
            &rt,
            row,
            are_bytes(&sink.bytes, &wanted(&rt, rt.alloc(), *asks)),
        );
        ask(
            &rt,
            row,
            disk.made.as_slice() == [Made::Write(0, 1), Made::Read(0, 1)].as_slice(),
        );
    }
}

// How a session ended: 0, or the number of its refusal, with its place.
fn end_of(served: &Served) -> (u8, u64) {
    match served.end {
        Ok(()) => (0, 0),
        Err(NbdRefusal::Cut { at }) => (53, at),
        Err(NbdRefusal::Magic { at }) => (54, at),
        Err(NbdRefusal::OtherName) => (55, 0),
        Err(NbdRefusal::TooLong { at }) => (56, at),
        Err(NbdRefusal::OtherFlags) => (57, 0),
        Err(NbdRefusal::Source(fault)) => (1, fault.count),
        Err(NbdRefusal::Sink(fault)) => (2, fault.count),
        Err(NbdRefusal::Spent) => (3, 0),
    }
}

// A client's bytes, how the session ends, and how many bytes were sent.
struct End {
    client: &'static [u8],
    end: (u8, u64),
    sent: usize,
}

static ENDS: [End; 14] = [
    End {
        client: b"",
        end: (53, 0),
        sent: 18,
    },
    End {
        client: b"\0\0\0",
        end: (53, 3),
        sent: 18,
    },
    End {
        client: b"\0\0\0\x04",
        end: (57, 0),
        sent: 18,
    },
    End {
        client: b"\0\0\0\x03IHAVE",
        end: (53, 9),
        sent: 18,
    },
    End {
        client: b"\0\0\0\x03IHAVEOPX",
        end: (54, 4),
        sent: 18,
    },
    End {
        client: b"\0\0\0\x03IHAVEOPT\0\0\0\x07\0\x01\0\x01",
        end: (56, 16),
        sent: 18,
    },
    End {
        client: b"\0\0\0\x03IHAVEOPT\0\0\0\x07\0\0\0\x02x",
        end: (53, 21),
        sent: 18,
    },
    End {
        client: b"\0\0\0\x03IHAVEOPT\0\0\0\x01\0\0\0\x01x",
        end: (55, 0),
        sent: 18,
    },
    End {
        client: b"\0\0\0\x03IHAVEOPT\0\0\0\x01\0\0\0\x06d.vhdx",
        end: (53, 26),
        sent: 28,
    },
    End {
        client: b"\0\0\0\x01IHAVEOPT\0\0\0\x01\0\0\0\0",
        end: (53, 20),
        sent: 152,
    },
    End {
        client: b"\0\0\0\x03IHAVEOPT\0\0\0\x02\0\0\0\0more",
        end: (0, 0),
        sent: 38,
    },
    End {
        client: b"\0\0\0\x03IHAVEOPT\0\0\0\x01\0\0\0\0\x25\x60\x95\x12",
        end: (54, 20),
        sent: 28,
    },
    End {
        client: b"\0\0\0\x03IHAVEOPT\0\0\0\x01\0\0\0\0\x25\x60\x95\x13\0\0\0\x01cookie!!\0\0\0\0\0\0\0\0\x02\0\0\x01",
        end: (56, 44),
        sent: 28,
    },
    End {
        client: b"\0\0\0\x03IHAVEOPT\0\0\0\x01\0\0\0\0\x25\x60\x95\x13\0\0\0\x01cookie!!\0\0\0\0\0\0\0\0\0\0\x02\0abc",
        end: (53, 51),
        sent: 28,
    },
];

// How many bytes come together, 0 for all.
static PIECES: [usize; 3] = [0, 1, 5];

#[test]
fn sessions_end(rt: HostRuntime) {
    for (row, wanted) in ENDS.iter().enumerate() {
        for piece in &PIECES {
            let client = done(&rt, wanted.client.to_vec(rt.alloc()));
            let mut disk = new_disk(&rt, rt.alloc(), 0, usize::MAX, ChainRefusal::NoRoom);
            let mut sink = new_sink(rt.alloc());
            let served = serve_bytes(&rt, rt.alloc(), &mut disk, client, *piece, &mut sink);
            ask(&rt, row, end_of(&served) == wanted.end);
            ask(&rt, row, sink.bytes.len() == wanted.sent);
            ask(&rt, row, disk.made.is_empty());
        }
    }
}

// The calls of a write and a read of 3 MB, a forced trim of 600 MB and a forced write of a sector.
static CALLS: [Made; 11] = [
    Made::Write(0, 2048),
    Made::Write(2048, 2048),
    Made::Write(4096, 2048),
    Made::Read(0, 2048),
    Made::Read(2048, 2048),
    Made::Read(4096, 2048),
    Made::Trim(0, 524_288),
    Made::Trim(524_288, 524_288),
    Made::Trim(1_048_576, 180_224),
    Made::Flush,
    Made::Through(1, 1),
];

const MIB: u32 = 1_048_576;

#[test]
fn requests_are_cut_into_pieces(rt: HostRuntime) {
    let mut client = Vec::new(rt.alloc());
    put_start(&rt, &mut client);
    put_request(&rt, &mut client, 0, 1, 0, 3 * MIB);
    for byte in 1..4 {
        put_many(&rt, &mut client, byte, 1_048_576);
    }
    put_request(&rt, &mut client, 0, 0, 0, 3 * MIB);
    put_request(&rt, &mut client, 1, 4, 0, 600 * MIB);
    put_request(&rt, &mut client, 1, 1, 512, 512);
    put_many(&rt, &mut client, 9, 512);
    put_request(&rt, &mut client, 0, 2, 0, 0);
    let mut disk = new_disk(&rt, rt.alloc(), 3_145_728, usize::MAX, ChainRefusal::NoRoom);
    let mut sink = new_sink(rt.alloc());
    let served = serve_bytes(&rt, rt.alloc(), &mut disk, client, 70_000, &mut sink);
    ask(
        &rt,
        0,
        end_of(&served) == (0, 0) && !served.fault && !served.no_room,
    );
    ask(&rt, 1, disk.made.as_slice() == CALLS.as_slice());
    ask(
        &rt,
        2,
        sink.bytes.len() == 28 + 16 + 16 + 3_145_728 + 16 + 16,
    );
    ask(
        &rt,
        3,
        sink.bytes.get(60) == Some(&1) && sink.bytes.get(60 + 2_097_152) == Some(&3),
    );
    ask(
        &rt,
        4,
        disk.bytes.get(511) == Some(&1) && disk.bytes.get(512) == Some(&9),
    );
}

// A write of 3 MB whose data end after 2.5 MB: two pieces were written.
#[test]
fn whole_pieces_of_a_cut_write_are_written(rt: HostRuntime) {
    let mut client = Vec::new(rt.alloc());
    put_start(&rt, &mut client);
    put_request(&rt, &mut client, 0, 1, 0, 3 * MIB);
    put_many(&rt, &mut client, 7, 2_621_440);
    let mut disk = new_disk(&rt, rt.alloc(), 0, usize::MAX, ChainRefusal::NoRoom);
    let mut sink = new_sink(rt.alloc());
    let served = serve_bytes(&rt, rt.alloc(), &mut disk, client, 0, &mut sink);
    ask(&rt, 0, end_of(&served) == (53, 20 + 28 + 2_621_440));
    ask(
        &rt,
        1,
        disk.made.as_slice() == [Made::Write(0, 2048), Made::Write(2048, 2048)].as_slice(),
    );
    ask(&rt, 2, sink.bytes.len() == 28);
}

// The error of a reply that stands at the end of what was sent, without data.
fn error_sent(sent: &[u8]) -> Option<u8> {
    match sent {
        [
            front @ ..,
            0x67,
            0x44,
            0x66,
            0x98,
            0,
            0,
            0,
            error,
            b'c',
            b'o',
            b'o',
            b'k',
            b'i',
            b'e',
            b'!',
            b'!',
        ] if front.len() == 28 => { Some(*error) }
        _ => None,
    }
}

// A refusal of a read's second piece, its error, and whether it is told as a fault, or as want of memory.
static REFUSALS: [(ChainRefusal, u8, bool, bool); 7] = [
    (ChainRefusal::ReadOnly, 1, false, false),
    (ChainRefusal::Broken { file: 0, count: 1 }, 5, true, false),
    (ChainRefusal::Spent { t: 9 }, 108, false, false),
    (ChainRefusal::FileFull { next: 9 }, 28, false, false),
    (
        ChainRefusal::ReadFault { file: 1, count: 1 },
        5,
        true,
        false,
    ),
    (ChainRefusal::NoRoom, 12, false, true),
    (ChainRefusal::EmptyRange, 22, false, false),
];

#[test]
fn refusals_have_errors(rt: HostRuntime) {
    for (row, (refusal, error, fault, no_room)) in REFUSALS.iter().enumerate() {
        let mut client = Vec::new(rt.alloc());
        put_start(&rt, &mut client);
        put_request(&rt, &mut client, 0, 0, 0, 3 * MIB);
        put_request(&rt, &mut client, 0, 2, 0, 0);
        let mut disk = new_disk(&rt, rt.alloc(), 0, 1, *refusal);
        let mut sink = new_sink(rt.alloc());
        let served = serve_bytes(&rt, rt.alloc(), &mut disk, client, 0, &mut sink);
        ask(
            &rt,
            row,
            served.end.is_ok() && served.fault == *fault && served.no_room == *no_room,
        );
        ask(&rt, row, error_sent(&sink.bytes) == Some(*error));
        ask(
            &rt,
            row,
            disk.made.as_slice() == [Made::Read(0, 2048), Made::Read(2048, 2048)].as_slice(),
        );
    }
}

// A request by its flags, kind, offset and length, and its error; none makes a call, but the last.
static REQUESTS: [(u8, u8, u64, u32, u8); 12] = [
    (0, 9, 0, 0, 22),
    (2, 0, 0, 512, 22),
    (0, 0, 0, 33_554_944, 22),
    (0, 0, 1, 512, 22),
    (0, 0, 0, 511, 22),
    (0, 0, 1_073_741_824, 512, 22),
    (0, 0, u64::MAX - 511, 512, 22),
    (0, 4, 1_073_741_312, 1024, 22),
    (0, 0, 0, 0, 0),
    (1, 4, 512, 0, 0),
    (0, 1, 0, 0, 0),
    (1, 3, 7, 0, 0),
];

#[test]
fn requests_are_judged(rt: HostRuntime) {
    for (row, (flags, kind, offset, len, error)) in REQUESTS.iter().enumerate() {
        let mut client = Vec::new(rt.alloc());
        put_start(&rt, &mut client);
        put_request(&rt, &mut client, *flags, *kind, *offset, *len);
        put_request(&rt, &mut client, 0, 2, 0, 0);
        let mut disk = new_disk(&rt, rt.alloc(), 0, usize::MAX, ChainRefusal::NoRoom);
        let mut sink = new_sink(rt.alloc());
        let served = serve_bytes(&rt, rt.alloc(), &mut disk, client, 0, &mut sink);
        ask(&rt, row, served.end.is_ok());
        ask(&rt, row, error_sent(&sink.bytes) == Some(*error));
        ask(&rt, row, disk.made.len() == if row == 11 { 1 } else { 0 });
    }
}

// A write past the end is refused as want of space, and its data are read away.
#[test]
fn a_refused_write_is_read_away(rt: HostRuntime) {
    let mut client = Vec::new(rt.alloc());
    put_start(&rt, &mut client);
    put_request(&rt, &mut client, 0, 1, 1_073_741_824, 512);
    put_many(&rt, &mut client, 7, 512);
    put_request(&rt, &mut client, 0, 2, 0, 0);
    let mut disk = new_disk(&rt, rt.alloc(), 0, usize::MAX, ChainRefusal::NoRoom);
    let mut sink = new_sink(rt.alloc());
    let served = serve_bytes(&rt, rt.alloc(), &mut disk, client, 0, &mut sink);
    ask(&rt, 0, served.end.is_ok());
    ask(&rt, 1, error_sent(&sink.bytes) == Some(28));
    ask(&rt, 2, disk.made.is_empty());
}

// A read or a write of the stream fails: of a source that gives 5 bytes at once, and of a sink that takes 5.
#[test]
fn streams_fail(rt: HostRuntime) {
    let whole = wanted(&rt, rt.alloc(), true);
    let mut disk = new_disk(&rt, rt.alloc(), 4096, usize::MAX, ChainRefusal::NoRoom);
    let mut source = new_source(rt.alloc(), write_and_read(&rt, rt.alloc(), true), 5);
    source.calls = Calls::failing(done(&rt, [9].to_vec(rt.alloc())));
    let mut sink = new_sink(rt.alloc());
    let served = serve_named(&rt, rt.alloc(), &mut disk, &mut source, &mut sink);
    ask(&rt, 0, end_of(&served) == (1, 1));
    ask(&rt, 1, sink.bytes.len() == 38 + 10);
    let mut disk = new_disk(&rt, rt.alloc(), 4096, usize::MAX, ChainRefusal::NoRoom);
    let mut source = new_source(rt.alloc(), write_and_read(&rt, rt.alloc(), true), 5);
    let mut sink = new_sink(rt.alloc());
    sink.most = 5;
    sink.calls = Calls::failing(done(&rt, [20].to_vec(rt.alloc())));
    let served = serve_named(&rt, rt.alloc(), &mut disk, &mut source, &mut sink);
    ask(&rt, 2, end_of(&served) == (2, 1));
    ask(
        &rt,
        3,
        whole.starts_with(&sink.bytes) && sink.bytes.len() < whole.len(),
    );
}

// What a client asks of a disk that tells its history, in order: a forced write of 2 MB, a read across its beginning, a forced trim of a
// sector, and a read of that.
fn write_and_trim<R: Abort>(rt: &R, alloc: Global) -> Vec<u8> {
    let mut client = Vec::new(alloc);
    put_start(rt, &mut client);
    put_request(rt, &mut client, 1, 1, 4096, 2 * MIB);
    put_many(rt, &mut client, 5, 2_097_152);
    put_request(rt, &mut client, 0, 0, 3584, 1024);
    put_request(rt, &mut client, 1, 4, 4096, 512);
    put_request(rt, &mut client, 0, 0, 4096, 512);
    put_request(rt, &mut client, 0, 2, 0, 0);
    client
}

// The disk that tells its history keeps the promise of one, and answers reads.
#[test]
fn calls_stand_in_the_history(rt: HostRuntime) {
    let mut disk = done(&rt, ToldDisk::new(rt.alloc(), 8192));
    let mut source = new_source(rt.alloc(), write_and_trim(&rt, rt.alloc()), 0);
    let mut sink = new_sink(rt.alloc());
    let served = serve_named(&rt, rt.alloc(), &mut disk, &mut source, &mut sink);
    ask(
        &rt,
        0,
        served.end.is_ok() && !served.fault && !served.no_room,
    );
    ask(&rt, 1, disk.history.len() == 8);
    ask(
        &rt,
        2,
        sink.bytes.len() == 28 + 16 + 16 + 1024 + 16 + 16 + 512,
    );
    ask(
        &rt,
        3,
        sink.bytes.get(60 + 511) == Some(&0) && sink.bytes.get(60 + 512) == Some(&5),
    );
    ask(&rt, 4, sink.bytes.get(60 + 1024 + 32) == Some(&0));
}

// A request past the end of the disk that tells its history makes no call.
#[test]
fn no_call_stands_in_the_history(rt: HostRuntime) {
    let mut client = Vec::new(rt.alloc());
    put_start(&rt, &mut client);
    put_request(&rt, &mut client, 0, 0, 4_194_304, 512);
    put_request(&rt, &mut client, 0, 2, 0, 0);
    let mut disk = done(&rt, ToldDisk::new(rt.alloc(), 8192));
    let mut source = new_source(rt.alloc(), client, 1);
    let mut sink = new_sink(rt.alloc());
    let served = serve_named(&rt, rt.alloc(), &mut disk, &mut source, &mut sink);
    ask(&rt, 0, served.end.is_ok());
    ask(&rt, 1, error_sent(&sink.bytes) == Some(22));
    ask(&rt, 2, disk.history.len() == 0);
}

// What a client asks that waits for each answer: it names the export, flushes, reads a sector and disconnects.
static TURNS: [Turn; 5] = [
    Turn {
        bytes: b"\0\0\0\x03",
        sent: 18,
    },
    Turn {
        bytes: b"IHAVEOPT\0\0\0\x01\0\0\0\0",
        sent: 18,
    },
    Turn {
        bytes: b"\x25\x60\x95\x13\0\0\0\x03cookie!!\0\0\0\0\0\0\0\0\0\0\0\0",
        sent: 28,
    },
    Turn {
        bytes: b"\x25\x60\x95\x13\0\0\0\0cookie!!\0\0\0\0\0\0\0\0\0\0\x02\0",
        sent: 44,
    },
    Turn {
        bytes: b"\x25\x60\x95\x13\0\0\0\x02cookie!!\0\0\0\0\0\0\0\0\0\0\0\0",
        sent: 572,
    },
];

// No clause says when an answer is sent. A front that asked for more before it answered would end by 53 here.
#[test]
fn a_client_may_wait_for_each_answer(rt: HostRuntime) {
    let sent = Cell::new(0);
    let mut disk = new_disk(&rt, rt.alloc(), 0, usize::MAX, ChainRefusal::NoRoom);
    let mut source = Client {
        turns: &TURNS,
        next: 0,
        sent: &sent,
    };
    let mut sink = Counted { sent: &sent };
    let served = serve_named(&rt, rt.alloc(), &mut disk, &mut source, &mut sink);
    ask(&rt, 0, end_of(&served) == (0, 0));
    ask(
        &rt,
        1,
        disk.made.as_slice() == [Made::Flush, Made::Read(0, 1)].as_slice(),
    );
}

// The longest read that is allowed makes 32 calls, and all its bytes follow the head of its reply.
#[test]
fn the_longest_read_is_answered(rt: HostRuntime) {
    let mut client = Vec::new(rt.alloc());
    put_start(&rt, &mut client);
    put_request(&rt, &mut client, 0, 0, 512, 32 * MIB);
    put_request(&rt, &mut client, 0, 2, 0, 0);
    let mut disk = new_disk(&rt, rt.alloc(), 0, usize::MAX, ChainRefusal::NoRoom);
    let mut sink = new_sink(rt.alloc());
    let served = serve_bytes(&rt, rt.alloc(), &mut disk, client, 0, &mut sink);
    ask(&rt, 0, end_of(&served) == (0, 0));
    ask(&rt, 1, sink.bytes.len() == 28 + 16 + 33_554_432);
    ask(&rt, 2, disk.made.len() == 32);
    ask(&rt, 3, disk.made.last() == Some(&Made::Read(63_489, 2048)));
}

// A disk of sectors of 4,096 bytes: what isn't whole sectors is refused, and calls count in these.
#[test]
fn large_sectors_are_counted(rt: HostRuntime) {
    let mut client = Vec::new(rt.alloc());
    put_start(&rt, &mut client);
    put_request(&rt, &mut client, 0, 0, 512, 512);
    put_request(&rt, &mut client, 1, 1, 8192, 4096);
    put_many(&rt, &mut client, 7, 4096);
    put_request(&rt, &mut client, 0, 4, 4096, 8192);
    put_request(&rt, &mut client, 0, 2, 0, 0);
    let mut disk = new_disk(&rt, rt.alloc(), 0, usize::MAX, ChainRefusal::NoRoom);
    disk.is_large = true;
    let mut sink = new_sink(rt.alloc());
    let served = serve_bytes(&rt, rt.alloc(), &mut disk, client, 0, &mut sink);
    ask(&rt, 0, end_of(&served) == (0, 0));
    ask(&rt, 1, sink.bytes.get(28 + 7) == Some(&22));
    ask(
        &rt,
        2,
        disk.made.as_slice() == [Made::Through(2, 1), Made::Trim(1, 2)].as_slice(),
    );
}

// An export that is only read says so in its flags, and a refused write is not permitted.
#[test]
fn an_export_is_only_read(rt: HostRuntime) {
    let mut client = Vec::new(rt.alloc());
    put_start(&rt, &mut client);
    put_request(&rt, &mut client, 0, 1, 0, 512);
    put_many(&rt, &mut client, 7, 512);
    put_request(&rt, &mut client, 0, 2, 0, 0);
    let mut disk = new_disk(&rt, rt.alloc(), 0, 0, ChainRefusal::ReadOnly);
    let mut source = new_source(rt.alloc(), client, 0);
    let mut sink = new_sink(rt.alloc());
    let room = done(&rt, Room::new(rt.alloc()));
    let name = done(&rt, Name::new(rt.alloc(), "d.vhdx"));
    let served = serve(room, name, true, &mut disk, &mut source, &mut sink);
    ask(&rt, 0, served.end.is_ok());
    ask(
        &rt,
        1,
        sink.bytes.get(26) == Some(&0) && sink.bytes.get(27) == Some(&3),
    );
    ask(&rt, 2, error_sent(&sink.bytes) == Some(1));
}
