//! A client beside a merge: what it is told, and what the chain is behind it.

ghost use Rattle.link_rules.specs.Folders.{AllIdle};
ghost use Rattle.mem_store.specs.HostTold.{hosted_by};
ghost use Rattle.store_model.specs.Disk.{WhereTold};

use crate::common::{ask, ask_sectors, ask_sent, client_done, made, printed, text_of};
use crate::wire::{GREETING, put, put_flags, put_many, put_option, put_reply, put_request};
use mem_store::MemHost;
use std::alloc::Global;
use std::process::Abort;
use std::sync::Wait;
use std::thread::Threads;

// A chain of three files. Of the four stripes of its disk the base holds sector 2,048, the middle file sectors 5 and 4,096, and the leaf sectors 6 and
// 6,144.
const CHAIN: &[(&str, &str)] = &[
    ("make dynamic a.vhdx --sectors 8192 --block 1", ""),
    ("steps a.vhdx", "write 2048 1 22\n"),
    ("make child b.vhdx --parent a.vhdx", ""),
    ("steps b.vhdx", "write 5 1 33\nwrite 4096 1 44\n"),
    ("make child c.vhdx --parent b.vhdx", ""),
    ("steps c.vhdx", "write 6 1 55\nwrite 6144 1 66\n"),
];

// A run of sectors with one byte.
#[derive(Clone, Copy)]
struct Run {
    byte: u8,
    sectors: usize,
}

// A request, forced or not.
#[derive(Clone, Copy)]
enum Call {
    // A write of one byte, of so many sectors from the first on.
    Write(bool, u64, usize, u8),
    Trim(bool, u64, usize),
    Flush,
    // A read from the first sector on, and what it gives.
    Read(u64, &'static [Run]),
}

// So many bytes, as a request names them.
fn asked_of(len: usize) -> u32 {
    u32::try_from(len).unwrap_or(0)
}

// The bytes of so many sectors.
const fn bytes_in(sectors: usize) -> usize {
    sectors.wrapping_mul(512)
}

static CALLS: [Call; 16] = [
    Call::Read(
        4,
        &[
            Run {
                byte: 0,
                sectors: 1,
            },
            Run {
                byte: 0x33,
                sectors: 1,
            },
            Run {
                byte: 0x55,
                sectors: 1,
            },
            Run {
                byte: 0,
                sectors: 1,
            },
        ],
    ),
    Call::Write(false, 0, 1, 0xA1),
    Call::Write(true, 4_096, 2, 0xA2),
    Call::Trim(false, 6, 1),
    Call::Read(
        4_095,
        &[
            Run {
                byte: 0,
                sectors: 1,
            },
            Run {
                byte: 0xA2,
                sectors: 2,
            },
            Run {
                byte: 0,
                sectors: 1,
            },
        ],
    ),
    Call::Flush,
    // More than a call of the disk takes, over two stripes and a part of each of their neighbours.
    Call::Write(false, 2_040, 4_112, 0xA3),
    Call::Read(
        2_039,
        &[
            Run {
                byte: 0,
                sectors: 1,
            },
            Run {
                byte: 0xA3,
                sectors: 4_112,
            },
            Run {
                byte: 0,
                sectors: 1,
            },
        ],
    ),
    Call::Trim(true, 4_000, 200),
    Call::Write(false, 4_100, 1, 0xA4),
    Call::Read(
        3_999,
        &[
            Run {
                byte: 0xA3,
                sectors: 1,
            },
            Run {
                byte: 0,
                sectors: 100,
            },
            Run {
                byte: 0xA4,
                sectors: 1,
            },
            Run {
                byte: 0,
                sectors: 99,
            },
            Run {
                byte: 0xA3,
                sectors: 1,
            },
        ],
    ),
    Call::Write(true, 8_191, 1, 0xA5),
    Call::Write(false, 7_000, 3, 0xA6),
    Call::Flush,
    Call::Read(
        8_190,
        &[
            Run {
                byte: 0,
                sectors: 1,
            },
            Run {
                byte: 0xA5,
                sectors: 1,
            },
        ],
    ),
    // Neither flushed nor forced: it is there behind the connection's end.
    Call::Write(false, 7, 1, 0xA7),
];

// Sectors behind it from a first one on, with their bytes.
static DISK: [(u64, &[u8]); 9] = [
    (0, &[0xA1, 0, 0, 0, 0, 0x33, 0, 0xA7, 0]),
    (2_039, &[0, 0xA3]),
    (2_048, &[0xA3]),
    (3_999, &[0xA3, 0]),
    (4_096, &[0, 0, 0, 0, 0xA4, 0]),
    (4_199, &[0, 0xA3]),
    (6_144, &[0xA3, 0xA3, 0xA3, 0xA3, 0xA3, 0xA3, 0xA3, 0xA3, 0]),
    (6_999, &[0, 0xA6, 0xA6, 0xA6, 0]),
    (8_190, &[0, 0xA5]),
];

// Adds a request, and what it is answered.
fn put_call<R: Abort>(
    rt: &R,
    call: &Call,
    cookie: &[u8; 8],
    client: &mut Vec<u8>,
    sent: &mut Vec<u8>,
) {
    match call {
        Call::Write(forced, first, sectors, byte) => {
            let len = bytes_in(*sectors);
            put_request(rt, client, 1, *forced as u8, cookie, *first, asked_of(len));
            put_many(rt, client, *byte, len);
            put_reply(rt, sent, cookie, 0);
        }
        Call::Trim(forced, first, sectors) => {
            let len = bytes_in(*sectors);
            put_request(rt, client, 4, *forced as u8, cookie, *first, asked_of(len));
            put_reply(rt, sent, cookie, 0);
        }
        Call::Flush => {
            put_request(rt, client, 3, 0, cookie, 0, 0);
            put_reply(rt, sent, cookie, 0);
        }
        Call::Read(first, runs) => {
            put_reply(rt, sent, cookie, 0);
            let mut len = 0usize;
            for run in *runs {
                put_many(rt, sent, run.byte, bytes_in(run.sectors));
                len = len.wrapping_add(bytes_in(run.sectors));
            }
            put_request(rt, client, 0, 0, cookie, *first, asked_of(len));
        }
    }
}

// What a client sends that makes all of the calls, and what it is sent.
fn client_of<R: Abort>(rt: &R, alloc: Global) -> (Vec<u8>, Vec<u8>) {
    let mut client = Vec::new(alloc);
    let mut sent = Vec::new(alloc);
    put(rt, &mut sent, GREETING);
    put_flags(rt, &mut client);
    put_option(rt, &mut client, 1, 6);
    put(rt, &mut client, b"c.vhdx");
    put(rt, &mut sent, b"\x00\x00\x00\x00\x00\x40\x00\x00\x00\x2D");
    let mut number = 0u8;
    for call in &CALLS {
        number = number.wrapping_add(1);
        let cookie = [0xFF, number, 3, 4, 5, 6, 7, 0xFE];
        put_call(rt, call, &cookie, &mut client, &mut sent);
    }
    put_request(rt, &mut client, 2, 0, b"the end.", 0, 0);
    (client, sent)
}

// A merge, by its line; and how each line of the chain begins and ends behind it.
#[derive(Clone, Copy)]
struct Merge {
    line: &'static str,
    chain: &'static [(&'static str, &'static str)],
}

static MIDDLE: Merge = Merge {
    line: "nbd c.vhdx --workers 2 --merge b.vhdx",
    chain: &[
        ("c.vhdx child sectors 8192 ", " parent a.vhdx"),
        ("a.vhdx dynamic sectors 8192 ", " parent none"),
    ],
};

static LEAF: Merge = Merge {
    line: "nbd c.vhdx --workers 2 --merge c.vhdx",
    chain: &[
        ("retired c.vhdx to b.vhdx", ""),
        ("b.vhdx child sectors 8192 ", " parent a.vhdx"),
        ("a.vhdx dynamic sectors 8192 ", " parent none"),
    ],
};

static NO_WORKER: Merge = Merge {
    line: "nbd c.vhdx --workers 0 --merge b.vhdx",
    chain: &[
        ("c.vhdx child sectors 8192 ", " parent a.vhdx"),
        ("a.vhdx dynamic sectors 8192 ", " parent none"),
    ],
};

static NO_MERGE: Merge = Merge {
    line: "nbd c.vhdx --workers 2",
    chain: &[
        ("c.vhdx child sectors 8192 ", " parent b.vhdx"),
        ("b.vhdx child sectors 8192 ", " parent a.vhdx"),
        ("a.vhdx dynamic sectors 8192 ", " parent none"),
    ],
};

// Asks that the chain's lines are those behind the merge.
fn ask_chain<R: Abort + Threads + Wait + Sync>(
    rt: &R,
    alloc: Global,
    merge: &Merge,
    host: &mut MemHost,
)
    requires { WhereTold (hosted_by host.old).folder AllIdle }
    ensures { WhereTold (hosted_by host.new).folder AllIdle }
{
    let out = printed(rt, alloc, "info c.vhdx", host);
    let text = text_of(rt, &out);
    ask(rt, text.lines().count() == merge.chain.len(), text);
    for (line, (start, end)) in text.lines().zip(merge.chain) {
        ask(rt, line.starts_with(start) && line.ends_with(end), line);
    }
}

// Asks that no file has a finding.
fn ask_clean<R: Abort + Threads + Wait + Sync>(rt: &R, alloc: Global, host: &mut MemHost)
    requires { WhereTold (hosted_by host.old).folder AllIdle }
    ensures { WhereTold (hosted_by host.new).folder AllIdle }
{
    let out = printed(rt, alloc, "check a.vhdx", host);
    ask_sent(rt, &out, b"clean\n", "a.vhdx");
    let out = printed(rt, alloc, "check b.vhdx", host);
    ask_sent(rt, &out, b"clean\n", "b.vhdx");
    let out = printed(rt, alloc, "check c.vhdx", host);
    ask_sent(rt, &out, b"clean\n", "c.vhdx");
}

// Asks that the disk is the one behind the calls.
fn ask_disk<R: Abort + Threads + Wait + Sync>(rt: &R, alloc: Global, host: &mut MemHost)
    requires { WhereTold (hosted_by host.old).folder AllIdle }
    ensures { WhereTold (hosted_by host.new).folder AllIdle }
{
    for (first, bytes) in &DISK {
        ask_sectors(rt, alloc, "c.vhdx", *first, bytes, host);
    }
}

// Asks that a client is told what the disk has while it is merged, and what is left behind it.
fn ask_merge<R: Abort + Threads + Wait + Sync>(rt: &R, alloc: Global, merge: &Merge) {
    let (client, sent) = client_of(rt, alloc);
    let mut host = made(rt, alloc, CHAIN);
    let out = client_done(rt, alloc, merge.line, client, 1_000, &mut host);
    ask_sent(rt, &out, &sent, merge.line);
    ask_chain(rt, alloc, merge, &mut host);
    ask_disk(rt, alloc, &mut host);
    ask_clean(rt, alloc, &mut host);
}

#[test]
fn a_client_beside_a_merge(rt: HostRuntime) {
    ask_merge(&rt, rt.alloc(), &MIDDLE);
}

#[test]
fn a_client_beside_a_merge_of_the_leaf(rt: HostRuntime) {
    ask_merge(&rt, rt.alloc(), &LEAF);
}

#[test]
fn a_client_with_no_worker(rt: HostRuntime) {
    ask_merge(&rt, rt.alloc(), &NO_WORKER);
}

#[test]
fn a_client_with_no_merge(rt: HostRuntime) {
    ask_merge(&rt, rt.alloc(), &NO_MERGE);
}
