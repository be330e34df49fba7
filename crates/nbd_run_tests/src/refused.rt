//! Runs that serve no client, and one that is given up by its client.

use crate::common::{
    ask, ask_sent, client_done, client_refused, made, run_line, sink_of, source_of,
};
use crate::wire::{GREETING, put, put_flags, put_option};
use mem_store::Calls;
use std::alloc::Global;
use std::process::Abort;
use vhdx_app::Status;

const CHAIN: &[(&str, &str)] = &[
    ("make dynamic b.vhdx --sectors 8192 --block 1", ""),
    ("make child c.vhdx --parent b.vhdx", ""),
    ("make child d.vhdx --parent c.vhdx", ""),
];

// A client that gives up.
fn brief<R: Abort>(rt: &R, alloc: Global) -> Vec<u8> {
    let mut client = Vec::new(alloc);
    put_flags(rt, &mut client);
    put_option(rt, &mut client, 2, 0);
    client
}

// Nothing is read and nothing is sent where a name leads to no chain, or the file that is to be merged isn't in it, or is its base.
#[test]
fn no_client_is_served(rt: HostRuntime) {
    let alloc = rt.alloc();
    for line in [
        "nbd e.vhdx --workers 0",
        "nbd d.vhdx --workers 1 --merge e.vhdx",
        "nbd c.vhdx --workers 1 --merge d.vhdx",
        "nbd d.vhdx --workers 1 --merge b.vhdx",
    ] {
        let mut host = made(&rt, alloc, CHAIN);
        let client = brief(&rt, alloc);
        let mut input = source_of(alloc, client, 0);
        let out = client_refused(&rt, alloc, line, line, &mut input, &mut host);
        ask_sent(&rt, &out, b"", line);
        ask(&rt, input.at == 0, line);
    }
}

#[test]
fn other_words(rt: HostRuntime) {
    let alloc = rt.alloc();
    for line in [
        "nbd",
        "nbd d.vhdx",
        "nbd d.vhdx --workers 65",
        "nbd d.vhdx --workers 0 --read-only",
        "nbd --workers 0",
    ] {
        let mut host = made(&rt, alloc, CHAIN);
        let mut input = source_of(alloc, Vec::new(alloc), 0);
        let mut out = sink_of(alloc);
        let status = run_line(&rt, alloc, line, &mut input, &mut host, &mut out);
        ask(&rt, status == Status::Usage, line);
        ask_sent(&rt, &out, b"", line);
        ask(&rt, input.at == 0, line);
    }
}

// A client may give up before it names an export: it is told that this is seen.
#[test]
fn a_client_that_gives_up(rt: HostRuntime) {
    let alloc = rt.alloc();
    let client = brief(&rt, alloc);
    let mut sent = Vec::new(alloc);
    put(&rt, &mut sent, GREETING);
    put(
        &rt,
        &mut sent,
        b"\x00\x03\xE8\x89\x04\x55\x65\xA9\x00\x00\x00\x02\x00\x00\x00\x01\x00\x00\x00\x00",
    );
    let mut host = made(&rt, alloc, CHAIN);
    let line = "nbd d.vhdx --workers 0";
    let out = client_done(&rt, alloc, line, client, 0, &mut host);
    ask_sent(&rt, &out, &sent, line);
}

// A source or a sink that fails ends the run by a fault, wherever it fails.
#[test]
fn streams_that_fail(rt: HostRuntime) {
    let alloc = rt.alloc();
    let line = "nbd d.vhdx --workers 0";
    let mut ended = false;
    for call in 1..10u64 {
        let mut host = made(&rt, alloc, CHAIN);
        let mut input = source_of(alloc, brief(&rt, alloc), 7);
        let listed = [call].to_vec(alloc).expect(&rt, "no memory");
        input.calls = Calls::failing(listed);
        let mut out = sink_of(alloc);
        let status = run_line(&rt, alloc, line, &mut input, &mut host, &mut out);
        ended = status == Status::Done;
        if ended {
            // 20 bytes come by pieces of 7.
            ask(&rt, call == 4, "other reads");
            break;
        }
        ask(&rt, status == Status::Fault, "no fault");
        ask_sent(&rt, &out, GREETING, "a source");
    }
    ask(&rt, ended, "too many reads");
    for (call, status, count) in [
        (1u64, Status::Fault, 0usize),
        (2, Status::Fault, 18),
        (3, Status::Done, 38),
    ] {
        let mut host = made(&rt, alloc, CHAIN);
        let mut input = source_of(alloc, brief(&rt, alloc), 0);
        let listed = [call].to_vec(alloc).expect(&rt, "no memory");
        let mut out = sink_of(alloc);
        out.calls = Calls::failing(listed);
        let found = run_line(&rt, alloc, line, &mut input, &mut host, &mut out);
        ask(&rt, found == status, "another status");
        ask(&rt, out.bytes.len() == count, "other bytes");
    }
}
