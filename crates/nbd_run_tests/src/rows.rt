//! A client that writes a sector and reads it, byte for byte.

use crate::common::{DISK, ask, ask_sectors, ask_sent, client_done, made};
use crate::wire::put_many;
use std::alloc::Global;
use std::process::Abort;
use std::sync::Wait;
use std::thread::Threads;

// A disk of 1 GB, as it is made where nothing more is said of it.
const LARGE_BLOCKS: &[(&str, &str)] = &[("make dynamic d.vhdx --sectors 2097152", "")];

// What a client sends: its flags, and the option that names the export by nothing, behind an option that isn't served or not; a write of a sector at
// the disk's beginning, a read of it, and a disconnect.
fn client_bytes<R: Abort>(rt: &R, alloc: Global, asks: bool) -> Vec<u8> {
    let mut client = Vec::new(alloc);
    add(rt, &mut client, b"\x00\x00\x00\x03");
    if asks {
        add(rt, &mut client, b"IHAVEOPT\x00\x00\x00\x07\x00\x00\x00\x00");
    }
    add(rt, &mut client, b"IHAVEOPT\x00\x00\x00\x01\x00\x00\x00\x00");
    add(
        rt,
        &mut client,
        b"\x25\x60\x95\x13\x00\x00\x00\x01write it\x00\x00\x00\x00\x00\x00\x00\x00\x00\x00\x02\x00",
    );
    put_many(rt, &mut client, 0xAA, 512);
    add(
        rt,
        &mut client,
        b"\x25\x60\x95\x13\x00\x00\x00\x00read it.\x00\x00\x00\x00\x00\x00\x00\x00\x00\x00\x02\x00",
    );
    add(
        rt,
        &mut client,
        b"\x25\x60\x95\x13\x00\x00\x00\x02the end.\x00\x00\x00\x00\x00\x00\x00\x00\x00\x00\x00\x00",
    );
    client
}

fn add<R: Abort>(rt: &R, out: &mut Vec<u8>, bytes: &[u8]) {
    out.extend_from_slice(bytes).expect(rt, "no memory");
}

// What it is sent: the greeting; that the option isn't supported; the size, 2^30, and what the export can: flags, flush, forced writes, trims; and a
// reply to the write and one to the read, with its data.
fn sent_bytes<R: Abort>(rt: &R, alloc: Global, asks: bool) -> Vec<u8> {
    let mut sent = Vec::new(alloc);
    add(rt, &mut sent, b"NBDMAGICIHAVEOPT\x00\x03");
    if asks {
        add(
            rt,
            &mut sent,
            b"\x00\x03\xE8\x89\x04\x55\x65\xA9\x00\x00\x00\x07\x80\x00\x00\x01\x00\x00\x00\x00",
        );
    }
    add(rt, &mut sent, b"\x00\x00\x00\x00\x40\x00\x00\x00\x00\x2D");
    add(rt, &mut sent, b"\x67\x44\x66\x98\x00\x00\x00\x00write it");
    add(rt, &mut sent, b"\x67\x44\x66\x98\x00\x00\x00\x00read it.");
    put_many(rt, &mut sent, 0xAA, 512);
    sent
}

// Asks that it is so where so many bytes come together (0: all), with an option that isn't served or without, where the client sends and is sent so
// many bytes.
fn ask_rows<R: Abort + Threads + Wait + Sync>(
    rt: &R,
    alloc: Global,
    rows: &[(usize, bool, usize, usize)],
) {
    for (piece, asks, read, written) in rows {
        let client = client_bytes(rt, alloc, *asks);
        ask(rt, client.len() == *read, "another client");
        let sent = sent_bytes(rt, alloc, *asks);
        ask(rt, sent.len() == *written, "another answer");
        let mut host = made(rt, alloc, LARGE_BLOCKS);
        let out = client_done(
            rt,
            alloc,
            "nbd d.vhdx --workers 0",
            client,
            *piece,
            &mut host,
        );
        ask_sent(rt, &out, &sent, "a sector");
        ask_sectors(rt, alloc, "d.vhdx", 0, &[0xAA, 0], &mut host);
    }
}

#[test]
fn a_sector_is_written_and_read(rt: HostRuntime) {
    ask_rows(
        &rt,
        rt.alloc(),
        &[(0, false, 616, 572), (0, true, 632, 592)],
    );
}

#[test]
fn bytes_come_one_by_one(rt: HostRuntime) {
    ask_rows(
        &rt,
        rt.alloc(),
        &[(1, false, 616, 572), (1, true, 632, 592)],
    );
}

// A client with no flags is sent 124 zeros behind what the export can, and may name it; what it trims with force reads as zeros.
#[test]
fn zeros_for_an_old_client(rt: HostRuntime) {
    let alloc = rt.alloc();
    let mut client = Vec::new(alloc);
    add(
        &rt,
        &mut client,
        b"\x00\x00\x00\x00IHAVEOPT\x00\x00\x00\x01\x00\x00\x00\x06d.vhdx",
    );
    add(
        &rt,
        &mut client,
        b"\x25\x60\x95\x13\x00\x01\x00\x01write it\x00\x00\x00\x00\x3F\xFF\xFE\x00\x00\x00\x02\x00",
    );
    put_many(&rt, &mut client, 0xBB, 512);
    add(
        &rt,
        &mut client,
        b"\x25\x60\x95\x13\x00\x01\x00\x04trim it.\x00\x00\x00\x00\x3F\xFF\xFE\x00\x00\x00\x02\x00",
    );
    add(
        &rt,
        &mut client,
        b"\x25\x60\x95\x13\x00\x00\x00\x00read it.\x00\x00\x00\x00\x3F\xFF\xFE\x00\x00\x00\x02\x00",
    );
    add(
        &rt,
        &mut client,
        b"\x25\x60\x95\x13\x00\x00\x00\x02the end.\x00\x00\x00\x00\x00\x00\x00\x00\x00\x00\x00\x00",
    );
    let mut sent = Vec::new(alloc);
    add(
        &rt,
        &mut sent,
        b"NBDMAGICIHAVEOPT\x00\x03\x00\x00\x00\x00\x40\x00\x00\x00\x00\x2D",
    );
    put_many(&rt, &mut sent, 0, 124);
    add(&rt, &mut sent, b"\x67\x44\x66\x98\x00\x00\x00\x00write it");
    add(&rt, &mut sent, b"\x67\x44\x66\x98\x00\x00\x00\x00trim it.");
    add(&rt, &mut sent, b"\x67\x44\x66\x98\x00\x00\x00\x00read it.");
    put_many(&rt, &mut sent, 0, 512);
    let mut host = made(&rt, alloc, DISK);
    let line = "nbd d.vhdx --workers 2";
    let out = client_done(&rt, alloc, line, client, 0, &mut host);
    ask_sent(&rt, &out, &sent, "an old client");
    ask_sectors(&rt, alloc, "d.vhdx", 2_097_151, &[0], &mut host);
}
