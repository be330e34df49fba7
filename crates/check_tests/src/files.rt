//! Files that the program makes, and damage of them.

ghost use Rattle.link_rules.specs.Folders.{AllIdle};
ghost use Rattle.mem_store.specs.HostTold.{hosted_by};
ghost use Rattle.store_model.specs.Disk.{WhereTold};

use crate::common::{bytes_of, empty_host, ids_of, line_done};
use crc32c::crc32c_without;
use mem_store::MemHost;
use std::alloc::Global;
use std::process::Abort;
use std::sync::Wait;
use std::thread::Threads;
use vx_base::{put_bytes, put_u32, zeroed};

/// Bytes that are written over a file's, or behind its end.
pub type Patch = (usize, &'static [u8]);

/// Two blocks of 1 MB, at 4 and 5 MB.
pub const FIXED: &[&str] = &["make fixed f.vhdx --sectors 4096 --block 1"];

/// The same disk, without a block.
pub const DYNAMIC: &[&str] = &["make dynamic f.vhdx --sectors 4096 --block 1"];

/// Two blocks of 2 MB, none of them there.
pub const LARGER: &[&str] = &["make dynamic f.vhdx --sectors 8192 --block 2"];

/// A child with ten blocks of 1 MB, none of them there. Their sector bitmap has the entry 4,096.
pub const CHILD: &[&str] = &[
    "make dynamic b.vhdx --sectors 20480 --block 1",
    "make child f.vhdx --parent b.vhdx --block 1",
];

/// Both copies of the header name a log, whose one entry zeroes the 4,096 bytes at 4 MB.
pub static LOG: [Patch; 4] = [
    (65_584, &[7; 16]),
    (131_120, &[7; 16]),
    (
        1_048_576,
        b"loge\0\0\0\0\0\x10\0\0\0\0\0\0\x01\0\0\0\0\0\0\0\x01\0\0\0\0\0\0\0\x07\x07\x07\x07\x07\x07\x07\x07\x07\x07\x07\x07\x07\x07\x07\x07",
    ),
    (
        1_048_640,
        b"zero\0\0\0\0\0\x10\0\0\0\0\0\0\0\0\x40\0\0\0\0\0\x01\0\0\0\0\0\0\0",
    ),
];

/// What a repair writes where the second copy of the header is the current one: the first copy, and the region tables as they were.
pub const FIRST: &[Patch] = &[
    (65_536, b"head"),
    (65_544, &[3]),
    (65_552, &[9; 16]),
    (65_584, &[0; 16]),
    (196_608, b"regi"),
    (262_144, b"regi"),
    (262_152, &[2, 0]),
];

/// The same where the first is.
pub const SECOND: &[Patch] = &[
    (131_072, b"head"),
    (131_080, &[2]),
    (131_088, &[9; 16]),
    (131_120, &[0; 16]),
    (196_608, b"regi"),
    (262_144, b"regi"),
];

/// The files that these lines make, one after the other.
pub fn made<R: Abort + Threads + Wait + Sync>(rt: &R, alloc: Global, lines: &[&str]) -> MemHost
    ensures { WhereTold (hosted_by result).folder AllIdle }
{
    let mut host = empty_host(alloc);
    let mut ids = ids_of(rt, alloc, &[[1; 16], [2; 16], [3; 16], [4; 16], [5; 16]]);
    for line in lines {
        line_done(rt, alloc, line, &mut host, &mut ids);
    }
    host
}

/// The bytes of f.vhdx, which these lines make.
pub fn file_of<R: Abort + Threads + Wait + Sync>(rt: &R, alloc: Global, lines: &[&str]) -> Vec<u8> {
    let host = made(rt, alloc, lines);
    let bytes = bytes_of(&host, "f.vhdx").expect(rt, "no file");
    bytes.to_vec(alloc).expect(rt, "no memory")
}

// How long a file is with these bytes.
fn length_with(file: &[u8], patches: &[Patch]) -> usize {
    let mut len = file.len();
    for (at, bytes) in patches {
        len = len.max(at.saturating_add(bytes.len()));
    }
    len
}

// Writes them over its own.
fn place_all(file: &mut [u8], patches: &[Patch]) {
    for (at, bytes) in patches {
        if *at <= file.len() && bytes.len() <= file.len() - *at {
            put_bytes(file, *at, bytes);
        }
    }
}

/// The file with these bytes over its own.
pub fn placed<R: Abort>(rt: &R, alloc: Global, file: &[u8], patches: &[Patch]) -> Vec<u8> {
    let mut next = zeroed(alloc, length_with(file, patches)).expect(rt, "no memory");
    let len = next.len().min(file.len());
    next[..len].copy_from_slice(&file[..len]);
    place_all(&mut next, patches);
    next
}

// Gives a part of the file that isn't empty the checksum of its bytes.
fn seal_part(part: &mut [u8]) {
    if part.len() >= 8 && part[0] != 0 {
        let sum = crc32c_without(part, 4);
        put_u32(part, 4, sum);
    }
}

// The same of the copies of the header and of the region table, and of the first entry of the log.
fn seal(file: &mut [u8]) {
    for (at, len) in [
        (65_536, 4_096),
        (131_072, 4_096),
        (196_608, 65_536),
        (262_144, 65_536),
        (1_048_576, 4_096),
    ] {
        if let Some(part) = file.get_mut(at..at + len) {
            seal_part(part);
        }
    }
}

/// The file with these bytes over its own, and the checksums set right, but for those among the bytes.
pub fn changed<R: Abort>(rt: &R, alloc: Global, file: &[u8], patches: &[Patch]) -> Vec<u8> {
    let mut next = placed(rt, alloc, file, patches);
    seal(&mut next);
    place_all(&mut next, patches);
    next
}
