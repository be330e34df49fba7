//! The bytes that a client sends, and those that it is sent.

use byteorder::{BigEndian, ByteOrder};
use std::process::Abort;

/// What is sent first.
pub const GREETING: &[u8] = b"NBDMAGICIHAVEOPT\x00\x03";

/// Adds bytes.
pub fn put<R: Abort>(rt: &R, out: &mut Vec<u8>, bytes: &[u8]) {
    out.extend_from_slice(bytes).expect(rt, "no memory");
}

/// Adds so many bytes of one value.
pub fn put_many<R: Abort>(rt: &R, out: &mut Vec<u8>, byte: u8, count: usize) {
    for _ in 0..count {
        out.push(byte).expect(rt, "no memory");
    }
}

/// Adds the flags of a client that wants no zeros.
pub fn put_flags<R: Abort>(rt: &R, out: &mut Vec<u8>) {
    put(rt, out, &[0, 0, 0, 3]);
}

/// Adds the head of an option, whose data have so many bytes.
pub fn put_option<R: Abort>(rt: &R, out: &mut Vec<u8>, number: u8, len: u32) {
    put(rt, out, b"IHAVEOPT");
    put(rt, out, &[0, 0, 0, number]);
    put_u32(rt, out, len);
}

/// Adds the head of a request of this kind, with its flags, and these eight bytes as its cookie, of so many bytes at this sector.
pub fn put_request<R: Abort>(
    rt: &R,
    out: &mut Vec<u8>,
    kind: u8,
    flags: u8,
    cookie: &[u8; 8],
    sector: u64,
    len: u32,
) {
    put(rt, out, &[0x25, 0x60, 0x95, 0x13, 0, flags, 0, kind]);
    put(rt, out, cookie);
    let mut offset = [0; 8];
    BigEndian::write_u64(&mut offset, sector.wrapping_mul(512));
    put(rt, out, &offset);
    put_u32(rt, out, len);
}

/// Adds the head of a reply to the request of this cookie, with an error.
pub fn put_reply<R: Abort>(rt: &R, out: &mut Vec<u8>, cookie: &[u8; 8], error: u8) {
    put(rt, out, &[0x67, 0x44, 0x66, 0x98, 0, 0, 0, error]);
    put(rt, out, cookie);
}

fn put_u32<R: Abort>(rt: &R, out: &mut Vec<u8>, number: u32) {
    let mut bytes = [0; 4];
    BigEndian::write_u32(&mut bytes, number);
    put(rt, out, &bytes);
}
