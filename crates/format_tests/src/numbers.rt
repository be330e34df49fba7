//! Numbers, identifiers, names and checksums.

use crate::asking::{ask, done};
use crate::locators::{name_of, parent_id};
use crate::questions::Question;
use crc32c::{Crc, crc32c, crc32c_without};
use std::alloc::Global;
use std::process::Abort;
use vx_base::{Guid, Name, guid_at, u16_at, u32_at, u64_at};

/// Texts with the numbers that they are.
pub const DECIMALS: &[Question] = &[
    Question::Number("0", Some(0)),
    Question::Number("10", Some(10)),
    Question::Number("137438953472", Some(137_438_953_472)),
    Question::Number("18446744073709551615", Some(u64::MAX)),
    Question::Number("18446744073709551616", None),
    Question::Number("99999999999999999999", None),
    Question::Number("", None),
    Question::Number("01", None),
    Question::Number("+1", None),
    Question::Number("-1", None),
    Question::Number("1x", None),
];

// 2DC27766-F623-4200-9D64-115E9BFD4A08, the region of the block allocation table, as it stands in a file.
const BAT_IN_FILE: [u8; 16] = [
    0x66, 0x77, 0xC2, 0x2D, 0x23, 0xF6, 0x00, 0x42, 0x9D, 0x64, 0x11, 0x5E, 0x9B, 0xFD, 0x4A, 0x08,
];

// Asks that a name is taken and copied, and a path isn't.
fn ask_names<R: Abort>(rt: &R, alloc: Global) {
    let name = name_of(rt, alloc, "b.vhdx");
    let copy = done(rt, name.try_clone(alloc));
    ask(rt, 6, copy.as_str() == "b.vhdx");
    ask(rt, 7, Name::new(alloc, "a/b").is_err());
}

/// Texts with their checksums: vectors of RFC 3720, B.4, and of the usual check text.
pub const CHECKSUMS: &[Question] = &[
    Question::Checksum(b"123456789", 0xE306_9283),
    Question::Checksum(&[0; 32], 0x8A91_36AA),
    Question::Checksum(&[0xFF; 32], 0x62A8_AB43),
];

#[test]
fn identifiers_names_fields_and_checksums(rt: HostRuntime) {
    let id = parent_id(&rt);
    ask(&rt, 1, id.to_file() == BAT_IN_FILE);
    ask(&rt, 2, guid_at(&BAT_IN_FILE, 0) == id);
    let text = *b"{2dc27766-f623-4200-9d64-115e9bfd4a08}";
    ask(&rt, 3, id.text() == text);
    let bare = Guid::parse("2DC27766-F623-4200-9D64-115E9BFD4A08");
    ask(&rt, 4, bare == Some(id));
    ask(&rt, 5, Guid::parse("2DC27766").is_none());
    ask_names(&rt, rt.alloc());
    let bytes = [1, 2, 3, 4, 5, 6, 7, 8, 9];
    ask(&rt, 8, u16_at(&bytes, 1) == 0x0302);
    ask(&rt, 9, u32_at(&bytes, 1) == 0x0504_0302);
    ask(&rt, 10, u64_at(&bytes, 1) == 0x0908_0706_0504_0302);
    ask(&rt, 11, crc32c_without(&[0xFF; 4], 0) == crc32c(&[0; 4]));
    let mut crc = Crc::new();
    crc.feed(b"1234");
    crc.feed(b"56789");
    ask(&rt, 12, crc.value() == 0xE306_9283);
}
