//! The locator of a new child, one with a second linkage, and damaged ones.

use crate::asking::{are_bytes, ask, done, given, part};
use crate::questions::Question;
use parent_locator::{
    Locator, LocatorRefusal, Pair, build, child_locator, fits, linkage, parent_name, parse,
    second_linkage,
};
use std::alloc::Global;
use std::process::Abort;
use vx_base::{Bytes, Guid, Name, Units};

const ID: &str = "{2dc27766-f623-4200-9d64-115e9bfd4a08}";

/// The identifier of the parent.
pub fn parent_id<R: Abort>(rt: &R) -> Guid {
    Guid::parse(ID).expect(rt, "no identifier")
}

/// The name of a file.
pub fn name_of<R: Abort>(rt: &R, alloc: Global, name: &str) -> Name {
    done(rt, Name::new(alloc, name))
}

fn units<R: Abort>(rt: &R, alloc: Global, text: &str) -> Units {
    let mut units = Units::new(alloc);
    for b in text.as_bytes() {
        done(rt, units.push(u16::from(*b)));
    }
    units
}

// The bytes of a locator.
fn built<R: Abort>(rt: &R, alloc: Global, locator: &Locator) -> Bytes {
    assert!(rt; fits(locator));
    done(rt, build(alloc, locator))
}

// The bytes of a locator of these keys and values.
fn written<R: Abort>(rt: &R, alloc: Global, pairs: &[(&str, &str)]) -> Bytes {
    let mut locator = Locator::new(alloc);
    for (key, value) in pairs {
        let key = units(rt, alloc, key);
        let value = units(rt, alloc, value);
        done(rt, locator.push(Pair { key, value }));
    }
    built(rt, alloc, &locator)
}

/// The locator of a child of `b.vhdx`: 190 bytes.
pub fn childs<R: Abort>(rt: &R, alloc: Global) -> Locator {
    let name = name_of(rt, alloc, "b.vhdx");
    done(rt, child_locator(alloc, &parent_id(rt), &name))
}

/// The bytes of the locator of a child of `b.vhdx`.
pub fn child_of_b<R: Abort>(rt: &R, alloc: Global) -> Bytes {
    built(rt, alloc, &childs(rt, alloc))
}

#[test]
fn a_child_has_one_of_190_bytes(rt: HostRuntime) {
    let item = child_of_b(&rt, rt.alloc());
    let item = item.as_slice();
    ask(&rt, 1, item.len() == 190);
    let head = b"\xb7\xef\x4a\xb0\x9e\xd1\x81\x4a\xb7\x89\x25\xb8\xe9\x44\x59\x13\0\0\x02\0\
        \x2c\0\0\0\x48\0\0\0\x1c\0\x4c\0\x94\0\0\0\xae\0\0\0\x1a\0\x10\0";
    ask(&rt, 2, are_bytes(part(item, 0, 44), head));
    let path = b".\0\\\0b\0.\0v\0h\0d\0x\0";
    ask(&rt, 3, are_bytes(part(item, 174, 16), path));
}

static LINKED_TWICE: [(&str, &str); 3] = [
    ("parent_linkage", ID),
    ("parent_linkage2", "{00000000-0000-0000-0000-000000000001}"),
    ("relative_path", ".\\b.vhdx"),
];

#[test]
fn two_linkages_are_read(rt: HostRuntime) {
    let alloc = rt.alloc();
    let item = written(&rt, alloc, &LINKED_TWICE);
    ask(&rt, 1, item.as_slice().len() == 308);
    let read = given(&rt, parse(alloc, item.as_slice()));
    let first = done(&rt, linkage(alloc, read.as_slice()));
    ask(&rt, 2, first == Some(parent_id(&rt)));
    let second = done(&rt, second_linkage(alloc, read.as_slice()));
    let wanted = Guid::parse("00000000-0000-0000-0000-000000000001");
    ask(&rt, 3, wanted.is_some());
    ask(&rt, 4, second == wanted);
}

// Whether the pairs of a locator name that parent.
fn names<R: Abort>(rt: &R, alloc: Global, pairs: &[Pair], wanted: Option<&str>) -> bool {
    match done(rt, parent_name(alloc, pairs)) {
        Some(name) => wanted == Some(name.as_str()),
        None => false,
    }
}

/// Whether a locator with this path names that parent: none where it is refused for want of a name.
pub fn is_named<R: Abort>(
    rt: &R,
    alloc: Global,
    key: &'static str,
    path: &'static str,
    wanted: Option<&str>,
) -> bool {
    let pairs = [
        ("parent_linkage", ID),
        ("absolute_win32_path", "c:\\last.vhdx"),
        (key, path),
    ];
    let item = written(rt, alloc, &pairs);
    match parse(alloc, item.as_slice()) {
        Ok(read) => names(rt, alloc, read.as_slice(), wanted),
        Err(refusal) => refusal == LocatorRefusal::NoParentName && wanted.is_none(),
    }
}

/// Paths with the parents that they name.
pub const PATHS: &[Question] = &[
    Question::Path("relative_path", ".\\b.vhdx", Some("b.vhdx")),
    Question::Path("relative_path", "..\\old/b.vhdx", Some("b.vhdx")),
    Question::Path("relative_path", "b.vhdx", Some("b.vhdx")),
    Question::Path("volume_path", "\\\\?\\v\\b.vhdx", Some("b.vhdx")),
    Question::Path("another_key", "b.vhdx", Some("last.vhdx")),
    Question::Path("relative_path", ".\\", None),
    Question::Path("relative_path", "..", None),
];

/// The refusal of the child's locator with one byte changed: none where it is read.
pub fn damaged<R: Abort>(rt: &R, alloc: Global, at: usize, byte: u8) -> Option<LocatorRefusal> {
    let mut item = child_of_b(rt, alloc).into_vec();
    assert!(rt; at < item.len());
    item[at] = byte;
    parse(alloc, item.as_slice()).err()
}

/// Bytes that are changed, with the refusals.
pub const DAMAGE: &[Question] = &[
    // another type; an odd length; an offset past the item; a third entry, in the texts; a lone surrogate
    Question::Damage(0, 0xB8, LocatorRefusal::BadLocator { entry: 0 }),
    Question::Damage(28, 27, LocatorRefusal::BadLocator { entry: 0 }),
    Question::Damage(38, 1, LocatorRefusal::BadLocator { entry: 1 }),
    Question::Damage(18, 3, LocatorRefusal::BadLocator { entry: 2 }),
    Question::Damage(189, 0xD8, LocatorRefusal::BadLocator { entry: 1 }),
    // a linkage that is no identifier's text; none at all; no path
    Question::Damage(72, b'x', LocatorRefusal::BadLocator { entry: 0 }),
    Question::Damage(44, b'x', LocatorRefusal::BadLocator { entry: 2 }),
    Question::Damage(148, b'x', LocatorRefusal::NoParentName),
];
