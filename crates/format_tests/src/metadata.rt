//! The metadata of a file as they are laid, and as they are read again.

use crate::asking::{ask, done, zeros};
use crate::locators::name_of;
use crate::stores::Repeated;
use metadata_table::{Metadata, MetadataRefusal, Regions, build, parse, written_len};
use std::alloc::Global;
use std::process::Abort;
use vx_base::{Bytes, Guid, u32_at};

const REGIONS: Regions = Regions {
    bat_at: 3_145_728,
    bat_len: 1_048_576,
    meta_at: 2_097_152,
    meta_len: 1_048_576,
};

/// These metadata, which take so many bytes, and zeros behind them.
pub fn laid<R: Abort>(rt: &R, alloc: Global, meta: &Metadata, len: u64) -> Repeated {
    let mut bytes = zeros(rt, alloc, 131_072);
    assert!(rt; len <= 131_072 && written_len(meta) == len);
    build(bytes.as_mut_slice(), meta);
    Repeated { bytes }
}

/// The metadata of a child with this locator.
pub fn of_child(locator: Bytes) -> Metadata {
    Metadata {
        block: 0x20_0000,
        leave: false,
        parent: true,
        size: 0x40_0000,
        disk: Guid::zero(),
        logical: 512,
        physical: 4096,
        locator: Some(locator),
        retired: None,
    }
}

// The metadata of a retired leaf, and zeros behind them.
fn written<R: Abort>(rt: &R, alloc: Global) -> Repeated {
    let locator = done(rt, Bytes::from_slice(alloc, b"locator"));
    let mut meta = of_child(locator);
    meta.retired = Some(name_of(rt, alloc, "b.vhdx"));
    laid(rt, alloc, &meta, 65_595)
}

// What is refused of the metadata in these bytes.
fn refusal_of(alloc: Global, store: &mut Repeated) -> Option<MetadataRefusal> {
    parse(alloc, store, 0, &REGIONS).err()
}

/// The place, the length and the flags of an item, by its entry.
pub fn item(bytes: &[u8], entry: usize) -> (u32, u32, u32) {
    let at = 32 + 32 * (entry % 100);
    if bytes.len() < at + 32 {
        return (0, 0, 0);
    }
    (
        u32_at(bytes, at + 16),
        u32_at(bytes, at + 20),
        u32_at(bytes, at + 24),
    )
}

// The places, lengths and flags of the items.
static ITEMS: [(u32, u32, u32); 7] = [
    (65_536, 8, 4),
    (65_544, 8, 6),
    (65_552, 16, 6),
    (65_568, 4, 6),
    (65_572, 4, 6),
    (65_576, 7, 4),
    (65_583, 12, 1),
];

#[test]
fn items_lie_one_behind_the_other(rt: HostRuntime) {
    let mut out = written(&rt, rt.alloc());
    for (entry, wanted) in ITEMS.iter().enumerate() {
        ask(&rt, entry, item(out.bytes.as_slice(), entry) == *wanted);
    }
    ask(&rt, 7, refusal_of(rt.alloc(), &mut out).is_none());
    let mut empty = Repeated {
        bytes: zeros(&rt, rt.alloc(), 4_096),
    };
    let bad = Some(MetadataRefusal::BadMetadataTable { entry: 0 });
    ask(&rt, 8, refusal_of(rt.alloc(), &mut empty) == bad);
}
