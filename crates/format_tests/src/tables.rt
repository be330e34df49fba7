//! The tables of a child: whether they are sound, and how they are changed.

ghost use Rattle.std.specs.Prelude.{◌≡◌, true};
ghost use Rattle.vhdx_format.specs.FileParts.{HasNumbers};
ghost use Rattle.table_pages.specs.Held.{HasTables};

use crate::asking::{ask, done, zeros};
use crate::questions::Question;
use crate::stores::Repeated;
use block_table::{TableRefusal, check};
use std::alloc::Global;
use std::process::Abort;
use table_pages::{TableParts, Tables};
use vx_base::{Bytes, Geometry, Guid, Header, Parts, put_u64};

/// A file with a parent, of three blocks of 256 MB, so that the 17th entry is their bitmap's.
#[tactic(auto, unfolding(vhdx_format::specs::AllocationTables::table_entries))]
pub fn child(alloc: Global) -> Parts
    ensures { HasNumbers result }
{
    Parts {
        header: Header {
            copy: 1,
            number: 1,
            file_write: Guid::zero(),
            data_write: Guid::zero(),
            log: Guid::zero(),
            log_version: 0,
            version: 1,
            log_len: 1_048_576,
            log_at: 1_048_576,
        },
        geometry: Geometry {
            sector: 512,
            sectors: 1_572_864,
        },
        disk: Guid::zero(),
        block: 268_435_456,
        leave: false,
        parent: true,
        bat_at: 3_145_728,
        bat_len: 1_048_576,
        meta_at: 2_097_152,
        meta_len: 1_048_576,
        locator: Some(Bytes::new(alloc)),
        retired: None,
    }
}

// These three entries and their bitmap's.
fn table_of<R: Abort>(rt: &R, alloc: Global, entries: &[u64; 4]) -> Repeated {
    let mut bytes = zeros(rt, alloc, 4_096);
    put_u64(&mut bytes, 0, entries[0]);
    put_u64(&mut bytes, 8, entries[1]);
    put_u64(&mut bytes, 16, entries[2]);
    put_u64(&mut bytes, 128, entries[3]);
    Repeated { bytes }
}

const BY_THE_THIRD: TableRefusal = TableRefusal::BlockOverlap {
    first: 0,
    second: 2,
};

const BY_THE_SECOND: TableRefusal = TableRefusal::BlockOverlap {
    first: 0,
    second: 1,
};

const BY_THE_BITMAP: TableRefusal = TableRefusal::BlockOverlap {
    first: 1,
    second: 16,
};

const BITMAP_STATE: TableRefusal = TableRefusal::BadBatState { index: 16 };

const NO_BITMAP: TableRefusal = TableRefusal::BitmapMissing { index: 1 };

const PAST_THE_END: TableRefusal = TableRefusal::BlockPlace { index: 2 };

/// Entries of three blocks and of their bitmap, with what is answered of them in a file of 1 GB. An entry has a state in its
/// lowest bits, and a place in MB from bit 20 on.
pub const TABLES: &[Question] = &[
    Question::Table([0x0040_0007, 2, 0x1050_0006, 0x1040_0006], Ok(())),
    Question::Table([0, 0, 0, 0x3ff0_0006], Ok(())),
    // blocks that touch, and those that lie over another or over a bitmap
    Question::Table([0x2040_0006, 0x0040_0006, 0x1040_0006, 0], Ok(())),
    Question::Table(
        [0x2030_0006, 0x0040_0006, 0x1040_0006, 0],
        Err(BY_THE_THIRD),
    ),
    Question::Table(
        [0x0040_0006, 0x0040_0006, 0x0040_0006, 0],
        Err(BY_THE_SECOND),
    ),
    Question::Table([0, 0x0040_0006, 0, 0x1030_0006], Err(BY_THE_BITMAP)),
    Question::Table([0, 0, 0, 0x0040_0007], Err(BITMAP_STATE)),
    Question::Table([0x0040_0006, 0x1050_0007, 0x2060_0007, 0], Err(NO_BITMAP)),
    Question::Table([0, 0, 0x3010_0006, 0], Err(PAST_THE_END)),
];

/// What is answered of these entries.
pub fn checked<R: Abort>(rt: &R, alloc: Global, entries: &[u64; 4]) -> Result<(), TableRefusal> {
    let mut store = table_of(rt, alloc, entries);
    check(alloc, &mut store, 0, &child(alloc), 1 << 30)
}

/// A child with blocks of 2 MB, its table at 3 MB.
const CHILD: TableParts = TableParts {
    file: 0,
    sector: 512,
    sectors: 2_097_152,
    block: 2_097_152,
    bat_at: 3_145_728,
    bat_len: 1_048_576,
    parent: true,
};

// A store whose pages begin with an entry of a block that is there, at 5 MB.
fn same_pages<R: Abort>(rt: &R, alloc: Global) -> Repeated {
    let mut bytes = zeros(rt, alloc, 4_096);
    put_u64(&mut bytes, 0, 0x500006);
    Repeated { bytes }
}

// Whether they are the child's.
fn are_childs(parts: &TableParts) -> bool
    ensures tables { result ≡ true → HasTables parts.now }
    ensures parent { result ≡ true → parts.now.parent ≡ true }
    ensures sectors { result ≡ true → parts.now.sectors ≡ 2097152 }
    ensures bat_len { result ≡ true → parts.now.bat_len ≡ 1048576 }
    ensures file { result ≡ true → parts.now.file ≡ 0 }
{
    *parts == CHILD
}

fn entry<R: Abort>(rt: &R, store: &mut Repeated, tables: &mut Tables, index: u64) -> u64 {
    assert!(rt; are_childs(&tables.parts) && index < 131_072);
    done(rt, tables.entry(store, index))
}

fn set_entry<R: Abort>(rt: &R, store: &mut Repeated, tables: &mut Tables, index: u64, to: u64) {
    assert!(rt; are_childs(&tables.parts) && index < 131_072);
    assert!(rt; tables.room_for(1));
    done(rt, tables.set_entry(store, index, to));
}

fn tables_of_the_child<R: Abort>(rt: &R, alloc: Global) -> Tables {
    done(rt, Tables::new(alloc, CHILD, 3))
}

// Entries once the second is set.
static ENTRIES: [(u64, u64); 4] = [(0, 0x500006), (1, 7), (512, 0x500006), (513, 0)];

#[test]
fn entries_are_set_alone(rt: HostRuntime) {
    let mut store = same_pages(&rt, rt.alloc());
    let mut tables = tables_of_the_child(&rt, rt.alloc());
    set_entry(&rt, &mut store, &mut tables, 1, 7);
    for (row, (index, wanted)) in ENTRIES.iter().enumerate() {
        let found = entry(&rt, &mut store, &mut tables, *index);
        ask(&rt, row, found == *wanted);
    }
    ask(&rt, 4, tables.room_for(119));
    ask(&rt, 5, !tables.room_for(120));
}

// The 24 bits from a sector on.
fn bits<R: Abort>(rt: &R, store: &mut Repeated, tables: &mut Tables, sector: u64) -> [u8; 3] {
    assert!(rt; are_childs(&tables.parts) && sector <= 100_000 && sector % 8 == 0);
    let mut bits = [0; 3];
    done(rt, tables.bits(store, sector, &mut bits));
    bits
}

fn set_bits<R: Abort>(rt: &R, store: &mut Repeated, tables: &mut Tables, sector: u64, count: u64) {
    assert!(rt; are_childs(&tables.parts) && sector <= 100_000 && count <= 8);
    assert!(rt; tables.room_for(2));
    done(rt, tables.set_bits(store, sector, count, true));
}

#[test]
fn bits_are_set_alone(rt: HostRuntime) {
    let mut store = same_pages(&rt, rt.alloc());
    let mut tables = tables_of_the_child(&rt, rt.alloc());
    ask(
        &rt,
        1,
        bits(&rt, &mut store, &mut tables, 0) == [6, 0, 0x50],
    );
    set_bits(&rt, &mut store, &mut tables, 3, 8);
    ask(
        &rt,
        2,
        bits(&rt, &mut store, &mut tables, 0) == [0xfe, 7, 0x50],
    );
    set_bits(&rt, &mut store, &mut tables, 32_766, 4);
    ask(
        &rt,
        3,
        bits(&rt, &mut store, &mut tables, 32_760) == [0xc0, 7, 0],
    );
    ask(&rt, 4, tables.room_for(118));
    ask(&rt, 5, !tables.room_for(119));
}
