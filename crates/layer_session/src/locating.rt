//! Where the sectors of a file are, by its tables. No table is changed.

ghost use Rattle.std.specs.Prelude.{◌≡◌, ◌+◌, ◌<◌, ◌≤◌, IfOk, IfErr, OnOk};
ghost use Rattle.store_model.specs.Disk.{ReadFailed};
ghost use Rattle.layer_session.specs.ByTables.{WhereHeld};
ghost use Rattle.layer_session.specs.Keeping.{IsPartAt};
ghost use Rattle.layer_session.specs.Locating.{AreLocatedBy, IsAtPlace};
ghost use Rattle.layer_session.specs.TablesRead.{HasRead};
ghost use Rattle.layer_session.specs.Runs.{HaveOneBitmap, SectorsAreReadable};

use crate::geometry::{entry_index, offset_in_block, place_in, run_in_block};
use bat_entry::{BlockSectors, sectors_of};
use sector_bits::first_run;
use store_model::{Store, StoreFault};
use table_pages::Tables;

/// How many sectors' bits are looked at at once.
const PIECE: u64 = 2_048;

/// Bytes of that many bits.
const PIECE_BYTES: usize = 256;

/// Where sectors of a file are.
#[derive(Clone, Copy)]
pub enum Whereabouts {
    /// In the file, one after the other from this byte on.
    Here(u64),
    /// Nowhere: they are zeros.
    Zeros,
    /// In the file's parent.
    Absent,
}

/// So many sectors, and where they are.
#[derive(Clone, Copy)]
pub struct Located {
    pub count: u64,
    pub at: Whereabouts,
}

// Here or absent, by a bit.
fn by_bit(set: bool, place: u64) -> Whereabouts
    ensures { IsAtPlace set place result }
{
    if set {
        Whereabouts::Here(place)
    } else {
        Whereabouts::Absent
    }
}

/// Where the first of so many sectors is, and how many of those that follow it are there in the same way.
pub fn locate<S: Store>(
    tables: &mut Tables,
    store: &mut S,
    first: u64,
    count: u64,
) -> Result<Located, StoreFault>
    requires readable { SectorsAreReadable tables.old (S.disk store.old) }
    requires some { 0 < count }
    requires on_disk { first + count ≤ tables.old.parts.sectors }
    ensures some { IfOk result (λ found. 0 < found.count) }
    ensures most { IfOk result (λ found. found.count ≤ count) }
    ensures located { IfOk result (AreLocatedBy tables.old (S.disk store.old) first) }
    ensures reads { HasRead tables.old tables.new (S.disk store.old) }
    ensures stays { OnOk result (S.disk store.new ≡ S.disk store.old) }
    ensures err { IfErr result (ReadFailed tables.old.parts.file (S.disk store.old) (S.disk store.new)) }
{
    let parts = tables.parts;
    let len = run_in_block(&parts, first, count);
    let word = tables.entry(store, entry_index(&parts, first))?;
    let place = place_in(word >> 20, offset_in_block(&parts, first));
    match sectors_of(word, parts.parent) {
        BlockSectors::Here => Ok(Located {
            count: len,
            at: Whereabouts::Here(place),
        }),
        BlockSectors::Marked => locate_part(tables, store, place, first, len),
        BlockSectors::Absent => Ok(Located {
            count: len,
            at: Whereabouts::Absent,
        }),
        BlockSectors::Zeros => Ok(Located {
            count: len,
            at: Whereabouts::Zeros,
        }),
    }
}

// The same of sectors of a partially present block, which stand from byte `place` of the file on.
fn locate_part<S: Store>(
    tables: &mut Tables,
    store: &mut S,
    place: u64,
    first: u64,
    count: u64,
) -> Result<Located, StoreFault>
    requires readable { SectorsAreReadable tables.old (S.disk store.old) }
    requires some { 0 < count }
    requires bitmap { HaveOneBitmap tables.old (S.disk store.old) first count }
    requires part { WhereHeld tables.old (S.disk store.old) (λ p file. IsPartAt p file first count place) }
    ensures some { IfOk result (λ found. 0 < found.count) }
    ensures most { IfOk result (λ found. found.count ≤ count) }
    ensures located { IfOk result (AreLocatedBy tables.old (S.disk store.old) first) }
    ensures reads { HasRead tables.old tables.new (S.disk store.old) }
    ensures stays { OnOk result (S.disk store.new ≡ S.disk store.old) }
    ensures err { IfErr result (ReadFailed tables.old.parts.file (S.disk store.old) (S.disk store.new)) }
{
    let skip = first % 8;
    let few = count.min(PIECE - skip);
    let mut bits = [0; PIECE_BYTES];
    let bytes = (skip + few).div_ceil(8) as usize;
    let piece = &mut bits[..bytes];
    tables.bits(store, first - skip, piece)?;
    let run = first_run(piece, skip as usize, few as usize);
    Ok(Located {
        count: run.count as u64,
        at: by_bit(run.set, place),
    })
}
