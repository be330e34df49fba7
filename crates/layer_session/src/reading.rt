//! Sectors are read by the tables of their file. No table is changed.

ghost use Rattle.std.specs.Prelude.{◌≡◌, ◌+◌, ◌*◌, ◌%◌, ◌^◌, ◌<◌, ◌≤◌, ℕ, min, length, true, OnOk, IfErr, ◌-◌};
ghost use Rattle.store_model.specs.Disk.{ReadFailed, WhereTold};
ghost use Rattle.store_model.specs.File.{seen};
ghost use Rattle.store_model.specs.Trace.{file_of};
ghost use Rattle.vx_base.specs.Fields.{zeros};
ghost use Rattle.vhdx_format.specs.SectorBitmaps.{bit_of, bit_value};
ghost use Rattle.layer_session.specs.Keeping.{IsPartAt};
ghost use Rattle.layer_session.specs.TablesRead.{HasRead};
ghost use Rattle.layer_session.specs.Runs.{HaveOneBitmap, SectorsAreReadable, SectorsFit};
ghost use Rattle.layer_session.specs.SectorRanges.{LieInBlock};
ghost use Rattle.layer_session.specs.Found.{KeepsFound, KeepsOthers};
ghost use Rattle.layer_session.specs.ByTables.{AddsOwnedBy, HasOwnedBy, HasOwnedMarked, HasOwnedRun, LieIn, WhereHeld};

use crate::geometry::{entry_index, offset_in_block, place_in, run_in_block};
use bat_entry::{BlockSectors, sectors_of};
use sector_bits::{first_run, set_range};
use store_model::{Store, StoreFault};
use table_pages::{TableParts, Tables};

/// How many sectors' bits are read at once.
const PIECE: u64 = 2_048;

/// Bytes of that many bits.
const PIECE_BYTES: usize = 256;

// Fills a run of sectors of which the file has zeros.
#[tactic(auto, unfolding(vx_base::specs::Fields::zeros))]
fn clear(out: &mut [u8])
    ensures { out.new ≡ zeros (length out.old) }
{
    out.fill(0);
}

// Takes sectors that stand one after the other from byte `place` of the file on, where the file has them; else marks that it
// doesn't.
fn take_run<S: Store>(
    store: &mut S,
    parts: &TableParts,
    place: u64,
    has: bool,
    count: usize,
    out: &mut [u8],
    mask: &mut [u8],
    at: usize,
) -> Result<(), StoreFault>
    requires there { parts.now.file < (S.disk store.old).files }
    requires room { SectorsFit count parts.now.sector out.old mask.old at }
    requires inside { has ≡ true → LieIn parts.now (S.disk store.old) place count }
    ensures owned { OnOk result (HasOwnedRun parts.now (S.disk store.old) has place count at mask.old mask.new out.old out.new) }
    ensures others { KeepsOthers at count mask.old mask.new }
    ensures stays { OnOk result (S.disk store.new ≡ S.disk store.old) }
    ensures err { IfErr result (ReadFailed parts.now.file (S.disk store.old) (S.disk store.new)) }
{
    if !has {
        set_range(mask, at, count, false);
        return Ok(());
    }
    store.read_at(parts.file, place, out)?;
    set_range(mask, at, count, true);
    Ok(())
}

// Takes the sectors that are marked: the bits from `skip` on are those of the sectors from byte `place` of the file on.
fn own_marked<S: Store>(
    store: &mut S,
    parts: &TableParts,
    place: u64,
    bits: &[u8],
    skip: usize,
    count: usize,
    out: &mut [u8],
    mask: &mut [u8],
    at: usize,
) -> Result<(), StoreFault>
    requires there { parts.now.file < (S.disk store.old).files }
    requires bits { skip + count ≤ 8 * length bits.now }
    requires fits { skip + count < 2 ^ 64 }
    requires room { SectorsFit count parts.now.sector out.old mask.old at }
    requires inside { LieIn parts.now (S.disk store.old) place count }
    requires small { WhereTold (S.disk store.old).told (λ trace. length (seen (file_of trace parts.now.file)) < 2 ^ 64) }
    ensures owned { OnOk result (HasOwnedMarked parts.now (S.disk store.old) bits.now skip place count at mask.old mask.new out.old out.new) }
    ensures others { KeepsOthers at count mask.old mask.new }
    ensures stays { OnOk result (S.disk store.new ≡ S.disk store.old) }
    ensures err { IfErr result (ReadFailed parts.now.file (S.disk store.old) (S.disk store.new)) }
{
    if count == 0 {
        return Ok(());
    }
    let run = first_run(bits, skip, count);
    let bytes = parts.sector as usize * run.count;
    let (piece, rest) = out.split_at_mut(bytes);
    take_run(store, parts, place, run.set, run.count, piece, mask, at)?;
    own_marked(
        store,
        parts,
        place.saturating_add(bytes as u64),
        bits,
        skip + run.count,
        count - run.count,
        rest,
        mask,
        at + run.count,
    )
}

/// Adds what the file has of so many sectors from `first` on to what was found of them: their bytes, and their bits in the
/// mask from `at` on. What was found stays as it is, and isn't read.
pub fn own_missing<S: Store>(
    tables: &mut Tables,
    store: &mut S,
    first: u64,
    count: u64,
    out: &mut [u8],
    mask: &mut [u8],
    at: usize,
) -> Result<(), StoreFault>
    requires readable { SectorsAreReadable tables.old (S.disk store.old) }
    requires on_disk { first + count ≤ tables.old.parts.sectors }
    requires room { SectorsFit count tables.old.parts.sector out.old mask.old at }
    ensures added { OnOk result (AddsOwnedBy tables.old (S.disk store.old) first count at mask.old mask.new out.old out.new) }
    ensures found { KeepsFound mask.old mask.new }
    ensures reads { HasRead tables.old tables.new (S.disk store.old) }
    ensures stays { OnOk result (S.disk store.new ≡ S.disk store.old) }
    ensures err { IfErr result (ReadFailed tables.old.parts.file (S.disk store.old) (S.disk store.new)) }
{
    if count == 0 {
        return Ok(());
    }
    let run = first_run(mask, at, count as usize);
    let len = run.count as u64;
    let (piece, rest) = out.split_at_mut((u64::from(tables.parts.sector) * len) as usize);
    add_run(tables, store, run.set, first, len, piece, mask, at)?;
    own_missing(
        tables,
        store,
        first + len,
        count - len,
        rest,
        mask,
        at + run.count,
    )
}

// The same of sectors of which all were found, or none.
fn add_run<S: Store>(
    tables: &mut Tables,
    store: &mut S,
    found: bool,
    first: u64,
    count: u64,
    out: &mut [u8],
    mask: &mut [u8],
    at: usize,
) -> Result<(), StoreFault>
    requires readable { SectorsAreReadable tables.old (S.disk store.old) }
    requires on_disk { first + count ≤ tables.old.parts.sectors }
    requires room { SectorsFit count tables.old.parts.sector out.old mask.old at }
    requires all { (i : ℕ) → at ≤ i → i < at + count → bit_of mask.old i ≡ bit_value found }
    ensures added { OnOk result (AddsOwnedBy tables.old (S.disk store.old) first count at mask.old mask.new out.old out.new) }
    ensures found { KeepsFound mask.old mask.new }
    ensures reads { HasRead tables.old tables.new (S.disk store.old) }
    ensures stays { OnOk result (S.disk store.new ≡ S.disk store.old) }
    ensures err { IfErr result (ReadFailed tables.old.parts.file (S.disk store.old) (S.disk store.new)) }
{
    if found {
        return Ok(());
    }
    own_all(tables, store, first, count, out, mask, at)
}

// Which of the sectors from `first` on the file has, as bits of the mask from `at` on, and the bytes of those. The bytes of the
// others stay.
fn own_all<S: Store>(
    tables: &mut Tables,
    store: &mut S,
    first: u64,
    count: u64,
    out: &mut [u8],
    mask: &mut [u8],
    at: usize,
) -> Result<(), StoreFault>
    requires readable { SectorsAreReadable tables.old (S.disk store.old) }
    requires on_disk { first + count ≤ tables.old.parts.sectors }
    requires room { SectorsFit count tables.old.parts.sector out.old mask.old at }
    ensures owned { OnOk result (HasOwnedBy tables.old (S.disk store.old) first count at mask.old mask.new out.old out.new) }
    ensures others { KeepsOthers at count mask.old mask.new }
    ensures reads { HasRead tables.old tables.new (S.disk store.old) }
    ensures stays { OnOk result (S.disk store.new ≡ S.disk store.old) }
    ensures err { IfErr result (ReadFailed tables.old.parts.file (S.disk store.old) (S.disk store.new)) }
{
    if count == 0 {
        return Ok(());
    }
    let len = run_in_block(&tables.parts, first, count);
    let (run, rest) = out.split_at_mut((u64::from(tables.parts.sector) * len) as usize);
    own_run(tables, store, first, len, run, mask, at)?;
    own_all(
        tables,
        store,
        first + len,
        count - len,
        rest,
        mask,
        at + len as usize,
    )
}

// The same of sectors that lie in one block.
fn own_run<S: Store>(
    tables: &mut Tables,
    store: &mut S,
    first: u64,
    count: u64,
    out: &mut [u8],
    mask: &mut [u8],
    at: usize,
) -> Result<(), StoreFault>
    requires readable { SectorsAreReadable tables.old (S.disk store.old) }
    requires some { 0 < count }
    requires block { LieInBlock tables.old.parts first count }
    requires room { SectorsFit count tables.old.parts.sector out.old mask.old at }
    ensures owned { OnOk result (HasOwnedBy tables.old (S.disk store.old) first count at mask.old mask.new out.old out.new) }
    ensures others { KeepsOthers at count mask.old mask.new }
    ensures reads { HasRead tables.old tables.new (S.disk store.old) }
    ensures stays { OnOk result (S.disk store.new ≡ S.disk store.old) }
    ensures err { IfErr result (ReadFailed tables.old.parts.file (S.disk store.old) (S.disk store.new)) }
{
    let parts = tables.parts;
    let word = tables.entry(store, entry_index(&parts, first))?;
    let place = place_in(word >> 20, offset_in_block(&parts, first));
    match sectors_of(word, parts.parent) {
        BlockSectors::Here => take_run(store, &parts, place, true, count as usize, out, mask, at),
        BlockSectors::Marked => own_part(tables, store, place, first, count, out, mask, at),
        BlockSectors::Absent => {
            set_range(mask, at, count as usize, false);
            Ok(())
        }
        BlockSectors::Zeros => {
            clear(out);
            set_range(mask, at, count as usize, true);
            Ok(())
        }
    }
}

// The same of sectors of a partially present block, which stand from byte `place` of the file on.
fn own_part<S: Store>(
    tables: &mut Tables,
    store: &mut S,
    place: u64,
    first: u64,
    count: u64,
    out: &mut [u8],
    mask: &mut [u8],
    at: usize,
) -> Result<(), StoreFault>
    requires readable { SectorsAreReadable tables.old (S.disk store.old) }
    requires bitmap { HaveOneBitmap tables.old (S.disk store.old) first count }
    requires part { 0 < count → WhereHeld tables.old (S.disk store.old) (λ p file. IsPartAt p file first count place) }
    requires room { SectorsFit count tables.old.parts.sector out.old mask.old at }
    ensures owned { OnOk result (HasOwnedBy tables.old (S.disk store.old) first count at mask.old mask.new out.old out.new) }
    ensures others { KeepsOthers at count mask.old mask.new }
    ensures reads { HasRead tables.old tables.new (S.disk store.old) }
    ensures stays { OnOk result (S.disk store.new ≡ S.disk store.old) }
    ensures err { IfErr result (ReadFailed tables.old.parts.file (S.disk store.old) (S.disk store.new)) }
{
    if count == 0 {
        return Ok(());
    }
    let len = count.min(PIECE - first % 8);
    let bytes = u64::from(tables.parts.sector) * len;
    let (piece, rest) = out.split_at_mut(bytes as usize);
    own_few(tables, store, place, first, len, piece, mask, at)?;
    own_part(
        tables,
        store,
        place.saturating_add(bytes),
        first + len,
        count - len,
        rest,
        mask,
        at + len as usize,
    )
}

// The same of so many that their bits are read at once.
fn own_few<S: Store>(
    tables: &mut Tables,
    store: &mut S,
    place: u64,
    first: u64,
    count: u64,
    out: &mut [u8],
    mask: &mut [u8],
    at: usize,
) -> Result<(), StoreFault>
    requires readable { SectorsAreReadable tables.old (S.disk store.old) }
    requires some { 0 < count }
    requires few { first % 8 + count ≤ 2048 }
    requires bitmap { HaveOneBitmap tables.old (S.disk store.old) first count }
    requires part { WhereHeld tables.old (S.disk store.old) (λ p file. IsPartAt p file first count place) }
    requires room { SectorsFit count tables.old.parts.sector out.old mask.old at }
    ensures owned { OnOk result (HasOwnedBy tables.old (S.disk store.old) first count at mask.old mask.new out.old out.new) }
    ensures others { KeepsOthers at count mask.old mask.new }
    ensures reads { HasRead tables.old tables.new (S.disk store.old) }
    ensures stays { OnOk result (S.disk store.new ≡ S.disk store.old) }
    ensures err { IfErr result (ReadFailed tables.old.parts.file (S.disk store.old) (S.disk store.new)) }
{
    let parts = tables.parts;
    let skip = first % 8;
    let mut bits = [0; PIECE_BYTES];
    let bytes = (skip + count).div_ceil(8) as usize;
    let piece = &mut bits[..bytes];
    tables.bits(store, first - skip, piece)?;
    own_marked(
        store,
        &parts,
        place,
        piece,
        skip as usize,
        count as usize,
        out,
        mask,
        at,
    )
}
