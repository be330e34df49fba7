//! How one item is changed.

ghost use Rattle.std.specs.Prelude.{◌≡◌, ◌≤◌, ◌<◌, ◌+◌, ◌/◌, ◌^◌, ◌++◌, false, length, IsNone, IsTrue, IfSome};
ghost use Rattle.vhdx_format.specs.MetadataTables.{is_outside, metadata_entry_bytes, metadata_entries};
ghost use Rattle.vhdx_format.specs.Updates as spec;
ghost use Rattle.vhdx_format.specs.Updates.{with_changed, with_new};
ghost use Rattle.vx_base.specs.Fields as fields;
ghost use Rattle.vx_base.specs.Fields.{written_over};
ghost use Rattle.meta_edit.specs.Edits as edits;
ghost use Rattle.meta_edit.specs.Edits.{IsSound, is_of_kind};
ghost use Rattle.meta_edit.specs.Pages.{ArePages, HasMetadata};
ghost use Rattle.meta_edit.specs.Steps.{AnswersLaid, EndsUpdate, IsLaid, IsSoundTable, PutsInRegion, added_there, changed_there, item_in_table, moved_to};

use crate::laying::{LaidFile, put, read_laid};
use crate::table::{find_item, is_full_table, items_end};
use crate::{ItemKind, MetaRefusal, Updates};
use byteorder::{ByteOrder, LittleEndian};
use metadata_table::{ItemFlags, entry_bytes};
use std::alloc::Global;
use store_model::Store;
use vhdx_format::{METADATA_TABLE_LEN, MetadataEntry, PARENT_LOCATOR, RETIRED};
use vx_base::{Parts, put_u32, u16_at, zeroed};

// An offset and a length, as an entry has them.
fn place_bytes(at: u32, len: u32) -> [u8; 8]
    ensures { result ≡ fields.u32_bytes at ++ fields.u32_bytes len }
{
    let mut bytes = [0; 8];
    put_u32(&mut bytes, 0, at);
    put_u32(&mut bytes, 4, len);
    bytes
}

// A number of two bytes.
fn u16_value(n: u16) -> [u8; 2]
    ensures { result ≡ fields.u16_bytes n }
{
    let mut value = [0; 2];
    LittleEndian::write_u16(&mut value, n);
    value
}

// The entry of a new item.
fn new_entry(kind: ItemKind, at: u32, len: u32) -> [u8; 32]
    ensures { result ≡ metadata_entry_bytes (edits.id_of kind) at len (edits.flags_of kind) }
{
    match kind {
        ItemKind::Locator => entry_bytes(PARENT_LOCATOR, at, len, ItemFlags::IS_REQUIRED),
        ItemKind::Retired => entry_bytes(RETIRED, at, len, ItemFlags::IS_USER),
    }
}

// The offset of a value: one of no bytes has no place.
fn offset_of(at: u32, value: &[u8]) -> u32
    ensures { result ≡ spec.offset_of at value.now }
{
    if value.is_empty() { 0 } else { at }
}

// Whether a value may be written over the old one. That an item lies within its region is known of metadata that were
// read, but of a store that tells nothing.
fn goes_in_place(parts: &Parts, old: &MetadataEntry, value: &[u8]) -> bool
    requires { HasMetadata parts.now }
    ensures short { IsTrue result → length value.now ≤ old.now.len }
    ensures within { IsTrue result → 0 < length value.now → old.now.at + length value.now ≤ parts.now.meta_len }
    ensures behind { IsTrue result → 0 < length value.now → 65536 ≤ old.now.at }
    ensures longer { result ≡ false → is_outside parts.now.meta_len old.now ≡ false → old.now.len < length value.now }
{
    let end = u64::from(old.at) + value.len() as u64;
    value.len() <= old.len as usize
        && (value.is_empty()
            || (old.at >= METADATA_TABLE_LEN as u32 && end <= u64::from(parts.meta_len)))
}

// Where a value of so many bytes goes, if it fits behind the last item.
fn place_for(parts: &Parts, end: u64, value: &[u8]) -> Option<u32>
    requires end { end < 2 ^ 35 }
    requires value { length value.now ≤ 65536 }
    ensures none { IsNone result → parts.now.meta_len < end + length value.now }
    ensures place { IfSome result (λ place. (place ≡ end) × (end + length value.now ≤ parts.now.meta_len)) }
{
    let region_len = parts.meta_len;
    if end + value.len() as u64 > u64::from(region_len) {
        None
    } else {
        Some(end as u32)
    }
}

// Changes bytes at an offset of the region, if there are any.
fn put_in_region<S: Store>(
    store: &mut S,
    laid: &LaidFile<'_>,
    mut updates: Updates,
    offset: u32,
    bytes: &[u8],
) -> Result<Updates, MetaRefusal>
    requires laid { IsLaid laid.now (S.disk store.old) }
    requires updates { ArePages laid.now.parts.now updates }
    requires last { 0 < length bytes.now → offset + length bytes.now ≤ laid.now.parts.now.meta_len }
    ensures { PutsInRegion laid.now (λ region. (written_over region offset bytes.now)) (length bytes.now / 4096 + 2) updates
        (S.disk store.old) (S.disk store.new) result }
{
    if bytes.is_empty() {
        return Ok(updates);
    }
    let at = laid.parts.meta_at + u64::from(offset);
    put(store, laid, &mut updates, at, bytes)?;
    Ok(updates)
}

// Changes bytes at an offset of the region, and then at another.
fn put_both<S: Store>(
    store: &mut S,
    laid: &LaidFile<'_>,
    updates: Updates,
    first_at: u32,
    first: &[u8],
    second_at: u32,
    second: &[u8],
) -> Result<Updates, MetaRefusal>
    requires laid { IsLaid laid.now (S.disk store.old) }
    requires updates { ArePages laid.now.parts.now updates }
    requires first { 0 < length first.now → first_at + length first.now ≤ laid.now.parts.now.meta_len }
    requires second { 0 < length second.now → second_at + length second.now ≤ laid.now.parts.now.meta_len }
    ensures { PutsInRegion laid.now (λ region. (written_over (written_over region first_at first.now) second_at second.now))
        (length first.now / 4096 + 2 + (length second.now / 4096 + 2)) updates (S.disk store.old) (S.disk store.new) result }
{
    let updates = put_in_region(store, laid, updates, first_at, first)?;
    put_in_region(store, laid, updates, second_at, second)
}

// The offset of the place that an entry gives.
fn place_in_entry(old: &MetadataEntry) -> u32
    requires { old.now.index ≤ 2047 }
    ensures { result ≡ spec.entry_place old.now.index + 16 }
{
    32 * old.index + 16
}

// Writes a value over the old one, and its length into the entry.
fn change_in_place<S: Store>(
    alloc: Global,
    store: &mut S,
    laid: &LaidFile<'_>,
    old: &MetadataEntry,
    value: &[u8],
) -> Result<Updates, MetaRefusal>
    requires laid { IsLaid laid.now (S.disk store.old) }
    requires index { old.now.index ≤ 2047 }
    requires value { length value.now ≤ 65536 }
    requires last { 0 < length value.now → old.now.at + length value.now ≤ laid.now.parts.now.meta_len }
    ensures answer { AnswersLaid laid.now (S.disk store.old) (λ region. (Some (changed_there region old.now value.now))) result }
    ensures ends { EndsUpdate laid.now (S.disk store.old) (S.disk store.new) result }
{
    let place = place_bytes(offset_of(old.at, value), value.len() as u32);
    let updates = Updates::new(alloc);
    put_both(
        store,
        laid,
        updates,
        old.at,
        value,
        place_in_entry(old),
        &place,
    )
}

// Writes a value behind the last item, and its place into the entry.
fn move_item<S: Store>(
    alloc: Global,
    store: &mut S,
    laid: &LaidFile<'_>,
    end: u64,
    old: &MetadataEntry,
    value: &[u8],
) -> Result<Updates, MetaRefusal>
    requires laid { IsLaid laid.now (S.disk store.old) }
    requires index { old.now.index ≤ 2047 }
    requires value { length value.now ≤ 65536 }
    requires end { end < 2 ^ 35 }
    ensures answer { AnswersLaid laid.now (S.disk store.old) (λ region. (moved_to region end old.now value.now)) result }
    ensures ends { EndsUpdate laid.now (S.disk store.old) (S.disk store.new) result }
{
    let Some(place) = place_for(laid.parts, end, value) else {
        return Err(MetaRefusal::MetadataFull { file: laid.file });
    };
    let entry = place_bytes(place, value.len() as u32);
    let updates = Updates::new(alloc);
    put_both(
        store,
        laid,
        updates,
        place_in_entry(old),
        &entry,
        place,
        value,
    )
}

// Changes an item that is there.
fn change_item<S: Store>(
    alloc: Global,
    store: &mut S,
    laid: &LaidFile<'_>,
    table: &[u8],
    old: &MetadataEntry,
    value: &[u8],
) -> Result<Updates, MetaRefusal>
    requires laid { IsLaid laid.now (S.disk store.old) }
    requires table { length table.now ≡ 65536 }
    requires count { fields.u16_at table.now 10 ≤ 2047 }
    requires index { old.now.index ≤ 2047 }
    requires value { length value.now ≤ 65536 }
    ensures answer { is_outside laid.now.parts.now.meta_len old.now ≡ false → AnswersLaid laid.now (S.disk store.old)
        (λ region. (with_changed region (spec.items_end (metadata_entries table.now)) old.now value.now)) result }
    ensures ends { EndsUpdate laid.now (S.disk store.old) (S.disk store.new) result }
{
    if goes_in_place(laid.parts, old, value) {
        change_in_place(alloc, store, laid, old, value)
    } else {
        move_item(alloc, store, laid, items_end(table), old, value)
    }
}

// Adds an entry behind the last one, and writes a value behind the last item.
fn add_entry<S: Store>(
    alloc: Global,
    store: &mut S,
    laid: &LaidFile<'_>,
    count: u16,
    entry: &[u8; 32],
    place: u32,
    value: &[u8],
) -> Result<Updates, MetaRefusal>
    requires laid { IsLaid laid.now (S.disk store.old) }
    requires count { count < 2047 }
    requires value { length value.now ≤ 65536 }
    requires last { place + length value.now ≤ laid.now.parts.now.meta_len }
    ensures answer { AnswersLaid laid.now (S.disk store.old) (λ region. (Some (added_there region count entry.now place value.now))) result }
    ensures ends { EndsUpdate laid.now (S.disk store.old) (S.disk store.new) result }
{
    let count = count + 1;
    let updates = put_in_region(store, laid, Updates::new(alloc), 10, &u16_value(count))?;
    put_both(
        store,
        laid,
        updates,
        32 * u32::from(count),
        entry,
        place,
        value,
    )
}

// Adds an item.
fn add_item<S: Store>(
    alloc: Global,
    store: &mut S,
    laid: &LaidFile<'_>,
    table: &[u8],
    kind: ItemKind,
    value: &[u8],
) -> Result<Updates, MetaRefusal>
    requires laid { IsLaid laid.now (S.disk store.old) }
    requires table { length table.now ≡ 65536 }
    requires count { fields.u16_at table.now 10 ≤ 2047 }
    requires value { length value.now ≤ 65536 }
    ensures answer { AnswersLaid laid.now (S.disk store.old)
        (λ region. (with_new region (spec.is_full_table (metadata_entries table.now)) (fields.u16_at table.now 10)
        (spec.items_end (metadata_entries table.now)) (edits.id_of kind) (edits.flags_of kind) value.now)) result }
    ensures ends { EndsUpdate laid.now (S.disk store.old) (S.disk store.new) result }
{
    if is_full_table(table) {
        return Err(MetaRefusal::MetadataFull { file: laid.file });
    }
    let Some(place) = place_for(laid.parts, items_end(table), value) else {
        return Err(MetaRefusal::MetadataFull { file: laid.file });
    };
    let entry = new_entry(kind, offset_of(place, value), value.len() as u32);
    add_entry(alloc, store, laid, u16_at(table, 10), &entry, place, value)
}

// Changes an item of a table, or adds it.
fn change_or_add<S: Store>(
    alloc: Global,
    store: &mut S,
    laid: &LaidFile<'_>,
    table: &[u8],
    kind: ItemKind,
    value: &[u8],
) -> Result<Updates, MetaRefusal>
    requires laid { IsLaid laid.now (S.disk store.old) }
    requires table { length table.now ≡ 65536 }
    requires value { length value.now ≤ 65536 }
    ensures answer { IsSoundTable laid.now.parts.now.meta_len table.now
        → AnswersLaid laid.now (S.disk store.old) (λ region. (item_in_table kind table.now value.now region)) result }
    ensures ends { EndsUpdate laid.now (S.disk store.old) (S.disk store.new) result }
{
    // of a table that was read this is known, but of a store that tells nothing
    if u16_at(table, 10) > 2047 {
        return Err(MetaRefusal::MetadataFull { file: laid.file });
    }
    match find_item(table, kind) {
        Some(old) => change_item(alloc, store, laid, table, &old, value),
        None => add_item(alloc, store, laid, table, kind, value),
    }
}

// Reads the table into a buffer, and goes by it.
fn update_by<S: Store>(
    alloc: Global,
    store: &mut S,
    laid: &LaidFile<'_>,
    table: &mut [u8],
    kind: ItemKind,
    value: &[u8],
) -> Result<Updates, MetaRefusal>
    requires laid { IsLaid laid.now (S.disk store.old) }
    requires table { length table.old ≡ 65536 }
    requires value { length value.now ≤ 65536 }
    requires sound { IsSound laid.now.parts.now laid.now.file laid.now.over.now (S.disk store.old) }
    ensures answer { AnswersLaid laid.now (S.disk store.old)
        (λ region. (spec.updated region (is_of_kind kind) (edits.id_of kind) (edits.flags_of kind) value.now)) result }
    ensures ends { EndsUpdate laid.now (S.disk store.old) (S.disk store.new) result }
{
    read_laid(store, laid, laid.parts.meta_at, table)?;
    change_or_add(alloc, store, laid, table, kind, value)
}

/// Changes the value of an item, or adds it.
pub fn update<S: Store>(
    alloc: Global,
    store: &mut S,
    laid: &LaidFile<'_>,
    kind: ItemKind,
    value: &[u8],
) -> Result<Updates, MetaRefusal>
    requires laid { IsLaid laid.now (S.disk store.old) }
    requires value { length value.now ≤ 65536 }
    requires sound { IsSound laid.now.parts.now laid.now.file laid.now.over.now (S.disk store.old) }
    ensures answer { AnswersLaid laid.now (S.disk store.old)
        (λ region. (spec.updated region (is_of_kind kind) (edits.id_of kind) (edits.flags_of kind) value.now)) result }
    ensures ends { EndsUpdate laid.now (S.disk store.old) (S.disk store.new) result }
{
    let mut table = zeroed(alloc, METADATA_TABLE_LEN)?;
    update_by(alloc, store, laid, table.as_mut_slice(), kind, value)
}
