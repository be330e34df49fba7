//! What the table says of an item and of the room for it.

ghost use Rattle.std.specs.Prelude.{◌≡◌, ◌≤◌, ◌<◌, ◌^◌, length, find, count_by, false, IfSome};
ghost use Rattle.vhdx_format.specs.MetadataTables.{metadata_entries};
ghost use Rattle.vhdx_format.specs.MetadataTables as metadata;
ghost use Rattle.vhdx_format.specs.Updates as spec;
ghost use Rattle.vx_base.specs.Fields as fields;
ghost use Rattle.meta_edit.specs.Edits as edits;
ghost use Rattle.meta_edit.specs.Edits.{is_of_kind};

use crate::ItemKind;
use metadata_table::{entry_at, is_item, is_retired_item, is_user};
use vhdx_format::{METADATA_TABLE_LEN, MetadataEntry, PARENT_LOCATOR};
use vx_base::u16_at;

// Whether the entry is of the item.
fn is_of_kind(kind: ItemKind, entry: &MetadataEntry) -> bool
    ensures { result ≡ edits.is_of_kind kind entry.now }
{
    match kind {
        ItemKind::Locator => is_item(entry, PARENT_LOCATOR),
        ItemKind::Retired => is_retired_item(entry),
    }
}

/// The item's entry.
#[tactic(auto, using(vhdx_format::proofs::Entries::next_metadata_entry, vhdx_format::proofs::Entries::no_metadata_entry), unfolding(vhdx_format::specs::MetadataTables::metadata_entry))]
pub fn find_item(table: &[u8], kind: ItemKind) -> Option<MetadataEntry>
    requires table { length table.now ≡ 65536 }
    requires count { fields.u16_at table.now 10 ≤ 2047 }
    ensures found { result ≡ find (is_of_kind kind) (metadata_entries table.now) }
    ensures index { IfSome result (λ entry. (1 ≤ entry.index) × (entry.index ≤ 2047)) }
{
    for i in 0..u16_at(table, 10) {
        let entry = entry_at(table, i);
        if is_of_kind(kind, &entry) {
            return Some(entry);
        }
    }
    None
}

// The greater of an end and that of an item.
fn later_end(end: u64, entry: &MetadataEntry) -> u64
    ensures end { result ≡ spec.later_end end entry.now }
    ensures most { end < 2 ^ 34 → result < 2 ^ 34 }
{
    if entry.len == 0 {
        end
    } else {
        end.max(u64::from(entry.at) + u64::from(entry.len))
    }
}

/// Where a new value goes: behind all items, at a multiple of 4 KB.
#[tactic(auto, using(vhdx_format::proofs::Entries::next_metadata_entry, vhdx_format::proofs::Entries::no_metadata_entry), unfolding(vhdx_format::specs::Updates::items_end))]
pub fn items_end(table: &[u8]) -> u64
    requires table { length table.now ≡ 65536 }
    requires count { fields.u16_at table.now 10 ≤ 2047 }
    ensures end { result ≡ spec.items_end (metadata_entries table.now) }
    ensures most { result < 2 ^ 35 }
{
    let mut end = METADATA_TABLE_LEN as u64;
    for i in 0..u16_at(table, 10) {
        end = later_end(end, &entry_at(table, i));
    }
    end.div_ceil(4096) * 4096
}

// How many items a user wrote.
#[tactic(auto, using(vhdx_format::proofs::Entries::next_metadata_entry, vhdx_format::proofs::Entries::no_metadata_entry))]
fn user_count(table: &[u8]) -> usize
    requires table { length table.now ≡ 65536 }
    requires count { fields.u16_at table.now 10 ≤ 2047 }
    ensures { result ≡ count_by metadata.is_user (metadata_entries table.now) }
{
    let mut count = 0;
    for i in 0..u16_at(table, 10) {
        if is_user(&entry_at(table, i)) {
            count += 1;
        }
    }
    count
}

/// Whether the table takes no further entry.
#[tactic(auto, using(crate::proofs::TableLaws::length_entries))]
pub fn is_full_table(table: &[u8]) -> bool
    requires table { length table.now ≡ 65536 }
    requires count { fields.u16_at table.now 10 ≤ 2047 }
    ensures full { result ≡ spec.is_full_table (metadata_entries table.now) }
    ensures room { result ≡ false → fields.u16_at table.now 10 < 2047 }
{
    u16_at(table, 10) >= 2047 || user_count(table) >= 1024
}
