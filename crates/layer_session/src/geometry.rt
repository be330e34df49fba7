//! Blocks and their entries, by sectors.

ghost use Rattle.std.specs.Prelude.{◌≡◌, ◌+◌, ◌-◌, ◌*◌, ◌/◌, ◌%◌, ◌^◌, ◌<◌, ◌≤◌, ◌↔◌, min, IsTrue};
ghost use Rattle.vhdx_format.specs.Fields.{megabyte};
ghost use Rattle.vhdx_format.specs.Layers as spec;
ghost use Rattle.table_pages.specs.Held.{HasTables, shape_of, bit_pages};
ghost use Rattle.layer_session.specs.Blocks as blocks;
ghost use Rattle.layer_session.specs.Planning as planning;

use bat_entry::{bitmap_index, chunk_ratio, payload_index};
use table_pages::TableParts;
use vhdx_format::MEGABYTE;

/// How many sectors one sector bitmap block covers.
pub const CHUNK: u64 = 1 << 23;

/// The index of the entry of a sector's block.
#[tactic(auto, using(crate::proofs::Places::entry_in))]
pub fn entry_index(parts: &TableParts, sector: u64) -> u64
    requires parts { HasTables parts.now }
    requires sector { sector < parts.now.sectors }
    ensures index { result ≡ spec.entry_of (shape_of parts.now) sector }
    ensures inside { 8 * result + 8 ≤ parts.now.bat_len }
{
    let block = sector * u64::from(parts.sector) / u64::from(parts.block);
    payload_index(block, chunk_ratio(parts.sector, parts.block))
}

/// The index of the entry of the sector bitmap block that covers a sector, in a file with a parent.
#[tactic(auto, using(table_pages::proofs::Bitmaps::bitmap_in_table))]
pub fn bitmap_entry_index(parts: &TableParts, sector: u64) -> u64
    requires parts { HasTables parts.now }
    requires parent { IsTrue parts.now.parent }
    requires sector { sector < parts.now.sectors }
    ensures index { result ≡ spec.bitmap_entry_of (shape_of parts.now) sector }
    ensures inside { 8 * result + 8 ≤ parts.now.bat_len }
{
    bitmap_index(sector / CHUNK, chunk_ratio(parts.sector, parts.block))
}

/// Where a sector begins in its block, in bytes.
pub fn offset_in_block(parts: &TableParts, sector: u64) -> u64
    requires parts { HasTables parts.now }
    requires sector { sector < parts.now.sectors }
    ensures is { result ≡ sector * parts.now.sector % parts.now.block }
    ensures inside { result + parts.now.sector ≤ parts.now.block }
{
    sector * u64::from(parts.sector) % u64::from(parts.block)
}

/// How many of the sectors from `first` on lie in its block, at most `count`.
pub fn run_in_block(parts: &TableParts, first: u64, count: u64) -> u64
    requires parts { HasTables parts.now }
    requires first { first < parts.now.sectors }
    requires count { 0 < count }
    ensures some { 0 < result }
    ensures most { result ≤ count }
    ensures is { result ≡ blocks.run_in_block (shape_of parts.now) first count }
    ensures inside { first * parts.now.sector % parts.now.block + result * parts.now.sector ≤ parts.now.block }
{
    let room = u64::from(parts.block) - offset_in_block(parts, first);
    count.min(room / u64::from(parts.sector))
}

/// Whether these sectors, which lie in one block, are all sectors of the disk in it.
pub fn is_whole_block(parts: &TableParts, first: u64, count: u64) -> bool
    requires parts { HasTables parts.now }
    requires on_disk { first + count ≤ parts.now.sectors }
    requires some { 0 < count }
    ensures { result ≡ planning.is_whole (shape_of parts.now) first count }
{
    let ends = offset_in_block(parts, first) + count * u64::from(parts.sector);
    offset_in_block(parts, first) == 0
        && (first + count == parts.sectors || ends == u64::from(parts.block))
}

/// The sectors of a block: the first one of that which a sector lies in.
pub fn block_start(parts: &TableParts, sector: u64) -> u64
    requires parts { HasTables parts.now }
    requires sector { sector < parts.now.sectors }
    ensures is { result ≡ sector - sector * parts.now.sector % parts.now.block / parts.now.sector }
{
    sector - offset_in_block(parts, sector) / u64::from(parts.sector)
}

/// How many sectors a block has.
pub fn block_sectors(parts: &TableParts) -> u64
    requires parts { HasTables parts.now }
    ensures { result ≡ parts.now.block / parts.now.sector }
{
    u64::from(parts.block) / u64::from(parts.sector)
}

/// How many units of 1 MB a block has.
pub fn block_units(parts: &TableParts) -> u64
    requires parts { HasTables parts.now }
    ensures is { result ≡ parts.now.block / megabyte }
    ensures some { 0 < result }
    ensures most { result ≤ 256 }
{
    u64::from(parts.block) / MEGABYTE
}

/// Where a block of this unit holds a byte, in bytes of the file.
pub fn place_in(unit: u64, offset: u64) -> u64
    requires { unit < 2 ^ 44 }
    ensures { result ≡ min (unit * megabyte + offset) (2 ^ 64 - 1) }
{
    (unit * MEGABYTE).saturating_add(offset)
}

/// How many pages of a sector bitmap the bits of so many sectors from bit `from` of it lie in.
pub fn pages_of_bits(from: u64, count: u64) -> u64
    requires { from + count ≤ 2 ^ 23 }
    ensures { result ≡ bit_pages from count }
{
    (from % 32_768 + count).div_ceil(32_768)
}
