//! Sectors of blocks that a file doesn't have, found by its entries. No table is changed.

ghost use Rattle.std.specs.Prelude.{◌≡◌, ◌+◌, ◌<◌, ◌≤◌, ℕ, min, IfOk, IfErr, OnOk};
ghost use Rattle.store_model.specs.Disk.{ReadFailed, WhereTold};
ghost use Rattle.table_pages.specs.Held.{HasTables, shape_of};
ghost use Rattle.chain_model.specs.Layers as chain;
ghost use Rattle.layer_session.specs.Absent as absent;
ghost use Rattle.layer_session.specs.Absent.{AreAbsent, FindsAbsent, OwnsNone};
ghost use Rattle.layer_session.specs.ByTables.{WhereHeld};
ghost use Rattle.layer_session.specs.Calls.{IsSame};
ghost use Rattle.layer_session.specs.FileLayers.{FileCanBeRead, Holds, IsSameFile, number_of, table_parts};
ghost use Rattle.layer_session.specs.Keeping.{IsReadable};
ghost use Rattle.layer_session.specs.ReadOnly.{CanRead, IsSameRead};
ghost use Rattle.layer_session.specs.TablesRead.{AreReadable, HasRead};
ghost use Rattle.layer_session.specs.declared.file_layer.FileLayer.TheVariants as kind;

use crate::file::Layer;
use crate::file_layer::FileLayer;
use crate::geometry::{entry_index, offset_in_block, run_in_block};
use crate::read_layer::ReadLayer;
use bat_entry::NOT_PRESENT;
use store_model::{Store, StoreFault};
use table_pages::{TableParts, Tables};

/// How many blocks are looked at at once.
const BLOCKS: u64 = 512;

// How many of so many sectors from `first` on lie in its block and the 511 behind it.
fn within_blocks(parts: &TableParts, first: u64, count: u64) -> u64
    requires parts { HasTables parts.now }
    requires first { first < parts.now.sectors }
    ensures { result ≡ min count (absent.sectors_looked_at (shape_of parts.now) first) }
{
    let room = BLOCKS * u64::from(parts.block) - offset_in_block(parts, first);
    count.min(room / u64::from(parts.sector))
}

// Whether a sector lies in a block that the file doesn't have.
fn is_absent<S: Store>(tables: &mut Tables, store: &mut S, sector: u64) -> Result<bool, StoreFault>
    requires readable { AreReadable tables.old (S.disk store.old) }
    requires on_disk { sector < tables.old.parts.sectors }
    ensures absent { IfOk result (λ is. WhereHeld tables.old (S.disk store.old) (λ p file. is ≡ absent.is_absent p file sector)) }
    ensures reads { HasRead tables.old tables.new (S.disk store.old) }
    ensures stays { OnOk result (S.disk store.new ≡ S.disk store.old) }
    ensures err { IfErr result (ReadFailed tables.old.parts.file (S.disk store.old) (S.disk store.new)) }
{
    let parts = tables.parts;
    let word = tables.entry(store, entry_index(&parts, sector))?;
    Ok((word % 8) as u32 == NOT_PRESENT && parts.parent)
}

// How many of so many sectors lie, from the first one on, in blocks that the file doesn't have.
fn count_absent<S: Store>(
    tables: &mut Tables,
    store: &mut S,
    first: u64,
    count: u64,
) -> Result<u64, StoreFault>
    requires readable { AreReadable tables.old (S.disk store.old) }
    requires on_disk { first + count ≤ tables.old.parts.sectors }
    ensures most { IfOk result (λ n. n ≤ count) }
    ensures absent { IfOk result (λ n. WhereHeld tables.old (S.disk store.old) (λ p file. AreAbsent p file first count n)) }
    ensures reads { HasRead tables.old tables.new (S.disk store.old) }
    ensures stays { OnOk result (S.disk store.new ≡ S.disk store.old) }
    ensures err { IfErr result (ReadFailed tables.old.parts.file (S.disk store.old) (S.disk store.new)) }
{
    if count == 0 {
        return Ok(0);
    }
    if !is_absent(tables, store, first)? {
        return Ok(0);
    }
    let len = run_in_block(&tables.parts, first, count);
    let more = count_absent(tables, store, first + len, count - len)?;
    Ok(len + more)
}

// The same, by the entries of 512 blocks at most.
fn find_absent<S: Store>(
    tables: &mut Tables,
    store: &mut S,
    first: u64,
    count: u64,
) -> Result<u64, StoreFault>
    requires readable { AreReadable tables.old (S.disk store.old) }
    requires some { 0 < count }
    requires on_disk { first + count ≤ tables.old.parts.sectors }
    ensures most { IfOk result (λ n. n ≤ count) }
    ensures absent { IfOk result (λ n. FindsAbsent tables.old (S.disk store.old) first count n) }
    ensures reads { HasRead tables.old tables.new (S.disk store.old) }
    ensures stays { OnOk result (S.disk store.new ≡ S.disk store.old) }
    ensures err { IfErr result (ReadFailed tables.old.parts.file (S.disk store.old) (S.disk store.new)) }
{
    let few = within_blocks(&tables.parts, first, count);
    count_absent(tables, store, first, few)
}

impl Layer {
    /// How many of so many sectors lie, from the first one on, in blocks that the file doesn't have: its entries say so, of which no more than
    /// 512 are looked at.
    pub fn absent<S: Store>(
        &mut self,
        store: &mut S,
        first: u64,
        count: u64,
    ) -> Result<u64, StoreFault>
        requires readable { IsReadable self.old (S.disk store.old) }
        requires some { 0 < count }
        requires on_disk { first + count ≤ self.old.tables.parts.sectors }
        ensures most { IfOk result (λ n. n ≤ count) }
        ensures absent { IfOk result (λ n. FindsAbsent self.old.tables (S.disk store.old) first count n) }
        ensures none { IfOk result (λ n. (layer : chain.Layer) → WhereTold (S.disk store.old).told (λ trace. Holds (kind.Session self.old) trace layer → OwnsNone layer first n)) }
        ensures same { IsSame self.old self.new (S.disk store.old) }
        ensures stays { OnOk result (S.disk store.new ≡ S.disk store.old) }
        ensures err { IfErr result (ReadFailed self.old.tables.parts.file (S.disk store.old) (S.disk store.new)) }
    {
        find_absent(&mut self.tables, store, first, count)
    }
}

impl ReadLayer {
    /// How many of so many sectors lie, from the first one on, in blocks that the file doesn't have, as `Layer::absent` finds it.
    pub fn absent<S: Store>(
        &mut self,
        store: &mut S,
        first: u64,
        count: u64,
    ) -> Result<u64, StoreFault>
        requires readable { CanRead self.old (S.disk store.old) }
        requires some { 0 < count }
        requires on_disk { first + count ≤ self.old.tables.parts.sectors }
        ensures most { IfOk result (λ n. n ≤ count) }
        ensures absent { IfOk result (λ n. FindsAbsent self.old.tables (S.disk store.old) first count n) }
        ensures none { IfOk result (λ n. (layer : chain.Layer) → WhereTold (S.disk store.old).told (λ trace. Holds (kind.Read self.old) trace layer → OwnsNone layer first n)) }
        ensures same { IsSameRead self.old self.new (S.disk store.old) }
        ensures stays { OnOk result (S.disk store.new ≡ S.disk store.old) }
        ensures err { IfErr result (ReadFailed self.old.tables.parts.file (S.disk store.old) (S.disk store.new)) }
    {
        find_absent(&mut self.tables, store, first, count)
    }
}

impl FileLayer {
    /// How many of so many sectors lie, from the first one on, in blocks that the file doesn't have, as `Layer::absent` finds it.
    pub fn absent<S: Store>(
        &mut self,
        store: &mut S,
        first: u64,
        count: u64,
    ) -> Result<u64, StoreFault>
        requires readable { FileCanBeRead self.old (S.disk store.old) }
        requires some { 0 < count }
        requires on_disk { first + count ≤ (table_parts self.old).sectors }
        ensures most { IfOk result (λ n. n ≤ count) }
        ensures absent { IfOk result (λ n. FindsAbsent (absent.tables_of self.old) (S.disk store.old) first count n) }
        ensures none { IfOk result (λ n. (layer : chain.Layer) → WhereTold (S.disk store.old).told (λ trace. Holds self.old trace layer → OwnsNone layer first n)) }
        ensures same { IsSameFile self.old self.new (S.disk store.old) }
        ensures stays { OnOk result (S.disk store.new ≡ S.disk store.old) }
        ensures err { IfErr result (ReadFailed (number_of self.old) (S.disk store.old) (S.disk store.new)) }
    {
        match self {
            FileLayer::Session(layer) => layer.absent(store, first, count),
            FileLayer::Read(layer) => layer.absent(store, first, count),
        }
    }
}
