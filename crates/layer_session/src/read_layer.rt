//! A file of a chain that is only read.

ghost use Rattle.std.specs.Prelude.{◌≡◌, ◌+◌, ◌*◌, ◌^◌, ◌<◌, ◌≤◌, length, Contains, IfOk, IfErr, OnOk};
ghost use Rattle.store_model.specs.Disk.{ReadFailed};
ghost use Rattle.vhdx_format.specs.FileParts.{HasNumbers};
ghost use Rattle.layer_session.specs.ReadOnly.{AreReadable, AreSameRead, CanRead, HaveSameParts, IsAnother, IsReadOf, IsSameRead, ReadLayersStand, SomeReadFailed, numbers_of};
ghost use Rattle.layer_session.specs.Found.{KeepsFound};
ghost use Rattle.layer_session.specs.ByFiles.{AddRead, AddsRead};
ghost use Rattle.layer_session.specs.Locating.{AreLocatedIn};

use crate::locating::{Located, locate};
use crate::reading::own_missing;
use sector_bits::are_set;
use std::alloc::Global;
use store_model::{Store, StoreFault};
use table_pages::{TableParts, Tables};
use vx_base::{Geometry, NoRoom, Parts};

/// A file that is only read: of each sector of the disk its bytes, or that the file doesn't have it.
#[derive(Drop)]
pub struct ReadLayer {
    pub(crate) tables: Tables,
}

impl ReadLayer {
    /// The layer of an opened file of these numbers, with room for so many pages of its tables in memory.
    pub fn new(alloc: Global, file: u32, parts: &Parts, pages: u32) -> Result<ReadLayer, NoRoom>
        requires pages { 0 < pages }
        requires numbers { HasNumbers parts.now }
        ensures { IfOk result (IsReadOf parts.now file) }
    {
        let tables = Tables::new(alloc, TableParts::new(file, parts), pages)?;
        Ok(ReadLayer { tables })
    }

    /// A layer of the same file where it has this number, with room of its own for so many pages of its tables in memory.
    pub fn another(&self, alloc: Global, file: u32, pages: u32) -> Result<ReadLayer, NoRoom>
        requires pages { 0 < pages }
        ensures { IfOk result (IsAnother file self.now) }
    {
        let mut parts = self.tables.parts;
        parts.file = file;
        let tables = Tables::new(alloc, parts, pages)?;
        Ok(ReadLayer { tables })
    }

    /// Adds what the file has of so many sectors from `first` on to what was found of them: their bytes, and their bits in the
    /// mask from `at` on. What was found stays as it is.
    pub fn own<S: Store>(
        &mut self,
        store: &mut S,
        first: u64,
        count: u64,
        out: &mut [u8],
        mask: &mut [u8],
        at: usize,
    ) -> Result<(), StoreFault>
        requires readable { CanRead self.old (S.disk store.old) }
        requires on_disk { first + count ≤ self.old.tables.parts.sectors }
        requires out { length out.old ≡ self.old.tables.parts.sector * count }
        requires mask { at + count ≤ 8 * length mask.old }
        requires ends { at + count < 2 ^ 64 }
        ensures owned { OnOk result (AddsRead self.old (S.disk store.old) first count at mask.old mask.new out.old out.new) }
        ensures found { KeepsFound mask.old mask.new }
        ensures same { IsSameRead self.old self.new (S.disk store.old) }
        ensures stays { OnOk result (S.disk store.new ≡ S.disk store.old) }
        ensures err { IfErr result (ReadFailed self.old.tables.parts.file (S.disk store.old) (S.disk store.new)) }
    {
        own_missing(&mut self.tables, store, first, count, out, mask, at)
    }

    /// Where the first of so many sectors is, and how many of those that follow it are there in the same way.
    pub fn locate<S: Store>(
        &mut self,
        store: &mut S,
        first: u64,
        count: u64,
    ) -> Result<Located, StoreFault>
        requires readable { CanRead self.old (S.disk store.old) }
        requires some { 0 < count }
        requires on_disk { first + count ≤ self.old.tables.parts.sectors }
        ensures some { IfOk result (λ found. 0 < found.count) }
        ensures most { IfOk result (λ found. found.count ≤ count) }
        ensures located { IfOk result (AreLocatedIn self.old (S.disk store.old) first) }
        ensures same { IsSameRead self.old self.new (S.disk store.old) }
        ensures stays { OnOk result (S.disk store.new ≡ S.disk store.old) }
        ensures err { IfErr result (ReadFailed self.old.tables.parts.file (S.disk store.old) (S.disk store.new)) }
    {
        locate(&mut self.tables, store, first, count)
    }

    /// What it goes by: its file's number in the store, and its sizes.
    pub fn parts(&self) -> TableParts
        ensures { result ≡ self.now.tables.parts }
    {
        self.tables.parts
    }
}

/// Adds what files have of so many sectors from `first` on to what was found of them, file by file, the upper one first, until
/// all is found: their bytes, and their bits in the mask from `at` on. All have the disk of this geometry.
pub fn own_through<S: Store>(
    layers: &mut [ReadLayer],
    store: &mut S,
    geometry: Geometry,
    first: u64,
    count: u64,
    out: &mut [u8],
    mask: &mut [u8],
    at: usize,
) -> Result<(), StoreFault>
    requires readable { AreReadable geometry (S.disk store.old) layers.old }
    requires on_disk { first + count ≤ geometry.sectors }
    requires out { length out.old ≡ geometry.sector * count }
    requires mask { at + count ≤ 8 * length mask.old }
    requires ends { at + count < 2 ^ 64 }
    ensures owned { OnOk result (AddRead layers.old geometry.sector (S.disk store.old) first count at mask.old mask.new out.old out.new) }
    ensures same { AreSameRead geometry layers.old layers.new (S.disk store.old) }
    ensures parts { HaveSameParts layers.old layers.new }
    ensures stays { OnOk result (S.disk store.new ≡ S.disk store.old) }
    ensures err { IfErr result (SomeReadFailed (S.disk store.old) (S.disk store.new)) }
    ensures whose { IfErr result (λ fault. Contains (numbers_of layers.old) fault.file) }
{
    if are_set(mask, at, count as usize) {
        return Ok(());
    }
    let Some((upper, below)) = layers.split_first_mut() else {
        return Ok(());
    };
    upper.own(store, first, count, out, mask, at)?;
    own_through(below, store, geometry, first, count, out, mask, at)
}

/// What a layer that is only read has hangs on its own file and on the files' names alone.
pub fn read_layers_stand()
    ensures { ReadLayersStand }
{}
