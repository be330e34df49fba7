//! A file of a chain, in a session or only read.

ghost use Rattle.std.specs.Prelude.{◌≡◌, ◌+◌, ◌-◌, ◌*◌, ◌^◌, ◌<◌, ◌≤◌, ℕ, length, Contains, IfErr, OnOk, OnErr, None, Ok, is_some, map};
ghost use Rattle.store_model.specs.Disk.{ReadFailed, WhereTold, WhereBothTold};
ghost use Rattle.store_model.specs.Plans.{FailsToChange};
ghost use Rattle.log_format.specs.PendingPages.{HasOnePageEach};
ghost use Rattle.layer_session.specs.ReadOnly.{SomeReadFailed};
ghost use Rattle.layer_session.specs.FileLayers.{AreReadableFiles, AreSameFiles, FileCanBeRead, FileIsReady, FileLayersStand, HaveSameNumbers, IsSameFile, OthersStand, file_numbers, log_header, log_number, number_of, table_parts};
ghost use Rattle.layer_session.specs.FileLayers.{FileHasCommitted, FileHasEnded, FileHasUpdated, FileHoldsStill, FileKeepsOver, FileTurns, FileUpdatesOver, HasSession, IsNumbered, WaitsForNone};
ghost use Rattle.layer_session.specs.Found.{KeepsFound};
ghost use Rattle.layer_session.specs.ByFiles.{AddHad, AddHeld, AddsHad, AddsHeld};

use crate::file::Layer;
use crate::read_layer::ReadLayer;
use log_format::Page;
use sector_bits::are_set;
use store_model::{Store, StoreFault};
use vx_base::Geometry;

/// A file of a chain: of each sector of the disk its bytes, or that the file doesn't have it.
#[derive(Drop)]
pub enum FileLayer {
    /// In a session, so that it may be changed.
    Session(Layer),
    /// Only read.
    Read(ReadLayer),
}

impl FileLayer {
    /// The number of the file in the store.
    pub fn number(&self) -> u32
        ensures { result ≡ number_of self.now }
    {
        match self {
            FileLayer::Session(layer) => layer.tables.parts.file,
            FileLayer::Read(layer) => layer.tables.parts.file,
        }
    }

    /// Adds what the file has of so many sectors from `first` on to what was found of them: their bytes, and their bits in the
    /// mask from `at` on. What was found stays as it is.
    pub fn own<S: Store>(
        &mut self,
        store: &mut S,
        first: u64,
        count: u64,
        out: &mut [u8],
        mask: &mut [u8],
        at: usize,
    ) -> Result<(), StoreFault>
        requires readable { FileCanBeRead self.old (S.disk store.old) }
        requires on_disk { first + count ≤ (table_parts self.old).sectors }
        requires out { length out.old ≡ (table_parts self.old).sector * count }
        requires mask { at + count ≤ 8 * length mask.old }
        requires ends { at + count < 2 ^ 64 }
        ensures held { OnOk result (AddsHeld self.old (S.disk store.old) first count at mask.old mask.new out.old out.new) }
        ensures found { KeepsFound mask.old mask.new }
        ensures owned { OnOk result (AddsHad self.old (S.disk store.old) first count at mask.old mask.new out.old out.new) }
        ensures same { IsSameFile self.old self.new (S.disk store.old) }
        ensures stays { OnOk result (S.disk store.new ≡ S.disk store.old) }
        ensures err { IfErr result (ReadFailed (number_of self.old) (S.disk store.old) (S.disk store.new)) }
    {
        match self {
            FileLayer::Session(layer) => layer.own(store, first, count, out, mask, at),
            FileLayer::Read(layer) => layer.own(store, first, count, out, mask, at),
        }
    }

    /// Commits a file that is in a session: a crash leaves from then on what the layer has. Of one that is only read nothing is
    /// done. After a fault the file is to be written no more; reads go on.
    pub fn commit<S: Store>(&mut self, store: &mut S) -> Result<(), StoreFault>
        requires ready { FileIsReady self.old (S.disk store.old) }
        requires numbers { IsNumbered (2 ^ 64 - 2 ^ 32) self.old }
        // At each moment, whatever it answers, in every image without a torn match.
        ensures moments { WhereBothTold (FileKeepsOver self.old) (S.disk store.old).told (S.disk store.new).told }
        ensures committed { OnOk result (WhereBothTold (FileHasCommitted self.old self.new) (S.disk store.old).told (S.disk store.new).told) }
        ensures ready { OnOk result (FileIsReady self.new (S.disk store.new)) }
        ensures empty { OnOk result (WaitsForNone self.new) }
        ensures number { (most : ℕ) → IsNumbered most self.old → IsNumbered (most + 1) self.new }
        ensures header { log_header self.new ≡ log_header self.old }
        ensures session { is_some (log_number self.new) ≡ is_some (log_number self.old) }
        ensures parts { table_parts self.new ≡ table_parts self.old }
        ensures readable { OnErr result (FileCanBeRead self.new (S.disk store.new)) }
        ensures holds { OnErr result (WhereBothTold (FileHoldsStill self.old self.new) (S.disk store.old).told (S.disk store.new).told) }
        ensures reads { log_number self.old ≡ None → (result ≡ Ok tt) × (self.new ≡ self.old) × (store.new ≡ store.old) }
        ensures counts { OnOk result (S.disk store.new ≡ record (S.disk store.old) { told = (S.disk store.new).told }) }
        ensures err { IfErr result (FailsToChange (number_of self.old) (S.disk store.old) (S.disk store.new)) }
    {
        match self {
            FileLayer::Session(layer) => layer.commit(store),
            FileLayer::Read(_) => Ok(()),
        }
    }

    /// Commits pages that change the metadata of a file in a session, as one entry of its log: at each moment a crash leaves the
    /// file tied as before, or anew. Nothing else waits for a commit. After a fault the file is to be written no more; reads go on.
    pub fn update<S: Store>(&mut self, store: &mut S, pages: &[Page]) -> Result<(), StoreFault>
        requires session { HasSession self.old }
        requires ready { FileIsReady self.old (S.disk store.old) }
        requires empty { WaitsForNone self.old }
        requires numbers { IsNumbered (2 ^ 64 - 2 ^ 32) self.old }
        requires few { length pages.now ≤ 120 }
        requires apart { HasOnePageEach pages.now }
        requires turns { WhereTold (S.disk store.old).told (FileTurns self.old pages.now) }
        // At each moment, whatever it answers, in every image without a torn match.
        ensures moments { WhereBothTold (FileUpdatesOver self.old pages.now) (S.disk store.old).told (S.disk store.new).told }
        ensures updated { OnOk result (WhereBothTold (FileHasUpdated self.old self.new pages.now) (S.disk store.old).told (S.disk store.new).told) }
        ensures ready { OnOk result (FileIsReady self.new (S.disk store.new)) }
        ensures empty { OnOk result (WaitsForNone self.new) }
        ensures number { (most : ℕ) → IsNumbered most self.old → IsNumbered (most + 1) self.new }
        ensures header { log_header self.new ≡ log_header self.old }
        ensures session { HasSession self.new }
        ensures parts { table_parts self.new ≡ table_parts self.old }
        ensures readable { OnErr result (FileCanBeRead self.new (S.disk store.new)) }
        ensures holds { OnErr result (WhereBothTold (FileHoldsStill self.old self.new) (S.disk store.old).told (S.disk store.new).told) }
        ensures counts { OnOk result (S.disk store.new ≡ record (S.disk store.old) { told = (S.disk store.new).told }) }
        ensures err { IfErr result (FailsToChange (number_of self.old) (S.disk store.old) (S.disk store.new)) }
    {
        match self {
            FileLayer::Session(layer) => layer.update(store, pages),
            FileLayer::Read(_) => Ok(()),
        }
    }

    /// Ends a file's session, if it is in one: commits, and writes a header that names no log. After a fault the file is to be
    /// written no more, so that its log stays named.
    pub fn end<S: Store>(self, store: &mut S) -> Result<(), StoreFault>
        requires ready { FileIsReady self (S.disk store.old) }
        requires numbers { IsNumbered (2 ^ 64 - 2 ^ 32) self }
        ensures moments { WhereBothTold (FileKeepsOver self) (S.disk store.old).told (S.disk store.new).told }
        ensures ended { OnOk result (WhereBothTold (FileHasEnded self) (S.disk store.old).told (S.disk store.new).told) }
        ensures reads { log_number self ≡ None → (result ≡ Ok tt) × (store.new ≡ store.old) }
        ensures counts { OnOk result (S.disk store.new ≡ record (S.disk store.old) { told = (S.disk store.new).told }) }
        ensures err { IfErr result (FailsToChange (number_of self) (S.disk store.old) (S.disk store.new)) }
    {
        match self {
            FileLayer::Session(layer) => layer.end(store),
            FileLayer::Read(_) => Ok(()),
        }
    }
}

/// Adds what files have of so many sectors from `first` on to what was found of them, file by file, the upper one first, until
/// all is found: their bytes, and their bits in the mask from `at` on. All have the disk of this geometry.
pub fn own_files<S: Store>(
    layers: &mut [FileLayer],
    store: &mut S,
    geometry: Geometry,
    first: u64,
    count: u64,
    out: &mut [u8],
    mask: &mut [u8],
    at: usize,
) -> Result<(), StoreFault>
    requires readable { AreReadableFiles geometry (S.disk store.old) layers.old }
    requires on_disk { first + count ≤ geometry.sectors }
    requires out { length out.old ≡ geometry.sector * count }
    requires mask { at + count ≤ 8 * length mask.old }
    requires ends { at + count < 2 ^ 64 }
    ensures held { OnOk result (AddHeld layers.old geometry.sector (S.disk store.old) first count at mask.old mask.new out.old out.new) }
    ensures owned { OnOk result (AddHad layers.old geometry.sector (S.disk store.old) first count at mask.old mask.new out.old out.new) }
    ensures same { AreSameFiles geometry layers.old layers.new (S.disk store.old) }
    ensures numbers { HaveSameNumbers layers.old layers.new }
    ensures headers { map log_header layers.new ≡ map log_header layers.old }
    ensures stays { OnOk result (S.disk store.new ≡ S.disk store.old) }
    ensures err { IfErr result (SomeReadFailed (S.disk store.old) (S.disk store.new)) }
    ensures whose { IfErr result (λ fault. Contains (file_numbers layers.old) fault.file) }
{
    if are_set(mask, at, count as usize) {
        return Ok(());
    }
    let Some((upper, below)) = layers.split_first_mut() else {
        return Ok(());
    };
    upper.own(store, first, count, out, mask, at)?;
    own_files(below, store, geometry, first, count, out, mask, at)
}

/// What a file's layer has hangs on that file and on the files' names alone: it stands while other files are changed.
pub fn file_layers_stand()
    ensures one { FileLayersStand }
    ensures all { OthersStand }
{}
