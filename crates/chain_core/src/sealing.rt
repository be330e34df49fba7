//! Sealing the files that a session only reads.

ghost use Rattle.std.specs.Prelude.{◌≡◌, ◌++◌, ◌∷◌, [], IfErr, IfOk, OnOk, length, map, replicate};
ghost use Rattle.std.specs.List.{AllByRecursion};
ghost use Rattle.store_model.specs.Disk.{WhereTold, changed, reader_of};
ghost use Rattle.store_model.specs.File.{Seal};
ghost use Rattle.chain_core.specs.Sealed.{AreSynced, CanSeal, StopsSealing, read_numbers, readers_of, sealed_in};
ghost use Rattle.chain_core.specs.Sessions.{AreReady};

use crate::layers::Layers;
use layer_session::FileLayer;
use read_plan::Readers;
use std::alloc::Global;
use store_model::{SealFault, Store};
use vx_base::{Geometry, NoRoom};

/// The source of a merge that isn't the leaf, as its readers read it.
#[derive(Drop)]
pub struct SealedSource {
    /// The number of its file in the store.
    pub file: u32,
    /// Of the chain's disk, which has so many stripes.
    pub geometry: Geometry,
    pub stripes: u32,
    /// Its layer, to which the file is the one file of a store.
    pub layer: FileLayer,
}

// Seals a file, and gives each of so many sets a reader of it.
fn seal_file<S: Store>(
    store: &mut S,
    file: u32,
    sets: u32,
    readers: &mut Readers<S::R>,
) -> Result<(), SealFault>
where
    S::R: Drop,
    requires can { CanSeal (S.disk store.old) file }
    requires number { length readers.old ≡ sets }
    ensures ok { OnOk result (S.disk store.new ≡ changed file Seal (S.disk store.old)) }
    ensures readers { OnOk result (readers.new ≡ map (λ set. set ++ reader_of file (S.disk store.old) ∷ []) readers.old) }
    ensures err { IfErr result (StopsSealing (file ∷ []) (S.disk store.old) (S.disk store.new)) }
{
    let len = store.len(file)?;
    let made = store.seal(file, sets)?;
    match readers.add(file, len, made) {
        Ok(()) => Ok(()),
        Err(NoRoom) => Err(SealFault::NoRoom),
    }
}

// Seals a file that is only read, and leaves one that is in a session.
fn seal_layer<S: Store>(
    layer: &FileLayer,
    store: &mut S,
    sets: u32,
    readers: &mut Readers<S::R>,
) -> Result<(), SealFault>
where
    S::R: Drop,
    requires can { AllByRecursion (CanSeal (S.disk store.old)) (read_numbers (layer.now ∷ [])) }
    requires number { length readers.old ≡ sets }
    ensures ok { OnOk result (S.disk store.new ≡ sealed_in (read_numbers (layer.now ∷ [])) (S.disk store.old)) }
    ensures readers { OnOk result (readers.new ≡ map (λ set. set ++ readers_of (read_numbers (layer.now ∷ [])) (S.disk store.old)) readers.old) }
    ensures err { IfErr result (StopsSealing (read_numbers (layer.now ∷ [])) (S.disk store.old) (S.disk store.new)) }
{
    match layer {
        FileLayer::Session(_) => Ok(()),
        FileLayer::Read(_) => seal_file(store, layer.number(), sets, readers),
    }
}

// Seals those of some files that are only read, in order, and gives each of so many sets a reader of each of these.
fn seal_files<S: Store>(
    layers: &[FileLayer],
    store: &mut S,
    sets: u32,
    readers: &mut Readers<S::R>,
) -> Result<(), SealFault>
where
    S::R: Drop,
    requires can { AllByRecursion (CanSeal (S.disk store.old)) (read_numbers layers.now) }
    requires number { length readers.old ≡ sets }
    ensures ok { OnOk result (S.disk store.new ≡ sealed_in (read_numbers layers.now) (S.disk store.old)) }
    ensures readers { OnOk result (readers.new ≡ map (λ set. set ++ readers_of (read_numbers layers.now) (S.disk store.old)) readers.old) }
    ensures err { IfErr result (StopsSealing (read_numbers layers.now) (S.disk store.old) (S.disk store.new)) }
{
    let Some((upper, below)) = layers.split_first() else {
        return Ok(());
    };
    seal_layer(upper, store, sets, readers)?;
    seal_files(below, store, sets, readers)
}

impl Layers {
    /// Seals each file that is only read, in order, and makes so many sets of readers, each with one reader of each of these files.
    pub(crate) fn seal<S: Store>(
        &self,
        alloc: Global,
        store: &mut S,
        sets: u32,
    ) -> Result<Readers<S::R>, SealFault>
    where
        S::R: Drop,
        requires ready { AreReady self.now (S.disk store.old) }
        requires synced { WhereTold (S.disk store.old).told (AreSynced (read_numbers self.now.below.items)) }
        ensures ok { OnOk result (S.disk store.new ≡ sealed_in (read_numbers self.now.below.items) (S.disk store.old)) }
        ensures readers { IfOk result (λ readers. readers ≡ replicate sets (readers_of (read_numbers self.now.below.items) (S.disk store.old))) }
        ensures err { IfErr result (StopsSealing (read_numbers self.now.below.items) (S.disk store.old) (S.disk store.new)) }
    {
        let mut readers = match Readers::new(alloc, sets) {
            Ok(readers) => readers,
            Err(NoRoom) => return Err(SealFault::NoRoom),
        };
        seal_files(self.below.as_slice(), store, sets, &mut readers)?;
        Ok(readers)
    }
}
