//! How a session starts with the merge of its leaf.

ghost use Rattle.std.specs.Prelude.{◌≡◌, ◌≤◌, ◌+◌, ◌*◌, ◌^◌, ◌∷◌, ℕ, false, All, Err, length, IfErr, IfOk};
ghost use Rattle.vhdx_format.specs.AllocationTables.{IsSectorSize};
ghost use Rattle.chain_model.specs.Stripes as stripes;
ghost use Rattle.link_rules.specs.Effects.{IsServed};
ghost use Rattle.layer_session.specs.declared.file_layer.FileLayer.TheVariants as kind;
ghost use Rattle.merge_core.specs.Copied.{marks_of};
ghost use Rattle.merge_core.specs.Stamping.{stamps_of};
ghost use Rattle.merge_plan.specs.Attached.{CanStart};
ghost use Rattle.merge_plan.specs.LeafPlanning.{HasLeafPlan};
ghost use Rattle.chain_core.specs.LeafStarting.{AreBothLow, BeginsLeafMerge, HasBegunBoth, IsLeafRoom, StartsWithLeafMerge, leaf_chain, leaf_files_in, spent_leaf};
ghost use Rattle.chain_core.specs.Starting.{AreReadOf};

use crate::layers::{Layers, Retiring};
use crate::merge_start::{MergeStartRefusal, data_session, high, link_twice};
use crate::starting::{LEAF_PAGES, layers_of};
use layer_session::{FileLayer, Layer};
use link_rules::LinkedFile;
use merge_core::{Marks, Stamps, stripe_count};
use merge_plan::{LeafMerge, prepare_leaf};
use std::alloc::Global;
use store_model::{Ids, SealFault, Store};
use vx_base::{Geometry, NoRoom};

/// The files of the merge of a leaf, lent.
#[derive(Clone, Copy)]
pub struct LeafOf<'a> {
    source: &'a LinkedFile,
    target: &'a LinkedFile,
    below: &'a [LinkedFile],
}

// The files of a chain as those of the merge of its leaf.
fn part<'a>(files: &'a [LinkedFile]) -> LeafOf<'a>
    requires { 2 ≤ length files.now }
    ensures { leaf_chain (leaf_files_in result) ≡ files.now }
{
    LeafOf {
        source: &files[0],
        target: &files[1],
        below: &files[2..],
    }
}

// The first number of a header that leaves no room for those of a session, of the leaf and its parent.
fn high_of_two(files: &[LinkedFile]) -> Option<u64>
    ensures { result ≡ spent_leaf files.now }
{
    match files {
        [] => None,
        [leaf] => high(leaf),
        [leaf, target, ..] => high(leaf).or(high(target)),
    }
}

// The layers of the target and of the files below it.
pub(crate) fn with_target(
    target: Layer,
    mut below: Vec<FileLayer>,
) -> Result<Vec<FileLayer>, NoRoom>
    ensures { IfOk result (λ all. all.items ≡ kind.Session target ∷ below.items) }
{
    below.insert(0, FileLayer::Session(target))?;
    Ok(below)
}

// What is taken of memory before anything is written: marks and stamps of the disk's stripes, and layers of the files below the target.
#[derive(Drop)]
struct LeafRoom {
    marks: Marks,
    stamps: Stamps,
    below: Vec<FileLayer>,
}

impl LeafRoom {
    // Room for the merge of the leaf of a disk of this geometry, of which these files stand behind the target.
    fn new(alloc: Global, geometry: Geometry, below: &[LinkedFile]) -> Result<LeafRoom, NoRoom>
        requires sector { IsSectorSize geometry.sector }
        requires size { geometry.sectors * geometry.sector ≤ 2 ^ 46 }
        requires rest { 2 + length below.now ≤ 64 }
        requires below { All IsServed below.now }
        ensures marks { IfOk result (λ r. (t : ℕ) → marks_of r.marks t ≡ false) }
        ensures stripes { IfOk result (λ r. r.marks.stripes ≡ stripes.stripe_count geometry.sector geometry.sectors) }
        ensures stamps { IfOk result (λ r. (t : ℕ) → stamps_of r.stamps t ≡ 0) }
        ensures words { IfOk result (λ r. length r.stamps.words.items ≡ stripes.stripe_count geometry.sector geometry.sectors) }
        ensures below { IfOk result (λ r. AreReadOf 2 below.now r.below.items) }
    {
        let stripes = stripe_count(geometry);
        let marks = Marks::new(alloc, stripes)?;
        let stamps = Stamps::new(alloc, stripes)?;
        let below = layers_of(alloc, 2, below)?;
        Ok(LeafRoom {
            marks,
            stamps,
            below,
        })
    }
}

// The sessions of a leaf and of its parent, into which it is merged.
#[derive(Drop)]
struct Both {
    leaf: Layer,
    target: Layer,
}

// They begin: the leaf's session, the leaf is linked to the target by both of the target's identifiers, and then the target's session. So
// the chain is linked at each moment.
fn begin_both<S: Store>(
    alloc: Global,
    store: &mut S,
    of: LeafOf<'_>,
    merge: &LeafMerge,
) -> Result<Both, SealFault>
    requires files { CanStart (leaf_chain (leaf_files_in of)) (S.disk store.old) }
    requires plan { HasLeafPlan (leaf_chain (leaf_files_in of)) (S.disk store.old) (leaf_files_in of) merge.now }
    requires low { AreBothLow (leaf_files_in of) }
    ensures begun { IfOk result (λ both. HasBegunBoth (leaf_files_in of.entry) merge.now (S.disk store.old) (S.disk store.new) both.leaf both.target) }
    ensures err { IfErr result (λ fault. BeginsLeafMerge (leaf_files_in of.entry) merge.now (S.disk store.old) (S.disk store.new) (Err fault)) }
{
    let ids = merge.ids;
    let leaf_ids = data_session(ids.leaf);
    let parts = &of.source.parts;
    let mut leaf = Layer::begin(alloc, store, 0, parts, leaf_ids, LEAF_PAGES)?;
    link_twice(store, &mut leaf, merge.twice.as_slice())?;
    let target_ids = data_session(ids.target);
    let parts = &of.target.parts;
    let target = Layer::begin(alloc, store, 1, parts, target_ids, LEAF_PAGES)?;
    Ok(Both { leaf, target })
}

impl Layers {
    // The layers of a chain the merge of whose leaf is planned, once the sessions of leaf and target have begun.
    fn begin_leaf_merge<S: Store>(
        alloc: Global,
        store: &mut S,
        of: LeafOf<'_>,
        merge: LeafMerge,
        room: LeafRoom,
    ) -> Result<Layers, SealFault>
        requires files { CanStart (leaf_chain (leaf_files_in of)) (S.disk store.old) }
        requires plan { HasLeafPlan (leaf_chain (leaf_files_in of)) (S.disk store.old) (leaf_files_in of) merge }
        requires low { AreBothLow (leaf_files_in of) }
        requires room { IsLeafRoom (leaf_files_in of) room }
        ensures { BeginsLeafMerge (leaf_files_in of.entry) merge (S.disk store.old) (S.disk store.new) result }
    {
        let both = begin_both(alloc, store, of, &merge)?;
        let Ok(below) = with_target(both.target, room.below) else {
            return Err(SealFault::NoRoom);
        };
        Ok(Layers {
            geometry: of.source.parts.geometry,
            leaf: Some(both.leaf),
            below,
            merge: None,
            retiring: Some(Retiring {
                marks: room.marks,
                stamps: room.stamps,
                clear: merge.clear,
                retire: merge.retire,
                third: merge.ids.third,
            }),
        })
    }

    /// The layers of a chain of these files of the store, which starts with the merge of its leaf, the first of them.
    pub(crate) fn start_leaf_merge<S: Store, I: Ids>(
        alloc: Global,
        store: &mut S,
        files: &[LinkedFile],
        ids: &mut I,
    ) -> Result<Layers, MergeStartRefusal>
        requires can { CanStart files.now (S.disk store.old) }
        requires parent { 2 ≤ length files.now }
        ensures { StartsWithLeafMerge files.now (S.disk store.old) (S.disk store.new) (I.drawn ids.old) (I.drawn ids.new) result }
    {
        if let Some(number) = high_of_two(files) {
            return Err(MergeStartRefusal::Spent { number });
        }
        let merge = prepare_leaf(alloc, store, files, ids)?;
        let of = part(files);
        let room = LeafRoom::new(alloc, of.source.parts.geometry, of.below)?;
        let layers = Layers::begin_leaf_merge(alloc, store, of, merge, room)?;
        Ok(layers)
    }
}
