//! The plan of the merge of a chain's leaf.

ghost use Rattle.std.specs.Prelude.{◌≡◌, ◌≤◌, All, None, IfErr, IfOk, OnOk, length};
ghost use Rattle.vhdx_format.specs.Relinking.{linked_twice};
ghost use Rattle.vx_base.specs.Fields.{IsGuid};
ghost use Rattle.merge_plan.specs.Attached.{CanStart};
ghost use Rattle.merge_plan.specs.Drawing.{JudgesDrawn};
ghost use Rattle.merge_plan.specs.LeafMerging.{AreOfLeaf};
ghost use Rattle.merge_plan.specs.LeafPlanning.{HasLeafPlan, IsLeafPlanned, IsLeafStopped, StopsLeaf, leaf_merge_ids, long_len};
ghost use Rattle.merge_plan.specs.LeafSteps.{AreTypedOfLeaf, leaf_files};
ghost use Rattle.merge_plan.specs.Merging.{locator_pairs};
ghost use Rattle.merge_plan.specs.Steps.{HasSoundLocator, JudgeRefuses, LengthRefuses};

use crate::drawing::all_shown;
use crate::leaf_drawing::LeafMergeIds;
use crate::locators::{are_items, source_locator};
use crate::merge::update;
use crate::naming::{clearing, name_update};
use crate::refusal::PrepareRefusal;
use link_rules::LinkedFile;
use meta_edit::Updates;
use parent_locator::{Locator, fits, len_of};
use std::alloc::Global;
use store_model::{Ids, Store};
use vx_base::Guid;

/// The merge of a leaf that is planned: nothing of it is written yet. The source is the leaf, the target the next file.
#[derive(Drop)]
pub struct LeafMerge {
    /// The identifiers that were drawn.
    pub ids: LeafMergeIds,
    /// The pages that link the source to the target by the identifier that the target has and by the one that it gets.
    pub twice: Updates,
    /// The pages that clear the target's own retired name, where it has one.
    pub clear: Option<Updates>,
    /// The pages that give the source the target's name as its retired name, once those that link it are written.
    pub retire: Updates,
}

// The new locator of the source, where the target gets this identifier.
fn link(
    alloc: Global,
    source: &LinkedFile,
    target: &LinkedFile,
    new: &Guid,
) -> Result<Locator, PrepareRefusal>
    requires { HasSoundLocator source.now.parts }
    ensures pairs { IfOk result (λ pairs. pairs ≡ linked_twice target.now.parts.header.data_write new.now (locator_pairs source.now.parts.locator)) }
    ensures short { IfOk result (λ pairs. long_len pairs ≡ None) }
    ensures typed { OnOk result (AreTypedOfLeaf source.now target.now) }
    ensures err { IfErr result (LengthRefuses (long_len (linked_twice target.now.parts.header.data_write new.now (locator_pairs source.now.parts.locator)))) }
{
    are_items(&source.parts.locator);
    target.parts.header.data_write.as_bytes();
    let twice = source_locator(alloc, source, target, new)?;
    if !fits(&twice) {
        return Err(PrepareRefusal::LocatorTooLarge {
            len: len_of(&twice),
        });
    }
    Ok(twice)
}

// Refuses new identifiers of which one is unfit.
fn judge<S: Store>(
    alloc: Global,
    store: &mut S,
    files: &[LinkedFile],
    ids: &LeafMergeIds,
) -> Result<(), PrepareRefusal>
    requires { CanStart files.now (S.disk store.old) }
    ensures fit { OnOk result (JudgesDrawn files.now (S.disk store.old) (leaf_merge_ids ids.now) None) }
    ensures stays { OnOk result (S.disk store.new ≡ S.disk store.old) }
    ensures err { IfErr result (JudgeRefuses files.now (leaf_merge_ids ids.now) (S.disk store.old) (S.disk store.new)) }
{
    let known = all_shown(alloc, store, files)?;
    match ids.first_unfit(known.as_slice()) {
        Some(id) => Err(PrepareRefusal::IdUnfit { id }),
        None => Ok(()),
    }
}

// Plans the merge of the first of these files into the second, under these identifiers.
fn plan<S: Store>(
    alloc: Global,
    store: &mut S,
    files: &[LinkedFile],
    source: &LinkedFile,
    target: &LinkedFile,
    ids: LeafMergeIds,
) -> Result<LeafMerge, PrepareRefusal>
    requires can { CanStart files.now (S.disk store.old) }
    requires first { AreOfLeaf files.now (leaf_files source.now target.now files.now) }
    requires drawn { All IsGuid (leaf_merge_ids ids) }
    ensures planned { IfOk result (HasLeafPlan files.now (S.disk store.old) (leaf_files source.now target.now files.now)) }
    ensures ids { IfOk result (λ merge. merge.ids ≡ ids) }
    ensures stays { OnOk result (S.disk store.new ≡ S.disk store.old) }
    ensures err { IfErr result (StopsLeaf files.now (S.disk store.old) (S.disk store.new) (leaf_files source.now target.now files.now) ids) }
{
    let locator = link(alloc, source, target, &ids.target.data_write)?;
    let twice = update(alloc, store, 0, source, &locator)?;
    let clear = clearing(alloc, store, target)?;
    let retire = name_update(
        alloc,
        store,
        0,
        source,
        twice.as_slice(),
        Some(&target.name),
    )?;
    judge(alloc, store, files, &ids)?;
    Ok(LeafMerge {
        ids,
        twice,
        clear,
        retire,
    })
}

/// Plans the merge of the first of these files, the leaf, into its parent. Nothing is written.
pub fn prepare_leaf<S: Store, I: Ids>(
    alloc: Global,
    store: &mut S,
    files: &[LinkedFile],
    ids: &mut I,
) -> Result<LeafMerge, PrepareRefusal>
    requires can { CanStart files.now (S.disk store.old) }
    requires parent { 2 ≤ length files.now }
    // The identifiers drawn are fit; and there are pages that give the source its new locator, by which the chain stays linked,
    // that clear the target's retired name, and that retire the source.
    ensures planned { IfOk result (IsLeafPlanned files.now (S.disk store.old) (I.drawn ids.old) (I.drawn ids.new)) }
    ensures stays { OnOk result (S.disk store.new ≡ S.disk store.old) }
    // Refused exactly by its cause, the first in order.
    ensures err { IfErr result (IsLeafStopped files.now (S.disk store.old) (S.disk store.new) (I.drawn ids.old) (I.drawn ids.new)) }
{
    let drawn = LeafMergeIds::draw(ids);
    plan(alloc, store, files, &files[0], &files[1], drawn)
}
