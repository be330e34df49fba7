//! The plan of a merge.

ghost use Rattle.std.specs.Prelude.{◌≡◌, ◌≤◌, ◌<◌, ◌+◌, All, None, Some, IfErr, IfOk, OnOk, length};
ghost use Rattle.store_model.specs.Disk.{WhereTold};
ghost use Rattle.vhdx_format.specs.FileParts.{HasNumbers};
ghost use Rattle.vhdx_format.specs.Locators.{locator_len, longest_locator};
ghost use Rattle.vx_base.specs.Fields.{IsGuid};
ghost use Rattle.link_rules.specs.Effects.{IsServed};
ghost use Rattle.meta_edit.specs.Pages.{HasMetadata};
ghost use Rattle.merge_plan.specs.Attached.{CanStart, IsAsOpened};
ghost use Rattle.merge_plan.specs.Drawing.{JudgesDrawn, merge_ids};
ghost use Rattle.merge_plan.specs.Merging.{HasPages};
ghost use Rattle.merge_plan.specs.Planning.{HasPlan, IsPlanned, Refuses, Stops};
ghost use Rattle.merge_plan.specs.Steps.{IsFound, JudgeRefuses, UpdateFails, files_of};

use crate::drawing::{MergeIds, all_shown};
use crate::finding::{Found, find};
use crate::locators::locators;
use crate::refusal::PrepareRefusal;
use link_rules::LinkedFile;
use meta_edit::{Updates, locator_update};
use parent_locator::Locator;
use std::alloc::Global;
use store_model::{Ids, Store};
use vx_base::{Name, Parts};

/// A merge that is planned: nothing of it is written yet.
#[derive(Drop)]
pub struct Merge {
    /// The source's place in the chain, counted from the leaf, which has 0. The target is the next file, the child the one before.
    pub source: u32,
    /// The identifiers that were drawn.
    pub ids: MergeIds,
    /// The pages that link the source to the target by the identifier that the target has and by the one that it gets.
    pub twice: Updates,
    /// The pages that link the child to the target by the identifier that the target gets, and by the target's name.
    pub relink: Updates,
}

// Metadata in whose region a locator can be changed.
#[tactic(auto, using(crate::proofs::Paging::has_metadata))]
pub(crate) fn has_metadata(parts: &Parts)
    requires { HasNumbers parts.now }
    ensures { HasMetadata parts.now }
{
    let _len = parts.meta_len;
}

// The pages that give a file of the store another locator.
pub(crate) fn update<S: Store>(
    alloc: Global,
    store: &mut S,
    number: u32,
    file: &LinkedFile,
    locator: &Locator,
) -> Result<Updates, PrepareRefusal>
    requires there { number < (S.disk store.old).files }
    requires served { IsServed file.now }
    requires opened { WhereTold (S.disk store.old).told (λ trace. IsAsOpened trace number file.now) }
    requires short { locator_len locator.now ≤ longest_locator }
    ensures pages { IfOk result (HasPages file.now.parts number (S.disk store.old) locator.now) }
    ensures stays { OnOk result (S.disk store.new ≡ S.disk store.old) }
    ensures err { IfErr result (UpdateFails file.now.parts number (S.disk store.old) (S.disk store.new) locator.now) }
{
    has_metadata(&file.parts);
    let pages = locator_update(alloc, store, number, &file.parts, &[], locator)?;
    Ok(pages)
}

// Refuses new identifiers of which one is unfit.
fn judge<S: Store>(
    alloc: Global,
    store: &mut S,
    files: &[LinkedFile],
    ids: &MergeIds,
) -> Result<(), PrepareRefusal>
    requires { CanStart files.now (S.disk store.old) }
    ensures fit { OnOk result (JudgesDrawn files.now (S.disk store.old) (merge_ids ids.now) None) }
    ensures stays { OnOk result (S.disk store.new ≡ S.disk store.old) }
    ensures err { IfErr result (JudgeRefuses files.now (merge_ids ids.now) (S.disk store.old) (S.disk store.new)) }
{
    let known = all_shown(alloc, store, files)?;
    match ids.first_unfit(known.as_slice()) {
        Some(id) => Err(PrepareRefusal::IdUnfit { id }),
        None => Ok(()),
    }
}

// Plans the merge of these files under these identifiers.
fn plan<S: Store>(
    alloc: Global,
    store: &mut S,
    files: &[LinkedFile],
    found: &Found<'_>,
    ids: MergeIds,
) -> Result<Merge, PrepareRefusal>
    requires can { CanStart files.now (S.disk store.old) }
    requires found { IsFound files.now found.now }
    requires drawn { All IsGuid (merge_ids ids) }
    ensures planned { IfOk result (HasPlan files.now (S.disk store.old) (files_of files.now found.now)) }
    ensures ids { IfOk result (λ merge. merge.ids ≡ ids) }
    ensures stays { OnOk result (S.disk store.new ≡ S.disk store.old) }
    ensures err { IfErr result (Stops files.now (S.disk store.old) (S.disk store.new) (files_of files.now found.now) ids) }
{
    let new = locators(alloc, found, &ids.target.data_write)?;
    let twice = update(alloc, store, found.place, found.source, &new.twice)?;
    let relink = update(alloc, store, found.place - 1, found.child, &new.once)?;
    judge(alloc, store, files, &ids)?;
    Ok(Merge {
        source: found.place,
        ids,
        twice,
        relink,
    })
}

/// Plans the merge of the file of this name, which isn't the leaf, into its parent. Nothing is written.
pub fn prepare<S: Store, I: Ids>(
    alloc: Global,
    store: &mut S,
    files: &[LinkedFile],
    source: &Name,
    ids: &mut I,
) -> Result<Merge, PrepareRefusal>
    requires { CanStart files.now (S.disk store.old) }
    // The identifiers drawn are fit; and there are pages that give source and child their new locators, by which the chain stays
    // linked.
    ensures planned { IfOk result (IsPlanned files.now source.now (S.disk store.old) (I.drawn ids.old) (I.drawn ids.new)) }
    ensures stays { OnOk result (S.disk store.new ≡ S.disk store.old) }
    // Refused exactly by its cause, the first in order.
    ensures err { IfErr result (Refuses files.now source.now (S.disk store.old) (S.disk store.new) (I.drawn ids.old) (I.drawn ids.new)) }
{
    let found = find(files, source)?;
    let drawn = MergeIds::draw(ids, found.place > 1);
    plan(alloc, store, files, &found, drawn)
}
