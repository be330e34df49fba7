//! The pages of retired names.

ghost use Rattle.std.specs.Prelude.{◌≡◌, ◌<◌, IfErr, IfOk, OnOk};
ghost use Rattle.std.specs.Option.{option_copied};
ghost use Rattle.store_model.specs.Disk.{WhereTold};
ghost use Rattle.link_rules.specs.Effects.{IsServed};
ghost use Rattle.meta_edit.specs.Edits.{IsSound};
ghost use Rattle.meta_edit.specs.Pages.{ArePages};
ghost use Rattle.merge_plan.specs.Attached.{IsAsOpened};
ghost use Rattle.merge_plan.specs.LeafMerging.{ClearsTarget};
ghost use Rattle.merge_plan.specs.LeafSteps.{ClearingFails, HasNaming, IsNameOrNone, NamingFails};

use crate::merge::has_metadata;
use crate::refusal::PrepareRefusal;
use link_rules::LinkedFile;
use meta_edit::{Updates, retire_update};
use std::alloc::Global;
use store_model::Store;
use vhdx_format::Page;
use vx_base::Name;

// What is known of a name by its type.
fn is_name(to: Option<&Name>)
    ensures { IsNameOrNone (option_copied to.entry) }
{
    if let Some(name) = to {
        name.as_bytes();
        name.as_str();
    }
}

/// The pages that give a file of the store, once it has some pages more, another retired name, or none.
pub fn name_update<S: Store>(
    alloc: Global,
    store: &mut S,
    number: u32,
    file: &LinkedFile,
    over: &[Page],
    to: Option<&Name>,
) -> Result<Updates, PrepareRefusal>
    requires there { number < (S.disk store.old).files }
    requires served { IsServed file.now }
    requires opened { WhereTold (S.disk store.old).told (λ trace. IsAsOpened trace number file.now) }
    requires over { ArePages file.now.parts over.now }
    requires sound { IsSound file.now.parts number over.now (S.disk store.old) }
    ensures pages { IfOk result (HasNaming file.now.parts number over.now (S.disk store.old) (option_copied to.entry)) }
    ensures stays { OnOk result (S.disk store.new ≡ S.disk store.old) }
    ensures err { IfErr result (NamingFails file.now.parts number over.now (S.disk store.old) (S.disk store.new) (option_copied to.entry)) }
{
    is_name(to);
    has_metadata(&file.parts);
    let pages = retire_update(alloc, store, number, &file.parts, over, to)?;
    Ok(pages)
}

/// The pages that clear the retired name of a merge's target, the second file of the store, where it has one.
pub fn clearing<S: Store>(
    alloc: Global,
    store: &mut S,
    target: &LinkedFile,
) -> Result<Option<Updates>, PrepareRefusal>
    requires there { 1 < (S.disk store.old).files }
    requires served { IsServed target.now }
    requires opened { WhereTold (S.disk store.old).told (λ trace. IsAsOpened trace 1 target.now) }
    ensures pages { IfOk result (ClearsTarget target.now 1 (S.disk store.old)) }
    ensures stays { OnOk result (S.disk store.new ≡ S.disk store.old) }
    ensures err { IfErr result (ClearingFails target.now (S.disk store.old) (S.disk store.new)) }
{
    if target.parts.retired.is_none() {
        return Ok(None);
    }
    let pages = name_update(alloc, store, 1, target, &[], None)?;
    Ok(Some(pages))
}
