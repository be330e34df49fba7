//! The new locators of a merge.

ghost use Rattle.std.specs.Prelude.{◌≡◌, ◌^◌, ◌-◌, None, min, option_map, IfErr, IfOk, OnOk};
ghost use Rattle.vhdx_format.specs.Relinking as relinking;
ghost use Rattle.vhdx_format.specs.Relinking.{linked_twice};
ghost use Rattle.merge_plan.specs.Merging as merging;
ghost use Rattle.merge_plan.specs.Merging.{locator_pairs};
ghost use Rattle.merge_plan.specs.Steps.{AreBytes, AreTyped, HasSoundLocator, LengthRefuses};

use crate::finding::Found;
use crate::refusal::PrepareRefusal;
use link_rules::LinkedFile;
use parent_locator::{Locator, LocatorRefusal, fits, len_of, parse, relinked, with_both_linkages};
use std::alloc::Global;
use vx_base::{Bytes, Guid, NoRoom, are_bytes};

/// The new locators of source and child.
#[derive(Drop)]
pub struct NewLocators {
    pub twice: Locator,
    pub once: Locator,
}

pub(crate) fn are_items(locator: &Option<Bytes>)
    ensures { AreBytes locator.now }
{
    if let Some(item) = locator {
        are_bytes(item.as_slice());
    }
}

// What is known of the files by their types.
fn are_typed(found: &Found<'_>)
    ensures { AreTyped found.now.child.now found.now.source.now found.now.target.now }
{
    are_items(&found.source.parts.locator);
    are_items(&found.child.parts.locator);
    found.target.parts.header.data_write.as_bytes();
    found.target.name.as_bytes();
    found.target.name.as_str();
}

// The pairs of a file's locator.
fn pairs_of(alloc: Global, file: &LinkedFile) -> Result<Locator, NoRoom>
    requires { HasSoundLocator file.now.parts }
    ensures { IfOk result (λ pairs. pairs ≡ locator_pairs file.now.parts.locator) }
{
    let Some(item) = &file.parts.locator else {
        unreachable!()
    };
    match parse(alloc, item.as_slice()) {
        Ok(pairs) => Ok(pairs),
        Err(LocatorRefusal::NoRoom) => Err(NoRoom),
        Err(_) => unreachable!(),
    }
}

// The source's, once it is linked to the target by its present identifier and by this one.
pub(crate) fn source_locator(
    alloc: Global,
    source: &LinkedFile,
    target: &LinkedFile,
    new: &Guid,
) -> Result<Locator, NoRoom>
    requires { HasSoundLocator source.now.parts }
    ensures { IfOk result (λ pairs. pairs ≡ linked_twice target.now.parts.header.data_write new.now (locator_pairs source.now.parts.locator)) }
{
    let pairs = pairs_of(alloc, source)?;
    with_both_linkages(alloc, &pairs, &target.parts.header.data_write, new)
}

// The child's, once it is linked to the target by this identifier.
fn child_locator(
    alloc: Global,
    child: &LinkedFile,
    target: &LinkedFile,
    new: &Guid,
) -> Result<Locator, NoRoom>
    requires { HasSoundLocator child.now.parts }
    ensures { IfOk result (λ pairs. pairs ≡ relinking.relinked new.now target.now.name (locator_pairs child.now.parts.locator)) }
{
    let pairs = pairs_of(alloc, child)?;
    relinked(alloc, &pairs, new, &target.name)
}

// The length of the first of two locators that is too long to be written, as far as a number of 64 bits can say it.
fn first_long(twice: &Locator, once: &Locator) -> Option<u64>
    ensures { result ≡ option_map (λ n. min n (2 ^ 64 - 1)) (merging.first_long twice.now once.now) }
{
    if !fits(twice) {
        return Some(len_of(twice));
    }
    if !fits(once) {
        return Some(len_of(once));
    }
    None
}

/// The new locators of source and child, where the target gets this identifier.
pub fn locators(alloc: Global, found: &Found<'_>, new: &Guid) -> Result<NewLocators, PrepareRefusal>
    requires source { HasSoundLocator found.now.source.now.parts }
    requires child { HasSoundLocator found.now.child.now.parts }
    ensures twice { IfOk result (λ l. l.twice ≡ linked_twice found.now.target.now.parts.header.data_write new.now
        (locator_pairs found.now.source.now.parts.locator)) }
    ensures once { IfOk result (λ l. l.once ≡ relinking.relinked new.now found.now.target.now.name (locator_pairs found.now.child.now.parts.locator)) }
    ensures short { IfOk result (λ l. merging.first_long l.twice l.once ≡ None) }
    ensures typed { OnOk result (AreTyped found.now.child.now found.now.source.now found.now.target.now) }
    ensures err { IfErr result (LengthRefuses (merging.first_long
        (linked_twice found.now.target.now.parts.header.data_write new.now (locator_pairs found.now.source.now.parts.locator))
        (relinking.relinked new.now found.now.target.now.name (locator_pairs found.now.child.now.parts.locator)))) }
{
    are_typed(found);
    let twice = source_locator(alloc, found.source, found.target, new)?;
    let once = child_locator(alloc, found.child, found.target, new)?;
    if let Some(len) = first_long(&twice, &once) {
        return Err(PrepareRefusal::LocatorTooLarge { len });
    }
    Ok(NewLocators { twice, once })
}
