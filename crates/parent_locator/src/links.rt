//! The locators that a merge writes.

ghost use Rattle.std.specs.Prelude.{◌≡◌, ◌&&◌, [], ◌∷◌, ◌++◌, not, codes, OnOk, IfOk};
ghost use Rattle.vhdx_format.specs.Locators.{has_key};
ghost use Rattle.vhdx_format.specs.Relinking as relinking;
ghost use Rattle.vhdx_format.specs.Relinking.{linked_twice};
ghost use Rattle.parent_locator.specs.LinkEdits as spec;
ghost use Rattle.parent_locator.specs.LinkEdits.{added_behind, linked_pair, relinked_for};

use crate::child::{path_of, plain_units, push_id, push_path};
use crate::pairs::value_at;
use std::alloc::{AllocError, Global};
use vhdx_format::{
    ABSOLUTE_PATH_KEY, LINKAGE_KEY, Locator, Pair, RELATIVE_PATH_KEY, SECOND_LINKAGE_KEY,
    VOLUME_PATH_KEY,
};
use vx_base::{Guid, Name, NoRoom, Units};

// Whether a pair has a key.
fn has_key(pair: &Pair, key: &[u16]) -> bool
    ensures { result ≡ has_key key.now pair.now }
{
    pair.key.as_slice() == key
}

// The same units again.
fn copy_units(alloc: Global, units: &[u16]) -> Result<Units, AllocError>
    ensures { IfOk result (λ copy. copy ≡ units.now) }
{
    let mut copy = Units::new(alloc);
    for unit in units {
        copy.push(*unit)?;
    }
    Ok(copy)
}

// The value of a pair, changed where the pair is one of the linkages.
fn linked_value(alloc: Global, pair: &Pair, found: &Guid, new: &Guid) -> Result<Units, AllocError>
    ensures { IfOk result (λ value. value ≡ spec.linked_value found.now new.now pair.now) }
{
    if has_key(pair, &SECOND_LINKAGE_KEY) {
        plain_units(alloc, &new.text())
    } else if has_key(pair, &LINKAGE_KEY) {
        plain_units(alloc, &found.text())
    } else {
        copy_units(alloc, pair.value.as_slice())
    }
}

// Adds a pair, its value changed where it is one of the linkages.
fn push_changed(
    alloc: Global,
    out: &mut Locator,
    pair: &Pair,
    found: &Guid,
    new: &Guid,
) -> Result<(), AllocError>
    ensures { OnOk result (out.new ≡ out.old ++ linked_pair found.now new.now pair.now ∷ []) }
{
    let key = copy_units(alloc, pair.key.as_slice())?;
    let value = linked_value(alloc, pair, found, new)?;
    out.push(Pair { key, value })
}

// The same, and behind the first linkage the second one where that is missing. Answers whether it is missing still.
fn push_linked(
    alloc: Global,
    out: &mut Locator,
    pair: &Pair,
    found: &Guid,
    new: &Guid,
    is_missing: bool,
) -> Result<bool, AllocError>
    ensures pushed { OnOk result (out.new ≡ out.old ++ linked_pair found.now new.now pair.now ∷ added_behind new.now is_missing pair.now) }
    ensures missing { IfOk result (λ still. still ≡ (is_missing && not (has_key (codes "parent_linkage") pair.now))) }
{
    push_changed(alloc, out, pair, found, new)?;
    if is_missing && has_key(pair, &LINKAGE_KEY) {
        push_id(alloc, out, b"parent_linkage2", new)?;
        return Ok(false);
    }
    Ok(is_missing)
}

/// The locator of a source in a merge, with both linkages: its target's identifier as it was found, and the one that it
/// gets. An added second linkage stands directly behind the first.
pub fn with_both_linkages(
    alloc: Global,
    locator: &Locator,
    found: &Guid,
    new: &Guid,
) -> Result<Locator, NoRoom>
    ensures { IfOk result (λ pairs. pairs ≡ linked_twice found.now new.now locator.now) }
{
    let pairs = locator.as_slice();
    let mut is_missing = value_at(pairs, &SECOND_LINKAGE_KEY).is_none();
    let mut out = Locator::new(alloc);
    for pair in pairs {
        is_missing = push_linked(alloc, &mut out, pair, found, new, is_missing)?;
    }
    Ok(out)
}

// Whether a relinked child doesn't keep a pair.
fn is_dropped(pair: &Pair) -> bool
    ensures { result ≡ spec.is_dropped pair.now }
{
    has_key(pair, &SECOND_LINKAGE_KEY)
        || has_key(pair, &VOLUME_PATH_KEY)
        || has_key(pair, &ABSOLUTE_PATH_KEY)
}

// The value of a pair of a child that gets another parent.
fn relinked_value(alloc: Global, pair: &Pair, id: &Guid, name: &Name) -> Result<Units, AllocError>
    ensures { IfOk result (λ value. value ≡ spec.relinked_value id.now name.now pair.now) }
{
    if has_key(pair, &RELATIVE_PATH_KEY) {
        path_of(alloc, name)
    } else if has_key(pair, &LINKAGE_KEY) {
        plain_units(alloc, &id.text())
    } else {
        copy_units(alloc, pair.value.as_slice())
    }
}

// Adds what a child that gets another parent keeps of a pair.
fn push_relinked(
    alloc: Global,
    out: &mut Locator,
    pair: &Pair,
    id: &Guid,
    name: &Name,
) -> Result<(), AllocError>
    ensures { OnOk result (out.new ≡ out.old ++ relinked_for id.now name.now pair.now) }
{
    if is_dropped(pair) {
        return Ok(());
    }
    let key = copy_units(alloc, pair.key.as_slice())?;
    let value = relinked_value(alloc, pair, id, name)?;
    out.push(Pair { key, value })
}

/// The locator of a child that gets another parent: that one's identifier alone, and the one path of its name in the same
/// folder. An added path goes last.
pub fn relinked(alloc: Global, locator: &Locator, id: &Guid, name: &Name) -> Result<Locator, NoRoom>
    ensures { IfOk result (λ pairs. pairs ≡ relinking.relinked id.now name.now locator.now) }
{
    let pairs = locator.as_slice();
    let mut out = Locator::new(alloc);
    for pair in pairs {
        push_relinked(alloc, &mut out, pair, id, name)?;
    }
    if value_at(pairs, &RELATIVE_PATH_KEY).is_none() {
        push_path(alloc, &mut out, name)?;
    }
    Ok(out)
}
