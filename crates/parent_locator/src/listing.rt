//! All that is wrong with a locator: not only the first rule that it breaks.

ghost use Rattle.std.specs.Prelude.{◌≡◌, ◌<◌, ◌^◌, ◌++◌, IfOk, OnOk, length, map};
ghost use Rattle.vhdx_format.specs.Locators as spec;
ghost use Rattle.vhdx_format.specs.Locators.{bad_entries, pairs_of};
ghost use Rattle.parent_locator.specs.Listing.{bad_entry, fault_if, fault_rule, is_bad_entry};

use crate::is_no_locator;
use crate::pairs::{entries_of, is_bad_pair, pairs_in, parent_name, value_at};
use std::alloc::{AllocError, Global};
use vhdx_format::{LINKAGE_KEY, Pair};
use vx_base::u16_at;

/// What is wrong with a locator.
#[derive(Clone, Copy, PartialEq, Eq)]
pub enum LocatorFault {
    /// An entry that breaks a rule, counted from 0; where none is the parent's linkage, how many entries there are.
    BadEntry { entry: u32 },
    /// No path, or one that ends in no name.
    NoParentName,
}

// Whether an entry breaks a rule.
fn is_bad(alloc: Global, entries: &[Option<Pair>], entry: &Option<Pair>) -> Result<bool, AllocError>
    ensures { IfOk result (λ bad. bad ≡ is_bad_entry (pairs_of entries.now) entry.now) }
{
    match entry {
        Some(pair) => is_bad_pair(alloc, entries, pair),
        None => Ok(true),
    }
}

// Adds a fault, where it is one.
fn push_if(
    found: &mut Vec<LocatorFault>,
    is_fault: bool,
    fault: LocatorFault,
) -> Result<(), AllocError>
    ensures { OnOk result (found.new.items ≡ found.old.items ++ fault_if is_fault fault) }
{
    if is_fault {
        found.push(fault)?;
    }
    Ok(())
}

// Adds all entries that break a rule.
fn push_bad(
    alloc: Global,
    found: &mut Vec<LocatorFault>,
    entries: &[Option<Pair>],
) -> Result<(), AllocError>
    requires { length entries.now < 2 ^ 16 }
    ensures { OnOk result (found.new.items ≡ found.old.items ++ map bad_entry (bad_entries (pairs_of entries.now) 0 entries.now)) }
{
    for i in 0..entries.len() {
        let bad = is_bad(alloc, entries, &entries[i])?;
        push_if(found, bad, LocatorFault::BadEntry { entry: i as u32 })?;
    }
    Ok(())
}

/// All that is wrong with a locator, in order.
pub fn locator_faults(alloc: Global, item: &[u8]) -> Result<Vec<LocatorFault>, AllocError>
    ensures { IfOk result (λ faults. map fault_rule faults.items ≡ spec.locator_faults item.now) }
{
    let mut found = Vec::new(alloc);
    if is_no_locator(item) {
        found.push(LocatorFault::BadEntry { entry: 0 })?;
        return Ok(found);
    }
    let entries = entries_of(alloc, item)?;
    push_bad(alloc, &mut found, entries.as_slice())?;
    let locator = pairs_in(alloc, entries)?;
    let unlinked = value_at(locator.as_slice(), &LINKAGE_KEY).is_none();
    let entry = u32::from(u16_at(item, 18));
    push_if(&mut found, unlinked, LocatorFault::BadEntry { entry })?;
    let unnamed = parent_name(alloc, locator.as_slice())?.is_none();
    push_if(&mut found, unnamed, LocatorFault::NoParentName)?;
    Ok(found)
}
