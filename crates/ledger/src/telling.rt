//! What is told of a history beyond what is kept of it.

ghost use Rattle.std.specs.Prelude.{◌≡◌, ◌-◌, ◌∷◌, [], ◌++◌, length, take};

use guest_model::{CallRef, Caller, KeepAll};
use std::marker::Model;
use std::snapshot::Snapshot;

/// A caller's lent call, seen as the entry of it.
#[derive(Drop)]
pub struct Noted<'a> {
    pub who: Caller,
    pub call: CallRef<'a>,
}

impl<'a> Model for Noted<'a> {
    ghost use Rattle.guest_model.specs.declared.call.Entry.{Entry};
    ghost use Rattle.guest_model.specs.Calls.{entry_of};

    ghost Value = { Entry };

    ghost view = { λ n. entry_of n.who n.call };
}

/// A history with one more entry.
pub fn with_entry(told: Snapshot<KeepAll>, noted: &Noted<'_>) -> Snapshot<KeepAll>
    ensures { result.value ≡ told.value ++ noted.now ∷ [] }
{
    let _ = noted;
    told
}

/// A history without its last entry, where it has one.
pub fn without_last(told: Snapshot<KeepAll>) -> Snapshot<KeepAll>
    ensures { result.value ≡ take (length told.value - 1) told.value }
{
    told
}
