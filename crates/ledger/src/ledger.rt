//! The history of a session.

ghost use Rattle.std.specs.Prelude.{◌≡◌, [], IfSome};

use crate::telling::{Noted, with_entry, without_last};
use guest_model::{CallRef, Caller, KeepAll, Kept, Recorder};
use std::alloc::Global;
use std::marker::Model;
use std::mem;
use std::snapshot::Snapshot;
use vx_base::NoRoom;

/// Tells every entry. It keeps them all, or none: then it takes no memory, however long the history is.
#[derive(Drop)]
pub struct Ledger {
    kept: KeepAll,
    keeps: bool,
    count: u64,
    told: Snapshot<KeepAll>,
}

impl Model for Ledger {
    ghost use Rattle.std.specs.Prelude.{◌≡◌, ◌^◌, ◌<◌, List, length, true};
    ghost use Rattle.guest_model.specs.declared.call.Entry.{Entry};

    ghost Value = { List Entry };

    ghost view = { λ l. l.told.value };

    ghost invariant = { λ l. (l.keeps ≡ true → l.kept ≡ l.told.value) × (l.count ≡ length l.told.value) };
}

impl Ledger {
    // No entry yet.
    fn new(alloc: Global, keeps: bool) -> Ledger
        ensures { result ≡ [] }
    {
        let kept = KeepAll::new(alloc);
        let told = Snapshot::of(&kept);
        Ledger {
            kept,
            keeps,
            count: 0,
            told,
        }
    }

    /// No entry yet. Each will be kept, with a write's bytes, of which one that is repeated takes no memory.
    pub fn keeping(alloc: Global) -> Ledger
        ensures { result ≡ [] }
    {
        Ledger::new(alloc, true)
    }

    /// No entry yet. None will be kept.
    pub fn telling(alloc: Global) -> Ledger
        ensures { result ≡ [] }
    {
        Ledger::new(alloc, false)
    }

    /// The entries, oldest first, lent, if they are kept.
    pub fn entries(&self) -> Option<&[Kept]>
        ensures { IfSome result (λ entries. entries.now ≡ self.now) }
    {
        if self.keeps {
            Some(self.kept.entries())
        } else {
            None
        }
    }
}

impl Recorder for Ledger {
    ghost use Rattle.std.specs.Prelude.{Some, false, length, refl};

    ghost told = { λ l. Some l };

    ghost noted = { λ l. length l };

    ghost takes_none = { false };

    fn note(&mut self, who: Caller, call: CallRef<'_>) -> Result<(), NoRoom> {
        if self.count == u64::MAX {
            return Err(NoRoom);
        }
        if self.keeps {
            self.kept.note(who, call)?;
        }
        let told = mem::replace(&mut self.told, Snapshot::of(&self.kept));
        self.told = with_entry(told, &Noted { who, call });
        self.count += 1;
        Ok(())
    }

    fn drop_last(&mut self) {
        if self.keeps {
            self.kept.drop_last();
        }
        let told = mem::replace(&mut self.told, Snapshot::of(&self.kept));
        self.told = without_last(told);
        self.count = self.count.saturating_sub(1);
    }

    fn len(&self) -> u64 {
        self.count
    }

    ghost counted = { λ s. refl };
}
