//! What a seat knows for good of a chain, and what the history that threads share is made of.

use chain_core::Chain;
use guest_model::Entry;
use ledger::Ledger;
use std::collections::LinkedList;
use store_model::Store;

/// What an event left noted for good, with its numbers. No value of it is made.
pub enum Note {
    /// So many reads of this file had failed.
    ReadFailed { file: u32, count: u64 },
    /// A change of this file failed, as its so manieth one, and broke the session.
    ChangeFailed { file: u32, count: u64 },
    /// A block found no place; the first free unit was this.
    Full { next: u64 },
}

/// What holds of a chain for good: how it was when its session had begun, and what its events have noted. No value of it is made.
pub struct Basis<S: Store> {
    /// None in the basis of nobody.
    pub first: Option<Chain<S, Ledger>>,
    pub notes: LinkedList<Note>,
    /// How many events it had at least.
    pub events: u64,
    /// How many stripes of its merge are kept in mind once they are copied; and those that a step of the merge has copied since.
    pub stripes: u32,
    pub copied: LinkedList<u32>,
    /// Whether the merge was finished, or none was found, or its end was begun.
    pub finished: bool,
}

/// The call that broke a session: its guest and its number, and the sectors that it changes, none if it is a flush.
#[derive(Clone, Copy)]
pub struct Breach {
    pub guest: u32,
    pub no: u64,
    pub first: u64,
    pub count: u64,
}

/// A step of a chain's history as its lock tells it: a call that was done; or, behind all of them, the call that broke the session. No
/// value of it is made.
pub enum Step {
    Done { entry: Entry },
    Broke { breach: Breach },
}
