//! The end of a session whose chain was shared.

ghost use Rattle.std.specs.Prelude.{◌≡◌, ℕ, Bool, List, Ok, [], false, is_some, replicate, true};
ghost use Rattle.serve_session.specs.Served.{Asking, Outcome};
ghost use Rattle.serve_session.specs.Serving.{EndsAs, HasBegun, HasServed, WasShared};

use guest_model::ChainRefusal;
use ledger::Ledger;
use merge_core::Piece;
use shared_chain::SharedChain;
use std::snapshot::Snapshot;
use store_model::{Store, StoreFault};

/// What a session left: the store and the history; the last fault that a call was refused by; how the session ended; and whether its merge was
/// finished, if it had one, or what stopped it.
pub struct Ended<S: Store> {
    pub store: S,
    pub history: Ledger,
    pub fault: Option<StoreFault>,
    pub closed: Result<(), StoreFault>,
    pub merged: Result<(), ChainRefusal>,
}

// Finishes the merge, if there is one.
fn end_merge<S: Store>(
    chain: &mut SharedChain<S>,
    last: Option<&mut Piece>,
) -> Result<(), ChainRefusal>
    ensures { EndsAs S.disk (is_some last.entry) chain.old chain.new result }
{
    match last {
        Some(piece) => chain.end_merge(piece),
        None => Ok(()),
    }
}

/// Ends the session of a chain that guests shared since it was as in the snapshot: what is missing of the merge is copied, if there is a merge,
/// and that is finished, with the piece; and each file's session ends. The store comes back, whatever is answered.
pub fn end_session<S: Store>(
    chain: SharedChain<S>,
    was: &Snapshot<SharedChain<S>>,
    last: Option<&mut Piece>,
) -> Ended<S>
    requires begun { HasBegun S.disk was.now.value }
    ensures history { result.history ≡ chain.chain.recorder }
    ensures without { is_some last.entry ≡ false → result.merged ≡ Ok tt }
    ensures served { (asking : Asking) (guests : List (List Outcome)) (unread : ℕ) (short : Bool) → WasShared S.disk (is_some last.entry) was.now.value asking chain guests unread
        → HasServed S.disk (is_some last.entry) was.now.value.first asking guests result.history (record { fault = result.fault; closed = result.closed; unread = unread; short = short }) result.merged (S.disk result.store) }
    // Where memory ran out before a guest made a call.
    ensures unserved { (asking : Asking) → chain ≡ was.now.value
        → HasServed S.disk (is_some last.entry) was.now.value.first asking (replicate asking.count []) [] (record { fault = result.fault; closed = result.closed; unread = 0; short = true }) result.merged (S.disk result.store) }
{
    let mut chain = chain;
    let merged = end_merge(&mut chain, last);
    let (store, history, fault, closed) = chain.close();
    Ended {
        store,
        history,
        fault,
        closed,
        merged,
    }
}
