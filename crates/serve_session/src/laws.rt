//! Laws of what guests are told, as contracts of functions that do nothing.

ghost use Rattle.serve_session.specs.Calling.{BeginsToCall, CallsOnceMore};

use shared_chain::SharedChain;
use std::snapshot::Snapshot;
use store_model::Store;

/// Of a guest of a session's chain, as it was when the session began: with no call it was told of none, and with each one more it was told
/// of all, in their order, and of nothing else.
pub fn guests_call<S: Store>(chain: &Snapshot<SharedChain<S>>)
    ensures begins { BeginsToCall S.disk chain.now.value.first }
    ensures goes_on { CallsOnceMore S.disk chain.now.value.first }
{
    let _ = chain;
}
