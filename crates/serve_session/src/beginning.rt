//! A chain whose session has just begun, made ready for threads to share.

ghost use Rattle.std.specs.Prelude.{◌≡◌, ◌+◌, ◌≤◌, [], None, IfErr, IfOk, is_some, length, true};
ghost use Rattle.chain_core.specs.Sessions.{IsSound};
ghost use Rattle.serve_session.specs.Beginning.{CanBeShared};
ghost use Rattle.serve_session.specs.Sealing.{EndsUnserved, IsSealing, ServesFirst};
ghost use Rattle.shared_chain.specs.Homes.{session_of};

use crate::sealing::{Unserved, seal};
use crate::tools::{Tools, tools_for};
use chain_core::Chain;
use ledger::Ledger;
use merge_core::Piece;
use read_plan::Readers;
use shared_chain::{SharedChain, end_fresh};
use std::alloc::Global;
use store_model::Store;

/// A chain that threads may share: with a set of readers for each guest and each worker of a merge, how many stripes of 1 MB its disk has, and what
/// each worker is given.
pub struct Begun<S: Store> {
    pub chain: SharedChain<S>,
    pub sets: Readers<S::R>,
    pub stripes: u32,
    pub tools: Vec<Tools>,
}

/// Seals what a session only reads that has just begun, and makes its chain ready for so many guests, and for a worker with each piece. Where a
/// read fails, or memory runs out, the session ends, and no guest was served.
pub fn begin<S: Store>(
    alloc: Global,
    chain: Chain<S, Ledger>,
    guests: u32,
    stripes: u32,
    pieces: Vec<Piece>,
) -> Result<Begun<S>, Unserved<S>>
where
    S::R: Drop,
    requires sound { IsSound (session_of S.disk chain) }
    requires fresh { (chain.events ≡ 0) × (chain.broken ≡ None) × (chain.recorder ≡ []) }
    requires session { is_some chain.layers.leaf ≡ true }
    requires serves { ServesFirst S.disk chain }
    requires guests { guests ≤ 64 }
    requires workers { length pieces.items ≤ 64 }
    ensures ready { IfOk result (CanBeShared S.disk guests (length pieces.items)) }
    ensures stripes { IfOk result (λ begun. begun.stripes ≡ stripes) }
    ensures sealed { IfOk result (λ begun. IsSealing S.disk chain begun.chain.first None) }
    ensures ended { IfErr result (λ left. EndsUnserved S.disk chain left.store left.met left.closed) }
{
    let readers = guests + pieces.len() as u32;
    let (chain, sets) = match seal(alloc, chain, readers) {
        Ok(made) => made,
        Err(left) => return Err(left),
    };
    let Ok(tools) = tools_for(alloc, &chain, pieces) else {
        let (store, closed) = end_fresh(chain);
        return Err(Unserved {
            store,
            met: None,
            closed,
        });
    };
    match SharedChain::new(alloc, chain, stripes) {
        Ok(chain) => Ok(Begun {
            chain,
            sets,
            stripes,
            tools,
        }),
        Err((store, closed)) => Err(Unserved {
            store,
            met: None,
            closed,
        }),
    }
}
