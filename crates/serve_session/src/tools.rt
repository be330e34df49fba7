//! What workers of a merge are given.

ghost use Rattle.std.specs.Prelude.{◌≡◌, ◌<◌, All, IfOk, None, length};
ghost use Rattle.chain_core.specs.Sessions.{IsSound};
ghost use Rattle.serve_session.specs.Tools.{AreToolsFor};
ghost use Rattle.shared_chain.specs.Homes.{session_of};

use chain_core::{Chain, SealedSource};
use ledger::Ledger;
use merge_core::Piece;
use std::alloc::Global;
use store_model::Store;
use vx_base::NoRoom;

// Pages of a sealed file's tables that a worker keeps in memory, of 4,096 bytes each.
const PAGES: u32 = 16;

/// What a worker is given: room for a stripe, and what it reads the source of the merge by, where that is only read.
#[derive(Drop)]
pub struct Tools {
    pub piece: Piece,
    pub source: Option<SealedSource>,
}

/// Tools of a worker for each piece.
pub fn tools_for<S: Store>(
    alloc: Global,
    chain: &Chain<S, Ledger>,
    pieces: Vec<Piece>,
) -> Result<Vec<Tools>, NoRoom>
    requires sound { IsSound (session_of S.disk chain.now) }
    requires whole { chain.now.broken ≡ None }
    ensures count { IfOk result (λ tools. length tools.items ≡ length pieces.items) }
    ensures each { IfOk result (λ tools. All (AreToolsFor S.disk chain.now) tools.items) }
{
    let mut pieces = pieces;
    let mut tools = Vec::new(alloc);
    while let Some(piece) = pieces.pop() {
        let source = chain.sealed_source(alloc, PAGES)?;
        tools.push(Tools { piece, source })?;
    }
    Ok(tools)
}
