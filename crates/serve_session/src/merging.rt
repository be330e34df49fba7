//! What a script's session gives, and what a merge beside it is given.

ghost use Rattle.std.specs.Prelude.{◌≡◌, length, IfOk};

use crate::tally::Tally;
use guest_model::ChainRefusal;
use merge_core::Piece;
use script_session::ScriptRun;
use std::alloc::Global;
use vx_base::NoRoom;

/// What a script's session gave, with a merge or without.
#[derive(Drop)]
pub struct MergeRun {
    pub run: ScriptRun,
    /// How many of the guests' reads stand in the history and failed by a reader.
    pub unread: u64,
    /// What the guests' calls came to.
    pub tally: Tally,
    /// Whether the merge was finished, if there was one; else what stopped it at the end.
    pub merged: Result<(), ChainRefusal>,
}

/// Room for a stripe, for each of so many workers.
pub fn pieces_for(alloc: Global, workers: u32) -> Result<Vec<Piece>, NoRoom>
    ensures count { IfOk result (λ pieces. length pieces.items ≡ workers) }
{
    let mut pieces = Vec::new(alloc);
    for _ in 0..workers {
        pieces.push(Piece::new(alloc)?)?;
    }
    Ok(pieces)
}
