//! A session that has started, with the guests of a script.

ghost use Rattle.std.specs.Prelude.{◌≡◌, ◌≤◌, ◌^◌, All, IfErr, IfOk, Ok, false, is_some, length, map, nat_lt};
ghost use Rattle.serve_session.specs.Back.{any_failed};
ghost use Rattle.serve_session.specs.Beginning.{CanBeShared, IsUnsaid};
ghost use Rattle.serve_session.specs.Served.{guest_count};
ghost use Rattle.serve_session.specs.Serving.{HasServedScript};

use crate::beginning::Begun;
use crate::merging::MergeRun;
use crate::sealing::Unserved;
use crate::serving::{serve, unserved};
use merge_core::Piece;
use read_plan::ReaderSet;
use script::Line;
use std::alloc::Global;
use std::convert::AsStr;
use std::sync::Wait;
use std::thread::Threads;
use store_model::{Gate, Store};

/// Serves the guests of a script of `serve` over a chain whose session has begun: each guest's calls in the script's order, and in a thread of
/// its own where one can be made, beside a worker of the merge for each one's tools; then the merge, if there is one, is finished, and the
/// session ends. If it ended before no guest is served. The store comes back, whatever is answered, and with it the readers of guests and
/// workers. The names are those of the chain's files, from the leaf on; each guest has a room, and the merge a piece of its own for what is left
/// to it.
pub fn serve_begun<S: Store + Send, R: Threads + Wait + Sync, G: Gate + Sync, N: AsStr + Sync>(
    rt: &R,
    alloc: Global,
    begun: Result<Begun<S>, Unserved<S>>,
    names: &[N],
    lines: &[Line],
    rooms: Vec<Vec<u8>>,
    last: Option<&mut Piece>,
    gate: &G,
) -> (S, MergeRun, Vec<ReaderSet<S::R>>)
where
    S::R: Send + Drop,
    requires ready { IfOk begun (λ b. CanBeShared S.disk (length rooms.items) (length b.tools.items) b) }
    requires workers { IfOk begun (λ b. length b.tools.items ≤ 64) }
    requires alone { IfOk begun (λ b. is_some last ≡ false → length b.tools.items ≡ 0) }
    requires few { length lines.now ≤ 2 ^ 20 }
    requires count { length rooms.items ≡ guest_count lines.now }
    requires each { All (λ room. length room.items ≡ 1048576) rooms.items }
    ensures served { IfOk begun (λ b. HasServedScript S.disk (is_some last.entry) b.chain.first (map N.text names.now) lines.now result.1 (S.disk result.0)) }
    ensures unserved { IfErr begun (λ left. IsUnsaid (is_some last.entry) left.met left.closed result.1 × (S.disk result.0 ≡ S.disk left.store)) }
    ensures without { is_some last.entry ≡ false → result.1.merged ≡ Ok tt }
    ensures back { any_failed result.2.items ≡ nat_lt 0 result.1.unread }
{
    match begun {
        Ok(begun) => serve(rt, alloc, begun, names, lines, rooms, last, gate),
        Err(Unserved { store, met, closed }) => {
            let run = unserved(last.is_some(), met, closed);
            (store, run, Vec::new(alloc))
        }
    }
}
