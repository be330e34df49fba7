//! A client over a session that has begun, or ended before.

ghost use Rattle.std.specs.Prelude.{◌≡◌, ◌<◌, ◌≤◌, ◌*◌, ◌^◌, IfErr, IfOk, Ok, false, is_some, length, nat_lt};
ghost use Rattle.nbd_command.specs.Clients.{IsUnmet};
ghost use Rattle.nbd_command.specs.Nbd.{connection};
ghost use Rattle.nbd_session.specs.Connected.{HasServedClient};
ghost use Rattle.serve_session.specs.Back.{any_failed};
ghost use Rattle.serve_session.specs.Beginning.{CanBeShared};

use guest_model::ChainRefusal;
use merge_core::Piece;
use nbd_front::{Desk, Export, Room};
use nbd_session::{NbdRun, serve_client};
use read_plan::ReaderSet;
use serve_session::{Begun, Unserved};
use std::alloc::Global;
use std::sync::Wait;
use std::thread::Threads;
use store_model::{Gate, Sink, Source, Store, StoreFault};

// What is told where a read failed by this fault, or memory ran out, before a client could be served, and the session ended so; of a merge, if there
// was one, nothing was done.
fn unmet(merges: bool, met: Option<StoreFault>, closed: Result<(), StoreFault>) -> NbdRun
    ensures { IsUnmet merges met closed result }
{
    let merged = if merges {
        Err(ChainRefusal::NoRoom)
    } else {
        Ok(())
    };
    NbdRun {
        served: None,
        fault: met,
        closed,
        unread: 0,
        merged,
    }
}

/// Serves a client over a session's chain, as `serve_client` does, if the session hasn't ended before. If it has, nothing is read and nothing is
/// sent.
pub(crate) fn serve_begun_client<
    S: Store + Send,
    R: Threads + Wait + Sync,
    G: Gate + Sync,
    Q: Source,
    K: Sink,
>(
    rt: &R,
    alloc: Global,
    begun: Result<Begun<S>, Unserved<S>>,
    export: &Export,
    room: Room,
    source: &mut Q,
    sink: &mut K,
    last: Option<&mut Piece>,
    gate: &G,
) -> (S, NbdRun, Vec<ReaderSet<S::R>>)
where
    S::R: Send + Drop,
    requires ready { IfOk begun (λ b. CanBeShared S.disk 1 (length b.tools.items) b) }
    requires workers { IfOk begun (λ b. length b.tools.items ≤ 64) }
    requires alone { IfOk begun (λ b. is_some last ≡ false → length b.tools.items ≡ 0) }
    requires size { IfOk begun (λ b. export.now.geometry ≡ b.chain.first.layers.geometry) }
    requires some { 0 < export.now.geometry.sectors }
    requires most { export.now.geometry.sectors * export.now.geometry.sector ≤ 2 ^ 46 }
    ensures served { IfOk begun (λ b. HasServedClient S.disk (is_some last.entry) b.chain.first export.now
        (connection (Q.left source.old) (Q.faults source.old) (K.written sink.old) (K.faults sink.old))
        (connection (Q.left source.new) (Q.faults source.new) (K.written sink.new) (K.faults sink.new))
        result.1 (S.disk result.0)) }
    ensures unserved { IfErr begun (λ left. IsUnmet (is_some last.entry) left.met left.closed result.1 × (S.disk result.0 ≡ S.disk left.store)
        × (connection (Q.left source.new) (Q.faults source.new) (K.written sink.new) (K.faults sink.new) ≡ connection (Q.left source.old) (Q.faults source.old) (K.written sink.old) (K.faults sink.old))) }
    ensures without { is_some last.entry ≡ false → result.1.merged ≡ Ok tt }
    ensures back { any_failed result.2.items ≡ nat_lt 0 result.1.unread }
{
    match begun {
        Ok(begun) => {
            let desk = Desk::new(room);
            serve_client(rt, alloc, begun, export, desk, source, sink, last, gate)
        }
        Err(Unserved { store, met, closed }) => {
            let run = unmet(last.is_some(), met, closed);
            (store, run, Vec::new(alloc))
        }
    }
}
