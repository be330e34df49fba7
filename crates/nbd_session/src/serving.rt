//! A session with one client, from its first call to its end.

ghost use Rattle.std.specs.Prelude.{◌≡◌, ◌+◌, ◌*◌, ◌^◌, ◌<◌, ◌≤◌, ◌∷◌, [], All, List, None, Ok, Some, false, true, is_some, length, nat_lt, vec_capacity, IfSome};
ghost use Rattle.guest_model.specs.declared.call.Call.{Call};
ghost use Rattle.nbd_front.specs.Parts.{IsFresh};
ghost use Rattle.nbd_front.specs.Sessions.{world};
ghost use Rattle.nbd_session.specs.Connected.{HasServedClient, asked_by_client};
ghost use Rattle.nbd_session.specs.Guests.{IsSharedByClient};
ghost use Rattle.read_plan.specs.Reading.{has_failed};
ghost use Rattle.serve_session.specs.Actors.{AreJoined};
ghost use Rattle.serve_session.specs.Back.{any_failed};
ghost use Rattle.serve_session.specs.Beginning.{CanBeShared};
ghost use Rattle.serve_session.specs.Calling.{HasCalled};
ghost use Rattle.serve_session.specs.Lists.{HasDone};
ghost use Rattle.serve_session.specs.Sealing.{IsSetFor};
ghost use Rattle.serve_session.specs.Served.{Asking, Outcome, unread_in};
ghost use Rattle.serve_session.specs.Serving.{HasBegun, WasShared};
ghost use Rattle.serve_session.specs.Tools.{AreToolsFor};
ghost use Rattle.shared_chain.specs.Seats.{IsFree};

use crate::client::{Client, connect, first_guest};
use crate::run::NbdRun;
use claims::Claims;
use copy_workers::Worker;
use merge_core::Piece;
use nbd_front::{Desk, Export, Served};
use read_plan::{Plan, ReaderSet, Readers};
use serve_session::{
    Begun, Ended, Tools, add_workers, close_shared, end_session, join_guest, room_for_sets,
};
use shared_chain::SharedChain;
use std::alloc::Global;
use std::snapshot::Snapshot;
use std::sync::Wait;
use std::thread::Threads;
use store_model::{Gate, Sink, Source, Store};
use turn_lock::{Seat, TurnLock};
use vx_base::NoRoom;

// What threads left of a chain that they shared: the chain, how the client was served, if it was, the readers of the client's guest and of the
// workers, and how many reads failed by one.
struct Left<S: Store> {
    chain: SharedChain<S>,
    served: Option<Served>,
    back: Vec<ReaderSet<S::R>>,
    unread: u64,
}

// A chain that wasn't shared, as memory ran out for it.
fn unshared<S: Store>(alloc: Global, chain: SharedChain<S>) -> Left<S>
    ensures { (result.chain ≡ chain) × (result.served ≡ None) × (result.back.items ≡ []) × (result.unread ≡ 0) }
{
    Left {
        chain,
        served: None,
        back: Vec::new(alloc),
        unread: 0,
    }
}

// Joins the seats of the client's guest and of the workers, and takes the chain out of its lock.
fn end_all<S: Store>(
    lock: TurnLock<SharedChain<S>>,
    first: Seat<SharedChain<S>>,
    client: Client<S>,
    workers: Vec<Worker<S>>,
    back: Vec<ReaderSet<S::R>>,
    was: &Snapshot<SharedChain<S>>,
) -> Left<S>
    requires joined { (asking : Asking) → AreJoined S.disk was.now.value.first false lock asking first [] }
    requires own { IsFree lock first }
    requires leads { first.family.is_first ≡ true }
    requires split { first.family.splits ≡ first.family.joins + 1 + length workers.items }
    requires ticket { first.first_ticket ≡ Some 0 }
    requires none { first.drawn ≡ 0 }
    requires free { IsFree lock client.seat }
    requires drawn { client.seat.drawn ≤ 2 ^ 57 }
    requires lost { client.lost ≤ 2 ^ 57 }
    requires failed { has_failed client.readers ≡ nat_lt 0 client.lost }
    requires done { All (HasDone lock) workers.items }
    requires few { length workers.items ≤ 64 }
    requires empty { back.items ≡ [] }
    requires reserved { 1 + length workers.items ≤ vec_capacity back }
    ensures alone { (calls : List Call) (outcomes : List Outcome) → HasCalled S.disk was.now.value.first 1 calls client.seat client.readers outcomes → client.lost ≡ length (unread_in outcomes) → length workers.items ≡ 0
        → WasShared S.disk false was.now.value (asked_by_client calls) result.chain (outcomes ∷ []) result.unread }
    ensures beside { (calls : List Call) (outcomes : List Outcome) → HasCalled S.disk was.now.value.first 1 calls client.seat client.readers outcomes → client.lost ≡ length (unread_in outcomes)
        → WasShared S.disk true was.now.value (asked_by_client calls) result.chain (outcomes ∷ []) result.unread }
    ensures served { result.served ≡ Some client.served }
    ensures back { any_failed result.back.items ≡ nat_lt 0 result.unread }
{
    let mut first = first;
    let mut back = back;
    let Client {
        served,
        seat,
        readers,
        lost,
    } = client;
    join_guest(&lock, &mut first, seat, was);
    back.push_reserved(readers);
    let (chain, unfetched) = close_shared(lock, first, workers, &mut back, was);
    Left {
        chain,
        served: Some(served),
        back,
        unread: lost.saturating_add(unfetched),
    }
}

// Room for so many workers, a plan for the client's reads, and room for the readers of all.
fn ready<S: Store>(
    alloc: Global,
    workers: usize,
) -> Option<(Vec<Worker<S>>, Plan, Vec<ReaderSet<S::R>>)>
where
    S::R: Drop,
    requires few { workers ≤ 64 }
    ensures workers { IfSome result (λ r. (r.0.items ≡ []) × (workers ≤ vec_capacity r.0)) }
    ensures back { IfSome result (λ r. (r.2.items ≡ []) × (1 + workers ≤ vec_capacity r.2)) }
{
    let Ok(plan) = Plan::new(alloc) else {
        return None;
    };
    let Ok(back) = room_for_sets(alloc, 1 + workers) else {
        return None;
    };
    let mut hands = Vec::new(alloc);
    if hands.reserve(workers).is_err() {
        hands.destroy_empty();
        return None;
    }
    Some((hands, plan, back))
}

// Shares a chain between the client's guest and a worker for each one's tools, each of which gets a set of readers.
fn share<S: Store + Send, R: Threads + Wait + Sync, G: Gate + Sync, Q: Source, K: Sink>(
    rt: &R,
    alloc: Global,
    chain: SharedChain<S>,
    export: &Export,
    desk: Desk,
    source: &mut Q,
    sink: &mut K,
    sets: Readers<S::R>,
    stripes: u32,
    tools: Vec<Tools>,
    gate: &G,
) -> Left<S>
where
    S::R: Send + Drop,
    requires begun { HasBegun S.disk chain }
    requires sets { (length sets ≡ 1 + length tools.items) × All (IsSetFor S.disk chain.first) sets }
    requires tools { All (AreToolsFor S.disk chain.first) tools.items }
    requires workers { length tools.items ≤ 64 }
    requires sector { export.now.geometry.sector ≡ 512 }
    requires some { 0 < export.now.geometry.sectors }
    requires most { export.now.geometry.sectors * export.now.geometry.sector ≤ 2 ^ 46 }
    requires fresh { IsFresh desk }
    ensures alone { length tools.items ≡ 0 → IsSharedByClient S.disk false chain export.now
        (world (Q.left source.old) (Q.faults source.old) (K.written sink.old) (K.faults sink.old) tt)
        (world (Q.left source.new) (Q.faults source.new) (K.written sink.new) (K.faults sink.new) tt)
        result.chain result.served result.unread }
    ensures beside { IsSharedByClient S.disk true chain export.now
        (world (Q.left source.old) (Q.faults source.old) (K.written sink.old) (K.faults sink.old) tt)
        (world (Q.left source.new) (Q.faults source.new) (K.written sink.new) (K.faults sink.new) tt)
        result.chain result.served result.unread }
    ensures back { any_failed result.back.items ≡ nat_lt 0 result.unread }
{
    let mut sets = sets;
    let mut tools = tools;
    let was = Snapshot::of(&chain);
    let Ok((claims, mut claim)) = Claims::new(alloc, stripes) else {
        return unshared(alloc, chain);
    };
    let Some((mut workers, plan, back)) = ready(alloc, tools.len()) else {
        return unshared(alloc, chain);
    };
    let (lock, mut first) = match TurnLock::new(alloc, chain) {
        Ok(made) => made,
        Err((chain, NoRoom)) => {
            workers.destroy_empty();
            return unshared(alloc, chain);
        }
    };
    let guest = first_guest(&lock, &mut first, &mut sets, plan, &was);
    add_workers(
        &lock,
        &mut first,
        &claims,
        &mut claim,
        &mut sets,
        &mut tools,
        &mut workers,
        &was,
    );
    let hands = workers.as_mut_slice();
    let client = connect(
        rt, &lock, gate, guest, export, desk, source, sink, &claims, hands, &was,
    );
    end_all(lock, first, client, workers, back, &was)
}

/// Serves one client over a chain whose session has begun, as its guest 1, on this thread, beside a worker of the merge for each one's tools; then
/// the merge, if there is one, is finished, and the session ends. The store comes back, whatever is answered, and with it the readers of the
/// client's guest and of the workers. What is served is the chain's disk; the merge has a piece of its own for what is left to it.
pub fn serve_client<S: Store + Send, R: Threads + Wait + Sync, G: Gate + Sync, Q: Source, K: Sink>(
    rt: &R,
    alloc: Global,
    begun: Begun<S>,
    export: &Export,
    desk: Desk,
    source: &mut Q,
    sink: &mut K,
    last: Option<&mut Piece>,
    gate: &G,
) -> (S, NbdRun, Vec<ReaderSet<S::R>>)
where
    S::R: Send + Drop,
    requires ready { CanBeShared S.disk 1 (length begun.tools.items) begun }
    requires workers { length begun.tools.items ≤ 64 }
    requires alone { is_some last ≡ false → length begun.tools.items ≡ 0 }
    requires size { export.now.geometry ≡ begun.chain.first.layers.geometry }
    requires some { 0 < export.now.geometry.sectors }
    requires most { export.now.geometry.sectors * export.now.geometry.sector ≤ 2 ^ 46 }
    requires fresh { IsFresh desk }
    ensures served { HasServedClient S.disk (is_some last.entry) begun.chain.first export.now
        (world (Q.left source.old) (Q.faults source.old) (K.written sink.old) (K.faults sink.old) tt)
        (world (Q.left source.new) (Q.faults source.new) (K.written sink.new) (K.faults sink.new) tt)
        result.1 (S.disk result.0) }
    ensures without { is_some last.entry ≡ false → result.1.merged ≡ Ok tt }
    ensures back { any_failed result.2.items ≡ nat_lt 0 result.1.unread }
{
    let Begun {
        chain,
        sets,
        stripes,
        tools,
    } = begun;
    let was = Snapshot::of(&chain);
    let left = share(
        rt, alloc, chain, export, desk, source, sink, sets, stripes, tools, gate,
    );
    let Left {
        chain,
        served,
        back,
        unread,
    } = left;
    let Ended {
        store,
        history: _,
        fault,
        closed,
        merged,
    } = end_session(chain, &was, last);
    let run = NbdRun {
        served,
        fault,
        closed,
        unread,
        merged,
    };
    (store, run, back)
}
