//! A client, as guest 1 of a chain that threads share.

ghost use Rattle.std.specs.Prelude.{◌≡◌, ◌+◌, ◌*◌, ◌^◌, ◌<◌, ◌≤◌, All, length, nat_lt, true};
ghost use Rattle.nbd_front.specs.Parts.{IsFresh};
ghost use Rattle.nbd_front.specs.Sessions.{world};
ghost use Rattle.nbd_session.specs.Guests.{IsNew, WasServed};
ghost use Rattle.read_plan.specs.Reading.{has_failed};
ghost use Rattle.serve_session.specs.Actors.{IsFrom};
ghost use Rattle.serve_session.specs.Lists.{CanWork, WorksEach, with_splits};
ghost use Rattle.serve_session.specs.Sealing.{IsSetFor};
ghost use Rattle.shared_chain.specs.Seats.{IsFree};

use crate::beside::serve_beside;
use claims::Claims;
use copy_workers::Worker;
use guest_disk::GuestDisk;
use guest_io::Guest;
use nbd_front::{Desk, Export, Served};
use read_plan::{Plan, ReaderSet, Readers};
use serve_session::guests_call;
use shared_chain::SharedChain;
use std::snapshot::Snapshot;
use std::sync::Wait;
use std::thread::Threads;
use store_model::{Gate, Sink, Source, Store};
use turn_lock::{Seat, TurnLock};

/// What a client leaves that was served: how, and its seat and its readers, and how many of its reads stand in the history and failed by a reader.
pub struct Client<S: Store> {
    pub served: Served,
    pub seat: Seat<SharedChain<S>>,
    pub readers: ReaderSet<S::R>,
    pub lost: u64,
}

/// Guest 1, with a seat and readers of its own.
pub fn first_guest<S: Store>(
    lock: &TurnLock<SharedChain<S>>,
    first: &mut Seat<SharedChain<S>>,
    sets: &mut Readers<S::R>,
    plan: Plan,
    was: &Snapshot<SharedChain<S>>,
) -> Guest<S>
    requires free { IsFree lock.now first.old }
    requires leads { first.old.family.is_first ≡ true }
    requires splits { first.old.family.splits ≤ 64 }
    requires knows { IsFrom S.disk was.now.value.first first.old.basis }
    requires some { 0 < length sets.old }
    requires sets { All (IsSetFor S.disk was.now.value.first) sets.old }
    ensures guest { IsNew S.disk was.now.value.first lock.now result }
    ensures seat { first.new ≡ with_splits first.old 1 }
    ensures left { length sets.new + 1 ≡ length sets.old }
    ensures sets { All (IsSetFor S.disk was.now.value.first) sets.new }
{
    let _ = was;
    let Some(readers) = sets.take() else {
        unreachable!();
    };
    let seat = lock.split(first);
    Guest::new(seat, readers, plan, 1)
}

/// Serves a connection over a chain's disk, as guest 1 calls it, on this thread, and beside it the workers sweep, each in a thread of its own where
/// one can be made.
pub fn connect<S: Store + Send, R: Threads + Wait + Sync, G: Gate + Sync, Q: Source, K: Sink>(
    rt: &R,
    lock: &TurnLock<SharedChain<S>>,
    gate: &G,
    guest: Guest<S>,
    export: &Export,
    desk: Desk,
    source: &mut Q,
    sink: &mut K,
    claims: &Claims,
    workers: &mut [Worker<S>],
    was: &Snapshot<SharedChain<S>>,
) -> Client<S>
where
    S::R: Send + Drop,
    requires guest { IsNew S.disk was.now.value.first lock.now guest }
    requires workers { All (CanWork S.disk lock.now claims.now) workers.old }
    requires sector { export.now.geometry.sector ≡ 512 }
    requires some { 0 < export.now.geometry.sectors }
    requires most { export.now.geometry.sectors * export.now.geometry.sector ≤ 2 ^ 46 }
    requires fresh { IsFresh desk }
    ensures workers { WorksEach (4 * claims.now.limit + 1) workers.old workers.new }
    ensures client { WasServed S.disk was.now.value.first lock.now export.now
        (world (Q.left source.old) (Q.faults source.old) (K.written sink.old) (K.faults sink.old) tt)
        (world (Q.left source.new) (Q.faults source.new) (K.written sink.new) (K.faults sink.new) tt)
        result.served result.seat result.readers result.lost }
    ensures failed { has_failed result.readers ≡ nat_lt 0 result.lost }
{
    guests_call(was);
    let mut desk = desk;
    let mut disk = GuestDisk::new(rt, lock, gate, guest, export.geometry);
    let served = serve_beside(
        rt,
        workers,
        &|_, worker| {
            let _ = worker.sweep(rt, lock, claims, gate);
        },
        export,
        &mut desk,
        &mut disk,
        source,
        sink,
    );
    let (seat, readers, lost) = disk.end();
    Client {
        served,
        seat,
        readers,
        lost,
    }
}
