//! A worker of a merge.

ghost use Rattle.std.specs.Prelude.{◌≡◌, ◌+◌, ◌*◌, ◌<◌, All, IfErr, IfOk, IfSome, OnOk, Some, true};
ghost use Rattle.chain_core.specs.declared.chain.Chain.{Chain};
ghost use Rattle.chain_core.specs.Sealed.{IsSealedSource};
ghost use Rattle.copy_workers.specs.Settling.{ArePassed};
ghost use Rattle.copy_workers.specs.Sources.{HasFetched, HasSource, HaveFailed};
ghost use Rattle.copy_workers.specs.Sweeps.{AreLeft, IsLeft};
ghost use Rattle.ledger.specs.declared.ledger.Ledger.{Ledger};
ghost use Rattle.read_plan.specs.Reading.{ReaderFailed};
ghost use Rattle.shared_chain.specs.Planned.{IsReaderFor};
ghost use Rattle.shared_chain.specs.Seats.{HasWorked, IsFree, IsSwept, StopsTurn};

use crate::passing::{Passed, found_by, put_or_pass};
use crate::source::SourceReaders;
use chain_core::SealedSource;
use claims::{ClaimSeat, Claims};
use guest_model::ChainRefusal;
use merge_core::Piece;
use read_plan::ReaderSet;
use shared_chain::SharedChain;
use std::sync::{Wait, WaitMethods};
use store_model::{Gate, ReadFault, Store};
use turn_lock::{Seat, TurnLock};

/// A worker: its seat of the lock, what it claims stripes with, and room for a stripe; and what it reads sealed files by, of which one may be the
/// source of the merge.
pub struct Worker<S: Store> {
    seat: Seat<SharedChain<S>>,
    claim: ClaimSeat,
    piece: Piece,
    reads: SourceReaders<S::R>,
    // how many stripes it couldn't fetch, as a reader failed
    unfetched: u64,
}

impl<S: Store> Worker<S> {
    /// A worker that has claimed nothing. Where the source of the merge is only read, and it has a reader of that, it fetches stripes by it.
    pub fn new(
        seat: Seat<SharedChain<S>>,
        claim: ClaimSeat,
        readers: ReaderSet<S::R>,
        piece: Piece,
        source: Option<SealedSource>,
    ) -> Worker<S>
        ensures seats { (result.seat ≡ seat) × (result.claim ≡ claim) }
        ensures readers { result.reads.readers ≡ readers }
        ensures unfetched { result.unfetched ≡ 0 }
        ensures source { (first : Chain S Ledger S.R) → seat.basis.first ≡ Some first → All (IsReaderFor S.disk first) readers → IfSome source (IsSealedSource first.layers (S.disk first.store))
            → HasSource S.disk seat.basis result.reads }
    {
        Worker {
            seat,
            claim,
            piece,
            reads: SourceReaders::new(readers, source),
            unfetched: 0,
        }
    }

    // Fetches a stripe by a reader of the source, with no turn. Without one, or off the disk, it fetches nothing.
    fn fetch(&mut self, stripe: u32) -> Result<(), ReadFault>
        requires source { HasSource S.disk self.old.seat.basis self.old.reads }
        ensures source { HasSource S.disk self.new.seat.basis self.new.reads }
        ensures fetched { OnOk result (HasFetched S.disk self.new.seat stripe self.new.piece) }
        ensures stays { OnOk result (self.new.reads.readers ≡ self.old.reads.readers) }
        ensures err { IfErr result (ReaderFailed self.old.reads.readers self.new.reads.readers) }
        ensures only { self.new ≡ record self.old { piece = self.new.piece; reads = self.new.reads } }
    {
        self.piece.clear();
        self.reads.fetch(stripe, &mut self.piece)
    }

    // Fetches a stripe from the chain, in a turn of its own.
    fn fetch_live<T: Wait>(
        &mut self,
        rt: &T,
        lock: &TurnLock<SharedChain<S>>,
        stripe: u32,
    ) -> Result<(), ChainRefusal>
        requires own { IsFree lock.now self.old.seat }
        ensures worked { HasWorked 1 self.old.seat self.new.seat }
        ensures stopped { IfErr result (StopsTurn stripe self.old.seat self.new.seat) }
        ensures filled { OnOk result (self.new.piece.filled ≡ true) }
        ensures fetched { OnOk result (HasFetched S.disk self.new.seat stripe self.new.piece) }
        ensures only { self.new ≡ record self.old { seat = self.new.seat; piece = self.new.piece } }
    {
        let mut held = match lock.lock(rt, &mut self.seat) {
            Ok(held) => held,
            Err(spent) => return Err(ChainRefusal::Spent { t: spent.ticket }),
        };
        let answer = held.value().fetch_stripe(stripe, &mut self.piece);
        lock.unlock(&mut self.seat, held);
        answer
    }

    // Puts what was fetched, or passes over its stripe and others, in a turn of its own. Answers which were passed over.
    fn put<T: Wait>(
        &mut self,
        rt: &T,
        lock: &TurnLock<SharedChain<S>>,
    ) -> Result<Passed, ChainRefusal>
        requires own { IsFree lock.now self.old.seat }
        requires filled { self.old.piece.filled ≡ true }
        requires fetched { HasFetched S.disk self.old.seat self.old.piece.stripe self.old.piece }
        ensures worked { HasWorked 1 self.old.seat self.new.seat }
        ensures swept { IsSwept self.old.piece.stripe self.old.seat self.new.seat }
        ensures passed { IfOk result (ArePassed self.new.seat.basis) }
        ensures only { self.new ≡ record self.old { seat = self.new.seat; piece = self.new.piece } }
    {
        let mut held = match lock.lock(rt, &mut self.seat) {
            Ok(held) => held,
            Err(spent) => return Err(ChainRefusal::Spent { t: spent.ticket }),
        };
        let answer = put_or_pass(held.value(), &mut self.piece);
        lock.unlock(&mut self.seat, held);
        answer
    }

    // Fetches a stripe from the chain and puts it, each in a turn of its own: guests may have theirs between.
    fn move_live<T: Wait, G: Gate>(
        &mut self,
        rt: &T,
        lock: &TurnLock<SharedChain<S>>,
        gate: &G,
        stripe: u32,
    ) -> Result<Passed, ChainRefusal>
        requires own { IsFree lock.now self.old.seat }
        ensures worked { HasWorked 2 self.old.seat self.new.seat }
        ensures swept { IsSwept stripe self.old.seat self.new.seat }
        ensures passed { IfOk result (ArePassed self.new.seat.basis) }
        ensures only { self.new ≡ record self.old { seat = self.new.seat; piece = self.new.piece } }
    {
        if let Err(refusal) = self.fetch_live(rt, lock, stripe) {
            return Err(refusal);
        }
        gate.at(rt, 2);
        self.put(rt, lock)
    }

    // Puts what was fetched of a stripe by a reader; where nothing was, it is fetched from the chain.
    fn move_stripe<T: Wait, G: Gate>(
        &mut self,
        rt: &T,
        lock: &TurnLock<SharedChain<S>>,
        gate: &G,
        stripe: u32,
    ) -> Result<Passed, ChainRefusal>
        requires own { IsFree lock.now self.old.seat }
        requires fetched { HasFetched S.disk self.old.seat stripe self.old.piece }
        ensures worked { HasWorked 2 self.old.seat self.new.seat }
        ensures swept { IsSwept stripe self.old.seat self.new.seat }
        ensures passed { IfOk result (ArePassed self.new.seat.basis) }
        ensures only { self.new ≡ record self.old { seat = self.new.seat; piece = self.new.piece } }
    {
        if !self.piece.is_filled() {
            return self.move_live(rt, lock, gate, stripe);
        }
        gate.at(rt, 2);
        self.put(rt, lock)
    }

    // Copies a stripe. Where a guest changed it between the fetch and the put, it is fetched and put once more; where one did again, it is left.
    fn deliver<T: Wait, G: Gate>(
        &mut self,
        rt: &T,
        lock: &TurnLock<SharedChain<S>>,
        gate: &G,
        stripe: u32,
    ) -> Result<Passed, ChainRefusal>
        requires own { IsFree lock.now self.old.seat }
        requires fetched { HasFetched S.disk self.old.seat stripe self.old.piece }
        ensures worked { HasWorked 4 self.old.seat self.new.seat }
        ensures swept { IsSwept stripe self.old.seat self.new.seat }
        ensures passed { IfOk result (ArePassed self.new.seat.basis) }
        ensures only { self.new ≡ record self.old { seat = self.new.seat; piece = self.new.piece } }
    {
        match self.move_stripe(rt, lock, gate, stripe) {
            Err(ChainRefusal::Stale { .. }) => self.move_live(rt, lock, gate, stripe),
            answer => answer,
        }
    }

    // Fetches a stripe and copies it, if it isn't one of those that were passed over; one that can't be fetched is left, and counted.
    fn copy<T: Wait, G: Gate>(
        &mut self,
        rt: &T,
        lock: &TurnLock<SharedChain<S>>,
        gate: &G,
        passed: &mut Passed,
        stripe: u32,
    )
        requires own { IsFree lock.now self.old.seat }
        requires source { HasSource S.disk self.old.seat.basis self.old.reads }
        requires failed { HaveFailed self.old.reads self.old.unfetched }
        requires passed { ArePassed self.old.seat.basis passed.old }
        ensures source { HasSource S.disk self.new.seat.basis self.new.reads }
        ensures failed { HaveFailed self.new.reads self.new.unfetched }
        ensures worked { HasWorked 4 self.old.seat self.new.seat }
        ensures left { IsLeft stripe self.old.seat self.new.seat self.new.unfetched }
        ensures counted { 0 < self.old.unfetched → 0 < self.new.unfetched }
        ensures claim { self.new.claim ≡ self.old.claim }
        ensures passed { ArePassed self.new.seat.basis passed.new }
    {
        if passed.has(stripe) {
            return;
        }
        match self.fetch(stripe) {
            Ok(()) => {
                let answer = self.deliver(rt, lock, gate, stripe);
                *passed = found_by(answer);
            }
            Err(_) => self.unfetched = self.unfetched.saturating_add(1),
        }
    }

    // Finishes the merge, in a turn of its own.
    fn finish<T: Wait>(
        &mut self,
        rt: &T,
        lock: &TurnLock<SharedChain<S>>,
    ) -> Result<(), ChainRefusal>
        requires own { IsFree lock.now self.old.seat }
        ensures worked { HasWorked 1 self.old.seat self.new.seat }
        ensures only { self.new ≡ record self.old { seat = self.new.seat } }
    {
        let mut held = match lock.lock(rt, &mut self.seat) {
            Ok(held) => held,
            Err(spent) => return Err(ChainRefusal::Spent { t: spent.ticket }),
        };
        let answer = held.value().finish();
        lock.unlock(&mut self.seat, held);
        answer
    }

    /// Claims stripes until none is left, and copies each: by a reader it fetches it with no turn, and puts it in one; else it fetches it in a turn
    /// too, and where a guest changed it before the put, once more. Where the turn of a put finds that the source has nothing of the stripe it is
    /// passed over, with those behind it of which the same look tells that: for these no turn is taken. A stripe that is refused is left. Then it
    /// finishes the merge, and answers what that answered. It draws four tickets for each stripe that it claims at most, and one to finish. Of each
    /// of these that the chain keeps in mind a turn has answered then that it was copied, or what stopped that shows, or a reader failed.
    pub fn sweep<T: Wait, G: Gate>(
        &mut self,
        rt: &T,
        lock: &TurnLock<SharedChain<S>>,
        claims: &Claims,
        gate: &G,
    ) -> Result<(), ChainRefusal>
        requires own { IsFree lock.now self.old.seat }
        requires counter { self.old.claim.counter ≡ claims.now }
        requires source { HasSource S.disk self.old.seat.basis self.old.reads }
        requires failed { HaveFailed self.old.reads self.old.unfetched }
        ensures worked { HasWorked (4 * claims.now.limit + 1) self.old.seat self.new.seat }
        ensures left { AreLeft self.old.claim.numbers self.new.claim.numbers self.old.seat self.new.seat self.new.unfetched }
        ensures failed { HaveFailed self.new.reads self.new.unfetched }
        ensures closed { self.new.claim.is_closed ≡ true }
        ensures family { self.new.claim.family ≡ self.old.claim.family }
        ensures counter { self.new.claim.counter ≡ self.old.claim.counter }
    {
        let mut passed = Passed { from: 0, to: 0 };
        for _ in rt.forever() {
            gate.at(rt, 1);
            let Some(stripe) = claims.claim(&mut self.claim) else {
                break;
            };
            self.copy(rt, lock, gate, &mut passed, stripe);
        }
        self.finish(rt, lock)
    }

    /// Its seats and its readers, and how many stripes it couldn't fetch, as a reader failed.
    pub fn end(self) -> (Seat<SharedChain<S>>, ClaimSeat, ReaderSet<S::R>, u64)
        ensures seats { (result.0 ≡ self.seat) × (result.1 ≡ self.claim) }
        ensures readers { result.2 ≡ self.reads.readers }
        ensures unfetched { result.3 ≡ self.unfetched }
    {
        let Worker {
            seat,
            claim,
            piece: _,
            reads,
            unfetched,
        } = self;
        (seat, claim, reads.into_readers(), unfetched)
    }
}
