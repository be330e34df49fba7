//! A guest.

ghost use Rattle.std.specs.Prelude.{◌≡◌, ◌/◌, ◌%◌, All, OnOk, Some, length};
ghost use Rattle.guest_model.specs.Counts.{one_more};
ghost use Rattle.guest_model.specs.declared.call.Call.TheVariants as calls;
ghost use Rattle.guest_model.specs.declared.call.Reply.TheVariants as replies;
ghost use Rattle.guest_io.specs.Guests.{AreReadBy, HaveReaders, IsCall, ReadsBy, caller_of, found_by, placed_at};
ghost use Rattle.read_plan.specs.Plans.{FitsIn};
ghost use Rattle.read_plan.specs.Reading.{AreThere, HasFilled, LieInFiles};
ghost use Rattle.shared_chain.specs.Seats.{IsFree};

use crate::placed::Placed;
use guest_model::{Caller, ChainRefusal};
use read_plan::{Plan, ReaderSet};
use shared_chain::SharedChain;
use std::sync::Wait;
use store_model::{Gate, ReadFault, Store, StoreFault};
use turn_lock::{Seat, TurnLock};

// Bytes of a sector.
const SECTOR: u32 = 512;

/// A guest: its seat, what it reads sealed files by, and its number. Its calls are numbered from 1.
pub struct Guest<S: Store> {
    seat: Seat<SharedChain<S>>,
    readers: ReaderSet<S::R>,
    // what is to be read of sealed files, of one read at a time
    plan: Plan,
    number: u32,
    // the number of the next call
    next: u64,
}

impl<S: Store> Guest<S> {
    /// A guest of this number, with no call yet. It reads by these readers what it can, and has a plan to note that in.
    pub fn new(
        seat: Seat<SharedChain<S>>,
        readers: ReaderSet<S::R>,
        plan: Plan,
        number: u32,
    ) -> Guest<S>
        ensures { (result.seat ≡ seat) × (result.readers ≡ readers) × (result.number ≡ number) × (result.next ≡ 1) }
    {
        Guest {
            seat,
            readers,
            plan,
            number,
            next: 1,
        }
    }

    // Who makes the next call.
    fn caller(&mut self) -> Caller
        ensures who { result ≡ caller_of self.old.number self.old.next }
        ensures next { self.new ≡ record self.old { next = one_more self.old.next } }
    {
        let who = Caller {
            guest: self.number,
            no: self.next,
        };
        self.next = self.next.saturating_add(1);
        who
    }

    // Reads what is planned of a read into its buffer, with no turn.
    fn fill(&mut self, buf: &mut [u8]) -> Result<(), StoreFault>
        requires fit { All (FitsIn 512 (length buf.old)) self.old.plan }
        requires there { AreThere self.old.readers self.old.plan }
        requires inside { LieInFiles 512 self.old.readers self.old.plan }
        ensures filled { OnOk result (HasFilled 512 self.old.readers self.old.plan buf.old buf.new) }
        ensures reads { AreReadBy result self.old.readers self.new.readers }
        ensures only { self.new ≡ record self.old { readers = self.new.readers } }
    {
        match self.readers.fill(&self.plan, SECTOR, buf) {
            Ok(()) => Ok(()),
            Err(ReadFault { file, count }) => Err(StoreFault { file, count }),
        }
    }

    /// Reads whole sectors: what files in sessions have in a turn of its own, which gives the call its place in the history, and what sealed files
    /// have behind it, with no turn. Where that fails the call keeps its place.
    pub fn read<T: Wait, G: Gate>(
        &mut self,
        rt: &T,
        lock: &TurnLock<SharedChain<S>>,
        gate: &G,
        first: u64,
        buf: &mut [u8],
    ) -> Result<Placed, ChainRefusal>
        requires own { IsFree lock.now self.old.seat }
        requires whole { length buf.old % 512 ≡ 0 }
        requires readers { HaveReaders S.disk self.old.seat.basis self.old.readers }
        ensures called { IsCall S.disk (caller_of self.old.number self.old.next) (calls.Read first (length buf.old / 512)) (found_by result buf.new) self.old.seat self.new.seat (placed_at result) }
        ensures reads { ReadsBy result self.old.readers self.new.readers }
        ensures have { HaveReaders S.disk self.new.seat.basis self.new.readers }
        ensures next { (self.new.number ≡ self.old.number) × (self.new.next ≡ one_more self.old.next) }
    {
        let who = self.caller();
        let mut held = match lock.lock(rt, &mut self.seat) {
            Ok(held) => held,
            Err(spent) => return Err(ChainRefusal::Spent { t: spent.ticket }),
        };
        let answer = held
            .value()
            .read_plan(who, first, &self.readers, &mut self.plan, buf);
        lock.unlock(&mut self.seat, held);
        gate.at(rt, 3);
        let place = match answer {
            Ok(place) => place,
            Err(refusal) => return Err(refusal),
        };
        let read = self.fill(buf);
        Ok(Placed { place, read })
    }

    /// Writes whole sectors, in a turn of its own. Answers the call's place in the history.
    pub fn write<T: Wait, G: Gate>(
        &mut self,
        rt: &T,
        lock: &TurnLock<SharedChain<S>>,
        _gate: &G,
        first: u64,
        bytes: &[u8],
    ) -> Result<u64, ChainRefusal>
        requires own { IsFree lock.now self.old.seat }
        requires whole { length bytes.now % 512 ≡ 0 }
        ensures called { IsCall S.disk (caller_of self.old.number self.old.next) (calls.Write first bytes.now) (Some replies.Done) self.old.seat self.new.seat result }
        ensures readers { self.new.readers ≡ self.old.readers }
        ensures next { (self.new.number ≡ self.old.number) × (self.new.next ≡ one_more self.old.next) }
    {
        let who = self.caller();
        let mut held = match lock.lock(rt, &mut self.seat) {
            Ok(held) => held,
            Err(spent) => return Err(ChainRefusal::Spent { t: spent.ticket }),
        };
        let answer = held.value().write(who, first, bytes);
        lock.unlock(&mut self.seat, held);
        answer
    }

    /// Makes sectors zeros, in a turn of its own. Answers the call's place in the history.
    pub fn trim<T: Wait, G: Gate>(
        &mut self,
        rt: &T,
        lock: &TurnLock<SharedChain<S>>,
        _gate: &G,
        first: u64,
        count: u64,
    ) -> Result<u64, ChainRefusal>
        requires { IsFree lock.now self.old.seat }
        ensures called { IsCall S.disk (caller_of self.old.number self.old.next) (calls.Trim first count) (Some replies.Done) self.old.seat self.new.seat result }
        ensures readers { self.new.readers ≡ self.old.readers }
        ensures next { (self.new.number ≡ self.old.number) × (self.new.next ≡ one_more self.old.next) }
    {
        let who = self.caller();
        let mut held = match lock.lock(rt, &mut self.seat) {
            Ok(held) => held,
            Err(spent) => return Err(ChainRefusal::Spent { t: spent.ticket }),
        };
        let answer = held.value().trim(who, first, count);
        lock.unlock(&mut self.seat, held);
        answer
    }

    /// Makes all that was written before outlast a crash, in a turn of its own. Answers the call's place in the history.
    pub fn flush<T: Wait, G: Gate>(
        &mut self,
        rt: &T,
        lock: &TurnLock<SharedChain<S>>,
        _gate: &G,
    ) -> Result<u64, ChainRefusal>
        requires { IsFree lock.now self.old.seat }
        ensures called { IsCall S.disk (caller_of self.old.number self.old.next) calls.Flush (Some replies.Done) self.old.seat self.new.seat result }
        ensures readers { self.new.readers ≡ self.old.readers }
        ensures next { (self.new.number ≡ self.old.number) × (self.new.next ≡ one_more self.old.next) }
    {
        let who = self.caller();
        let mut held = match lock.lock(rt, &mut self.seat) {
            Ok(held) => held,
            Err(spent) => return Err(ChainRefusal::Spent { t: spent.ticket }),
        };
        let answer = held.value().flush(who);
        lock.unlock(&mut self.seat, held);
        answer
    }

    /// Its seat and its readers.
    pub fn end(self) -> (Seat<SharedChain<S>>, ReaderSet<S::R>)
        ensures { (result.0 ≡ self.seat) × (result.1 ≡ self.readers) }
    {
        let Guest {
            seat,
            readers,
            plan: _,
            number: _,
            next: _,
        } = self;
        (seat, readers)
    }
}
