//! A guest of a script, with what it was told.

ghost use Rattle.std.specs.Prelude.{◌≡◌, ◌+◌, ◌*◌, ◌<◌, ◌≤◌, ◌^◌, ◌++◌, ◌∷◌, ℕ, List, false, if◌then◌else◌, length, map, nat_lt, take, [], IfOk, OnOk};
ghost use Rattle.chain_core.specs.declared.chain.Chain.{Chain};
ghost use Rattle.guest_io.specs.Guests.{HaveReaders};
ghost use Rattle.shared_chain.specs.Seats.{IsFree};
ghost use Rattle.ledger.specs.declared.ledger.Ledger.{Ledger};
ghost use Rattle.script.specs.Transcript.{outcome_of as line_outcome};
ghost use Rattle.script.specs.declared.form.Form.{Form as FormValue};
ghost use Rattle.serve_session.specs.Actors.{HasRun, IsActor, called_form};
ghost use Rattle.serve_session.specs.Asking.{is_want, outcome_of, place_in, read_as, said_of, shown_in, with_answer, with_read};
ghost use Rattle.serve_session.specs.Served.{Outcome, as_line, told_call};
ghost use Rattle.serve_session.specs.Tallies.{AddsUp, no_tally, with_outcome};

use crate::calls::{MOST_MOVED, SECTOR, call};
use crate::tally::Tally;
use guest_io::{Guest, Placed};
use guest_model::ChainRefusal;
use read_plan::ReaderSet;
use script::{Answer, Form, Line, Text, ToldCall, push_answered};
use shared_chain::SharedChain;
use std::alloc::Global;
use std::convert::AsStr;
use std::sync::Wait;
use store_model::{Gate, Store, StoreFault};
use turn_lock::{Seat, TurnLock};
use vx_base::NoRoom;

/// Bytes of as many sectors as one read or write may name.
pub const ROOM_LEN: usize = MOST_MOVED as usize * SECTOR;

/// A guest of a script.
pub struct Actor<S: Store> {
    guest: Guest<S>,
    number: u32,
    // the bytes of one call at a time
    room: Vec<u8>,
    // what it was told, call by call
    told: Vec<ToldCall>,
    // how many of its reads stand in the history and failed by a reader
    unread: u64,
    // what they came to
    tally: Tally,
    // memory ran out, in a call or for its text, and no further line was run
    is_short: bool,
}

/// What a guest leaves: what it was told, how many of its reads failed by a reader, what its calls came to, and whether memory ran out.
#[derive(Drop)]
pub struct Left {
    pub told: Vec<ToldCall>,
    pub unread: u64,
    pub tally: Tally,
    pub is_short: bool,
}

/// The bytes at the front of the room that a read of so many sectors found; one of more than it may name finds none.
pub(crate) fn read_bytes(room: &[u8], count: u64) -> &[u8]
    requires { length room.now ≡ 1048576 }
    ensures { result.now ≡ if nat_lt 2048 count then [] else take (512 * count) room.now }
{
    if count > MOST_MOVED {
        &[]
    } else {
        &room[..count as usize * SECTOR]
    }
}

// What a call was told that stands in the history.
fn said_of_read(form: Form, read: Result<(), StoreFault>, room: &[u8]) -> Answer<'_>
    requires { length room.now ≡ 1048576 }
    ensures { line_outcome result ≡ as_line (read_as (shown_in room.now form) read) }
{
    match (read, form) {
        (Ok(()), Form::Read { first: _, count }) => Answer::Bytes(read_bytes(room, count)),
        (Ok(()), _) => Answer::Done,
        (Err(fault), _) => Answer::Refused(ChainRefusal::ReadFault {
            file: fault.file,
            count: fault.count,
        }),
    }
}

// What a call was told.
fn said(form: Form, answer: Result<Placed, ChainRefusal>, room: &[u8]) -> Answer<'_>
    requires { length room.now ≡ 1048576 }
    ensures { line_outcome result ≡ said_of (shown_in room.now form) answer }
{
    match answer {
        Ok(placed) => said_of_read(form, placed.read, room),
        Err(refusal) => Answer::Refused(refusal),
    }
}

// Where a call stands in the history, if it does.
fn place(answer: Result<Placed, ChainRefusal>) -> Option<u64>
    ensures { result ≡ place_in answer }
{
    match answer {
        Ok(placed) => Some(placed.place),
        Err(_) => None,
    }
}

// One more read that failed by a reader, if this one did.
fn with_read(unread: u64, read: Result<(), StoreFault>) -> u64
    ensures { result ≡ with_read unread read }
{
    match read {
        Ok(()) => unread,
        Err(_) => unread.saturating_add(1),
    }
}

// The same of a call.
fn with_answer(unread: u64, answer: Result<Placed, ChainRefusal>) -> u64
    ensures { result ≡ with_answer unread answer }
{
    match answer {
        Ok(placed) => with_read(unread, placed.read),
        Err(_) => unread,
    }
}

// What a call was told, with its words.
fn told_call<N: AsStr>(
    alloc: Global,
    names: &[N],
    form: Form,
    answer: Result<Placed, ChainRefusal>,
    room: &[u8],
) -> Result<ToldCall, NoRoom>
    requires { length room.now ≡ 1048576 }
    ensures { IfOk result (λ t. t ≡ told_call (map N.text names.now) form (outcome_of (shown_in room.now form) answer)) }
{
    let mut text = String::new(alloc);
    push_answered(&mut text, names, form, said(form, answer, room))?;
    Ok(ToldCall {
        place: place(answer),
        text: Text::from_string(text),
    })
}

// Memory ran out for a call.
fn is_want(answer: Result<Placed, ChainRefusal>) -> bool
    ensures { result ≡ is_want answer }
{
    match answer {
        Err(ChainRefusal::NoRoom) => true,
        _ => false,
    }
}

impl<S: Store> Actor<S> {
    /// A guest of this number, which has made no call.
    pub fn new(alloc: Global, guest: Guest<S>, number: u32, room: Vec<u8>) -> Actor<S>
        ensures { (result.guest ≡ guest) × (result.number ≡ number) × (result.room ≡ room) × (result.told.items ≡ []) × (result.unread ≡ 0) × (result.is_short ≡ false) × (result.tally ≡ no_tally) }
    {
        Actor {
            guest,
            number,
            room,
            told: Vec::new(alloc),
            unread: 0,
            tally: Tally::none(),
            is_short: false,
        }
    }

    // Counts a call by what it was told.
    fn count(&mut self, form: Form, answer: Result<Placed, ChainRefusal>)
        requires { length self.old.room.items ≡ 1048576 }
        ensures tally { (outcomes : List Outcome) → length outcomes < 2 ^ 32 → AddsUp self.old.tally outcomes → AddsUp self.new.tally (with_outcome outcomes (shown_in self.old.room.items form) answer) }
        ensures only { self.new ≡ record self.old { tally = self.new.tally; unread = with_answer self.old.unread answer } }
    {
        self.unread = with_answer(self.unread, answer);
        self.tally = self.tally.with_call(form, answer, self.room.as_slice());
    }

    // Keeps what a call was told.
    fn keep<N: AsStr>(
        &mut self,
        alloc: Global,
        names: &[N],
        form: Form,
        answer: Result<Placed, ChainRefusal>,
    ) -> Result<(), NoRoom>
        requires { length self.old.room.items ≡ 1048576 }
        ensures want { OnOk result (is_want answer ≡ false) }
        ensures kept { OnOk result (self.new.told.items ≡ self.old.told.items ++ told_call (map N.text names.now) form (outcome_of (shown_in self.old.room.items form) answer) ∷ []) }
        ensures only { self.new ≡ record self.old { told = self.new.told } }
    {
        if is_want(answer) {
            return Err(NoRoom);
        }
        let told = told_call(alloc, names, form, answer, self.room.as_slice())?;
        self.told.push(told)?;
        Ok(())
    }

    // Makes the call of one of its lines.
    fn step<T: Wait, G: Gate, N: AsStr>(
        &mut self,
        rt: &T,
        alloc: Global,
        lock: &TurnLock<SharedChain<S>>,
        gate: &G,
        names: &[N],
        form: Form,
    )
        requires free { IsFree lock.now self.old.guest.seat }
        requires room { length self.old.room.items ≡ 1048576 }
        requires readers { HaveReaders S.disk self.old.guest.seat.basis self.old.guest.readers }
        ensures have { HaveReaders S.disk self.new.guest.seat.basis self.new.guest.readers }
        ensures free { IsFree lock.now self.new.guest.seat }
        ensures room { length self.new.room.items ≡ 1048576 }
        ensures number { self.new.number ≡ self.old.number }
        ensures actor { (first : Chain S Ledger S.R) (forms : List FormValue) → length forms < 2 ^ 32 → IsActor S.disk first lock.now (map N.text names.now) forms self.old
            → IsActor S.disk first lock.now (map N.text names.now) (forms ++ called_form form) self.new }
    {
        if self.is_short || !form.is_call() {
            return;
        }
        let answer = call(
            &mut self.guest,
            rt,
            lock,
            gate,
            form,
            self.room.as_mut_slice(),
        );
        self.count(form, answer);
        if let Err(NoRoom) = self.keep(alloc, names, form, answer) {
            self.is_short = true;
        }
    }

    /// Makes the guest's calls of a script, in its order.
    pub fn run<T: Wait, G: Gate, N: AsStr>(
        &mut self,
        rt: &T,
        alloc: Global,
        lock: &TurnLock<SharedChain<S>>,
        gate: &G,
        names: &[N],
        lines: &[Line],
    )
        requires free { IsFree lock.now self.old.guest.seat }
        requires room { length self.old.room.items ≡ 1048576 }
        requires readers { HaveReaders S.disk self.old.guest.seat.basis self.old.guest.readers }
        requires few { length lines.now ≤ 2 ^ 20 }
        ensures number { self.new.number ≡ self.old.number }
        ensures ran { (first : Chain S Ledger S.R) → IsActor S.disk first lock.now (map N.text names.now) [] self.old
            → HasRun S.disk first lock.now (map N.text names.now) lines.now self.new }
    {
        for line in lines {
            if line.guest == self.number {
                self.step(rt, alloc, lock, gate, names, line.form);
            }
        }
    }

    /// Its seat and its readers, and what it leaves.
    pub fn end(self) -> (Seat<SharedChain<S>>, ReaderSet<S::R>, Left)
        ensures { (result.0 ≡ self.guest.seat) × (result.2.told ≡ self.told) × (result.2.unread ≡ self.unread) × (result.2.is_short ≡ self.is_short) × (result.1 ≡ self.guest.readers) × (result.2.tally ≡ self.tally) }
    {
        let Actor {
            guest,
            number: _,
            room: _,
            told,
            unread,
            tally,
            is_short,
        } = self;
        let (seat, readers) = guest.end();
        let left = Left {
            told,
            unread,
            tally,
            is_short,
        };
        (seat, readers, left)
    }
}
