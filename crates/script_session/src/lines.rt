//! The lines of a script, one after the other, and their transcript.

ghost use Rattle.std.specs.Prelude.{◌≡◌, ◌<◌, ◌≤◌, ◌^◌, ◌++◌, ℕ, List, Ok, length, map, IfOk, OnOk, string_bytes};
ghost use Rattle.script.specs.Transcript.{of_call, outcome_of};
ghost use Rattle.chain_core.specs.Sessions.{IsSound, seen};
ghost use Rattle.script_session.specs.Answers.{HasRoomFor, HasRun, IsSlot, place_in, reply_of, reply_told, told_by};
ghost use Rattle.script_session.specs.Told.{Asked, HasMemory, asked, fault_of, later_of, line_text, next_number};

use crate::answer::{Done, answer_line};
use crate::calls::{MOST_MOVED, SECTOR};
use chain_core::Chain;
use guest_model::{ChainRefusal, Recorder};
use merge_core::Piece;
use script::{Answer, Form, Line, push_step};
use std::alloc::{AllocError, Global};
use std::convert::AsStr;
use store_model::{Store, StoreFault};
use vx_base::NoRoom;

/// Bytes of as many sectors as one read or write may name.
const ROOM_LEN: usize = MOST_MOVED as usize * SECTOR;

/// What running a script's lines gave.
#[derive(Drop)]
pub struct LinesRun {
    /// A line for each of the script's, in its order; or memory ran out for it, or in a call, and no further line was run.
    pub transcript: Result<String, NoRoom>,
    /// The last fault of the store that refused a line.
    pub fault: Option<StoreFault>,
}

/// Room for the sectors of a call, which is made once for all lines.
pub fn sector_room(alloc: Global) -> Result<Vec<u8>, AllocError>
    ensures { IfOk result (λ room. length room.items ≡ 1048576) }
{
    vec![in alloc; 0u8; ROOM_LEN]
}

// What a call that was done is answered: a read the bytes at the front of the room.
fn call_answer<'a>(form: Form, room: &'a [u8]) -> Answer<'a>
    requires room { length room.now ≡ 1048576 }
    requires few { HasRoomFor (asked form) }
    ensures { outcome_of result ≡ Ok (of_call (reply_of room.entry.now (asked form))) }
{
    match form {
        Form::Read { first: _, count } => Answer::Bytes(&room[..count as usize * SECTOR]),
        _ => Answer::Done,
    }
}

// What a line that was done is answered.
fn answer_of<'a>(form: Form, done: Done, room: &'a [u8]) -> Answer<'a>
    requires room { length room.now ≡ 1048576 }
    requires few { HasRoomFor (asked form) }
    ensures { outcome_of result ≡ Ok (reply_told room.entry.now (asked form) done) }
{
    match done {
        Done::Call { place: _ } => call_answer(form, room),
        Done::Fetched { stamp } => Answer::Stamp(stamp),
        Done::Copied => Answer::Copied,
        Done::Whole => Answer::Done,
    }
}

// The place of a line's call in the history.
fn place_of(done: Done) -> Option<u64>
    ensures { result ≡ place_in done }
{
    match done {
        Done::Call { place } => Some(place),
        Done::Fetched { .. } | Done::Copied | Done::Whole => None,
    }
}

// Adds a line of the transcript to the text, unless memory ran out in the call.
fn push_line<N: AsStr>(
    out: &mut String,
    names: &[N],
    form: Form,
    answer: Result<Done, ChainRefusal>,
    room: &[u8],
) -> Result<(), NoRoom>
    requires room { length room.now ≡ 1048576 }
    requires few { OnOk answer (HasRoomFor (asked form)) }
    ensures text { OnOk result (string_bytes out.new ≡ string_bytes out.old ++ line_text (map N.text names.now) form (told_by room.now (asked form) answer)) }
    ensures memory { OnOk result (HasMemory (told_by room.now (asked form) answer)) }
{
    match answer {
        Ok(done) => push_step(
            out,
            names,
            place_of(done),
            form,
            answer_of(form, done, room),
        ),
        Err(ChainRefusal::NoRoom) => Err(NoRoom),
        Err(refusal) => push_step(out, names, None, form, Answer::Refused(refusal)),
    }
}

// The number of the next call behind a line.
fn next_number(number: u64, form: Form) -> u64
    requires { number < 2 ^ 63 }
    ensures { result ≡ next_number number form }
{
    if form.is_call() { number + 1 } else { number }
}

// The fault of the store that refused this line, or else the one before it.
fn later_of(earlier: Option<StoreFault>, answer: Result<Done, ChainRefusal>) -> Option<StoreFault>
    ensures { (room : List ℕ) (step : Asked) → result ≡ later_of earlier (fault_of (told_by room step answer)) }
{
    match answer {
        Err(ChainRefusal::Broken { file, count } | ChainRefusal::ReadFault { file, count }) => {
            Some(StoreFault { file, count })
        }
        _ => earlier,
    }
}

/// Runs the lines of a script of `steps` over a chain in a session, in order, each call as guest 1's with its number, and tells what
/// each line was answered. The names are those of the chain's files, from the leaf on. The piece is what was fetched and waits to be
/// put. The room has the bytes of one call at a time. Where memory runs out, for the text or in a call, no further line is run.
pub fn run_lines<S: Store, R: Recorder, N: AsStr>(
    alloc: Global,
    chain: &mut Chain<S, R>,
    names: &[N],
    lines: &[Line],
    piece: &mut Piece,
    room: &mut [u8],
) -> LinesRun
    requires sound { IsSound (seen S.disk R.noted R.told chain.old) }
    requires few { length lines.now ≤ 2 ^ 20 }
    requires slot { IsSlot chain.old.layers.geometry piece.old }
    requires room { length room.old ≡ 1048576 }
    ensures sound { IsSound (seen S.disk R.noted R.told chain.new) }
    ensures ran { let before = seen S.disk R.noted R.told chain.old in
        let now = seen S.disk R.noted R.told chain.new in
        HasRun (map N.text names.now) lines.now before piece.old now piece.new result }
{
    let mut text = String::new(alloc);
    let mut fault = None;
    let mut number = 1;
    for line in lines {
        let answer = answer_line(chain, number, line.form, piece, room);
        fault = later_of(fault, answer);
        number = next_number(number, line.form);
        if let Err(NoRoom) = push_line(&mut text, names, line.form, answer, room) {
            return LinesRun {
                transcript: Err(NoRoom),
                fault,
            };
        }
    }
    LinesRun {
        transcript: Ok(text),
        fault,
    }
}
