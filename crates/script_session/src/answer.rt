//! What lines are answered.

ghost use Rattle.std.specs.Prelude.{◌≡◌, OnOk, length};
ghost use Rattle.chain_core.specs.Sessions.{IsSound, seen};
ghost use Rattle.script_session.specs.Answers.{AnswersLine, HasRoomFor, IsSlot, called, done_as, fetched, told_by};
ghost use Rattle.script_session.specs.Told.{asked};

use crate::calls::{flush, read, trim, write};
use crate::merge_steps::{copy, fetch, finish, put};
use chain_core::Chain;
use guest_model::{ChainRefusal, Recorder};
use merge_core::Piece;
use script::Form;
use store_model::Store;

/// What a line that was done is answered.
#[derive(Clone, Copy)]
pub enum Done {
    /// A call, at this place of the history.
    Call { place: u64 },
    /// A stripe was fetched, under this stamp.
    Fetched { stamp: u64 },
    /// What was fetched was put.
    Copied,
    /// All stripes are copied, or the merge is finished.
    Whole,
}

// The answer of a call.
fn called(answer: Result<u64, ChainRefusal>) -> Result<Done, ChainRefusal>
    ensures { result ≡ called answer }
{
    match answer {
        Ok(place) => Ok(Done::Call { place }),
        Err(refusal) => Err(refusal),
    }
}

// The answer of a fetch.
fn fetched(answer: Result<u64, ChainRefusal>) -> Result<Done, ChainRefusal>
    ensures { result ≡ fetched answer }
{
    match answer {
        Ok(stamp) => Ok(Done::Fetched { stamp }),
        Err(refusal) => Err(refusal),
    }
}

// The answer of another step of a merge, where it was done.
fn done_as(done: Done, answer: Result<(), ChainRefusal>) -> Result<Done, ChainRefusal>
    ensures { result ≡ done_as done answer }
{
    match answer {
        Ok(()) => Ok(done),
        Err(refusal) => Err(refusal),
    }
}

/// Does what a line asks for: makes its call, as guest 1's of that number, or its step of the merge. The piece is what was fetched and
/// waits to be put. The room has the bytes of a write, and takes those of a read at its front.
pub fn answer_line<S: Store, R: Recorder>(
    chain: &mut Chain<S, R>,
    number: u64,
    form: Form,
    piece: &mut Piece,
    room: &mut [u8],
) -> Result<Done, ChainRefusal>
    requires sound { IsSound (seen S.disk R.noted R.told chain.old) }
    requires slot { IsSlot chain.old.layers.geometry piece.old }
    requires room { length room.old ≡ 1048576 }
    ensures sound { IsSound (seen S.disk R.noted R.told chain.new) }
    ensures slot { IsSlot chain.new.layers.geometry piece.new }
    ensures room { length room.new ≡ 1048576 }
    ensures answers { let before = seen S.disk R.noted R.told chain.old in
        let now = seen S.disk R.noted R.told chain.new in
        AnswersLine number (asked form) (told_by room.new (asked form) result) before piece.old now piece.new }
    ensures few { OnOk result (HasRoomFor (asked form)) }
{
    match form {
        Form::Read { first, count } => called(read(chain, number, first, count, room)),
        Form::Write { first, count, byte } => {
            called(write(chain, number, first, count, byte, room))
        }
        Form::Trim { first, count } => called(trim(chain, number, first, count)),
        Form::Flush => called(flush(chain, number)),
        Form::Fetch { stripe } => fetched(fetch(chain, stripe, piece)),
        Form::Put => done_as(Done::Copied, put(chain, piece)),
        Form::Copy => done_as(Done::Whole, copy(chain, piece)),
        Form::Finish => done_as(Done::Whole, finish(chain)),
    }
}
