//! The events of a session, and what they are answered.

ghost use Rattle.std.specs.Prelude.{◌≡◌};
ghost use Rattle.event_list.specs.Answered.{as_copied, as_finished, as_reply, as_stamp};

use chain_core::Answer;
use guest_model::{Call, Caller, ChainRefusal, Reply};

/// An event of a session. A slot holds a piece of a stripe between its fetch and its put; slots are numbered from 0. A stripe is an aligned
/// 1 MB of the guest's disk; stripes are numbered from 0.
#[derive(Drop)]
pub enum Event {
    /// A guest's call.
    Guest { who: Caller, call: Call },
    /// What the source of the merge has of a stripe is taken into a slot.
    Fetch { slot: u32, stripe: u32 },
    /// What was taken into a slot is put into the target of the merge.
    Put { slot: u32 },
    /// The merge is finished.
    Finish,
}

/// What an event is answered.
#[derive(Drop)]
pub enum EventAnswer {
    /// The call was done. Its place in the history is counted from 1.
    Reply { place: u64, reply: Reply },
    /// The stripe was fetched, under this stamp, which is a place in the history.
    Stamp(u64),
    /// The piece was put, and its stripe is copied.
    Copied,
    /// The merge is finished.
    Finished,
    /// It was refused.
    Refused(ChainRefusal),
}

/// The answer of a call.
pub(crate) fn reply_answer(answer: Answer) -> EventAnswer
    ensures { result ≡ as_reply answer }
{
    match answer {
        Answer::Reply { place, reply } => EventAnswer::Reply { place, reply },
        Answer::Refused(refusal) => EventAnswer::Refused(refusal),
    }
}

/// The answer of a fetch.
pub(crate) fn fetch_answer(answer: Result<u64, ChainRefusal>) -> EventAnswer
    ensures { result ≡ as_stamp answer }
{
    match answer {
        Ok(stamp) => EventAnswer::Stamp(stamp),
        Err(refusal) => EventAnswer::Refused(refusal),
    }
}

/// The answer of a put.
pub(crate) fn put_answer(answer: Result<(), ChainRefusal>) -> EventAnswer
    ensures { result ≡ as_copied answer }
{
    match answer {
        Ok(()) => EventAnswer::Copied,
        Err(refusal) => EventAnswer::Refused(refusal),
    }
}

/// The answer of a finish.
pub(crate) fn finish_answer(answer: Result<(), ChainRefusal>) -> EventAnswer
    ensures { result ≡ as_finished answer }
{
    match answer {
        Ok(()) => EventAnswer::Finished,
        Err(refusal) => EventAnswer::Refused(refusal),
    }
}
