//! Events, one after the other.

ghost use Rattle.std.specs.Prelude.{◌≡◌, ◌+◌, ◌≤◌, All, false, length, vec_capacity, IsOk, OnErr, OnOk};
ghost use Rattle.chain_core.specs.Sessions.{IsSound, seen};
ghost use Rattle.script_session.specs.Answers.{IsSlot};
ghost use Rattle.event_list.specs.Answered.{AnswersCall, AnswersEvent, HasWhole, IsBelow, RunsFrom};
ghost use Rattle.chain_core.specs.Events.{HasWholeSectors};
ghost use Rattle.event_list.specs.Histories.{HasRun};

use crate::event::{Event, EventAnswer, fetch_answer, finish_answer, put_answer, reply_answer};
use crate::slots::{empty_slots, slot_count};
use crate::steps::{fetch_into, finish, put_from};
use chain_core::{Answer, Chain};
use guest_model::{Call, Caller, Recorder};
use merge_core::Piece;
use std::alloc::Global;
use store_model::Store;
use vx_base::NoRoom;

// Makes a guest's call.
fn call_chain<S: Store, R: Recorder>(
    alloc: Global,
    chain: &mut Chain<S, R>,
    who: Caller,
    call: &Call,
) -> Answer
    requires sound { IsSound (seen S.disk R.noted R.told chain.old) }
    requires whole { HasWholeSectors chain.old.layers.geometry.sector call.now }
    ensures sound { IsSound (seen S.disk R.noted R.told chain.new) }
    ensures answers { let before = seen S.disk R.noted R.told chain.old in
        let now = seen S.disk R.noted R.told chain.new in
        AnswersCall who call.now result before now }
{
    chain.call(alloc, who, call)
}

// Does what an event asks for.
fn answer_event<S: Store, R: Recorder>(
    alloc: Global,
    chain: &mut Chain<S, R>,
    event: &Event,
    pieces: &mut [Piece],
) -> EventAnswer
    requires sound { IsSound (seen S.disk R.noted R.told chain.old) }
    requires whole { HasWhole chain.old.layers.geometry.sector event.now }
    requires there { IsBelow (length pieces.old) event.now }
    requires slots { All (IsSlot chain.old.layers.geometry) pieces.old }
    ensures sound { IsSound (seen S.disk R.noted R.told chain.new) }
    ensures slots { All (IsSlot chain.new.layers.geometry) pieces.new }
    ensures answers { let before = seen S.disk R.noted R.told chain.old in
        let now = seen S.disk R.noted R.told chain.new in
        AnswersEvent event.now result before pieces.old now pieces.new }
{
    match event {
        Event::Guest { who, call } => reply_answer(call_chain(alloc, chain, *who, call)),
        Event::Fetch { slot, stripe } => fetch_answer(fetch_into(chain, pieces, *slot, *stripe)),
        Event::Put { slot } => put_answer(put_from(chain, pieces, *slot)),
        Event::Finish => finish_answer(finish(chain)),
    }
}

// Answers each event; there is room for the answers.
fn answer_events<S: Store, R: Recorder>(
    alloc: Global,
    chain: &mut Chain<S, R>,
    events: &[Event],
    pieces: &mut [Piece],
    out: &mut Vec<EventAnswer>,
)
    requires sound { IsSound (seen S.disk R.noted R.told chain.old) }
    requires whole { All (HasWhole chain.old.layers.geometry.sector) events.now }
    requires there { All (IsBelow (length pieces.old)) events.now }
    requires slots { All (IsSlot chain.old.layers.geometry) pieces.old }
    requires reserved { length out.old.items + length events.now ≤ vec_capacity out.old }
    ensures sound { IsSound (seen S.disk R.noted R.told chain.new) }
    ensures answered { let before = seen S.disk R.noted R.told chain.old in
        let now = seen S.disk R.noted R.told chain.new in
        RunsFrom events.now out.old.items out.new.items before pieces.old now pieces.new }
{
    for event in events {
        let answer = answer_event(alloc, chain, event, pieces);
        out.push_reserved(answer);
    }
}

/// Runs events one after the other over a chain in a session, and adds the answer of each behind those that are there. Room for the
/// answers is made before the first event, and for a piece in each slot up to the greatest that an event names, at most 64 of 1 MB. Where
/// memory runs out for that no event is run; where no room is to be made all are. A call for whose note or bytes memory runs out is
/// refused, and the next event is run. A put of a slot with no piece is refused, and isn't counted among the chain's events. Writes have
/// whole sectors.
pub fn run_events<S: Store, R: Recorder>(
    alloc: Global,
    chain: &mut Chain<S, R>,
    events: &[Event],
    out: &mut Vec<EventAnswer>,
) -> Result<(), NoRoom>
    requires sound { IsSound (seen S.disk R.noted R.told chain.old) }
    requires slots { All (IsBelow 64) events.now }
    requires whole { All (HasWhole chain.old.layers.geometry.sector) events.now }
    ensures sound { IsSound (seen S.disk R.noted R.told chain.new) }
    ensures ran { let before = seen S.disk R.noted R.told chain.old in
        let now = seen S.disk R.noted R.told chain.new in
        OnOk result (HasRun events.now out.old.items out.new.items before now) }
    ensures kept { OnErr result ((chain.new ≡ chain.old) × (out.new.items ≡ out.old.items)) }
    ensures succeeds { All (IsBelow 0) events.now → length out.old.items + length events.now ≤ vec_capacity out.old → IsOk result }
{
    let mut pieces = empty_slots(alloc, slot_count(events))?;
    out.reserve(events.len())?;
    answer_events(alloc, chain, events, pieces.as_mut_slice(), out);
    Ok(())
}
