//! Printing what became of a script's guests.

ghost use Rattle.printing.specs.Sent.{Sent};
ghost use Rattle.serve_command.specs.Guests.{ReportsServed};
ghost use Rattle.serve_command.specs.Guests as guests;
ghost use Rattle.std.specs.Prelude.{◌≡◌};

use command_base::fail;
use guest_model::ChainRefusal;
use printing::{Status, out_of_memory};
use script_session::ScriptRun;
use serve_session::MergeRun;
use std::alloc::Global;
use steps_command::{StepsRefusal, refuse_steps, say_lines};
use store_model::{Sink, StoreFault};
use vx_base::NoRoom;

// The status of a whole transcript, of whose reads so many failed by a reader: a merge that isn't finished is one that was refused.
fn end_of(merged: Result<(), ChainRefusal>, unread: u64) -> Status
    ensures { result ≡ guests.with_unread (guests.end_of merged) unread }
{
    if unread > 0 {
        return Status::Fault;
    }
    match merged {
        Ok(()) => Status::Done,
        Err(_) => Status::Refused,
    }
}

// Prints what is told of reads that failed by a reader where memory ran out, if some did.
fn say_unread<K: Sink>(out: &mut K, unread: u64) -> Status
    ensures { let said = guests.unread_said unread in Sent (K.written out.old) (K.written out.new) (K.faults out.old) (K.faults out.new) said.0 said.1 result }
{
    if unread > 0 {
        fail(out, b"reader", unread)
    } else {
        out_of_memory(out)
    }
}

// Prints what is told of guests where memory ran out: a fault, if there was one.
fn say_none_served<K: Sink>(
    out: &mut K,
    fault: Option<StoreFault>,
    closed: Result<(), StoreFault>,
    unread: u64,
) -> Status
    ensures { let said = guests.none_served unread fault closed in Sent (K.written out.old) (K.written out.new) (K.faults out.old)
        (K.faults out.new) said.0 said.1 result }
{
    match (closed, fault) {
        (Err(fault), _) => fail(out, b"store", fault.count),
        (Ok(()), Some(fault)) => fail(out, b"store", fault.count),
        (Ok(()), None) => say_unread(out, unread),
    }
}

// Prints what a session with guests gave.
fn show_merge_run<K: Sink>(out: &mut K, run: MergeRun) -> Status
    ensures { let said = guests.served_said run in Sent (K.written out.old) (K.written out.new) (K.faults out.old) (K.faults out.new) said.0 said.1 result }
{
    let MergeRun {
        run,
        unread,
        tally: _,
        merged,
    } = run;
    let ScriptRun {
        transcript,
        fault,
        closed,
    } = run;
    match transcript {
        Ok(text) => say_lines(out, end_of(merged, unread), text.as_bytes(), fault, closed),
        Err(NoRoom) => say_none_served(out, fault, closed, unread),
    }
}

/// Prints what became of a script's guests: the transcript, or why they weren't served.
pub fn show_served<K: Sink>(
    alloc: Global,
    out: &mut K,
    run: Result<MergeRun, StepsRefusal>,
) -> Status
    ensures { ReportsServed run (K.written out.old) (K.written out.new) (K.faults out.old) (K.faults out.new) result }
{
    match run {
        Ok(run) => show_merge_run(out, run),
        Err(refusal) => refuse_steps(alloc, out, refusal),
    }
}
