//! Printing what became of a script.

ghost use Rattle.printing.specs.Sent.{Sent};
ghost use Rattle.steps_command.specs.Sessions.{ReportsRun};
ghost use Rattle.steps_command.specs.Sessions as spec;

use crate::refusal::StepsRefusal;
use crate::refusing::refuse_steps;
use command_base::fail;
use printing::{Status, deliver, out_of_memory};
use script_session::ScriptRun;
use std::alloc::Global;
use store_model::{Sink, StoreFault};
use vx_base::NoRoom;

/// Prints the transcript of a script of which all lines were run, under this status where no fault was met.
pub fn say_lines<K: Sink>(
    out: &mut K,
    end: Status,
    text: &[u8],
    fault: Option<StoreFault>,
    closed: Result<(), StoreFault>,
) -> Status
    ensures { let said = spec.lines_said end text.now fault closed in Sent (K.written out.old) (K.written out.new) (K.faults out.old)
        (K.faults out.new) said.0 said.1 result }
{
    match (fault, closed) {
        (None, Ok(())) => deliver(out, end, text),
        (None, Err(_)) => deliver(out, Status::Fault, text),
        (Some(_), _) => deliver(out, Status::Fault, text),
    }
}

// Prints what is told where memory ran out: a fault, if there was one.
fn say_none<K: Sink>(
    out: &mut K,
    fault: Option<StoreFault>,
    closed: Result<(), StoreFault>,
) -> Status
    ensures { let said = spec.none_said fault closed in Sent (K.written out.old) (K.written out.new) (K.faults out.old)
        (K.faults out.new) said.0 said.1 result }
{
    match (closed, fault) {
        (Err(fault), _) => fail(out, b"store", fault.count),
        (Ok(()), Some(fault)) => fail(out, b"store", fault.count),
        (Ok(()), None) => out_of_memory(out),
    }
}

// Prints what a script's session gave, under this status where the whole script was run and no fault was met.
fn show_ran<K: Sink>(out: &mut K, end: Status, run: ScriptRun) -> Status
    ensures { let said = spec.run_said end run in Sent (K.written out.old) (K.written out.new) (K.faults out.old) (K.faults out.new) said.0 said.1 result }
{
    let ScriptRun {
        transcript,
        fault,
        closed,
    } = run;
    match transcript {
        Ok(text) => say_lines(out, end, text.as_bytes(), fault, closed),
        Err(NoRoom) => say_none(out, fault, closed),
    }
}

/// Prints what became of a script: its transcript, or why it wasn't run.
pub fn show_run<K: Sink>(alloc: Global, out: &mut K, run: Result<ScriptRun, StepsRefusal>) -> Status
    ensures { ReportsRun run (K.written out.old) (K.written out.new) (K.faults out.old) (K.faults out.new) result }
{
    match run {
        Ok(run) => show_ran(out, Status::Done, run),
        Err(refusal) => refuse_steps(alloc, out, refusal),
    }
}
