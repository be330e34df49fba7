//! Printing why a script wasn't run.

ghost use Rattle.std.specs.Prelude.{◌≡◌};
ghost use Rattle.command_base.specs.Commands.{Reports};
ghost use Rattle.printing.specs.Sent.{Sent};
ghost use Rattle.steps_command.specs.Sessions.{meaning_of_steps, source_said};
ghost use Rattle.steps_command.specs.Steps.{broken_line};

use crate::refusal::StepsRefusal;
use command_base::{
    call_line, fail, is_base_line, locator_too_large_line, metadata_full_line, not_in_chain_line,
    refuse_chain, unfit_line,
};
use guest_model::ChainRefusal as CallRefusal;
use printing::{Status, out_of_memory, refuse, send_told};
use script::SourceRefusal;
use std::alloc::Global;
use store_model::Sink;

/// Prints why a script isn't run.
pub fn refuse_steps<K: Sink>(alloc: Global, out: &mut K, refusal: StepsRefusal) -> Status
    ensures { Reports (meaning_of_steps refusal) (K.written out.old) (K.written out.new) (K.faults out.old) (K.faults out.new) result }
{
    match refusal {
        StepsRefusal::Chain(refusal) => refuse_chain(alloc, out, refusal),
        StepsRefusal::ReadOnly => refuse(out, call_line(alloc, CallRefusal::ReadOnly)),
        StepsRefusal::Spent { number } => {
            refuse(out, call_line(alloc, CallRefusal::Spent { t: number }))
        }
        StepsRefusal::NotInChain { name } => {
            refuse(out, not_in_chain_line(alloc, name.as_str()))
        }
        StepsRefusal::IsBase { name } => { refuse(out, is_base_line(alloc, name.as_str())) }
        StepsRefusal::LocatorTooLarge { len } => { refuse(out, locator_too_large_line(alloc, len)) }
        StepsRefusal::MetadataFull { file } => {
            refuse(out, metadata_full_line(alloc, file.as_str()))
        }
        StepsRefusal::IdUnfit { id } => refuse(out, unfit_line(alloc, id)),
    }
}

// Prints the line that names a line of a script.
fn name_line<K: Sink>(out: &mut K, number: u64) -> Status
    ensures { Sent (K.written out.old) (K.written out.new) (K.faults out.old) (K.faults out.new) Status.Usage (broken_line number) result }
{
    match send_told(out, b"line", b"", number) {
        Ok(()) => Status::Usage,
        Err(_) => Status::Fault,
    }
}

/// Prints why no script was read: its first broken line, a fault of its source, or that memory ran out.
pub fn refuse_script<K: Sink>(out: &mut K, refusal: SourceRefusal) -> Status
    ensures { let said = source_said refusal in Sent (K.written out.old) (K.written out.new) (K.faults out.old) (K.faults out.new) said.0 said.1 result }
{
    match refusal {
        SourceRefusal::Line { number } => name_line(out, number),
        SourceRefusal::Source(fault) => fail(out, b"source", fault.count),
        SourceRefusal::NoRoom => out_of_memory(out),
    }
}
