//! Why a load stops.

ghost use Rattle.std.specs.Prelude.{◌≡◌};
ghost use Rattle.load_command.specs.Stops.{SaysStop};

use crate::names::name_of;
use command_base::call_line;
use folder_commands::{NewFileRefusal, say_made};
use guest_model::ChainRefusal;
use printing::{Status, refuse};
use serve_command::show_served;
use serve_session::MergeRun;
use std::alloc::Global;
use steps_command::StepsRefusal;
use store_model::Sink;

/// Why a command of a load isn't done.
#[derive(Drop)]
pub enum Stop {
    /// The file of this number isn't made.
    Unmade {
        /// The file.
        file: u32,
        /// Why.
        refusal: NewFileRefusal,
    },
    /// A session didn't end with status 0, or none began.
    Unserved(Result<MergeRun, StepsRefusal>),
    /// A call of a session was refused.
    Call(ChainRefusal),
}

/// Prints why a load stops.
pub fn say_stop<K: Sink>(alloc: Global, out: &mut K, stop: Stop) -> Status
    ensures { SaysStop stop (K.written out.old) (K.written out.new) (K.faults out.old) (K.faults out.new) result }
{
    match stop {
        Stop::Unmade { file, refusal } => say_made(alloc, out, name_of(file), Err(refusal)),
        Stop::Unserved(run) => show_served(alloc, out, run),
        Stop::Call(refusal) => refuse(out, call_line(alloc, refusal)),
    }
}
