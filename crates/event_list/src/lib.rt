//! Runs a list of events over a chain in a session: guests' calls, and the steps of a merge between them.
#![tactic(auto)]

mod event;
mod running;
mod slots;
mod steps;

pub use event::{Event, EventAnswer};
pub use running::run_events;
