//! Workers of a merge: threads that copy stripes between the guests' turns.
#![tactic(auto)]

mod passing;
mod source;
mod worker;

pub use worker::Worker;
