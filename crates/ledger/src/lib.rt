//! The history of a session: each entry is told, and it is kept or not.
#![tactic(auto)]

mod ledger;
mod telling;

pub use ledger::Ledger;
