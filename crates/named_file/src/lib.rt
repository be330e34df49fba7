//! One file of a folder, by its name: looked at, and repaired.
#![tactic(auto)]

mod looking;
mod repairing;

pub use looking::check_named;
pub use repairing::repair_named;
