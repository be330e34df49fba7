//! A disk as one guest calls it: a trait, and the words for what a guest is told.
#![tactic(auto)]

mod disk;
mod laws;

pub use disk::DiskCalls;
pub use laws::one_history;
