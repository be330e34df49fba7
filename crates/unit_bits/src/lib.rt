//! Which units of 1 MB of a file are taken: a bit each.
#![tactic(auto)]

mod bits;
mod marking;
mod words;

pub use bits::UnitBits;
