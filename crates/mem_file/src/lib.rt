//! A file in memory, with all that was done to it, and what a crash may have left of it.
#![tactic(auto)]

mod file;
mod replay;

pub use file::{Change, MemFile, Step, extend, overwrite, write_within};
pub use replay::{Pick, image};
