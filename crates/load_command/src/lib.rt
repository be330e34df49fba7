//! The command that makes a generated load: a chain of files, each of which is written before the next one is made, and guests' calls on it beside a
//! merge.
#![tactic(auto)]

mod commands;
mod loading;
mod names;
mod serving;
mod stop;
mod sum;

pub use loading::load;
