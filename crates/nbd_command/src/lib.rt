//! The command that serves the disk of a leaf to one client of the Network Block Device protocol, with a merge beside it or without.
#![tactic(auto)]

mod client;
mod command;
mod ending;
mod refusing;

pub use command::nbd;
