//! The command that serves the guests of a script over the disk of a leaf, with a merge beside them or without.
#![tactic(auto)]

mod beginning;
mod command;
mod giving;
mod transcript;

pub use beginning::{Merging, begin_linked, last_piece, merging_of};
pub use command::{serve, serve_leaf};
pub use giving::give_back_sets;
pub use transcript::show_served;
