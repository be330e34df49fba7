//! A chain of files that serves guest calls.
#![tactic(auto)]

mod answer;
mod chain;
mod copying;
mod finishing;
mod laws;
mod layers;
mod leaf_start;
mod merge_start;
mod sealing;
mod skips;
mod starting;

pub use answer::Answer;
pub use chain::Chain;
pub use laws::{
    files_can_be_sealed, plans_answer, plans_can_be_filled, readers_of_sessions, readers_succeed,
    sessions_are_held, sessions_link_alike,
};
pub use layers::Layers;
pub use merge_start::MergeStartRefusal;
pub use sealing::SealedSource;
pub use starting::{Mode, StartRefusal};
