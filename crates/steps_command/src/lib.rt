//! The command that runs a script over the disk of a leaf, with a merge between its calls or without.
#![tactic(auto)]

mod command;
mod merging;
mod refusal;
mod refusing;
mod transcript;

pub use command::{is_leaf, names_in, steps};
pub use merging::merge_refused;
pub use refusal::StepsRefusal;
pub use refusing::{refuse_script, refuse_steps};
pub use transcript::say_lines;
