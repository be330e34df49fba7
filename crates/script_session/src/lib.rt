//! Runs the lines of a script over a chain in a session, and keeps their transcript.
#![tactic(auto)]

mod answer;
mod calls;
mod laws;
mod lines;
mod merge_steps;
mod session;

pub use laws::{
    fetches_leave, finishes_leave, lines_count_faults, lines_tell_history, puts_leave, skips_leave,
    turns_leave,
};
pub use lines::{LinesRun, run_lines, sector_room};
pub use merge_steps::{copy, fetch, finish, put};
pub use session::{ScriptRun, run_leaf_merge, run_merge, run_script};
