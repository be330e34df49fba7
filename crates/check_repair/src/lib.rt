//! What is wrong with a file.
#![tactic(auto)]

mod laws;
mod looking;

pub use laws::{one_list_of_findings, sound_files_have_none};
pub use looking::{CopyFault, Findings, check, is_valid_table};
