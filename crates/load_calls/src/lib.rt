//! The calls of a generated load, what it prints, and the laws that make that the same for every order of its guests' calls.
#![tactic(auto)]

mod calls;
mod draws;
mod laws;
mod one_thread;
mod sums;
mod text;

pub use calls::{load_lines, preparing_lines};
pub use draws::Draws;
pub use laws::{loads_end_alike, owners_decide, pages_add_up, places_decide};
pub use one_thread::one_thread_text;
pub use sums::{page_sum, seen_in};
pub use text::{Counts, counts_of, lines_text};
