//! A chain of files in a session, as one value that threads take in turn: what holds of it whenever nobody has it is a fact of its type.
#![tactic(auto)]

mod basis;
mod shared;
mod told;

pub use basis::{Basis, Breach, Note, Step};
pub use shared::{SharedChain, end_fresh};
