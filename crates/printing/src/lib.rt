//! What is printed to a sink, and how a run ends: texts, the lines of sectors and of faults.
#![tactic(auto)]

mod line;
mod print;
mod sectors;
mod status;

pub use line::{send_named, send_told};
pub use print::{deliver, out_of_memory, refuse, say, send};
pub use sectors::show;
pub use status::Status;
