//! The commands that need no session: `dump`, `info`, `make`, `check` and `repair`.
#![tactic(auto)]

mod checking;
mod commands;
mod findings;
mod laws;
mod listing;
mod making;
mod repairing;
mod sectors;

pub use checking::check;
pub use commands::{dump, info};
pub use laws::{new_files_show, one_answer};
pub use making::{NewFileRefusal, make, make_new, say_made};
pub use repairing::repair;
pub use sectors::sectors_of;
