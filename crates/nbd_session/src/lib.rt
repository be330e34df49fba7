//! Serves one client of the Network Block Device protocol over a chain, as guest 1 of a session, beside workers of a merge, if there is one.
#![tactic(auto)]

mod beside;
mod client;
mod run;
mod serving;

pub use run::NbdRun;
pub use serving::serve_client;
