//! Runs a script of several guests over one chain in a session, each guest in a thread of its own where one can be made, and tells the
//! transcript.
#![tactic(auto)]

mod actor;
mod beginning;
mod begun;
mod calls;
mod closing;
mod laws;
mod merging;
mod sealing;
mod serving;
mod starting;
mod tally;
mod tools;

pub use beginning::{Begun, begin};
pub use begun::serve_begun;
pub use closing::{Ended, end_session};
pub use laws::guests_call;
pub use merging::{MergeRun, pieces_for};
pub use sealing::{Unserved, seal};
pub use serving::{add_workers, beside, close_shared, join_guest, room_for_sets, rooms_for};
pub use starting::{begin_guests, begin_leaf_merge, begin_merge, stripes_of};
pub use tally::Tally;
pub use tools::{Tools, tools_for};
