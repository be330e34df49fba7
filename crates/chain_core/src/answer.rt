//! What an event of a session answers.

use guest_model::{ChainRefusal, Reply};

/// What an event of a session answers.
#[derive(Drop)]
pub enum Answer {
    /// The call was done. Its place in the history is counted from 1.
    Reply { place: u64, reply: Reply },
    /// It was refused.
    Refused(ChainRefusal),
}
