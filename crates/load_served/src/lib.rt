//! What follows of guests whose calls were all answered: their history is one of their script's lines, and of a load what its reads saw.
#![tactic(auto)]

mod laws;

pub use laws::answers_are_histories;
