//! What a merge of a file into its parent keeps and does below the chain: which stripes are copied, when each was last changed,
//! and the pieces that are taken from the source and put into the target.
#![tactic(auto)]

mod laws;
mod marking;
mod marks;
mod passes;
mod piece;
mod putting;
mod stamps;
mod stripes;
mod taking;

pub use laws::calls_touch_ranges;
pub use marks::Marks;
pub use passes::{pass, pass_own};
pub use piece::Piece;
pub use putting::put_piece;
pub use stamps::Stamps;
pub use stripes::{stripe_count, stripe_range, stripes_touched};
