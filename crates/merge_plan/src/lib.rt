//! The plan of a merge, inside a chain or of its leaf: what is drawn for it, and the pages that it will write. Nothing is written here.
#![tactic(auto)]

mod drawing;
mod finding;
mod leaf;
mod leaf_drawing;
mod locators;
mod merge;
mod naming;
mod refusal;

pub use drawing::{LogIds, MergeIds, NewIds, all_shown};
pub use leaf::{LeafMerge, prepare_leaf};
pub use leaf_drawing::LeafMergeIds;
pub use merge::{Merge, prepare};
pub use refusal::PrepareRefusal;
