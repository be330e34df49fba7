//! What the commands share: lending the files of a chain as one store, and printing why a command wasn't done.
#![tactic(auto)]

mod chain;
mod refusal;
mod refusing;
mod text;

pub use chain::{attach, check_lengths, leaf_of, names_of};
pub use refusal::{ChainRefusal, DumpRefusal};
pub use refusing::{fail, refuse_chain, refuse_dump, refuse_link, refuse_making, refuse_opening};
pub use text::{
    bad_locator_line, call_line, is_base_line, locator_too_large_line, metadata_full_line, name_of,
    not_in_chain_line, push_number, push_values, taken_line, unfit_line, unopened_line,
};
