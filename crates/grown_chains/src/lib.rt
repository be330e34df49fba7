//! What follows for names and their disks where files are added to a folder, one after another: a new disk, a child of a chain, a child of
//! that one.
#![tactic(auto)]

mod laws;

pub use laws::{are_types, folders_keep_disks, made_files_have_disks, new_files_have_disks};
