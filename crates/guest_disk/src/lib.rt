//! The disk of a chain that threads share, as one guest of it calls it.
#![tactic(auto)]

mod calls;
mod disk;

pub use disk::GuestDisk;
