//! What a guest's read is answered.

use store_model::StoreFault;

/// Where a read stands in the history, and whether what sealed files have of it could be read.
#[derive(Clone, Copy)]
pub struct Placed {
    /// Its place, counted from 1.
    pub place: u64,
    /// Else the fault of a reader: the number of its file, and how often it has failed.
    pub read: Result<(), StoreFault>,
}
