//! What serving a client comes to.

use guest_model::ChainRefusal;
use nbd_front::Served;
use store_model::StoreFault;

/// What serving a client over a chain came to.
#[derive(Drop)]
pub struct NbdRun {
    /// How the connection was served; none where memory ran out before.
    pub served: Option<Served>,
    /// The last fault that a call or a step of the merge was refused by.
    pub fault: Option<StoreFault>,
    /// How the session ended.
    pub closed: Result<(), StoreFault>,
    /// How many of the client's reads and of the workers' stripes failed by a reader.
    pub unread: u64,
    /// Whether the merge was finished, if there was one, or what stopped it.
    pub merged: Result<(), ChainRefusal>,
}
