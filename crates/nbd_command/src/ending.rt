//! The status by how a client was served.

ghost use Rattle.std.specs.Prelude.{◌≡◌};
ghost use Rattle.nbd_command.specs.Clients.{end_of, has_fault, is_broken_off, of_served, status_of as meant_of};

use guest_model::ChainRefusal;
use nbd_front::{NbdRefusal, Served};
use nbd_session::NbdRun;
use printing::Status;
use store_model::StoreFault;

// Whether a fault was met by a call, by a step of the merge, by the session's end or by a reader.
fn has_fault(fault: Option<StoreFault>, closed: Result<(), StoreFault>, unread: u64) -> bool
    ensures { result ≡ has_fault fault closed unread }
{
    fault.is_some() || closed.is_err() || unread > 0
}

// Whether a fault of the source or of the sink ended the connection.
fn is_broken_off(end: Result<(), NbdRefusal>) -> bool
    ensures { result ≡ is_broken_off end }
{
    match end {
        Err(NbdRefusal::Source(_)) => true,
        Err(NbdRefusal::Sink(_)) => true,
        _ => false,
    }
}

// The status of a connection that no fault ended and in which memory was there for all, by how it ended and whether the merge is finished.
fn end_of(end: Result<(), NbdRefusal>, merged: Result<(), ChainRefusal>) -> Status
    ensures { result ≡ end_of end merged }
{
    match (end, merged) {
        (Ok(()), Ok(())) => Status::Done,
        _ => Status::Refused,
    }
}

// The status by how a connection was served, where no fault of the host's was met; memory ran out where it wasn't.
fn of_served(served: Option<Served>, merged: Result<(), ChainRefusal>) -> Status
    ensures { result ≡ of_served served merged }
{
    match served {
        None => Status::NoMemory,
        Some(served) if is_broken_off(served.end) => Status::Fault,
        Some(served) if served.no_room => Status::NoMemory,
        Some(served) => end_of(served.end, merged),
    }
}

/// The status of a session with a client.
pub(crate) fn status_of(run: NbdRun) -> Status
    ensures { result ≡ meant_of run }
{
    if has_fault(run.fault, run.closed, run.unread) {
        Status::Fault
    } else {
        of_served(run.served, run.merged)
    }
}
