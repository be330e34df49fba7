//! The status by what refuses a session; nothing is printed of it, since a client's protocol has no word for that.

ghost use Rattle.std.specs.Prelude.{◌≡◌};
ghost use Rattle.command_base.specs.Causes.{meaning_of_chain};
ghost use Rattle.file_open.specs.Causes.{meaning_of as meaning_of_opening};
ghost use Rattle.link_rules.specs.Causes.{meaning_of as meaning_of_link};
ghost use Rattle.nbd_command.specs.Clients.{status_meant};
ghost use Rattle.steps_command.specs.Sessions.{meaning_of_steps};

use command_base::ChainRefusal;
use file_open::OpenRefusal;
use link_rules::LinkRefusal;
use printing::Status;
use steps_command::StepsRefusal;

// Where a file isn't opened.
fn unopened(refusal: &OpenRefusal) -> Status
    ensures { result ≡ status_meant (meaning_of_opening refusal.now) }
{
    match refusal {
        OpenRefusal::Host(_) => Status::Fault,
        OpenRefusal::Store(_) => Status::Fault,
        OpenRefusal::NoRoom => Status::NoMemory,
        _ => Status::Refused,
    }
}

// Where a leaf's name leads to no chain.
#[tactic(auto, using(crate::proofs::Statuses::file_status))]
fn unlinked(refusal: &LinkRefusal) -> Status
    ensures { result ≡ status_meant (meaning_of_link refusal.now) }
{
    match refusal {
        LinkRefusal::Unopened { refusal, .. } => unopened(refusal),
        LinkRefusal::NoRoom => Status::NoMemory,
        _ => Status::Refused,
    }
}

// Where the files of a chain aren't read.
#[tactic(auto, using(crate::proofs::Statuses::chain_status))]
fn unread(refusal: &ChainRefusal) -> Status
    ensures { result ≡ status_meant (meaning_of_chain refusal.now) }
{
    match refusal {
        ChainRefusal::Unlinked(refusal) => unlinked(refusal),
        ChainRefusal::Host(_) => Status::Fault,
        ChainRefusal::Store(_) => Status::Fault,
        ChainRefusal::NoRoom => Status::NoMemory,
    }
}

/// The status of a run whose session doesn't begin, or whose chain isn't opened.
pub(crate) fn unbegun(refusal: &StepsRefusal) -> Status
    ensures { result ≡ status_meant (meaning_of_steps refusal.now) }
{
    match refusal {
        StepsRefusal::Chain(refusal) => unread(refusal),
        _ => Status::Refused,
    }
}
