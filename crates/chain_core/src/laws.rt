//! What is known of a session. The functions do nothing; each carries a law.

ghost use Rattle.chain_core.specs.Laws.{LeavesAreLeft, ReadingsAreHeld, SessionsAreHeld, SessionsLinkAlike};
ghost use Rattle.chain_core.specs.Planned.{PlansAnswer, PlansCanBeFilled};
ghost use Rattle.chain_core.specs.Sealed.{ReadFilesAreSynced, ReadersOfSession, ReadersSucceed, SessionsWriteTheirs};

/// Between any two calls the files, as a session holds them, open to the disk of its history, behind a merge of its leaf too; and so
/// do those that are only read.
pub fn sessions_are_held()
    ensures sessions { SessionsAreHeld }
    ensures readings { ReadingsAreHeld }
    ensures left { LeavesAreLeft }
{}

/// Between any two calls each image is linked by the files of the session's chain, and no others: behind a merge that is finished its
/// source is in none.
pub fn sessions_link_alike()
    ensures { SessionsLinkAlike }
{}

/// What was read by a plan is what the history's disk had when the plan was made, whatever came before it was filled.
pub fn plans_answer()
    ensures { PlansAnswer }
{}

/// What is planned can be filled by the session's readers.
pub fn plans_can_be_filled()
    ensures { PlansCanBeFilled }
{}

/// What a session only reads can be sealed at any time: nothing of it is unsynced.
pub fn files_can_be_sealed()
    ensures written { SessionsWriteTheirs }
    ensures synced { ReadFilesAreSynced }
{}

/// Readers of files that a session only reads, each of which tells what its file has now, are readers of the session.
pub fn readers_of_sessions()
    ensures { ReadersOfSession }
{}

/// Readers of a session are its readers behind a merge of its leaf too.
pub fn readers_succeed()
    ensures later { ReadersSucceed }
{}
