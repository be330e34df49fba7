//! The laws of a script's lines, each the contract of a function that does nothing.

ghost use Rattle.script_session.specs.Faults.{LinesCountFaults};
ghost use Rattle.script_session.specs.Histories.{LinesTellHistory};
ghost use Rattle.script_session.specs.StepsLeft.{FetchesLeave, FinishesLeave, PutsLeave, SkipsLeave, TurnsLeave};

/// Lines that were answered one after the other were told the history's disk, each at its place; and behind them the session
/// stands with that history.
pub fn lines_tell_history()
    ensures { LinesTellHistory }
{}

/// The store counts the last fault that refused a line, which is the one that broke the session if one did; where none refused
/// one the counts stay.
pub fn lines_count_faults()
    ensures { LinesCountFaults }
{}

/// A turn of a copy leaves a later state of what its session serves, with the same history; or it broke the session.
pub fn turns_leave()
    ensures { TurnsLeave }
{}

/// So does a fetch.
pub fn fetches_leave()
    ensures { FetchesLeave }
{}

/// So does a look at what can be passed over.
pub fn skips_leave()
    ensures { SkipsLeave }
{}

/// So does a put of a piece that is true.
pub fn puts_leave()
    ensures { PutsLeave }
{}

/// So does a finish.
pub fn finishes_leave()
    ensures { FinishesLeave }
{}
