//! A law of the definitions, as the contract of a function that does nothing.

ghost use Rattle.disk_calls.specs.Laws.{OneHistory};

/// Calls that were told truly, one after the other, are those of one history, each at its place, and each reply is that of the disk there.
pub fn one_history()
    ensures history { OneHistory }
{}
