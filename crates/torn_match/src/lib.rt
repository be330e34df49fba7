//! Images in which nothing that a crash tore passes for whole. The functions do nothing; each carries a law of these definitions.
#![tactic(auto)]

ghost use Rattle.torn_match.specs.Laws.{CopiesAreWhole, FailedLeavesNoMore, ReadsAreUntorn, WrittenEntriesAreWhole};

/// What a read gives has no torn match unless a write failed, and without a torn match a crash leaves no more of a write that
/// failed than of one that was done.
pub fn failed_writes_leave_no_more()
    ensures reads { ReadsAreUntorn }
    ensures failed { FailedLeavesNoMore }
{}

/// Without a torn match a copy of the header or of the region table that is written is the old one or the new one.
pub fn copies_are_whole()
    ensures { CopiesAreWhole }
{}

/// Without a torn match an entry that is written to the log, in one part or round the ring's end in two, is the new one, or begins
/// as the ring did before.
pub fn entries_are_whole()
    ensures { WrittenEntriesAreWhole }
{}
