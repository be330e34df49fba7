//! What a call on the source does to marks and stamps. The function does nothing; it carries the laws.

ghost use Rattle.merge_core.specs.Ranges.{CallsTouchRanges};

/// A call on the source touches the stripes from that of its first sector to that of its last.
pub fn calls_touch_ranges()
    ensures { CallsTouchRanges }
{}
