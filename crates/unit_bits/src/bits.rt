//! Units of a file, as they are kept.

ghost use Rattle.std.specs.Prelude.{◌*◌, ◌≤◌, length};

/// Units of 1 MB of a file, a bit each: which of them are marked.
#[derive(Drop)]
pub struct UnitBits {
    pub(crate) words: Vec<u64>,
    pub(crate) count: u64,
    ghost sized: { count ≤ 64 * length words.items },
}
