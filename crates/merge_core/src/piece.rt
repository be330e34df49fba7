//! A piece of a stripe, as it is kept.

ghost use Rattle.std.specs.Prelude.{◌≡◌, ◌*◌, ◌^◌, ◌≤◌, length};
ghost use Rattle.vhdx_format.specs.AllocationTables.{IsSectorSize};

/// A piece of a stripe: the sectors of it that a file of a chain had when the piece was taken, with their bytes, and the
/// stripe's stamp. Its room is made once.
#[derive(Drop)]
pub struct Piece {
    pub(crate) filled: bool,
    pub(crate) stripe: u32,
    pub(crate) stamp: u64,
    /// The first sector of the stripe, and how many of it the disk has.
    pub(crate) first: u64,
    pub(crate) count: u64,
    /// The bytes of a sector.
    pub(crate) sector: u32,
    pub(crate) bytes: Vec<u8>,
    /// A bit for each sector: whether the file had it.
    pub(crate) mask: Vec<u8>,
    ghost place: { first * sector ≡ stripe * 2 ^ 20 },
    ghost size: { IsSectorSize sector },
    ghost few: { sector * count ≤ 2 ^ 20 },
    ghost bits: { count ≤ 2048 },
    ghost long: { length bytes.items ≡ 2 ^ 20 },
    ghost masks: { length mask.items ≡ 256 },
}
