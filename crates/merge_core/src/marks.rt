//! Which stripes of a disk are copied, as it is kept.

ghost use Rattle.std.specs.Prelude.{◌≡◌, ◌≢◌, ◌*◌, ◌<◌, ◌≤◌, ℕ, length};
ghost use Rattle.vhdx_format.specs.SectorBitmaps.{bit_of};

/// Which stripes of a disk are copied: a bit a stripe.
#[derive(Drop)]
pub struct Marks {
    pub(crate) bits: Vec<u8>,
    pub(crate) stripes: u32,
    /// The lowest stripe that isn't marked, or their count where all are.
    pub(crate) low: u32,
    /// From `gap` on all stripes below `until` are marked: of those below it the gap alone has to be looked at again.
    pub(crate) gap: u32,
    pub(crate) until: u32,
    ghost sized: { stripes ≤ 8 * length bits.items },
    ghost within: { low ≤ stripes },
    ghost below: { (t : ℕ) → t < low → bit_of bits.items t ≡ 1 },
    ghost bounds: { until ≤ stripes },
    ghost behind: { (t : ℕ) → gap ≤ t → t < until → bit_of bits.items t ≡ 1 },
    ghost stops: { low < stripes → bit_of bits.items low ≢ 1 },
}
