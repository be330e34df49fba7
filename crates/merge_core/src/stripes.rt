//! The stripes of a disk: aligned pieces of 1 MB, the last of which may be shorter.

ghost use Rattle.std.specs.Prelude.{◌≡◌, ◌+◌, ◌-◌, ◌*◌, ◌^◌, ◌<◌, ◌≤◌, min};
ghost use Rattle.vhdx_format.specs.AllocationTables.{IsSectorSize};
ghost use Rattle.chain_model.specs.Stripes as stripes;
ghost use Rattle.merge_core.specs.Ranges as ranges;
ghost use Rattle.merge_core.specs.Ranges.{range_count};

use vx_base::Geometry;

/// The bytes of a stripe.
const STRIPE: u64 = 1_048_576;

// How many sectors a stripe has.
fn per_stripe(sector: u32) -> u64
    requires sector { IsSectorSize sector }
    ensures is { result ≡ stripes.per_stripe sector }
    ensures whole { result * sector ≡ 2 ^ 20 }
    ensures some { 0 < result }
    ensures few { result ≤ 2048 }
{
    if sector == 512 { 2048 } else { 256 }
}

/// How many stripes a disk has.
pub fn stripe_count(geometry: Geometry) -> u32
    requires sector { IsSectorSize geometry.sector }
    requires size { geometry.sectors * geometry.sector ≤ 2 ^ 46 }
    ensures is { result ≡ stripes.stripe_count geometry.sector geometry.sectors }
    ensures few { result ≤ 2 ^ 26 }
{
    geometry.sectors.div_ceil(per_stripe(geometry.sector)) as u32
}

/// The first sector of a stripe, and how many the disk has of it.
pub fn stripe_range(stripe: u32, geometry: Geometry) -> (u64, u64)
    requires sector { IsSectorSize geometry.sector }
    requires size { geometry.sectors * geometry.sector ≤ 2 ^ 46 }
    requires there { stripe < stripes.stripe_count geometry.sector geometry.sectors }
    ensures first { result.0 ≡ stripe * stripes.per_stripe geometry.sector }
    ensures count { result.1 ≡ range_count stripe geometry.sector geometry.sectors }
    ensures some { 0 < result.1 }
    ensures most { result.1 ≤ stripes.per_stripe geometry.sector }
    ensures on_disk { result.0 + result.1 ≤ geometry.sectors }
    // In bytes it begins at a whole number of stripes, and is no longer than one.
    ensures begins { result.0 * geometry.sector ≡ stripe * 2 ^ 20 }
    ensures long { geometry.sector * result.1 ≤ 2 ^ 20 }
{
    let per = per_stripe(geometry.sector);
    let first = u64::from(stripe) * per;
    (first, per.min(geometry.sectors - first))
}

/// How many stripes from this one on have all their sectors among so many from its first one on. What the disk has of its last stripe is all
/// of it.
pub(crate) fn whole_stripes(from: u32, count: u64, geometry: Geometry) -> u32
    requires sector { IsSectorSize geometry.sector }
    requires size { geometry.sectors * geometry.sector ≤ 2 ^ 46 }
    requires there { from < stripes.stripe_count geometry.sector geometry.sectors }
    requires on_disk { from * stripes.per_stripe geometry.sector + count ≤ geometry.sectors }
    ensures is { result ≡ ranges.whole_stripes from count geometry.sector geometry.sectors }
    ensures there { from + result ≤ stripes.stripe_count geometry.sector geometry.sectors }
    ensures few { from + result ≤ 2 ^ 26 }
{
    let per = per_stripe(geometry.sector);
    let stripes = stripe_count(geometry);
    if u64::from(from) * per + count == geometry.sectors {
        return stripes - from;
    }
    (count / per) as u32
}

/// The first and the last stripe of which so many sectors from `first` on have some.
pub fn stripes_touched(first: u64, count: u64, geometry: Geometry) -> (u32, u32)
    requires sector { IsSectorSize geometry.sector }
    requires size { geometry.sectors * geometry.sector ≤ 2 ^ 46 }
    requires some { 0 < count }
    requires on_disk { first + count ≤ geometry.sectors }
    ensures first { result.0 ≡ stripes.stripe_of geometry.sector first }
    ensures last { result.1 ≡ stripes.stripe_of geometry.sector (first + count - 1) }
    ensures order { result.0 ≤ result.1 }
    ensures there { result.1 < stripes.stripe_count geometry.sector geometry.sectors }
{
    let per = per_stripe(geometry.sector);
    ((first / per) as u32, ((first + count - 1) / per) as u32)
}
