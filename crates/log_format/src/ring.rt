//! The bytes and the places of a ring, which go on at its beginning past its end.

ghost use Rattle.std.specs.Prelude.{◌≡◌, ◌+◌, ◌-◌, ◌*◌, ◌%◌, ◌^◌, ◌<◌, ◌≤◌, ◌++◌, length, take, drop};
ghost use Rattle.vhdx_format.specs.Logs.{ring_bytes, wrapped};

/// The place in the ring of one that may have run past its end once.
#[tactic(auto, unfolding(vhdx_format::specs::Logs::wrapped))]
pub fn place_in_ring(ring_len: usize, place: usize) -> usize
    requires { place < 2 * ring_len }
    ensures place { result ≡ wrapped ring_len place }
    ensures within { result < ring_len }
{
    if place < ring_len {
        place
    } else {
        place - ring_len
    }
}

/// The n bytes at a place of the ring that may have run past its end once. They lie in one sector.
pub fn piece(ring: &[u8], place: usize, n: usize) -> &[u8]
    requires ring { length ring.now % 4096 ≡ 0 }
    requires short { length ring.now < 2 ^ 32 }
    requires place { place < 2 * length ring.now }
    requires sector { place % 4096 + n ≤ 4096 }
    ensures bytes { result.now ≡ ring_bytes ring.now place n }
    ensures length { length result.now ≡ n }
{
    let start = place_in_ring(ring.len(), place);
    &ring[start..start + n]
}

/// Where the n bytes of the ring from a place on end: those up to the ring's end, and the rest, from its beginning on.
pub fn ends_of(ring: &[u8], at: usize, n: usize) -> (usize, usize)
    requires short { length ring.now < 2 ^ 32 }
    requires place { at ≤ length ring.now }
    requires n { n ≤ length ring.now }
    ensures order { at ≤ result.0 }
    ensures within { result.0 ≤ length ring.now }
    ensures rest { result.1 ≤ length ring.now }
    ensures bytes { ring_bytes ring.now at n ≡ take (result.0 - at) (drop at ring.now) ++ take result.1 ring.now }
{
    let end = at + n;
    if end <= ring.len() {
        (end, 0)
    } else {
        (ring.len(), end - ring.len())
    }
}
