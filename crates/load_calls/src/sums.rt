//! The sums that a load prints, over the bytes of sectors.

ghost use Rattle.std.specs.Prelude.{◌≡◌, ◌≤◌, ◌<◌, ◌^◌, length};
ghost use Rattle.guest_model.specs.declared.call.Reply.TheVariants as replies;
ghost use Rattle.load_calls.specs.Printed.{page_sum, seen_in};

/// How many bytes a sector has.
const SECTOR: usize = 512;

/// The sum of the first bytes of sectors of 512 bytes, at most 1 MB of them.
#[tactic(auto, using(crate::proofs::Pages::first_none, crate::proofs::Pages::first_more))]
pub fn seen_in(bytes: &[u8]) -> u64
    requires { length bytes.now ≤ 2 ^ 20 }
    ensures sum { result ≡ seen_in (replies.Bytes bytes.now) }
    ensures most { result ≤ 2 ^ 19 }
{
    let mut sum = 0;
    for k in 0..bytes.len() / SECTOR {
        sum += bytes[SECTOR * k] as u64;
    }
    sum
}

/// The sum over sectors of 512 bytes, at most 1 MB of them, the first being that of the number `first`: the first byte of each, times one more
/// than its number.
#[tactic(auto, using(crate::proofs::Pages::weighed_none, crate::proofs::Pages::weighed_more, crate::proofs::Pages::weight_fits))]
pub fn page_sum(first: u64, bytes: &[u8]) -> u64
    requires low { first < 2 ^ 32 }
    requires few { length bytes.now ≤ 2 ^ 20 }
    ensures sum { result ≡ page_sum first bytes.now }
    ensures most { result ≤ 2 ^ 52 }
{
    let mut sum = 0;
    for k in 0..bytes.len() / SECTOR {
        sum += (first + k as u64 + 1) * bytes[SECTOR * k] as u64;
    }
    sum
}
