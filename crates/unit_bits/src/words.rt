//! Runs of bits in words of 64 bits, the least significant bit first.

ghost use Rattle.std.specs.Prelude.{◌≡◌, ◌+◌, ◌-◌, ◌*◌, ◌%◌, ◌^◌, ◌<◌, ◌≤◌, ◌&&◌, ℕ, Decides, length, nat_le, nat_lt, if◌then◌else◌};
ghost use Rattle.unit_bits.specs.Words.{bit_of};

// How many of the places from `at` up to `to` lie in the word that `at` lies in.
fn count_in_word(at: usize, to: usize) -> usize
    requires { at < to }
    ensures some { 0 < result }
    ensures word { at % 64 + result ≤ 64 }
    ensures to { at + result ≤ to }
{
    (64 - at % 64).min(to - at)
}

// A word with so many bits set from one on, and no other.
fn ones(first: usize, count: usize) -> u64
    requires some { 0 < count }
    requires fits { first + count ≤ 64 }
    ensures { result ≡ 2 ^ (first + count) - 2 ^ first }
{
    (u64::MAX >> (64 - count)) << first
}

/// Sets the bits from `from` up to `to`, and answers whether none of them was set.
pub fn set_bits(words: &mut [u64], from: usize, to: usize) -> bool
    requires order { from ≤ to }
    requires within { to ≤ 64 * length words.old }
    ensures answer { Decides result ((t : ℕ) → from ≤ t → t < to → bit_of words.old t ≡ 0) }
    ensures set { (t : ℕ) → bit_of words.new t ≡ (if nat_le from t && nat_lt t to then 1 else bit_of words.old t) }
{
    let mut at = from;
    let mut met = 0;
    while at < to {
        let count = count_in_word(at, to);
        let run = ones(at % 64, count);
        met |= words[at / 64] & run;
        words[at / 64] |= run;
        at += count;
    }
    met == 0
}
