//! When each stripe of a disk was last changed.

ghost use Rattle.std.specs.Prelude.{◌≡◌, ◌+◌, ◌<◌, ◌≤◌, ◌&&◌, ℕ, IfOk, length, nat_le, nat_lt, slice_index, if◌then◌else◌};
ghost use Rattle.merge_core.specs.Stamping.{stamps_of, with_stamps};

use std::alloc::Global;
use vx_base::NoRoom;

/// A number for each stripe of a disk: when it was last changed, or 0.
#[derive(Drop)]
pub struct Stamps {
    words: Vec<u64>,
}

// Gives the words from `from` up to `to` this value.
fn fill_words(words: &mut [u64], from: usize, to: usize, value: u64)
    requires order { from ≤ to }
    requires within { to ≤ length words.old }
    ensures { (t : ℕ) → slice_index words.new t ≡ (if nat_le from t && nat_lt t to then value else slice_index words.old t) }
{
    for t in from..to {
        words[t] = value;
    }
}

impl Stamps {
    /// So many stripes, none of them changed.
    pub fn new(alloc: Global, stripes: u32) -> Result<Stamps, NoRoom>
        ensures none { IfOk result (λ s. (t : ℕ) → stamps_of s t ≡ 0) }
        ensures stripes { IfOk result (λ s. length s.words.items ≡ stripes) }
    {
        Ok(Stamps {
            words: vec![in alloc; 0u64; stripes as usize]?,
        })
    }

    /// A stripe's stamp.
    pub fn get(&self, stripe: u32) -> u64
        requires there { stripe < length self.now.words.items }
        ensures { result ≡ stamps_of self.now stripe }
    {
        self.words[stripe as usize]
    }

    /// Gives the stripes from `first` to `last` this stamp.
    pub fn set_range(&mut self, first: u32, last: u32, stamp: u64)
        requires order { first ≤ last }
        requires there { last < length self.old.words.items }
        ensures stamps { (t : ℕ) → stamps_of self.new t ≡ with_stamps first last stamp (stamps_of self.old) t }
        ensures stripes { length self.new.words.items ≡ length self.old.words.items }
    {
        let words = self.words.as_mut_slice();
        fill_words(words, first as usize, last as usize + 1, stamp);
    }
}
