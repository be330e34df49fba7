//! Marks of a file's units.

ghost use Rattle.std.specs.Prelude.{◌≡◌, ℕ, ◌+◌, ◌<◌, ◌≤◌, false, Decides, IfOk};
ghost use Rattle.unit_bits.specs.Marked.{IsFree, count_of, marks_of, with_block};

use crate::bits::UnitBits;
use crate::words::set_bits;
use std::alloc::{AllocError, Global};

impl UnitBits {
    /// So many units, none of them marked.
    pub fn new(alloc: Global, count: u64) -> Result<UnitBits, AllocError>
        ensures none { IfOk result (λ bits. (t : ℕ) → marks_of bits t ≡ false) }
        ensures count { IfOk result (λ bits. count_of bits ≡ count) }
    {
        let words = vec![in alloc; 0u64; count.div_ceil(64) as usize]?;
        Ok(UnitBits { words, count })
    }

    /// Marks the units of a block, where all of them are there, and answers whether they are and none was marked before.
    pub fn mark(&mut self, unit: u64, units: u64) -> bool
        ensures answer { Decides result (IsFree (count_of self.old) (marks_of self.old) unit units) }
        ensures marked { unit + units ≤ count_of self.old → (t : ℕ) → marks_of self.new t ≡ with_block unit units (marks_of self.old) t }
        ensures outside { count_of self.old < unit + units → (t : ℕ) → marks_of self.new t ≡ marks_of self.old t }
        ensures count { count_of self.new ≡ count_of self.old }
    {
        if units > self.count || unit > self.count - units {
            return false;
        }
        let end = (unit + units) as usize;
        set_bits(self.words.as_mut_slice(), unit as usize, end)
    }
}
