//! Marks of the stripes that are copied.

ghost use Rattle.std.specs.Prelude.{◌≡◌, ◌≢◌, ◌+◌, ◌*◌, ◌<◌, ◌≤◌, ℕ, Bool, true, false, IfOk, MatchOption, length};
ghost use Rattle.vhdx_format.specs.SectorBitmaps.{bit_of};
ghost use Rattle.chain_model.specs.Merges.{AllMarked, with_mark, with_marks, without_mark};
ghost use Rattle.merge_core.specs.Copied.{IsLowest, marks_of, without_marks};

use crate::marks::Marks;
use sector_bits::{first_run, get, set, set_range};
use std::alloc::Global;
use vx_base::NoRoom;

// The lowest place from `from` on, and below `end`, whose bit isn't set; `end` if all are.
fn next_open(bits: &[u8], from: u32, end: u32) -> u32
    requires order { from ≤ end }
    requires within { end ≤ 8 * length bits.now }
    ensures from { from ≤ result }
    ensures to { result ≤ end }
    ensures set { (t : ℕ) → from ≤ t → t < result → bit_of bits.now t ≡ 1 }
    ensures stops { result < end → bit_of bits.now result ≢ 1 }
{
    if from == end {
        return end;
    }
    if !get(bits, from as usize) {
        return from;
    }
    let run = first_run(bits, from as usize, (end - from) as usize);
    from + run.count as u32
}

// The same, where all places from `gap` on are set that lie below `until`: they aren't looked at.
fn past_gap(bits: &[u8], from: u32, gap: u32, until: u32, end: u32) -> u32
    requires order { from ≤ end }
    requires within { end ≤ 8 * length bits.now }
    requires until { until ≤ end }
    requires behind { (t : ℕ) → gap ≤ t → t < until → bit_of bits.now t ≡ 1 }
    ensures from { from ≤ result }
    ensures to { result ≤ end }
    ensures set { (t : ℕ) → from ≤ t → t < result → bit_of bits.now t ≡ 1 }
    ensures stops { result < end → bit_of bits.now result ≢ 1 }
{
    if from >= until || gap >= until {
        return next_open(bits, from, end);
    }
    if from < gap {
        let low = next_open(bits, from, gap);
        if low < gap {
            return low;
        }
    }
    next_open(bits, until, end)
}

impl Marks {
    /// So many stripes, none of them marked.
    pub fn new(alloc: Global, stripes: u32) -> Result<Marks, NoRoom>
        ensures none { IfOk result (λ m. (t : ℕ) → marks_of m t ≡ false) }
        ensures stripes { IfOk result (λ m. m.stripes ≡ stripes) }
    {
        let bits = vec![in alloc; 0u8; (stripes as usize).div_ceil(8)]?;
        Ok(Marks {
            bits,
            stripes,
            low: 0,
            gap: 0,
            until: 0,
        })
    }

    /// How many stripes there are.
    pub fn stripes(&self) -> u32
        ensures { result ≡ self.now.stripes }
    {
        self.stripes
    }

    /// Marks a stripe. In a loop that marks stripe after stripe this takes the time of a few steps a stripe.
    pub fn mark(&mut self, stripe: u32)
        requires there { stripe < self.old.stripes }
        ensures marks { (t : ℕ) → marks_of self.new t ≡ with_mark stripe (marks_of self.old) t }
        ensures stripes { self.new.stripes ≡ self.old.stripes }
    {
        set(self.bits.as_mut_slice(), stripe as usize, true);
        if stripe == self.low {
            self.low = past_gap(
                self.bits.as_slice(),
                stripe + 1,
                self.gap,
                self.until,
                self.stripes,
            );
        }
    }

    /// Marks so many stripes from `first` on, whole bytes of marks at once.
    pub fn mark_range(&mut self, first: u32, count: u32)
        requires there { first + count ≤ self.old.stripes }
        ensures marks { (t : ℕ) → marks_of self.new t ≡ with_marks first count (marks_of self.old) t }
        ensures stripes { self.new.stripes ≡ self.old.stripes }
    {
        let end = first + count;
        set_range(
            self.bits.as_mut_slice(),
            first as usize,
            count as usize,
            true,
        );
        if first <= self.low && self.low < end {
            self.low = past_gap(
                self.bits.as_slice(),
                end,
                self.gap,
                self.until,
                self.stripes,
            );
        }
    }

    /// Takes a stripe's mark away.
    pub fn unmark(&mut self, stripe: u32)
        requires there { stripe < self.old.stripes }
        ensures marks { (t : ℕ) → marks_of self.new t ≡ without_mark stripe (marks_of self.old) t }
        ensures stripes { self.new.stripes ≡ self.old.stripes }
    {
        self.unmark_range(stripe, stripe);
    }

    /// Takes the marks of the stripes from `first` to `last` away.
    pub fn unmark_range(&mut self, first: u32, last: u32)
        requires order { first ≤ last }
        requires there { last < self.old.stripes }
        ensures marks { (t : ℕ) → marks_of self.new t ≡ without_marks first last (marks_of self.old) t }
        ensures stripes { self.new.stripes ≡ self.old.stripes }
    {
        let count = (last - first) as usize + 1;
        set_range(self.bits.as_mut_slice(), first as usize, count, false);
        if first < self.low {
            self.gap = last + 1;
            self.until = self.low;
            self.low = first;
        } else if first < self.until {
            self.gap = self.gap.max(last + 1);
        }
    }

    /// Whether a stripe is marked.
    pub fn is_marked(&self, stripe: u32) -> bool
        requires there { stripe < self.now.stripes }
        ensures { result ≡ marks_of self.now stripe }
    {
        get(self.bits.as_slice(), stripe as usize)
    }

    /// The lowest stripe that isn't marked; none where all are.
    pub fn missing(&self) -> Option<u32>
        ensures { MatchOption result (AllMarked self.now.stripes (marks_of self.now)) (λ t. IsLowest self.now.stripes (marks_of self.now) t) }
    {
        if self.low < self.stripes {
            Some(self.low)
        } else {
            None
        }
    }
}
