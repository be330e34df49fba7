//! Stripes are passed over of which the source of a merge has nothing.

ghost use Rattle.std.specs.Prelude.{◌≡◌, ◌+◌, ◌^◌, ◌<◌, ◌≤◌, true, None, is_some, IfOk, IfSome, OnErr};
ghost use Rattle.chain_model.specs.Stripes.{stripe_count};
ghost use Rattle.chain_core.specs.Copying.{IfStopped, fetch_refused};
ghost use Rattle.chain_core.specs.Sessions.{AreReady, IsSound, KeepsMerge, has_merge, leaf_number, seen};
ghost use Rattle.chain_core.specs.Skipping.{FindsPassed, MarksRun, MarksRunToo, SkipCause, SkipTold, SkipsStripes};

use crate::chain::Chain;
use crate::layers::{Layers, Retiring, Underway};
use guest_model::{ChainRefusal, Recorder};
use merge_core::{pass, pass_own};
use store_model::{Store, StoreFault};

impl<S: Store, R: Recorder> Chain<S, R> {
    /// Marks the stripes of the merge from this one on that lie wholly in blocks which the source doesn't have, up to the first that doesn't: there
    /// is nothing to be copied. Answers how many: its entries say so, of which no more than 512 are looked at. Nothing is written and nothing
    /// noted, so that it isn't counted; but it is refused as a fetch of the stripe is.
    pub fn skip(&mut self, from: u32) -> Result<u32, ChainRefusal>
        requires { IsSound (seen S.disk R.noted R.told self.old) }
        ensures sound { IsSound (seen S.disk R.noted R.told self.new) }
        ensures events { self.new.events ≡ self.old.events }
        ensures few { IfOk result (λ n. from + n ≤ 2 ^ 26) }
        ensures marks { OnErr result (KeepsMerge self.old.layers self.new.layers) }
        ensures geometry { self.new.layers.geometry ≡ self.old.layers.geometry }
        ensures session { is_some self.new.layers.leaf ≡ is_some self.old.layers.leaf }
        ensures leaf { leaf_number self.new.layers ≡ leaf_number self.old.layers }
        ensures history { self.new.recorder ≡ self.old.recorder }
        ensures early { IfStopped (fetch_refused from (seen S.disk R.noted R.told self.old)) result (self.new ≡ self.old) }
        ensures cause { fetch_refused from (seen S.disk R.noted R.told self.old) ≡ None →
            SkipCause from (seen S.disk R.noted R.told self.old) (seen S.disk R.noted R.told self.new) result }
        ensures told { SkipTold from (seen S.disk R.noted R.told self.old) (seen S.disk R.noted R.told self.new) result }
    {
        self.check_fit()?;
        self.find_stripe(from)?;
        match self.layers.skip(&mut self.store, from) {
            Ok(count) => Ok(count),
            Err(fault) => Err(ChainRefusal::ReadFault {
                file: fault.file,
                count: fault.count,
            }),
        }
    }
}

impl Layers {
    /// Marks the stripes from this one on that the source of the merge has nothing of, as far as one look at its entries tells, and answers how
    /// many.
    pub(crate) fn skip<S: Store>(&mut self, store: &mut S, from: u32) -> Result<u32, StoreFault>
        requires ready { AreReady self.old (S.disk store.old) }
        requires merge { has_merge self.old ≡ true }
        requires stripe { from < stripe_count self.old.geometry.sector self.old.geometry.sectors }
        ensures { SkipsStripes from self.old self.new (S.disk store.old) (S.disk store.new) result }
    {
        let count = self.find_passed(store, from)?;
        mark_run(&mut self.merge, from, count);
        mark_run_too(&mut self.retiring, from, count);
        Ok(count)
    }

    // How many these are.
    fn find_passed<S: Store>(&mut self, store: &mut S, from: u32) -> Result<u32, StoreFault>
        requires ready { AreReady self.old (S.disk store.old) }
        requires merge { has_merge self.old ≡ true }
        requires stripe { from < stripe_count self.old.geometry.sector self.old.geometry.sectors }
        ensures { FindsPassed from self.old self.new (S.disk store.old) (S.disk store.new) result }
    {
        let Some(merge) = &self.merge else {
            return self.find_passed_of_leaf(store, from);
        };
        let source = &mut self.below[merge.source];
        pass(store, source, self.geometry, from)
    }

    // The same of the merge of the leaf.
    fn find_passed_of_leaf<S: Store>(&mut self, store: &mut S, from: u32) -> Result<u32, StoreFault>
        requires ready { AreReady self.old (S.disk store.old) }
        requires none { self.old.merge ≡ None }
        requires merge { is_some self.old.retiring ≡ true }
        requires stripe { from < stripe_count self.old.geometry.sector self.old.geometry.sectors }
        ensures { FindsPassed from self.old self.new (S.disk store.old) (S.disk store.new) result }
    {
        match &mut self.leaf {
            Some(leaf) => pass_own(store, leaf, self.geometry, from),
            None => Ok(0),
        }
    }
}

// Marks so many stripes of the merge of a file below the leaf.
fn mark_run(merge: &mut Option<Underway>, from: u32, count: u32)
    requires { IfSome merge.old (λ u. from + count ≤ u.marks.stripes) }
    ensures marks { MarksRun from count merge.old merge.new }
{
    if let Some(merge) = merge {
        merge.marks.mark_range(from, count);
    }
}

// And of that of the leaf.
fn mark_run_too(retiring: &mut Option<Retiring>, from: u32, count: u32)
    requires { IfSome retiring.old (λ r. from + count ≤ r.marks.stripes) }
    ensures marks { MarksRunToo from count retiring.old retiring.new }
{
    if let Some(retiring) = retiring {
        retiring.marks.mark_range(from, count);
    }
}
