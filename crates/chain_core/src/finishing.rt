//! A merge that is under way is finished.

ghost use Rattle.std.specs.Prelude.{◌≡◌, ◌<◌, ◌≤◌, ◌+◌, ◌^◌, None, Some, true, is_some, length, map, slice_index_or, IfSome};
ghost use Rattle.store_model.specs.Disk.{WhereTold};
ghost use Rattle.log_format.specs.PendingPages.{HasOnePageEach};
ghost use Rattle.layer_session.specs.FileLayers.{FileTurns, WaitsForNone, log_number};
ghost use Rattle.chain_core.specs.Copying.{AreLow};
ghost use Rattle.chain_core.specs.Ending.{AreAllReady};
ghost use Rattle.log_write.specs.Writing.{HasNextNumber};
ghost use Rattle.chain_core.specs.Finished.{CanBeRetired, CanEnd, ChangesAt, ChangesFile, ChildIsSettled, Clears, Finishes, HandsOver, Identifies, IsAllCopied, IsAllMarked, IsSessionOf, Settles, UpdatesBy};
ghost use Rattle.chain_core.specs.Sessions.{AreReady, IsLow, first_layer, has_merge, header_at, is_session_at};

use crate::layers::Layers;
use layer_session::FileLayer;
use log_format::Page;
use store_model::{Store, StoreFault};
use vx_base::Guid;

impl Layers {
    // Commits the file in a session at a place of the chain, the leaf's being 0.
    fn settle<S: Store>(&mut self, store: &mut S, place: usize) -> Result<(), StoreFault>
        requires session { IsSessionOf self.old place }
        requires ready { AreReady self.old (S.disk store.old) }
        requires low { IsLow (2 ^ 63 + 5) self.old }
        ensures { ChangesFile Settles place self.old self.new (S.disk store.old) (S.disk store.new) result }
    {
        if place > 0 {
            return settle_at(self.below.as_mut_slice(), store, place - 1);
        }
        match &mut self.leaf {
            Some(leaf) => leaf.commit(store),
            None => Ok(()),
        }
    }

    // Gives the file directly above the source of the merge the target for its parent. Nothing of it waits for a commit.
    fn relink<S: Store>(&mut self, store: &mut S) -> Result<(), StoreFault>
        requires merge { is_some self.old.merge ≡ true }
        requires ready { AreReady self.old (S.disk store.old) }
        requires low { IsLow (2 ^ 63 + 5) self.old }
        requires settled { IfSome self.old.merge (ChildIsSettled self.old) }
        ensures { IfSome self.old.merge (λ u. ChangesFile (UpdatesBy u.relink) u.source self.old self.new (S.disk store.old) (S.disk store.new) result) }
    {
        let Some(merge) = &self.merge else {
            return Ok(());
        };
        let pages = merge.relink.as_slice();
        let place = merge.source;
        if place > 0 {
            return update_at(self.below.as_mut_slice(), store, place - 1, pages);
        }
        match &mut self.leaf {
            Some(leaf) => leaf.update(store, pages),
            None => Ok(()),
        }
    }

    /// Finishes the merge, whose stripes are all copied. After a fault the files are to be written no more. Of a file below the leaf: the
    /// target is committed, and then the file directly above the source, the child; the child gets the target for its parent, and the
    /// source leaves the chain.
    pub(crate) fn finish<S: Store>(&mut self, store: &mut S) -> Result<(), StoreFault>
        requires ready { AreReady self.old (S.disk store.old) }
        requires low { IsLow (2 ^ 63 + 3) self.old }
        requires merge { has_merge self.old ≡ true }
        requires copied { IsAllCopied self.old }
        ensures { Finishes self.old self.new (S.disk store.old) (S.disk store.new) result }
    {
        let Some(merge) = &self.merge else {
            return self.retire_leaf(store);
        };
        let source = merge.source;
        self.settle(store, source + 2)?;
        self.settle(store, source)?;
        self.relink(store)?;
        self.below.remove(source);
        self.merge = None;
        Ok(())
    }

    // Finishes the merge of the leaf: the target is committed, and then the leaf; the target's own retired name is taken away, if it has
    // one; the leaf is retired in favour of the target, and the target, under a new identifier, is the leaf from then on.
    fn retire_leaf<S: Store>(&mut self, store: &mut S) -> Result<(), StoreFault>
        requires ready { AreReady self.old (S.disk store.old) }
        requires low { IsLow (2 ^ 63 + 3) self.old }
        requires none { self.old.merge ≡ None }
        requires merge { is_some self.old.retiring ≡ true }
        requires copied { IfSome self.old.retiring (λ r. IsAllMarked r.marks) }
        ensures { Finishes self.old self.new (S.disk store.old) (S.disk store.new) result }
    {
        self.settle(store, 1)?;
        self.settle(store, 0)?;
        self.clear(store)?;
        self.retire(store)?;
        self.identify(store)?;
        self.hand_over(store)?;
        self.retiring = None;
        Ok(())
    }

    // Takes the target's own retired name away, if it has one. Nothing of the target waits for a commit.
    fn clear<S: Store>(&mut self, store: &mut S) -> Result<(), StoreFault>
        requires merge { is_some self.old.retiring ≡ true }
        requires ready { AreReady self.old (S.disk store.old) }
        requires low { IsLow (2 ^ 63 + 5) self.old }
        requires settled { IfSome (first_layer self.old.below.items) WaitsForNone }
        ensures { IfSome self.old.retiring (λ r. Clears r.clear self.old self.new (S.disk store.old) (S.disk store.new) result) }
    {
        let Some(retiring) = &self.retiring else {
            return Ok(());
        };
        match &retiring.clear {
            Some(pages) => update_at(self.below.as_mut_slice(), store, 0, pages.as_slice()),
            None => Ok(()),
        }
    }

    // Retires the leaf in favour of the target. Nothing of it waits for a commit.
    fn retire<S: Store>(&mut self, store: &mut S) -> Result<(), StoreFault>
        requires merge { is_some self.old.retiring ≡ true }
        requires session { is_some self.old.leaf ≡ true }
        requires can { IfSome self.old.retiring (λ r. IfSome self.old.leaf (CanBeRetired r.retire (S.disk store.old))) }
        ensures { IfSome self.old.retiring (λ r. ChangesFile (UpdatesBy r.retire) 0 self.old self.new (S.disk store.old) (S.disk store.new) result) }
    {
        let Some(retiring) = &self.retiring else {
            return Ok(());
        };
        match &mut self.leaf {
            Some(leaf) => leaf.update(store, retiring.retire.as_slice()),
            None => Ok(()),
        }
    }

    // Gives the target's data their last identifier.
    fn identify<S: Store>(&mut self, store: &mut S) -> Result<(), StoreFault>
        requires merge { is_some self.old.retiring ≡ true }
        requires there { 0 < length self.old.below.items }
        requires session { is_session_at self.old.below.items 0 ≡ true }
        requires ready { AreAllReady (S.disk store.old) self.old.below.items }
        requires next { IfSome (header_at self.old.below.items 0) HasNextNumber }
        ensures { IfSome self.old.retiring (λ r. ChangesFile (Identifies r.third) 1 self.old self.new (S.disk store.old) (S.disk store.new) result) }
    {
        let Some(retiring) = &self.retiring else {
            return Ok(());
        };
        let id = retiring.third;
        identify_first(self.below.as_mut_slice(), store, id)
    }

    // The first file below the leaf, which is in a session, is the leaf from then on, and the old leaf's session ends.
    fn hand_over<S: Store>(&mut self, store: &mut S) -> Result<(), StoreFault>
        requires there { 0 < length self.old.below.items }
        requires target { is_session_at self.old.below.items 0 ≡ true }
        requires session { is_some self.old.leaf ≡ true }
        requires can { IfSome self.old.leaf (CanEnd (S.disk store.old)) }
        ensures { HandsOver self.old self.new (S.disk store.old) (S.disk store.new) result }
    {
        let FileLayer::Session(target) = self.below.remove(0) else {
            return Ok(());
        };
        match self.leaf.replace(target) {
            Some(leaf) => leaf.end(store),
            None => Ok(()),
        }
    }
}

// Commits the file in a session at a place.
fn settle_at<S: Store>(layers: &mut [FileLayer], store: &mut S, at: usize) -> Result<(), StoreFault>
    requires there { at < length layers.old }
    requires session { is_session_at layers.old at ≡ true }
    requires ready { AreAllReady (S.disk store.old) layers.old }
    requires low { AreLow (2 ^ 63 + 5) (map log_number layers.old) }
    ensures { ChangesAt Settles at layers.old layers.new (S.disk store.old) (S.disk store.new) result }
{
    match &mut layers[at] {
        FileLayer::Session(layer) => layer.commit(store),
        FileLayer::Read(_) => Ok(()),
    }
}

// Commits pages that change the metadata of the file in a session at a place. Nothing of it waits for a commit.
fn update_at<S: Store>(
    layers: &mut [FileLayer],
    store: &mut S,
    at: usize,
    pages: &[Page],
) -> Result<(), StoreFault>
    requires there { at < length layers.old }
    requires session { is_session_at layers.old at ≡ true }
    requires ready { AreAllReady (S.disk store.old) layers.old }
    requires low { AreLow (2 ^ 63 + 5) (map log_number layers.old) }
    requires few { length pages.now ≤ 120 }
    requires apart { HasOnePageEach pages.now }
    requires settled { IfSome (slice_index_or (map (λ l. Some l) layers.old) at None) WaitsForNone }
    requires turns { IfSome (slice_index_or (map (λ l. Some l) layers.old) at None) (λ l. WhereTold (S.disk store.old).told (FileTurns l pages.now)) }
    ensures { ChangesAt (UpdatesBy pages.now) at layers.old layers.new (S.disk store.old) (S.disk store.new) result }
{
    match &mut layers[at] {
        FileLayer::Session(layer) => layer.update(store, pages),
        FileLayer::Read(_) => Ok(()),
    }
}

// Gives the data of the first of some files, which is in a session, another identifier.
fn identify_first<S: Store>(
    layers: &mut [FileLayer],
    store: &mut S,
    id: Guid,
) -> Result<(), StoreFault>
    requires there { 0 < length layers.old }
    requires session { is_session_at layers.old 0 ≡ true }
    requires ready { AreAllReady (S.disk store.old) layers.old }
    requires next { IfSome (header_at layers.old 0) HasNextNumber }
    ensures { ChangesAt (Identifies id) 0 layers.old layers.new (S.disk store.old) (S.disk store.new) result }
{
    match &mut layers[0] {
        FileLayer::Session(layer) => layer.identify(store, id),
        FileLayer::Read(_) => Ok(()),
    }
}
