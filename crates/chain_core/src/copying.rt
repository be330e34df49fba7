//! Stripes are copied, of a merge that is under way.

ghost use Rattle.std.specs.Prelude.{◌≡◌, ◌<◌, ◌+◌, ◌^◌, true, None, is_some, length, map, IfSome};
ghost use Rattle.chain_model.specs.Stripes.{stripe_count};
ghost use Rattle.layer_session.specs.FileLayers.{AreReadyFiles, log_number};
ghost use Rattle.chain_core.specs.Copying.{AreLow, FitsDisk, MarksIn, MarksToo, PutsAt, PutsInTarget, TakesStripe, stamp_of};
ghost use Rattle.chain_core.specs.Sessions.{AreReady, IsLow, has_merge, is_session_at};

use crate::layers::{Layers, Retiring, Underway};
use layer_session::{FileLayer, LayerFault};
use merge_core::{Piece, put_piece};
use store_model::{Store, StoreFault};
use vx_base::Geometry;

impl Layers {
    /// Takes what the source of the merge has of a stripe. After a fault there is no piece.
    pub(crate) fn take<S: Store>(
        &mut self,
        store: &mut S,
        stripe: u32,
        piece: &mut Piece,
    ) -> Result<(), StoreFault>
        requires ready { AreReady self.old (S.disk store.old) }
        requires merge { has_merge self.old ≡ true }
        requires stripe { stripe < stripe_count self.old.geometry.sector self.old.geometry.sectors }
        ensures { TakesStripe stripe self.old self.new (S.disk store.old) (S.disk store.new) piece.new result }
    {
        let Some(merge) = &self.merge else {
            return self.take_leaf(store, stripe, piece);
        };
        let source = &mut self.below[merge.source];
        piece.take(store, source, self.geometry, stripe, 0)
    }

    // The same of the merge of the leaf.
    fn take_leaf<S: Store>(
        &mut self,
        store: &mut S,
        stripe: u32,
        piece: &mut Piece,
    ) -> Result<(), StoreFault>
        requires ready { AreReady self.old (S.disk store.old) }
        requires none { self.old.merge ≡ None }
        requires merge { is_some self.old.retiring ≡ true }
        requires stripe { stripe < stripe_count self.old.geometry.sector self.old.geometry.sectors }
        ensures { TakesStripe stripe self.old self.new (S.disk store.old) (S.disk store.new) piece.new result }
    {
        let stamp = self.stamp(stripe);
        match &mut self.leaf {
            Some(leaf) => piece.take_own(store, leaf, self.geometry, stripe, stamp),
            None => Ok(()),
        }
    }

    /// Puts a piece into the target of the merge, and marks its stripe.
    pub(crate) fn put_piece<S: Store>(
        &mut self,
        store: &mut S,
        piece: &Piece,
    ) -> Result<(), LayerFault>
        requires ready { AreReady self.old (S.disk store.old) }
        requires low { IsLow (2 ^ 63 + 3) self.old }
        requires merge { has_merge self.old ≡ true }
        requires fits { FitsDisk self.old.geometry piece.now }
        requires stripe { piece.now.stripe < stripe_count self.old.geometry.sector self.old.geometry.sectors }
        requires stamp { piece.now.stamp ≡ stamp_of self.old piece.now.stripe }
        ensures { PutsInTarget piece.now self.old self.new (S.disk store.old) (S.disk store.new) result }
    {
        let Some(merge) = &self.merge else {
            return self.put_behind(store, piece);
        };
        let target = merge.source + 1;
        let below = self.below.as_mut_slice();
        let done = put_at(below, store, target, self.geometry, piece);
        if done.is_ok() {
            mark(&mut self.merge, piece.stripe());
        }
        done
    }

    // The same of the merge of the leaf, whose target is the file behind it.
    fn put_behind<S: Store>(&mut self, store: &mut S, piece: &Piece) -> Result<(), LayerFault>
        requires ready { AreReady self.old (S.disk store.old) }
        requires low { IsLow (2 ^ 63 + 3) self.old }
        requires none { self.old.merge ≡ None }
        requires merge { is_some self.old.retiring ≡ true }
        requires fits { FitsDisk self.old.geometry piece.now }
        requires stripe { piece.now.stripe < stripe_count self.old.geometry.sector self.old.geometry.sectors }
        requires stamp { piece.now.stamp ≡ stamp_of self.old piece.now.stripe }
        ensures { PutsInTarget piece.now self.old self.new (S.disk store.old) (S.disk store.new) result }
    {
        let below = self.below.as_mut_slice();
        let done = put_at(below, store, 0, self.geometry, piece);
        if done.is_ok() {
            mark_too(&mut self.retiring, piece.stripe());
        }
        done
    }
}

// Marks a stripe of the merge of a file below the leaf.
fn mark(merge: &mut Option<Underway>, stripe: u32)
    requires { IfSome merge.old (λ u. stripe < u.marks.stripes) }
    ensures marks { MarksIn stripe merge.old merge.new }
{
    if let Some(merge) = merge {
        merge.marks.mark(stripe);
    }
}

// And of that of the leaf.
fn mark_too(retiring: &mut Option<Retiring>, stripe: u32)
    requires { IfSome retiring.old (λ r. stripe < r.marks.stripes) }
    ensures marks { MarksToo stripe retiring.old retiring.new }
{
    if let Some(retiring) = retiring {
        retiring.marks.mark(stripe);
    }
}

// Puts a piece into the file at a place, which is in a session.
fn put_at<S: Store>(
    layers: &mut [FileLayer],
    store: &mut S,
    at: usize,
    geometry: Geometry,
    piece: &Piece,
) -> Result<(), LayerFault>
    requires session { is_session_at layers.old at ≡ true }
    requires there { at < length layers.old }
    requires ready { AreReadyFiles geometry (S.disk store.old) layers.old }
    requires low { AreLow (2 ^ 63 + 3) (map log_number layers.old) }
    requires fits { FitsDisk geometry piece.now }
    ensures put { PutsAt at piece.now layers.old layers.new (S.disk store.old) (S.disk store.new) result }
{
    match &mut layers[at] {
        FileLayer::Session(target) => put_piece(store, target, piece),
        FileLayer::Read(_) => Ok(()),
    }
}
