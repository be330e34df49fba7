//! Identifiers that are drawn for the merge of a leaf.

ghost use Rattle.std.specs.Prelude.{◌≡◌};
ghost use Rattle.make_file.specs.Identifiers as identifiers;
ghost use Rattle.make_file.specs.Identifiers.{Draws};
ghost use Rattle.merge_plan.specs.LeafPlanning.{leaf_merge_ids};

use crate::drawing::{NewIds, first_unfit};
use make_file::draw;
use store_model::Ids;
use vx_base::Guid;

/// New identifiers of the two files that the merge of a leaf has sessions of.
#[derive(Clone, Copy)]
pub struct LeafMergeIds {
    /// Of the leaf, which is the source.
    pub leaf: NewIds,
    pub target: NewIds,
    /// Of the target's data, once the target is the leaf.
    pub third: Guid,
}

impl LeafMergeIds {
    // Draws all.
    pub(crate) fn draw<I: Ids>(ids: &mut I) -> LeafMergeIds
        ensures { Draws (leaf_merge_ids result) (I.drawn ids.old) (I.drawn ids.new) }
    {
        let leaf = NewIds::draw(ids);
        let target = NewIds::draw(ids);
        let third = draw(ids);
        LeafMergeIds {
            leaf,
            target,
            third,
        }
    }

    // The first of them that is unfit, where these are taken.
    pub(crate) fn first_unfit(&self, known: &[Guid]) -> Option<Guid>
        ensures { result ≡ identifiers.first_unfit known.now (leaf_merge_ids self.now) }
    {
        let LeafMergeIds {
            leaf,
            target,
            third,
        } = *self;
        let (a, b, c) = (leaf.file_write, leaf.data_write, leaf.log);
        let (d, e, f) = (target.file_write, target.data_write, target.log);
        first_unfit(known, &[a, b, c, d, e, f, third])
    }
}
