//! Sessions of guests over the files of a chain, from the start to where threads may share it.

ghost use Rattle.std.specs.Prelude.{◌≡◌, ◌≤◌, [], IfErr, IfOk, false, length, true};
ghost use Rattle.chain_core.specs.LeafStarting.{RefusesLeafMerge};
ghost use Rattle.chain_core.specs.MergeStarting.{RefusesMerge};
ghost use Rattle.chain_core.specs.Starting.{EachOpensAlike, IsOfDisk, LeavesOthersFrom, RefusesStart};
ghost use Rattle.chain_core.specs.declared.starting.Mode.TheVariants as modes;
ghost use Rattle.merge_plan.specs.Attached.{CanStart};
ghost use Rattle.serve_session.specs.Beginning.{Begins};
ghost use Rattle.serve_session.specs.MergeServed.{HasRunLeafMerge, HasRunMerge};
ghost use Rattle.serve_session.specs.Running.{HasRunGuests};

use crate::beginning::{Begun, begin};
use crate::sealing::Unserved;
use chain_core::{Chain, MergeStartRefusal, Mode, StartRefusal};
use ledger::Ledger;
use link_rules::LinkedFile;
use merge_core::Piece;
use std::alloc::Global;
use store_model::{Ids, Store};
use vx_base::Name;

// Sectors of a stripe.
const STRIPE: u64 = 2_048;

/// How many stripes of 1 MB the disk of a chain's files has; fewer than 2^32.
pub fn stripes_of(files: &[LinkedFile]) -> u32 {
    match files.first() {
        Some(leaf) => {
            let stripes = leaf.parts.geometry.sectors.div_ceil(STRIPE);
            stripes.min(u64::from(u32::MAX)) as u32
        }
        None => 0,
    }
}

/// Starts a session over the files of a chain, with a history that is empty, and makes it ready for so many guests. Where a read fails behind
/// the start, or memory runs out, it ends, and no guest was served.
pub fn begin_guests<S: Store, I: Ids>(
    alloc: Global,
    store: S,
    files: &[LinkedFile],
    history: Ledger,
    ids: &mut I,
    guests: u32,
) -> Result<Result<Begun<S>, Unserved<S>>, (S, StartRefusal)>
where
    S::R: Drop,
    requires files { CanStart files.now (S.disk store) }
    requires empty { history ≡ [] }
    requires few { guests ≤ 64 }
    ensures begins { IfOk result (Begins S.disk false guests 0 (λ asking told history end merged after. HasRunGuests files.now asking told history end (S.disk store) after (I.drawn ids.old) (I.drawn ids.new))) }
    ensures size { IfOk result (λ begun. IfOk begun (λ b. IsOfDisk files.now b.chain.first.layers.geometry)) }
    ensures refused { IfErr result (λ back. RefusesStart modes.Guests files.now (S.disk store) (S.disk back.0) (I.drawn ids.old) (I.drawn ids.new) back.1) }
    ensures kept { IfErr result (λ back. EachOpensAlike files.now (S.disk store).told (S.disk back.0).told) }
    ensures still { IfErr result (λ back. LeavesOthersFrom (S.disk store).told (S.disk back.0).told) }
{
    match Chain::start(alloc, store, files, Mode::Guests, history, ids) {
        Ok(chain) => Ok(begin(alloc, chain, guests, 0, Vec::new(alloc))),
        Err(back) => Err(back),
    }
}

/// The same of a session that starts with the merge of the chain's file `source`, which isn't the leaf, into its parent; beside the guests it is
/// ready for a worker with each piece, which copies stripes.
pub fn begin_merge<S: Store, I: Ids>(
    alloc: Global,
    store: S,
    files: &[LinkedFile],
    source: &Name,
    history: Ledger,
    ids: &mut I,
    guests: u32,
    pieces: Vec<Piece>,
) -> Result<Result<Begun<S>, Unserved<S>>, (S, MergeStartRefusal)>
where
    S::R: Drop,
    requires files { CanStart files.now (S.disk store) }
    requires empty { history ≡ [] }
    requires few { guests ≤ 64 }
    requires workers { length pieces.items ≤ 64 }
    ensures begins { IfOk result (Begins S.disk true guests (length pieces.items) (λ asking told history end merged after. HasRunMerge files.now source.now asking told history end merged (S.disk store) after (I.drawn ids.old) (I.drawn ids.new))) }
    ensures size { IfOk result (λ begun. IfOk begun (λ b. IsOfDisk files.now b.chain.first.layers.geometry)) }
    ensures refused { IfErr result (λ back. RefusesMerge files.now source.now (S.disk store) (S.disk back.0) (I.drawn ids.old) (I.drawn ids.new) back.1) }
    ensures kept { IfErr result (λ back. EachOpensAlike files.now (S.disk store).told (S.disk back.0).told) }
{
    let stripes = stripes_of(files);
    match Chain::start_merge(alloc, store, files, source, history, ids) {
        Ok(chain) => Ok(begin(alloc, chain, guests, stripes, pieces)),
        Err(back) => Err(back),
    }
}

/// The same of a session that starts with the merge of the leaf into its parent.
pub fn begin_leaf_merge<S: Store, I: Ids>(
    alloc: Global,
    store: S,
    files: &[LinkedFile],
    history: Ledger,
    ids: &mut I,
    guests: u32,
    pieces: Vec<Piece>,
) -> Result<Result<Begun<S>, Unserved<S>>, (S, MergeStartRefusal)>
where
    S::R: Drop,
    requires files { CanStart files.now (S.disk store) }
    requires parent { 2 ≤ length files.now }
    requires empty { history ≡ [] }
    requires few { guests ≤ 64 }
    requires workers { length pieces.items ≤ 64 }
    ensures begins { IfOk result (Begins S.disk true guests (length pieces.items) (λ asking told history end merged after. HasRunLeafMerge files.now asking told history end merged (S.disk store) after (I.drawn ids.old) (I.drawn ids.new))) }
    ensures size { IfOk result (λ begun. IfOk begun (λ b. IsOfDisk files.now b.chain.first.layers.geometry)) }
    ensures refused { IfErr result (λ back. RefusesLeafMerge files.now (S.disk store) (S.disk back.0) (I.drawn ids.old) (I.drawn ids.new) back.1) }
    ensures kept { IfErr result (λ back. EachOpensAlike files.now (S.disk store).told (S.disk back.0).told) }
{
    let stripes = stripes_of(files);
    match Chain::start_leaf_merge(alloc, store, files, history, ids) {
        Ok(chain) => Ok(begin(alloc, chain, guests, stripes, pieces)),
        Err(back) => Err(back),
    }
}
