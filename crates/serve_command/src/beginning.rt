//! The session of a chain whose files the host lends: its beginning, with a merge or without, whatever front its guests come by.

ghost use Rattle.std.specs.Prelude.{◌≡◌, ◌≤◌, [], IfErr, IfOk, IfSome, None, false, is_some, length, true};
ghost use Rattle.chain_core.specs.Starting.{IsOfDisk};
ghost use Rattle.chain_core.specs.declared.starting.Mode.TheVariants as modes;
ghost use Rattle.link_rules.specs.Chains.{names_of as file_names};
ghost use Rattle.serve_session.specs.Beginning.{Begins};
ghost use Rattle.serve_command.specs.Guests.{BeginsOver, HasServedBy, HasServedMergeOf, source_of, workers_of};
ghost use Rattle.steps_command.specs.Sessions.{HasNotMerged, HasNotRun, HasNotRunWith, IsLentChain, IsLinkedChain, NotRunOver};
ghost use Rattle.steps_command.specs.Starts.{is_leaf};

use command_base::{attach, check_lengths};
use ledger::Ledger;
use link_rules::{Linked, LinkedFile};
use merge_core::Piece;
use serve_session::{Begun, Unserved, begin_guests, begin_leaf_merge, begin_merge, pieces_for};
use std::alloc::Global;
use steps_command::{StepsRefusal, is_leaf, merge_refused};
use store_model::{Host, Ids, Store};
use vx_base::{Name, NoRoom};

/// A merge beside guests: of the file of this name, with room for a stripe for each worker.
#[derive(Drop)]
pub struct Merging<'a> {
    pub source: &'a Name,
    pub pieces: Vec<Piece>,
}

/// The merge of the source, if there is one, by so many workers.
pub fn merging_of<'a>(
    alloc: Global,
    workers: u32,
    source: &'a Option<Name>,
) -> Result<Option<Merging<'a>>, NoRoom>
    requires { workers ≤ 64 }
    ensures source { IfOk result (λ merging. source_of merging ≡ source.now) }
    ensures few { IfOk result (λ merging. IfSome merging (λ m. length m.pieces.items ≤ 64)) }
{
    match source {
        None => Ok(None),
        Some(source) => {
            let pieces = pieces_for(alloc, workers)?;
            Ok(Some(Merging { source, pieces }))
        }
    }
}

/// Room for a stripe that the workers of a merge leave, if there is one.
pub fn last_piece(alloc: Global, source: &Option<Name>) -> Result<Option<Piece>, NoRoom>
    ensures { IfOk result (λ last. is_some last ≡ is_some source.now) }
{
    match source {
        None => Ok(None),
        Some(_) => Ok(Some(Piece::new(alloc)?)),
    }
}

// A session without a merge, for so many guests, over the store's files, which are a chain's.
fn begin_alone<S: Store, I: Ids>(
    alloc: Global,
    mut store: S,
    files: &[LinkedFile],
    ids: &mut I,
    guests: u32,
    history: Ledger,
) -> Result<Result<Begun<S>, Unserved<S>>, (S, StepsRefusal)>
where
    S::R: Drop,
    requires chain { IsLentChain files.now (S.disk store) }
    requires few { guests ≤ 64 }
    requires empty { history ≡ [] }
    ensures begins { IfOk result (Begins S.disk false guests 0 (HasServedBy None files.now (S.disk store) (I.drawn ids.old) (I.drawn ids.new))) }
    ensures size { IfOk result (λ begun. IfOk begun (λ b. IsOfDisk files.now b.chain.first.layers.geometry)) }
    ensures err { IfErr result (λ back. HasNotRun modes.Guests files.now (S.disk store) (S.disk back.0) (I.drawn ids.old) (I.drawn ids.new) back.1) }
{
    if let Err(refusal) = check_lengths(&mut store, files.len() as u32) {
        return Err((store, StepsRefusal::Chain(refusal)));
    }
    match begin_guests(alloc, store, files, history, ids, guests) {
        Ok(begun) => Ok(begun),
        Err((store, refusal)) => Err((store, StepsRefusal::from(refusal))),
    }
}

// A session with the merge of the leaf, which has this name.
fn begin_leaf<S: Store, I: Ids>(
    alloc: Global,
    mut store: S,
    files: &[LinkedFile],
    names: &[Name],
    merging: Merging<'_>,
    ids: &mut I,
    guests: u32,
    history: Ledger,
) -> Result<Result<Begun<S>, Unserved<S>>, (S, StepsRefusal)>
where
    S::R: Drop,
    requires leaf { is_leaf files.now merging.source.now ≡ true }
    requires chain { IsLentChain files.now (S.disk store) }
    requires names { names.now ≡ file_names files.now }
    requires few { guests ≤ 64 }
    requires workers { length merging.pieces.items ≤ 64 }
    requires empty { history ≡ [] }
    ensures begins { IfOk result (Begins S.disk true guests (length merging.entry.pieces.items) (HasServedMergeOf true files.now merging.entry.source.now (S.disk store) (I.drawn ids.old) (I.drawn ids.new))) }
    ensures size { IfOk result (λ begun. IfOk begun (λ b. IsOfDisk files.now b.chain.first.layers.geometry)) }
    ensures err { IfErr result (λ back. HasNotMerged files.now merging.entry.source.now (S.disk store) (S.disk back.0) (I.drawn ids.old) (I.drawn ids.new) back.1) }
{
    let Merging { source, pieces } = merging;
    if let Err(refusal) = check_lengths(&mut store, files.len() as u32) {
        return Err((store, StepsRefusal::Chain(refusal)));
    }
    match begin_leaf_merge(alloc, store, files, history, ids, guests, pieces) {
        Ok(begun) => Ok(begun),
        Err((store, refusal)) => Err((store, merge_refused(alloc, names, source, refusal))),
    }
}

// A session with the merge of another file.
fn begin_other<S: Store, I: Ids>(
    alloc: Global,
    mut store: S,
    files: &[LinkedFile],
    names: &[Name],
    merging: Merging<'_>,
    ids: &mut I,
    guests: u32,
    history: Ledger,
) -> Result<Result<Begun<S>, Unserved<S>>, (S, StepsRefusal)>
where
    S::R: Drop,
    requires below { is_leaf files.now merging.source.now ≡ false }
    requires chain { IsLentChain files.now (S.disk store) }
    requires names { names.now ≡ file_names files.now }
    requires few { guests ≤ 64 }
    requires workers { length merging.pieces.items ≤ 64 }
    requires empty { history ≡ [] }
    ensures begins { IfOk result (Begins S.disk true guests (length merging.entry.pieces.items) (HasServedMergeOf false files.now merging.entry.source.now (S.disk store) (I.drawn ids.old) (I.drawn ids.new))) }
    ensures size { IfOk result (λ begun. IfOk begun (λ b. IsOfDisk files.now b.chain.first.layers.geometry)) }
    ensures err { IfErr result (λ back. HasNotMerged files.now merging.entry.source.now (S.disk store) (S.disk back.0) (I.drawn ids.old) (I.drawn ids.new) back.1) }
{
    let Merging { source, pieces } = merging;
    if let Err(refusal) = check_lengths(&mut store, files.len() as u32) {
        return Err((store, StepsRefusal::Chain(refusal)));
    }
    match begin_merge(alloc, store, files, source, history, ids, guests, pieces) {
        Ok(begun) => Ok(begun),
        Err((store, refusal)) => Err((store, merge_refused(alloc, names, source, refusal))),
    }
}

// A session with the merge of the source.
fn begin_merging<S: Store, I: Ids>(
    alloc: Global,
    store: S,
    files: &[LinkedFile],
    names: &[Name],
    merging: Merging<'_>,
    ids: &mut I,
    guests: u32,
    history: Ledger,
) -> Result<Result<Begun<S>, Unserved<S>>, (S, StepsRefusal)>
where
    S::R: Drop,
    requires chain { IsLentChain files.now (S.disk store) }
    requires names { names.now ≡ file_names files.now }
    requires few { guests ≤ 64 }
    requires workers { length merging.pieces.items ≤ 64 }
    requires empty { history ≡ [] }
    ensures begins { IfOk result (Begins S.disk true guests (length merging.entry.pieces.items) (HasServedMergeOf (is_leaf files.now merging.entry.source.now) files.now merging.entry.source.now (S.disk store) (I.drawn ids.old) (I.drawn ids.new))) }
    ensures size { IfOk result (λ begun. IfOk begun (λ b. IsOfDisk files.now b.chain.first.layers.geometry)) }
    ensures err { IfErr result (λ back. HasNotMerged files.now merging.entry.source.now (S.disk store) (S.disk back.0) (I.drawn ids.old) (I.drawn ids.new) back.1) }
{
    if is_leaf(files, merging.source) {
        begin_leaf(alloc, store, files, names, merging, ids, guests, history)
    } else {
        begin_other(alloc, store, files, names, merging, ids, guests, history)
    }
}

// A session over the store's files, which are a chain's, with the merge if there is one.
fn begin_lent<S: Store, I: Ids>(
    alloc: Global,
    store: S,
    files: &[LinkedFile],
    names: &[Name],
    merging: Option<Merging<'_>>,
    ids: &mut I,
    guests: u32,
    history: Ledger,
) -> Result<Result<Begun<S>, Unserved<S>>, (S, StepsRefusal)>
where
    S::R: Drop,
    requires chain { IsLentChain files.now (S.disk store) }
    requires names { names.now ≡ file_names files.now }
    requires few { guests ≤ 64 }
    requires workers { IfSome merging (λ m. length m.pieces.items ≤ 64) }
    requires empty { history ≡ [] }
    ensures begins { IfOk result (Begins S.disk (is_some (source_of merging.entry)) guests (workers_of merging.entry) (HasServedBy (source_of merging.entry) files.now (S.disk store) (I.drawn ids.old) (I.drawn ids.new))) }
    ensures size { IfOk result (λ begun. IfOk begun (λ b. IsOfDisk files.now b.chain.first.layers.geometry)) }
    ensures err { IfErr result (λ back. HasNotRunWith modes.Guests (source_of merging.entry) files.now (S.disk store) (S.disk back.0) (I.drawn ids.old) (I.drawn ids.new) back.1) }
{
    match merging {
        None => begin_alone(alloc, store, files, ids, guests, history),
        Some(merging) => begin_merging(alloc, store, files, names, merging, ids, guests, history),
    }
}

/// Begins a session for so many guests over the files of a chain, which were opened and have these names, with the merge if there is one, and
/// with a history that is empty. The host lends the files for it; where no session starts it has them back. Where a read fails behind the start,
/// or memory runs out, the session ends, and no guest was served.
pub fn begin_linked<H: Host, I: Ids>(
    alloc: Global,
    host: &mut H,
    ids: &mut I,
    linked: &Linked,
    names: &[Name],
    merging: Option<Merging<'_>>,
    guests: u32,
    history: Ledger,
) -> Result<Result<Begun<H::S>, Unserved<H::S>>, StepsRefusal>
where
    <H::S as Store>::R: Drop,
    requires chain { IsLinkedChain linked.now (H.hosted host.old) }
    requires names { names.now ≡ file_names linked.now.files }
    requires few { guests ≤ 64 }
    requires workers { IfSome merging (λ m. length m.pieces.items ≤ 64) }
    requires empty { history ≡ [] }
    ensures begins { IfOk result (BeginsOver H.S.disk (source_of merging.entry) guests (workers_of merging.entry) linked.now (H.hosted host.old) (H.hosted host.new) (I.drawn ids.old) (I.drawn ids.new)) }
    ensures err { IfErr result (NotRunOver modes.Guests (source_of merging.entry) linked.now (H.hosted host.old) (H.hosted host.new) (I.drawn ids.old) (I.drawn ids.new)) }
{
    let files = linked.files.as_slice();
    let store = attach(alloc, host, files)?;
    match begin_lent(alloc, store, files, names, merging, ids, guests, history) {
        Ok(begun) => Ok(begun),
        Err((store, refusal)) => {
            host.give_back(store);
            Err(refusal)
        }
    }
}
