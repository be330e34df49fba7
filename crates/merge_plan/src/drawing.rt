//! Identifiers that are drawn for a session.

ghost use Rattle.std.specs.Prelude.{◌≡◌, ◌≤◌, ◌++◌, ◌∷◌, [], ◌||◌, length, All, is_some, option_map, IfErr, IfOk, OnOk};
ghost use Rattle.std.specs.List.{list_any};
ghost use Rattle.store_model.specs.Disk.{WhereTold};
ghost use Rattle.vhdx_format.specs.Fields.{guid_bytes, is_zero_id, same_id};
ghost use Rattle.vx_base.specs.Fields.{IsGuid};
ghost use Rattle.link_rules.specs.Effects.{IsServed};
ghost use Rattle.make_file.specs.Identifiers as identifiers;
ghost use Rattle.make_file.specs.Identifiers.{Draws};
ghost use Rattle.merge_plan.specs.Attached.{AreAsOpened, CanStart, shown_from};
ghost use Rattle.merge_plan.specs.Drawing.{CollectFails, drawn_ids, inner_ids, log_ids, merge_ids};

use link_rules::LinkedFile;
use make_file::{draw, is_among};
use shown_ids::{CollectFault, collect};
use std::alloc::Global;
use store_model::{Ids, Store};
use vx_base::{Guid, NoRoom};

/// New identifiers of a file whose data change: of the file's writes, of its data and of its log.
#[derive(Clone, Copy)]
pub struct NewIds {
    pub file_write: Guid,
    pub data_write: Guid,
    pub log: Guid,
}

/// New identifiers of a file whose data stay what they are: of the file's writes and of its log.
#[derive(Clone, Copy)]
pub struct LogIds {
    pub file_write: Guid,
    pub log: Guid,
}

/// New identifiers of the files that a merge has sessions of; those of the child, the file above the source, where it isn't the
/// leaf.
#[derive(Clone, Copy)]
pub struct MergeIds {
    pub leaf: NewIds,
    pub source: LogIds,
    pub target: NewIds,
    pub child: Option<LogIds>,
}

impl NewIds {
    /// Draws those of one file.
    pub fn draw<I: Ids>(ids: &mut I) -> NewIds
        ensures { Draws (drawn_ids result) (I.drawn ids.old) (I.drawn ids.new) }
    {
        let file_write = draw(ids);
        let data_write = draw(ids);
        let log = draw(ids);
        NewIds {
            file_write,
            data_write,
            log,
        }
    }

    /// The first of them, in the order in which they were drawn, that is zero, was drawn before, or is one of those that are known.
    pub fn first_unfit(&self, known: &[Guid]) -> Option<Guid>
        ensures { result ≡ identifiers.first_unfit known.now (drawn_ids self.now) }
    {
        first_unfit(known, &[self.file_write, self.data_write, self.log])
    }
}

impl LogIds {
    // Draws those of one file.
    fn draw<I: Ids>(ids: &mut I) -> LogIds
        ensures { Draws (log_ids result) (I.drawn ids.old) (I.drawn ids.new) }
    {
        let file_write = draw(ids);
        let log = draw(ids);
        LogIds { file_write, log }
    }
}

// Draws those of a child that isn't the leaf.
#[tactic(auto, using(crate::proofs::Drawn::draws_none))]
fn draw_inner<I: Ids>(ids: &mut I, is_inner: bool) -> Option<LogIds>
    ensures draws { Draws (inner_ids result) (I.drawn ids.old) (I.drawn ids.new) }
    ensures some { is_some result ≡ is_inner }
{
    if is_inner {
        return Some(LogIds::draw(ids));
    }
    None
}

impl MergeIds {
    // Draws all, those of the child where it isn't the leaf.
    pub(crate) fn draw<I: Ids>(ids: &mut I, is_inner: bool) -> MergeIds
        ensures draws { Draws (merge_ids result) (I.drawn ids.old) (I.drawn ids.new) }
        ensures child { is_some result.child ≡ is_inner }
    {
        let leaf = NewIds::draw(ids);
        let source = LogIds::draw(ids);
        let target = NewIds::draw(ids);
        let child = draw_inner(ids, is_inner);
        MergeIds {
            leaf,
            source,
            target,
            child,
        }
    }

    // The first of them that is unfit, where these are taken.
    pub(crate) fn first_unfit(&self, known: &[Guid]) -> Option<Guid>
        ensures { result ≡ identifiers.first_unfit known.now (merge_ids self.now) }
    {
        let MergeIds {
            leaf,
            source,
            target,
            child,
        } = *self;
        let (a, b, c) = (leaf.file_write, leaf.data_write, leaf.log);
        let (d, e) = (source.file_write, source.log);
        let (f, g, h) = (target.file_write, target.data_write, target.log);
        match child {
            Some(child) => {
                let (i, j) = (child.file_write, child.log);
                first_unfit(known, &[a, b, c, d, e, f, g, h, i, j])
            }
            None => first_unfit(known, &[a, b, c, d, e, f, g, h]),
        }
    }
}

// Whether an identifier is zero, or one of those drawn before, or one that is taken.
fn is_unfit(known: &[Guid], before: &[Guid], id: Guid) -> bool
    ensures { result ≡ (is_zero_id id || (list_any (same_id id) before.now || list_any (same_id id) known.now)) }
{
    id.is_zero() || is_among(id, before) || is_among(id, known)
}

// The first of identifiers, in the order in which they were drawn, that is zero, stands before among them, or is one of those that
// are known.
#[tactic(auto, using(crate::proofs::Judging::none_judged, crate::proofs::Judging::one_judged, crate::proofs::Judging::one_unfit, crate::proofs::Judging::all_judged))]
pub(crate) fn first_unfit(known: &[Guid], drawn: &[Guid]) -> Option<Guid>
    ensures { result ≡ identifiers.first_unfit known.now drawn.now }
{
    for (place, id) in drawn.iter().enumerate() {
        if is_unfit(known, &drawn[..place], *id) {
            return Some(*id);
        }
    }
    None
}

// Adds identifiers.
fn append(known: &mut Vec<Guid>, shown: &mut Vec<Guid>) -> Result<(), NoRoom>
    ensures { OnOk result (known.new.items ≡ known.old.items ++ shown.old.items) }
{
    known.append(shown)?;
    Ok(())
}

// Adds the identifiers that the store's files show.
fn add_shown<S: Store>(
    alloc: Global,
    store: &mut S,
    files: &[LinkedFile],
    known: &mut Vec<Guid>,
) -> Result<(), CollectFault>
    requires there { length files.now ≤ (S.disk store.old).files }
    requires few { length files.now ≤ 64 }
    requires served { All IsServed files.now }
    requires told { WhereTold (S.disk store.old).told (λ trace. AreAsOpened trace 0 files.now) }
    ensures ids { OnOk result (WhereTold (S.disk store.old).told (λ trace. known.new.items ≡ known.old.items ++ shown_from trace 0 files.now)) }
    ensures stays { OnOk result (S.disk store.new ≡ S.disk store.old) }
    ensures err { IfErr result (CollectFails (S.disk store.old) (S.disk store.new)) }
{
    for (number, file) in files.iter().enumerate() {
        let mut shown = collect(alloc, store, number as u32, &file.parts)?;
        append(known, &mut shown)?;
    }
    Ok(())
}

/// The identifiers that the store's files show, of which a new one may be none.
pub fn all_shown<S: Store>(
    alloc: Global,
    store: &mut S,
    files: &[LinkedFile],
) -> Result<Vec<Guid>, CollectFault>
    requires { CanStart files.now (S.disk store.old) }
    ensures ids { IfOk result (λ known. WhereTold (S.disk store.old).told (λ trace. known.items ≡ shown_from trace 0 files.now)) }
    ensures stays { OnOk result (S.disk store.new ≡ S.disk store.old) }
    ensures err { IfErr result (CollectFails (S.disk store.old) (S.disk store.new)) }
{
    let mut known = Vec::new(alloc);
    add_shown(alloc, store, files, &mut known)?;
    Ok(known)
}
