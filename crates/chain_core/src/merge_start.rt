//! How a session starts with the merge of a file in its middle.

ghost use Rattle.std.specs.Prelude.{◌≡◌, ◌≤◌, ◌<◌, ◌+◌, ◌-◌, ◌*◌, ◌^◌, ◌++◌, ◌∷◌, [], ℕ, true, false, None, Some, All, Err, length, is_some, nat_lt, IfErr, IfOk, IfSome, OnOk};
ghost use Rattle.store_model.specs.Disk.{WhereBothTold, WhereTold};
ghost use Rattle.vhdx_format.specs.AllocationTables.{IsSectorSize};
ghost use Rattle.vhdx_format.specs.FileParts.{HasNumbers};
ghost use Rattle.chain_model.specs.Stripes as stripes;
ghost use Rattle.layer_session.specs.Begins.{CanServe, IsOf};
ghost use Rattle.layer_session.specs.Keeping.{IsReady};
ghost use Rattle.link_rules.specs.Effects.{IsServed};
ghost use Rattle.std.specs.Option.{option_or};
ghost use Rattle.layer_session.specs.declared.file_layer.FileLayer.TheVariants as kind;
ghost use Rattle.merge_core.specs.Copied.{marks_of};
ghost use Rattle.merge_plan.specs.Planning.{HasPlan};
ghost use Rattle.merge_plan.specs.Merging.{source_place};
ghost use Rattle.chain_core.specs.MergeStarting.{AreLow, BeginsMerge, ChildBegun, ChildOver, HasBegunAll, HasBegunUpper, InnerFails, IsRoomFor, StartsWithMerge, chain_files, files_in, high_of, session_of};
ghost use Rattle.log_format.specs.PendingPages.{HasOnePageEach};
ghost use Rattle.log_write.specs.Writing.{BeginFails};
ghost use Rattle.layer_session.specs.Calls.{KeepsOver};
ghost use Rattle.layer_session.specs.Closes.{HasClosed};
ghost use Rattle.layer_session.specs.ReadOnly.{CanRead};
ghost use Rattle.layer_session.specs.Updating.{HasUpdated, Turns, UpdatesOver};
ghost use Rattle.chain_core.specs.MergeStarting as starting;
ghost use Rattle.chain_core.specs.Starting.{AreReadOf};
ghost use Rattle.merge_plan.specs.Attached.{CanStart};

use crate::layers::{Layers, Underway};
use crate::leaf_start::with_target;
use crate::starting::{LEAF_PAGES, MOST_NUMBER, OTHER_PAGES, layers_of};
use layer_session::{FileLayer, Layer, ReadLayer};
use link_rules::LinkedFile;
use log_format::Page;
use log_write::SessionIds;
use merge_core::{Marks, stripe_count};
use merge_plan::{LogIds, Merge, NewIds, PrepareRefusal, prepare};
use std::alloc::Global;
use store_model::{Ids, SealFault, Store};
use vx_base::{Geometry, Name, NoRoom};

// The identifiers of a session in which the file's data change.
pub(crate) fn data_session(ids: NewIds) -> SessionIds
    ensures { result ≡ starting.data_session ids }
{
    SessionIds {
        file_write: ids.file_write,
        data_write: Some(ids.data_write),
        log: ids.log,
    }
}

// And of one in which they stay.
fn log_session(ids: LogIds) -> SessionIds
    ensures { result ≡ starting.log_session ids }
{
    SessionIds {
        file_write: ids.file_write,
        data_write: None,
        log: ids.log,
    }
}

// The leaf of the files above the source, of which the child is the last.
fn leaf_of<'a>(above: &'a [LinkedFile], child: &'a LinkedFile) -> &'a LinkedFile
    ensures { result.now ≡ starting.first_or above.now child.now }
{
    match above {
        [leaf, ..] => leaf,
        [] => child,
    }
}

/// The files of a merge, lent.
#[derive(Clone, Copy)]
pub struct MergeOf<'a> {
    /// Those above the child, the leaf first.
    above: &'a [LinkedFile],
    child: &'a LinkedFile,
    source: &'a LinkedFile,
    target: &'a LinkedFile,
    below: &'a [LinkedFile],
}

// Those of some files that stand behind the first.
fn behind_first<'a>(files: &'a [LinkedFile]) -> &'a [LinkedFile]
    ensures { result.now ≡ starting.behind_first files.now }
{
    match files {
        [_, others @ ..] => others,
        [] => files,
    }
}

// The session of a child that isn't the leaf begins.
fn begin_child<S: Store>(
    alloc: Global,
    store: &mut S,
    number: u32,
    child: &LinkedFile,
    ids: Option<LogIds>,
) -> Result<Option<Layer>, SealFault>
    requires there { number < (S.disk store.old).files }
    requires numbers { HasNumbers child.now.parts }
    requires low { child.now.parts.header.number ≤ 2 ^ 64 - 2 ^ 32 }
    requires ready { IfSome ids (λ i. WhereTold (S.disk store.old).told (CanServe child.now.parts i.log number)) }
    ensures moments { WhereBothTold (ChildOver ids child.now.parts number) (S.disk store.old).told (S.disk store.new).told }
    ensures begun { IfOk result (λ l. WhereBothTold (ChildBegun ids child.now.parts number l) (S.disk store.old).told (S.disk store.new).told) }
    ensures some { IfOk result (λ l. is_some l ≡ is_some ids) }
    ensures ready { IfOk result (λ l. IfSome l (λ layer. IsReady layer (S.disk store.new))) }
    ensures parts { IfOk result (λ l. IfSome l (IsOf child.now.parts number)) }
    ensures counts { OnOk result (S.disk store.new ≡ record (S.disk store.old) { told = (S.disk store.new).told }) }
    ensures err { IfErr result (InnerFails ids number (S.disk store.old) (S.disk store.new)) }
{
    let Some(ids) = ids else {
        return Ok(None);
    };
    let layer = Layer::begin(
        alloc,
        store,
        number,
        &child.parts,
        log_session(ids),
        OTHER_PAGES,
    )?;
    Ok(Some(layer))
}

// The layers below the leaf: those above the source, which are only read, and the child, if it isn't the leaf; the source, the
// target, and those that stand below.
fn assemble(
    above: Vec<FileLayer>,
    child: Option<Layer>,
    source: ReadLayer,
    target: Layer,
    below: Vec<FileLayer>,
) -> Result<Vec<FileLayer>, NoRoom>
    ensures { IfOk result (λ all. all.items ≡ (above.items ++ session_of child) ++ kind.Read source ∷ kind.Session target ∷ below.items) }
{
    let above = with_child(above, child)?;
    let lower = with_source(source, target, below)?;
    joined(above, lower)
}

// The files above the child, and the child, if it isn't the leaf.
fn with_child(mut above: Vec<FileLayer>, child: Option<Layer>) -> Result<Vec<FileLayer>, NoRoom>
    ensures { IfOk result (λ all. all.items ≡ above.items ++ session_of child) }
{
    let Some(child) = child else {
        return Ok(above);
    };
    above.push(FileLayer::Session(child))?;
    Ok(above)
}

// The source, the target, and the files below them.
fn with_source(
    source: ReadLayer,
    target: Layer,
    below: Vec<FileLayer>,
) -> Result<Vec<FileLayer>, NoRoom>
    ensures { IfOk result (λ all. all.items ≡ kind.Read source ∷ kind.Session target ∷ below.items) }
{
    let mut lower = with_target(target, below)?;
    lower.insert(0, FileLayer::Read(source))?;
    Ok(lower)
}

// Files, and those below them.
fn joined(mut above: Vec<FileLayer>, mut lower: Vec<FileLayer>) -> Result<Vec<FileLayer>, NoRoom>
    ensures { IfOk result (λ all. all.items ≡ above.items ++ lower.items) }
{
    above.append(&mut lower)?;
    Ok(above)
}

// What is taken of memory before anything is written: marks of the disk's stripes, and layers of the files that are only read.
#[derive(Drop)]
struct Room {
    marks: Marks,
    above: Vec<FileLayer>,
    below: Vec<FileLayer>,
}

impl Room {
    // Room for a merge of a disk of this geometry, of which these files stand between leaf and child, and those from this number on
    // behind the target.
    fn new(
        alloc: Global,
        geometry: Geometry,
        above: &[LinkedFile],
        number: u32,
        below: &[LinkedFile],
    ) -> Result<Room, NoRoom>
        requires sector { IsSectorSize geometry.sector }
        requires size { geometry.sectors * geometry.sector ≤ 2 ^ 46 }
        requires few { 1 + length above.now ≤ 64 }
        requires rest { number + length below.now ≤ 64 }
        requires above { All IsServed above.now }
        requires below { All IsServed below.now }
        ensures marks { IfOk result (λ r. (t : ℕ) → marks_of r.marks t ≡ false) }
        ensures stripes { IfOk result (λ r. r.marks.stripes ≡ stripes.stripe_count geometry.sector geometry.sectors) }
        ensures above { IfOk result (λ r. AreReadOf 1 above.now r.above.items) }
        ensures below { IfOk result (λ r. AreReadOf number below.now r.below.items) }
    {
        let marks = Marks::new(alloc, stripe_count(geometry))?;
        let above = layers_of(alloc, 1, above)?;
        let below = layers_of(alloc, number, below)?;
        Ok(Room {
            marks,
            above,
            below,
        })
    }
}

// The number of a file's header where it leaves no room for those of a session.
pub(crate) fn high(file: &LinkedFile) -> Option<u64>
    ensures { result ≡ high_of file.now }
{
    let number = file.parts.header.number;
    if number <= MOST_NUMBER {
        return None;
    }
    Some(number)
}

// The first number of a header that leaves no room, of child, source and target.
fn first_high(child: &LinkedFile, source: &LinkedFile, target: &LinkedFile) -> Option<u64>
    ensures { result ≡ option_or (high_of child.now) (option_or (high_of source.now) (high_of target.now)) }
{
    if let Some(number) = high(child) {
        return Some(number);
    }
    if let Some(number) = high(source) {
        return Some(number);
    }
    high(target)
}

// That of a merge, if its source has this name.
fn high_at(child: &LinkedFile, source: &LinkedFile, target: &LinkedFile, name: &Name) -> Option<u64>
    ensures { result ≡ starting.high_at child.now source.now target.now name.now }
{
    if source.name == *name {
        return first_high(child, source, target);
    }
    None
}

// The same of the merge of the file of this name, which is neither the first nor the last.
fn high_inside(files: &[LinkedFile], name: &Name) -> Option<u64>
    ensures { result ≡ starting.spent_inside files.now name.now }
{
    let [child, source, target, ..] = files else {
        return None;
    };
    if let Some(number) = high_at(child, source, target, name) {
        return Some(number);
    }
    high_inside(&files[1..], name)
}

// And of the leaf, which is the first.
fn high_number(files: &[LinkedFile], name: &Name) -> Option<u64>
    ensures { result ≡ starting.spent files.now name.now }
{
    let Some(leaf) = files.first() else {
        return None;
    };
    if let Some(number) = high(leaf) {
        return Some(number);
    }
    high_inside(files, name)
}

// The source is linked to the target by both of its identifiers.
pub(crate) fn link_twice<S: Store>(
    store: &mut S,
    source: &mut Layer,
    pages: &[Page],
) -> Result<(), SealFault>
    requires ready { IsReady source.old (S.disk store.old) }
    requires empty { source.old.tables.pending ≡ [] }
    requires numbers { source.old.log.number ≤ 2 ^ 64 - 2 ^ 32 }
    requires few { length pages.now ≤ 120 }
    requires apart { HasOnePageEach pages.now }
    requires turns { WhereTold (S.disk store.old).told (Turns source.old pages.now) }
    ensures moments { WhereBothTold (UpdatesOver source.old pages.now) (S.disk store.old).told (S.disk store.new).told }
    ensures updated { OnOk result (WhereBothTold (HasUpdated source.old source.new pages.now) (S.disk store.old).told (S.disk store.new).told) }
    ensures ready { OnOk result (IsReady source.new (S.disk store.new)) }
    ensures number { source.new.log.number ≤ source.old.log.number + 1 }
    ensures parts { source.new.tables.parts ≡ source.old.tables.parts }
    ensures counts { OnOk result (S.disk store.new ≡ record (S.disk store.old) { told = (S.disk store.new).told }) }
    ensures err { IfErr result (BeginFails source.old.tables.parts.file (S.disk store.old) (S.disk store.new)) }
{
    match source.update(store, pages) {
        Ok(()) => Ok(()),
        Err(fault) => Err(SealFault::Store(fault)),
    }
}

// The source's session ends.
fn close<S: Store>(store: &mut S, source: Layer) -> Result<ReadLayer, SealFault>
    requires ready { IsReady source (S.disk store.old) }
    requires numbers { source.log.number ≤ 2 ^ 64 - 2 ^ 32 }
    ensures moments { WhereBothTold (KeepsOver source) (S.disk store.old).told (S.disk store.new).told }
    ensures closed { IfOk result (λ l. WhereBothTold (HasClosed source l) (S.disk store.old).told (S.disk store.new).told) }
    ensures can { IfOk result (λ l. CanRead l (S.disk store.new)) }
    ensures parts { IfOk result (λ l. l.tables.parts ≡ source.tables.parts) }
    ensures counts { OnOk result (S.disk store.new ≡ record (S.disk store.old) { told = (S.disk store.new).told }) }
    ensures err { IfErr result (BeginFails source.tables.parts.file (S.disk store.old) (S.disk store.new)) }
{
    match source.close(store) {
        Ok(layer) => Ok(layer),
        Err(fault) => Err(SealFault::Store(fault)),
    }
}

/// Why no session with a merge started.
#[derive(Clone, Copy)]
pub enum MergeStartRefusal {
    /// 36: the number of a header of the files to be written leaves no room for those of a session: the leaf's, or the first of child,
    /// source and target that has such a number, of the merge of the leaf its target's. Nothing was drawn or changed.
    Spent { number: u64 },
    /// No merge is planned. Nothing was changed.
    Plan(PrepareRefusal),
    /// A read or a change of one of the merge's files or of the leaf failed, or memory ran out. The files open to the same disk.
    Begin(SealFault),
}

impl From<PrepareRefusal> for MergeStartRefusal {
    ghost use Rattle.std.specs.Prelude.{◌≡◌};
    ghost use Rattle.chain_core.specs.declared.merge_start.MergeStartRefusal.TheVariants as variants;

    ghost from_gives = { λ refusal e. e ≡ variants.Plan refusal };

    fn from(refusal: PrepareRefusal) -> Self {
        MergeStartRefusal::Plan(refusal)
    }
}

impl From<SealFault> for MergeStartRefusal {
    ghost use Rattle.std.specs.Prelude.{◌≡◌};
    ghost use Rattle.chain_core.specs.declared.merge_start.MergeStartRefusal.TheVariants as variants;

    ghost from_gives = { λ fault e. e ≡ variants.Begin fault };

    fn from(fault: SealFault) -> Self {
        MergeStartRefusal::Begin(fault)
    }
}

impl From<NoRoom> for MergeStartRefusal {
    ghost use Rattle.std.specs.Prelude.{◌≡◌};
    ghost use Rattle.chain_core.specs.declared.merge_start.MergeStartRefusal.TheVariants as variants;
    ghost use Rattle.store_model.specs.declared.fault.SealFault.TheVariants as seal;

    ghost from_gives = { λ _ e. e ≡ variants.Begin seal.NoRoom };

    fn from(_: NoRoom) -> Self {
        MergeStartRefusal::Begin(SealFault::NoRoom)
    }
}

// The files of a chain as those of the merge of the file at this place, which is neither the first nor the last.
fn split<'a>(files: &'a [LinkedFile], place: usize) -> MergeOf<'a>
    requires first { 0 < place }
    requires last { place + 1 < length files.now }
    ensures files { chain_files (files_in result) ≡ files.now }
    ensures place { source_place (files_in result) ≡ place }
{
    MergeOf {
        above: &files[..place - 1],
        child: &files[place - 1],
        source: &files[place],
        target: &files[place + 1],
        below: &files[place + 2..],
    }
}

// The sessions of a merge; the source's has ended.
#[derive(Drop)]
struct Begun {
    leaf: Layer,
    child: Option<Layer>,
    source: ReadLayer,
    target: Layer,
}

// The first two of them: the leaf's, and the source's, which is linked twice to the target.
#[derive(Drop)]
struct Upper {
    leaf: Layer,
    source: Layer,
}

fn begin_upper<S: Store>(
    alloc: Global,
    store: &mut S,
    of: MergeOf<'_>,
    merge: &Merge,
) -> Result<Upper, SealFault>
    requires files { CanStart (chain_files (files_in of)) (S.disk store.old) }
    requires plan { HasPlan (chain_files (files_in of)) (S.disk store.old) (files_in of) merge.now }
    requires low { AreLow (files_in of) }
    ensures begun { IfOk result (λ u. HasBegunUpper (files_in of.entry) merge.now (S.disk store.old) (S.disk store.new) u.leaf u.source) }
    ensures err { IfErr result (λ fault. BeginsMerge (files_in of.entry) merge.now (S.disk store.old) (S.disk store.new) (Err fault)) }
{
    let ids = merge.ids;
    let top = leaf_of(of.above, of.child);
    let leaf_ids = data_session(ids.leaf);
    let leaf = Layer::begin(alloc, store, 0, &top.parts, leaf_ids, LEAF_PAGES)?;
    let source_ids = log_session(ids.source);
    let number = of.above.len() as u32 + 1;
    let parts = &of.source.parts;
    let mut source = Layer::begin(alloc, store, number, parts, source_ids, OTHER_PAGES)?;
    link_twice(store, &mut source, merge.twice.as_slice())?;
    Ok(Upper { leaf, source })
}

// All begin, in an order in which the chain is linked at each moment.
fn begin_all<S: Store>(
    alloc: Global,
    store: &mut S,
    of: MergeOf<'_>,
    merge: &Merge,
) -> Result<Begun, SealFault>
    requires files { CanStart (chain_files (files_in of)) (S.disk store.old) }
    requires plan { HasPlan (chain_files (files_in of)) (S.disk store.old) (files_in of) merge.now }
    requires child { is_some merge.now.ids.child ≡ nat_lt 0 (length of.above.now) }
    requires low { AreLow (files_in of) }
    ensures begun { IfOk result (λ b. HasBegunAll (files_in of.entry) merge.now (S.disk store.old) (S.disk store.new) b.leaf b.target b.child b.source) }
    ensures err { IfErr result (λ fault. BeginsMerge (files_in of.entry) merge.now (S.disk store.old) (S.disk store.new) (Err fault)) }
{
    let ids = merge.ids;
    let upper = begin_upper(alloc, store, of, merge)?;
    let place = of.above.len() as u32;
    let source_number = place + 1;
    let target_ids = data_session(ids.target);
    let parts = &of.target.parts;
    let number = source_number + 1;
    let target = Layer::begin(alloc, store, number, parts, target_ids, OTHER_PAGES)?;
    let child = begin_child(alloc, store, place, of.child, ids.child)?;
    let source = close(store, upper.source)?;
    Ok(Begun {
        leaf: upper.leaf,
        child,
        source,
        target,
    })
}

impl Layers {
    // The layers of a chain whose merge is planned, once its sessions have begun.
    fn begin_merge<S: Store>(
        alloc: Global,
        store: &mut S,
        of: MergeOf<'_>,
        merge: Merge,
        room: Room,
    ) -> Result<Layers, SealFault>
        requires files { CanStart (chain_files (files_in of)) (S.disk store.old) }
        requires plan { HasPlan (chain_files (files_in of)) (S.disk store.old) (files_in of) merge }
        requires child { is_some merge.ids.child ≡ nat_lt 0 (length of.above.now) }
        requires low { AreLow (files_in of) }
        requires room { IsRoomFor (files_in of) room }
        ensures { BeginsMerge (files_in of.entry) merge (S.disk store.old) (S.disk store.new) result }
    {
        let begun = begin_all(alloc, store, of, &merge)?;
        let below = assemble(
            room.above,
            begun.child,
            begun.source,
            begun.target,
            room.below,
        );
        let Ok(below) = below else {
            return Err(SealFault::NoRoom);
        };
        let top = leaf_of(of.above, of.child);
        Ok(Layers {
            geometry: top.parts.geometry,
            leaf: Some(begun.leaf),
            below,
            merge: Some(Underway {
                source: of.above.len(),
                marks: room.marks,
                relink: merge.relink,
            }),
            retiring: None,
        })
    }

    /// The layers of a chain of these files of the store, which starts with the merge of the file of this name.
    pub(crate) fn start_merge<S: Store, I: Ids>(
        alloc: Global,
        store: &mut S,
        files: &[LinkedFile],
        source: &Name,
        ids: &mut I,
    ) -> Result<Layers, MergeStartRefusal>
        requires { CanStart files.now (S.disk store.old) }
        ensures { StartsWithMerge files.now source.now (S.disk store.old) (S.disk store.new) (I.drawn ids.old) (I.drawn ids.new) result }
    {
        if let Some(number) = high_number(files, source) {
            return Err(MergeStartRefusal::Spent { number });
        }
        let merge = prepare(alloc, store, files, source, ids)?;
        let of = split(files, merge.source as usize);
        let geometry = leaf_of(of.above, of.child).parts.geometry;
        let rest = merge.source + 2;
        let room = Room::new(alloc, geometry, behind_first(of.above), rest, of.below)?;
        let layers = Layers::begin_merge(alloc, store, of, merge, room)?;
        Ok(layers)
    }
}
