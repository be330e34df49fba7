//! The command that runs a script over the disk of a leaf.

ghost use Rattle.std.specs.Prelude.{◌≡◌, ◌≤◌, ◌^◌, IfErr, IfOk, IfSome, OnOk, false, true, length, option_map};
ghost use Rattle.link_rules.specs.Chains.{names_of as file_names};
ghost use Rattle.link_rules.specs.Folders.{AllIdle};
ghost use Rattle.script_session.specs.MergeRunning.{HasRunLeafMerge, HasRunMerge};
ghost use Rattle.script_session.specs.Running.{HasRunScript};
ghost use Rattle.store_model.specs.Disk.{WhereTold};
ghost use Rattle.steps_command.specs.Sessions.{CanMerge, HasNotMerged, HasNotRun, HasNotRunWith, HasRunMergeOf, HasRunWith, IsBarredMerge, IsLentChain, IsLinkedChain, LeafIsRun, NotRunOver, RunOver, mode_of};
ghost use Rattle.steps_command.specs.declared.refusal.StepsRefusal.TheVariants as steps;
ghost use Rattle.steps_command.specs.Starts.{is_leaf};
ghost use Rattle.steps_command.specs.Steps.{RunsSteps};
ghost use Rattle.command_base.specs.Ends.{Ends, HasMerge};
ghost use Rattle.command_base.specs.Worlds.{world};
ghost use Rattle.vx_base.specs.Names.{IsName};

use crate::merging::merge_refused;
use crate::refusal::StepsRefusal;
use crate::refusing::refuse_script;
use crate::transcript::show_run;
use chain_core::Mode;
use command_base::{attach, check_lengths, names_of};
use link_rules::{Linked, LinkedFile, order};
use merge_core::Piece;
use printing::{Status, out_of_memory};
use script::{Line, ScriptKind, script_from};
use script_session::{ScriptRun, run_leaf_merge, run_merge, run_script, sector_room};
use std::alloc::{AllocError, Global};
use store_model::{Host, Ids, Sink, Source, Store};
use vx_base::Name;

// Runs a script over the store's files, which are a chain's, in a session without a merge.
fn run_lent<S: Store, I: Ids>(
    alloc: Global,
    mut store: S,
    files: &[LinkedFile],
    names: &[Name],
    mode: Mode,
    ids: &mut I,
    lines: &[Line],
    piece: &mut Piece,
    room: &mut [u8],
) -> (S, Result<ScriptRun, StepsRefusal>)
    requires chain { IsLentChain files.now (S.disk store) }
    requires lines { length lines.now ≤ 2 ^ 20 }
    requires slot { piece.old.filled ≡ false }
    requires room { length room.old ≡ 1048576 }
    ensures ran { IfOk result.1 (λ run. HasRunScript mode files.now names.now lines.now run (S.disk store) (S.disk result.0) (I.drawn ids.old)
        (I.drawn ids.new)) }
    ensures err { IfErr result.1 (HasNotRun mode files.now (S.disk store) (S.disk result.0) (I.drawn ids.old) (I.drawn ids.new)) }
{
    if let Err(refusal) = check_lengths(&mut store, files.len() as u32) {
        return (store, Err(StepsRefusal::Chain(refusal)));
    }
    let (store, run) = run_script(alloc, store, files, names, mode, ids, lines, piece, room);
    match run {
        Ok(run) => (store, Ok(run)),
        Err(refusal) => (store, Err(StepsRefusal::from(refusal))),
    }
}

/// Whether the first of these files, the leaf, has this name and a parent.
pub fn is_leaf(files: &[LinkedFile], name: &Name) -> bool
    ensures { result ≡ is_leaf files.now name.now }
{
    match files {
        [leaf, _, ..] => leaf.name == *name,
        _ => false,
    }
}

// Runs a script over the store's files in a session with the merge of the leaf, which has this name.
fn merge_leaf<S: Store, I: Ids>(
    alloc: Global,
    mut store: S,
    files: &[LinkedFile],
    names: &[Name],
    source: &Name,
    ids: &mut I,
    lines: &[Line],
    piece: &mut Piece,
    room: &mut [u8],
) -> (S, Result<ScriptRun, StepsRefusal>)
    requires leaf { is_leaf files.now source.now ≡ true }
    requires chain { IsLentChain files.now (S.disk store) }
    requires names { names.now ≡ file_names files.now }
    requires lines { length lines.now ≤ 2 ^ 20 }
    requires slot { piece.old.filled ≡ false }
    requires room { length room.old ≡ 1048576 }
    ensures ran { IfOk result.1 (λ run. HasRunLeafMerge files.now names.now lines.now run (S.disk store) (S.disk result.0) (I.drawn ids.old)
        (I.drawn ids.new)) }
    ensures err { IfErr result.1 (HasNotMerged files.now source.now (S.disk store) (S.disk result.0) (I.drawn ids.old) (I.drawn ids.new)) }
{
    if let Err(refusal) = check_lengths(&mut store, files.len() as u32) {
        return (store, Err(StepsRefusal::Chain(refusal)));
    }
    let (store, run) = run_leaf_merge(alloc, store, files, names, ids, lines, piece, room);
    match run {
        Ok(run) => (store, Ok(run)),
        Err(refusal) => (store, Err(merge_refused(alloc, names, source, refusal))),
    }
}

// Runs a script over the store's files in a session with the merge of the source, which isn't the leaf.
fn merge_below<S: Store, I: Ids>(
    alloc: Global,
    mut store: S,
    files: &[LinkedFile],
    names: &[Name],
    source: &Name,
    ids: &mut I,
    lines: &[Line],
    piece: &mut Piece,
    room: &mut [u8],
) -> (S, Result<ScriptRun, StepsRefusal>)
    requires below { is_leaf files.now source.now ≡ false }
    requires chain { IsLentChain files.now (S.disk store) }
    requires names { names.now ≡ file_names files.now }
    requires lines { length lines.now ≤ 2 ^ 20 }
    requires slot { piece.old.filled ≡ false }
    requires room { length room.old ≡ 1048576 }
    ensures ran { IfOk result.1 (λ run. HasRunMerge files.now source.now names.now lines.now run (S.disk store) (S.disk result.0) (I.drawn ids.old)
        (I.drawn ids.new)) }
    ensures err { IfErr result.1 (HasNotMerged files.now source.now (S.disk store) (S.disk result.0) (I.drawn ids.old) (I.drawn ids.new)) }
{
    if let Err(refusal) = check_lengths(&mut store, files.len() as u32) {
        return (store, Err(StepsRefusal::Chain(refusal)));
    }
    let (store, run) = run_merge(alloc, store, files, names, source, ids, lines, piece, room);
    match run {
        Ok(run) => (store, Ok(run)),
        Err(refusal) => (store, Err(merge_refused(alloc, names, source, refusal))),
    }
}

// Runs a script over the store's files in a session with the merge of the source.
fn merge_lent<S: Store, I: Ids>(
    alloc: Global,
    store: S,
    files: &[LinkedFile],
    names: &[Name],
    source: &Name,
    ids: &mut I,
    lines: &[Line],
    piece: &mut Piece,
    room: &mut [u8],
) -> (S, Result<ScriptRun, StepsRefusal>)
    requires chain { IsLentChain files.now (S.disk store) }
    requires names { names.now ≡ file_names files.now }
    requires lines { length lines.now ≤ 2 ^ 20 }
    requires slot { piece.old.filled ≡ false }
    requires room { length room.old ≡ 1048576 }
    ensures ran { IfOk result.1 (λ run. HasRunMergeOf (is_leaf files.now source.now) files.now source.now names.now lines.now run (S.disk store)
        (S.disk result.0) (I.drawn ids.old) (I.drawn ids.new)) }
    ensures err { IfErr result.1 (HasNotMerged files.now source.now (S.disk store) (S.disk result.0) (I.drawn ids.old) (I.drawn ids.new)) }
{
    if is_leaf(files, source) {
        merge_leaf(alloc, store, files, names, source, ids, lines, piece, room)
    } else {
        merge_below(alloc, store, files, names, source, ids, lines, piece, room)
    }
}

// Runs a script over the store's files, with the merge of the source, if there is one.
fn run_on<S: Store, I: Ids>(
    alloc: Global,
    store: S,
    files: &[LinkedFile],
    names: &[Name],
    mode: Mode,
    source: &Option<Name>,
    ids: &mut I,
    lines: &[Line],
    piece: &mut Piece,
    room: &mut [u8],
) -> (S, Result<ScriptRun, StepsRefusal>)
    requires chain { IsLentChain files.now (S.disk store) }
    requires names { names.now ≡ file_names files.now }
    requires lines { length lines.now ≤ 2 ^ 20 }
    requires slot { piece.old.filled ≡ false }
    requires room { length room.old ≡ 1048576 }
    ensures ran { IfOk result.1 (λ run. HasRunWith mode source.now files.now names.now lines.now run (S.disk store) (S.disk result.0)
        (I.drawn ids.old) (I.drawn ids.new)) }
    ensures err { IfErr result.1 (HasNotRunWith mode source.now files.now (S.disk store) (S.disk result.0) (I.drawn ids.old) (I.drawn ids.new)) }
{
    match source {
        None => run_lent(alloc, store, files, names, mode, ids, lines, piece, room),
        Some(source) => merge_lent(alloc, store, files, names, source, ids, lines, piece, room),
    }
}

// A merge changes files, so that there is none where they are only read.
fn check_mode(mode: Mode, source: &Option<Name>) -> Result<(), StepsRefusal>
    ensures ok { OnOk result (CanMerge mode source.now) }
    ensures err { IfErr result (λ refusal. (refusal ≡ steps.ReadOnly) × IsBarredMerge mode source.now) }
{
    match (mode, source) {
        (Mode::ReadOnly, Some(_)) => Err(StepsRefusal::ReadOnly),
        _ => Ok(()),
    }
}

// Runs a script over the files of a chain, which were opened.
fn run_linked<H: Host, I: Ids>(
    alloc: Global,
    host: &mut H,
    ids: &mut I,
    linked: &Linked,
    mode: Mode,
    source: &Option<Name>,
    lines: &[Line],
    piece: &mut Piece,
    room: &mut [u8],
) -> Result<ScriptRun, StepsRefusal>
    requires chain { IsLinkedChain linked.now (H.hosted host.old) }
    requires lines { length lines.now ≤ 2 ^ 20 }
    requires slot { piece.old.filled ≡ false }
    requires room { length room.old ≡ 1048576 }
    ensures ran { IfOk result (λ run. RunOver mode source.now linked.now lines.now run (H.hosted host.old) (H.hosted host.new) (I.drawn ids.old)
        (I.drawn ids.new)) }
    ensures err { IfErr result (NotRunOver mode source.now linked.now (H.hosted host.old) (H.hosted host.new) (I.drawn ids.old) (I.drawn ids.new)) }
{
    check_mode(mode, source)?;
    let files = linked.files.as_slice();
    let names = names_of(alloc, files)?;
    let store = attach(alloc, host, files)?;
    let (store, run) = run_on(
        alloc,
        store,
        files,
        names.as_slice(),
        mode,
        source,
        ids,
        lines,
        piece,
        room,
    );
    host.give_back(store);
    run
}

// Runs a script over the chain to which a leaf's name leads, with the merge of the source, if there is one.
fn run_leaf<H: Host, I: Ids>(
    alloc: Global,
    host: &mut H,
    ids: &mut I,
    leaf: &Name,
    source: &Option<Name>,
    mode: Mode,
    lines: &[Line],
) -> Result<ScriptRun, StepsRefusal>
    requires idle { WhereTold (H.hosted host.old).folder AllIdle }
    requires lines { length lines.now ≤ 2 ^ 20 }
    ensures { LeafIsRun leaf.now mode source.now lines.now (H.hosted host.old) (H.hosted host.new) (I.drawn ids.old) (I.drawn ids.new) result }
{
    let mut room = sector_room(alloc)?;
    let mut piece = Piece::new(alloc)?;
    let linked = order(alloc, host, leaf)?;
    run_linked(
        alloc,
        host,
        ids,
        &linked,
        mode,
        source,
        lines,
        &mut piece,
        room.as_mut_slice(),
    )
}

// How a session is to begin.
fn mode_of(read_only: bool) -> Mode
    ensures { result ≡ mode_of read_only }
{
    if read_only {
        Mode::ReadOnly
    } else {
        Mode::Guests
    }
}

/// The names of the leaf and of the file that is merged, if one is.
pub fn names_in(
    alloc: Global,
    leaf: &str,
    merge: Option<&str>,
) -> Result<(Name, Option<Name>), AllocError>
    requires leaf { IsName leaf.now }
    requires merge { IfSome (option_map (λ s. s.now) merge) IsName }
    ensures leaf { IfOk result (λ names. names.0 ≡ leaf.now) }
    ensures merge { IfOk result (λ names. names.1 ≡ option_map (λ s. s.now) merge.entry) }
{
    let leaf = Name::from_checked(alloc, leaf)?;
    match merge {
        None => Ok((leaf, None)),
        Some(merge) => Ok((leaf, Some(Name::from_checked(alloc, merge)?))),
    }
}

/// Reads a script from the source, runs it over the disk of the chain to which a leaf's name leads, with the merge of the file of a
/// name, the leaf or one below it, if a name is given, and prints its transcript; or why it wasn't run.
pub fn steps<H: Host, I: Ids, S: Source, K: Sink>(
    alloc: Global,
    host: &mut H,
    ids: &mut I,
    input: &mut S,
    out: &mut K,
    leaf: &str,
    merge: Option<&str>,
    read_only: bool,
) -> Status
    requires idle { WhereTold (H.hosted host.old).folder AllIdle }
    requires name { IsName leaf.now }
    requires merge { IfSome (option_map (λ s. s.now) merge) IsName }
    ensures runs { let before = world (H.hosted host.old) (I.drawn ids.old) (S.left input.old) (S.faults input.old) (K.written out.old) (K.faults out.old) in
        let now = world (H.hosted host.new) (I.drawn ids.new) (S.left input.new) (S.faults input.new) (K.written out.new) (K.faults out.new) in
        RunsSteps leaf.now (option_map (λ s. s.now) merge.entry) read_only before now result }
    ensures ends { let before = world (H.hosted host.old) (I.drawn ids.old) (S.left input.old) (S.faults input.old) (K.written out.old) (K.faults out.old) in
        let now = world (H.hosted host.new) (I.drawn ids.new) (S.left input.new) (S.faults input.new) (K.written out.new) (K.faults out.new) in
        Ends (HasMerge (option_map (λ s. s.now) merge.entry)) before now result }
{
    let (leaf, source) = match names_in(alloc, leaf, merge) {
        Ok(names) => names,
        Err(AllocError) => return out_of_memory(out),
    };
    let script = match script_from(alloc, input, ScriptKind::Steps) {
        Ok(script) => script,
        Err(refusal) => return refuse_script(out, refusal),
    };
    let mode = mode_of(read_only);
    let run = run_leaf(alloc, host, ids, &leaf, &source, mode, script.as_slice());
    show_run(alloc, out, run)
}
