//! A script's session, from its start to its end.

ghost use Rattle.std.specs.Prelude.{◌≡◌, ◌≤◌, ◌^◌, false, length, map, IfErr, IfOk, OnErr};
ghost use Rattle.chain_core.specs.Sessions.{IsSound, seen};
ghost use Rattle.merge_plan.specs.Attached.{CanStart};
ghost use Rattle.chain_core.specs.Starting.{EachOpensAlike, LeavesOthersFrom, RefusesStart};
ghost use Rattle.chain_core.specs.LeafStarting.{RefusesLeafMerge};
ghost use Rattle.chain_core.specs.MergeStarting.{RefusesMerge};
ghost use Rattle.script_session.specs.MergeRunning.{HasRunLeafMerge, HasRunMerge};
ghost use Rattle.script_session.specs.Running.{HasRunScript, HasRunToEnd};

use crate::lines::{LinesRun, run_lines};
use chain_core::{Chain, MergeStartRefusal, Mode, StartRefusal};
use guest_model::{KeepMarks, Recorder};
use link_rules::LinkedFile;
use merge_core::Piece;
use script::Line;
use std::alloc::Global;
use std::convert::AsStr;
use store_model::{Ids, Store, StoreFault};
use vx_base::{Name, NoRoom};

/// What a script's session gave.
#[derive(Drop)]
pub struct ScriptRun {
    /// A line for each of the script's, in its order; or memory ran out for it, or in a call.
    pub transcript: Result<String, NoRoom>,
    /// The last fault of the store that refused a line.
    pub fault: Option<StoreFault>,
    /// Whether the session ended; else the fault by which its end failed, or that had broken it.
    pub closed: Result<(), StoreFault>,
}

// Runs the lines of a script in a session, and ends it.
fn run_to_end<S: Store, R: Recorder, N: AsStr>(
    alloc: Global,
    mut chain: Chain<S, R>,
    names: &[N],
    lines: &[Line],
    piece: &mut Piece,
    room: &mut [u8],
) -> (S, ScriptRun)
    requires sound { IsSound (seen S.disk R.noted R.told chain) }
    requires few { length lines.now ≤ 2 ^ 20 }
    requires slot { piece.old.filled ≡ false }
    requires room { length room.old ≡ 1048576 }
    ensures { HasRunToEnd (map N.text names.now) lines.now (seen S.disk R.noted R.told chain) piece.old piece.new result.1 (S.disk result.0) }
{
    let LinesRun { transcript, fault } = run_lines(alloc, &mut chain, names, lines, piece, room);
    let (store, _, closed) = chain.close();
    let run = ScriptRun {
        transcript,
        fault,
        closed,
    };
    (store, run)
}

/// Runs a script of `steps` in a session over the files of a chain, and ends the session. The store comes back, whatever is
/// answered. The names are those of the files, from the leaf on; the piece is the room of what is fetched, and nothing was yet; the room
/// has the bytes of one call at a time.
pub fn run_script<S: Store, I: Ids, N: AsStr>(
    alloc: Global,
    store: S,
    files: &[LinkedFile],
    names: &[N],
    mode: Mode,
    ids: &mut I,
    lines: &[Line],
    piece: &mut Piece,
    room: &mut [u8],
) -> (S, Result<ScriptRun, StartRefusal>)
    requires files { CanStart files.now (S.disk store) }
    requires few { length lines.now ≤ 2 ^ 20 }
    requires slot { piece.old.filled ≡ false }
    requires room { length room.old ≡ 1048576 }
    ensures ran { IfOk result.1 (λ run. HasRunScript mode files.now (map N.text names.now) lines.now run (S.disk store) (S.disk result.0)
        (I.drawn ids.old) (I.drawn ids.new)) }
    ensures refused { IfErr result.1 (RefusesStart mode files.now (S.disk store) (S.disk result.0) (I.drawn ids.old) (I.drawn ids.new)) }
    // Where no session started.
    ensures kept { OnErr result.1 (EachOpensAlike files.now (S.disk store).told (S.disk result.0).told) }
    ensures still { OnErr result.1 (LeavesOthersFrom (S.disk store).told (S.disk result.0).told) }
{
    match Chain::start(alloc, store, files, mode, KeepMarks::new(), ids) {
        Ok(chain) => {
            let (store, run) = run_to_end(alloc, chain, names, lines, piece, room);
            (store, Ok(run))
        }
        Err((store, refusal)) => (store, Err(refusal)),
    }
}

/// Runs a script of `steps` in a session over the files of a chain that starts with the merge of its file `source`, which isn't the leaf,
/// into its parent, and ends the session, whether the merge is finished or not. The store comes back, whatever is answered. The names
/// are those of the files, from the leaf on; the piece is the room of what is fetched, and nothing was yet; the room has the bytes of one
/// call at a time.
pub fn run_merge<S: Store, I: Ids, N: AsStr>(
    alloc: Global,
    store: S,
    files: &[LinkedFile],
    names: &[N],
    source: &Name,
    ids: &mut I,
    lines: &[Line],
    piece: &mut Piece,
    room: &mut [u8],
) -> (S, Result<ScriptRun, MergeStartRefusal>)
    requires files { CanStart files.now (S.disk store) }
    requires few { length lines.now ≤ 2 ^ 20 }
    requires slot { piece.old.filled ≡ false }
    requires room { length room.old ≡ 1048576 }
    ensures ran { IfOk result.1 (λ run. HasRunMerge files.now source.now (map N.text names.now) lines.now run (S.disk store) (S.disk result.0)
        (I.drawn ids.old) (I.drawn ids.new)) }
    ensures refused { IfErr result.1 (RefusesMerge files.now source.now (S.disk store) (S.disk result.0) (I.drawn ids.old) (I.drawn ids.new)) }
    // Where no session started.
    ensures kept { OnErr result.1 (EachOpensAlike files.now (S.disk store).told (S.disk result.0).told) }
{
    match Chain::start_merge(alloc, store, files, source, KeepMarks::new(), ids) {
        Ok(chain) => {
            let (store, run) = run_to_end(alloc, chain, names, lines, piece, room);
            (store, Ok(run))
        }
        Err((store, refusal)) => (store, Err(refusal)),
    }
}

/// Runs a script of `steps` in a session over the files of a chain that starts with the merge of its leaf into its parent, and ends the
/// session, whether the merge is finished or not. The store comes back, whatever is answered. The names are those of the files, from the
/// leaf on; the piece is the room of what is fetched, and nothing was yet; the room has the bytes of one call at a time.
pub fn run_leaf_merge<S: Store, I: Ids, N: AsStr>(
    alloc: Global,
    store: S,
    files: &[LinkedFile],
    names: &[N],
    ids: &mut I,
    lines: &[Line],
    piece: &mut Piece,
    room: &mut [u8],
) -> (S, Result<ScriptRun, MergeStartRefusal>)
    requires files { CanStart files.now (S.disk store) }
    requires parent { 2 ≤ length files.now }
    requires few { length lines.now ≤ 2 ^ 20 }
    requires slot { piece.old.filled ≡ false }
    requires room { length room.old ≡ 1048576 }
    ensures ran { IfOk result.1 (λ run. HasRunLeafMerge files.now (map N.text names.now) lines.now run (S.disk store) (S.disk result.0)
        (I.drawn ids.old) (I.drawn ids.new)) }
    ensures refused { IfErr result.1 (RefusesLeafMerge files.now (S.disk store) (S.disk result.0) (I.drawn ids.old) (I.drawn ids.new)) }
    // Where no session started.
    ensures kept { OnErr result.1 (EachOpensAlike files.now (S.disk store).told (S.disk result.0).told) }
{
    match Chain::start_leaf_merge(alloc, store, files, KeepMarks::new(), ids) {
        Ok(chain) => {
            let (store, run) = run_to_end(alloc, chain, names, lines, piece, room);
            (store, Ok(run))
        }
        Err((store, refusal)) => (store, Err(refusal)),
    }
}
