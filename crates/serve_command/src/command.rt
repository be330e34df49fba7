//! The command that runs a script of several guests over the disk of a leaf, with a merge beside them or without.

ghost use Rattle.std.specs.Prelude.{◌≡◌, ◌≤◌, ◌^◌, All, IfErr, IfOk, IfSome, is_some, length, option_map};
ghost use Rattle.chain_core.specs.declared.starting.Mode.TheVariants as modes;
ghost use Rattle.link_rules.specs.Folders.{AllIdle};
ghost use Rattle.serve_session.specs.Served.{guest_count};
ghost use Rattle.store_model.specs.Disk.{WhereTold};
ghost use Rattle.serve_command.specs.Guests.{LeafIsServed, ScriptIsServed, source_of};
ghost use Rattle.command_base.specs.Ends.{Ends, HasMerge};
ghost use Rattle.serve_command.specs.Serves.{RunsServe};
ghost use Rattle.steps_command.specs.Sessions.{IsLinkedChain, NotRunOver};
ghost use Rattle.command_base.specs.Worlds.{world};
ghost use Rattle.vx_base.specs.Names.{IsName};

use crate::beginning::{Merging, begin_linked, last_piece, merging_of};
use crate::giving::give_back_sets;
use crate::transcript::show_served;
use command_base::names_of;
use ledger::Ledger;
use link_rules::{Linked, order};
use merge_core::Piece;
use printing::{Status, out_of_memory};
use script::{Line, ScriptKind, script_from};
use serve_session::{MergeRun, rooms_for, serve_begun};
use std::alloc::{AllocError, Global};
use std::sync::Wait;
use std::thread::Threads;
use steps_command::{StepsRefusal, names_in, refuse_script};
use store_model::{Gate, Host, Ids, Sink, Source, Store};
use vx_base::Name;

// Serves the guests of a script over the files of a chain, which were opened, with the merge, if there is one, for which there is a piece for what
// is left to its end.
fn serve_linked<H: Host, R: Threads + Wait + Sync, I: Ids, G: Gate + Sync>(
    rt: &R,
    alloc: Global,
    host: &mut H,
    ids: &mut I,
    linked: &Linked,
    merging: Option<Merging<'_>>,
    last: Option<&mut Piece>,
    lines: &[Line],
    rooms: Vec<Vec<u8>>,
    gate: &G,
) -> Result<MergeRun, StepsRefusal>
where
    H::S: Send,
    <H::S as Store>::R: Send + Drop,
    requires chain { IsLinkedChain linked.now (H.hosted host.old) }
    requires lines { length lines.now ≤ 2 ^ 20 }
    requires count { length rooms.items ≡ guest_count lines.now }
    requires each { All (λ room. length room.items ≡ 1048576) rooms.items }
    requires workers { IfSome merging (λ m. length m.pieces.items ≤ 64) }
    requires last { is_some last ≡ is_some (source_of merging) }
    ensures ran { IfOk result (λ run. ScriptIsServed (source_of merging.entry) linked.now lines.now run (H.hosted host.old) (H.hosted host.new) (I.drawn ids.old) (I.drawn ids.new)) }
    ensures err { IfErr result (NotRunOver modes.Guests (source_of merging.entry) linked.now (H.hosted host.old) (H.hosted host.new) (I.drawn ids.old) (I.drawn ids.new)) }
{
    let names = names_of(alloc, linked.files.as_slice())?;
    let names = names.as_slice();
    let guests = rooms.len() as u32;
    let history = Ledger::keeping(alloc);
    let begun = begin_linked(alloc, host, ids, linked, names, merging, guests, history)?;
    let (store, run, back) = serve_begun(rt, alloc, begun, names, lines, rooms, last, gate);
    give_back_sets(host, back);
    host.give_back(store);
    Ok(run)
}

/// Serves the guests of a script over the chain to which a leaf's name leads, with the merge of the source, if there is one, by so many workers.
pub fn serve_leaf<H: Host, R: Threads + Wait + Sync, I: Ids, G: Gate + Sync>(
    rt: &R,
    alloc: Global,
    host: &mut H,
    ids: &mut I,
    leaf: &Name,
    workers: u32,
    source: &Option<Name>,
    lines: &[Line],
    gate: &G,
) -> Result<MergeRun, StepsRefusal>
where
    H::S: Send,
    <H::S as Store>::R: Send + Drop,
    requires idle { WhereTold (H.hosted host.old).folder AllIdle }
    requires workers { workers ≤ 64 }
    requires lines { length lines.now ≤ 2 ^ 20 }
    ensures { LeafIsServed leaf.now source.now lines.now (H.hosted host.old) (H.hosted host.new) (I.drawn ids.old) (I.drawn ids.new) result }
{
    let rooms = rooms_for(alloc, lines)?;
    let merging = merging_of(alloc, workers, source)?;
    let mut last = last_piece(alloc, source)?;
    let linked = order(alloc, host, leaf)?;
    serve_linked(
        rt,
        alloc,
        host,
        ids,
        &linked,
        merging,
        last.as_mut(),
        lines,
        rooms,
        gate,
    )
}

/// Reads a script from the source, serves its guests over the disk of the chain to which a leaf's name leads, each guest's calls in a thread
/// of its own where one can be made, beside them merges the file of a name, if a name is given, by so many workers, and prints the transcript;
/// or why it wasn't run.
pub fn serve<H: Host, R: Threads + Wait + Sync, I: Ids, S: Source, K: Sink, G: Gate + Sync>(
    rt: &R,
    alloc: Global,
    host: &mut H,
    ids: &mut I,
    input: &mut S,
    out: &mut K,
    leaf: &str,
    workers: u32,
    merge: Option<&str>,
    gate: &G,
) -> Status
where
    H::S: Send,
    <H::S as Store>::R: Send + Drop,
    requires idle { WhereTold (H.hosted host.old).folder AllIdle }
    requires name { IsName leaf.now }
    requires workers { workers ≤ 64 }
    requires merge { IfSome (option_map (λ s. s.now) merge) IsName }
    ensures runs { let before = world (H.hosted host.old) (I.drawn ids.old) (S.left input.old) (S.faults input.old) (K.written out.old) (K.faults out.old) in
        let now = world (H.hosted host.new) (I.drawn ids.new) (S.left input.new) (S.faults input.new) (K.written out.new) (K.faults out.new) in
        RunsServe leaf.now (option_map (λ s. s.now) merge.entry) before now result }
    ensures ends { let before = world (H.hosted host.old) (I.drawn ids.old) (S.left input.old) (S.faults input.old) (K.written out.old) (K.faults out.old) in
        let now = world (H.hosted host.new) (I.drawn ids.new) (S.left input.new) (S.faults input.new) (K.written out.new) (K.faults out.new) in
        Ends (HasMerge (option_map (λ s. s.now) merge.entry)) before now result }
{
    let (leaf, source) = match names_in(alloc, leaf, merge) {
        Ok(names) => names,
        Err(AllocError) => return out_of_memory(out),
    };
    let script = match script_from(alloc, input, ScriptKind::Serve) {
        Ok(script) => script,
        Err(refusal) => return refuse_script(out, refusal),
    };
    let run = serve_leaf(
        rt,
        alloc,
        host,
        ids,
        &leaf,
        workers,
        &source,
        script.as_slice(),
        gate,
    );
    show_served(alloc, out, run)
}
