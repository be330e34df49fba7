//! The command that serves one client over the disk of a leaf.

ghost use Rattle.std.specs.Prelude.{◌≡◌, ◌≤◌, IfErr, IfOk, IfSome, is_some, length, option_map};
ghost use Rattle.chain_core.specs.Starting.{IsOfDisk};
ghost use Rattle.chain_core.specs.declared.starting.Mode.TheVariants as modes;
ghost use Rattle.command_base.specs.Ends.{Ends, HasMerge};
ghost use Rattle.command_base.specs.Worlds.{world};
ghost use Rattle.link_rules.specs.Folders.{AllIdle};
ghost use Rattle.link_rules.specs.Lines.{IsLine};
ghost use Rattle.nbd_command.specs.Clients.{ClientIsServed, LeafIsOffered};
ghost use Rattle.nbd_command.specs.Nbd.{RunsNbd, connection};
ghost use Rattle.serve_command.specs.Guests.{source_of};
ghost use Rattle.steps_command.specs.Sessions.{IsLinkedChain, NotRunOver};
ghost use Rattle.store_model.specs.Disk.{WhereTold};
ghost use Rattle.vx_base.specs.Names.{IsName};

use crate::client::serve_begun_client;
use crate::ending::status_of;
use crate::refusing::unbegun;
use command_base::names_of;
use ledger::Ledger;
use link_rules::{Linked, LinkedFile, order};
use merge_core::Piece;
use nbd_front::{Export, Room};
use nbd_session::NbdRun;
use printing::Status;
use serve_command::{Merging, begin_linked, give_back_sets, last_piece, merging_of};
use std::alloc::{AllocError, Global};
use std::sync::Wait;
use std::thread::Threads;
use steps_command::{StepsRefusal, names_in};
use store_model::{Gate, Host, Ids, Sink, Source, Store};
use vx_base::{Geometry, Name};

// The size of the disk of a chain's files: that of the leaf.
fn size_of(files: &[LinkedFile]) -> Geometry
    requires { IsLine files.now }
    ensures { IsOfDisk files.now result }
{
    let Some(leaf) = files.first() else {
        unreachable!();
    };
    leaf.parts.geometry
}

// Serves a client over the files of a chain, which were opened, under this name, with the merge, if there is one, for which there is a piece for
// what is left to its end.
fn serve_linked<H: Host, R: Threads + Wait + Sync, I: Ids, S: Source, K: Sink, G: Gate + Sync>(
    rt: &R,
    alloc: Global,
    host: &mut H,
    ids: &mut I,
    linked: &Linked,
    name: Name,
    merging: Option<Merging<'_>>,
    last: Option<&mut Piece>,
    room: Room,
    input: &mut S,
    out: &mut K,
    gate: &G,
) -> Result<NbdRun, StepsRefusal>
where
    H::S: Send,
    <H::S as Store>::R: Send + Drop,
    requires chain { IsLinkedChain linked.now (H.hosted host.old) }
    requires workers { IfSome merging (λ m. length m.pieces.items ≤ 64) }
    requires last { is_some last ≡ is_some (source_of merging) }
    ensures ran { IfOk result (λ run. ClientIsServed name (source_of merging.entry) linked.now run
        (connection (S.left input.old) (S.faults input.old) (K.written out.old) (K.faults out.old))
        (connection (S.left input.new) (S.faults input.new) (K.written out.new) (K.faults out.new))
        (H.hosted host.old) (H.hosted host.new) (I.drawn ids.old) (I.drawn ids.new)) }
    ensures err { IfErr result (NotRunOver modes.Guests (source_of merging.entry) linked.now (H.hosted host.old) (H.hosted host.new) (I.drawn ids.old) (I.drawn ids.new)) }
    ensures silent { IfErr result (λ refusal. connection (S.left input.new) (S.faults input.new) (K.written out.new) (K.faults out.new)
        ≡ connection (S.left input.old) (S.faults input.old) (K.written out.old) (K.faults out.old)) }
{
    let files = linked.files.as_slice();
    let names = names_of(alloc, files)?;
    let export = Export {
        name,
        geometry: size_of(files),
        is_read_only: false,
    };
    let history = Ledger::telling(alloc);
    let begun = begin_linked(
        alloc,
        host,
        ids,
        linked,
        names.as_slice(),
        merging,
        1,
        history,
    )?;
    let (store, run, back) = serve_begun_client(
        rt, alloc, begun, &export, room, input, out, last, gate,
    );
    give_back_sets(host, back);
    host.give_back(store);
    Ok(run)
}

// Serves a client over the chain to which a leaf's name leads, with the merge of the source, if there is one, by so many workers.
fn serve_leaf<H: Host, R: Threads + Wait + Sync, I: Ids, S: Source, K: Sink, G: Gate + Sync>(
    rt: &R,
    alloc: Global,
    host: &mut H,
    ids: &mut I,
    leaf: Name,
    workers: u32,
    source: &Option<Name>,
    input: &mut S,
    out: &mut K,
    gate: &G,
) -> Result<NbdRun, StepsRefusal>
where
    H::S: Send,
    <H::S as Store>::R: Send + Drop,
    requires idle { WhereTold (H.hosted host.old).folder AllIdle }
    requires workers { workers ≤ 64 }
    ensures { LeafIsOffered leaf source.now
        (connection (S.left input.old) (S.faults input.old) (K.written out.old) (K.faults out.old))
        (connection (S.left input.new) (S.faults input.new) (K.written out.new) (K.faults out.new))
        (H.hosted host.old) (H.hosted host.new) (I.drawn ids.old) (I.drawn ids.new) result }
{
    let room = Room::new(alloc)?;
    let merging = merging_of(alloc, workers, source)?;
    let mut last = last_piece(alloc, source)?;
    let linked = order(alloc, host, &leaf)?;
    serve_linked(
        rt,
        alloc,
        host,
        ids,
        &linked,
        leaf,
        merging,
        last.as_mut(),
        room,
        input,
        out,
        gate,
    )
}

/// Serves one client of the Network Block Device protocol, whose bytes come from the source and go to the sink, over the disk of the chain to which
/// a leaf's name leads: with a session of one guest, whose calls the client makes, and beside it the merge of the file of a name, if a name is
/// given, by so many workers, each in a thread of its own where one can be made. Nothing but the protocol's bytes is written.
pub fn nbd<H: Host, R: Threads + Wait + Sync, I: Ids, S: Source, K: Sink, G: Gate + Sync>(
    rt: &R,
    alloc: Global,
    host: &mut H,
    ids: &mut I,
    input: &mut S,
    out: &mut K,
    leaf: &str,
    workers: u32,
    merge: Option<&str>,
    gate: &G,
) -> Status
where
    H::S: Send,
    <H::S as Store>::R: Send + Drop,
    requires idle { WhereTold (H.hosted host.old).folder AllIdle }
    requires name { IsName leaf.now }
    requires workers { workers ≤ 64 }
    requires merge { IfSome (option_map (λ s. s.now) merge) IsName }
    ensures runs { let before = world (H.hosted host.old) (I.drawn ids.old) (S.left input.old) (S.faults input.old) (K.written out.old) (K.faults out.old) in
        let now = world (H.hosted host.new) (I.drawn ids.new) (S.left input.new) (S.faults input.new) (K.written out.new) (K.faults out.new) in
        RunsNbd leaf.now (option_map (λ s. s.now) merge.entry) before now result }
    ensures ends { let before = world (H.hosted host.old) (I.drawn ids.old) (S.left input.old) (S.faults input.old) (K.written out.old) (K.faults out.old) in
        let now = world (H.hosted host.new) (I.drawn ids.new) (S.left input.new) (S.faults input.new) (K.written out.new) (K.faults out.new) in
        Ends (HasMerge (option_map (λ s. s.now) merge.entry)) before now result }
{
    let (leaf, source) = match names_in(alloc, leaf, merge) {
        Ok(names) => names,
        Err(AllocError) => return Status::NoMemory,
    };
    match serve_leaf(
        rt, alloc, host, ids, leaf, workers, &source, input, out, gate,
    ) {
        Ok(run) => status_of(run),
        Err(refusal) => unbegun(&refusal),
    }
}
