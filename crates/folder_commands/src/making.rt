//! The command that makes files.

ghost use Rattle.std.specs.Prelude.{◌≡◌, ◌≤◌, ◌<◌, ◌*◌, All, length, ◌++◌, IfOk, None, OnOk};
ghost use Rattle.command_line.specs.Requests.{child as child_of, plain_file};
ghost use Rattle.chain_model.specs.Members.{NoneTwice};
ghost use Rattle.link_rules.specs.Chains.{most_files, names_of};
ghost use Rattle.link_rules.specs.Effects.{IsServed};
ghost use Rattle.link_rules.specs.Folders.{AllIdle, contents};
ghost use Rattle.link_rules.specs.Lines.{IsLinkedUp};
ghost use Rattle.link_rules.specs.Touches.{IsOnWay, TouchesSafely};
ghost use Rattle.make_file.specs.Makes.{outside};
ghost use Rattle.shown_ids.specs.Shown.{shown};
ghost use Rattle.store_model.specs.Disk.{WhereTold};
ghost use Rattle.store_model.specs.File.{seen};
ghost use Rattle.store_model.specs.Trace.{file_of};
ghost use Rattle.command_base.specs.Causes.{AnswersBy, LeavesStore, meaning_of_chain};
ghost use Rattle.folder_commands.specs.Parents.{OpensParent};
ghost use Rattle.command_base.specs.Commands.{AreOpened, AreOpenedFrom, IsNewFile, LeavesFollowed, LeavesRead, MakeEnded, OnlyAttaches, shown_from};
ghost use Rattle.folder_commands.specs.News.{EndsMaking, HasTypedParent, SaysMade, of_file};
ghost use Rattle.command_base.specs.Making.{ShowIds, made_line};
ghost use Rattle.printing.specs.Sent.{Sent};
ghost use Rattle.vhdx_format.specs.AllocationTables.{IsBlockSize};
ghost use Rattle.vhdx_format.specs.Fields.{megabyte};
ghost use Rattle.vhdx_format.specs.FileParts.{HasNumbers, LieWithin};
ghost use Rattle.vx_base.specs.Names.{IsName};

use command_base::{ChainRefusal, attach, check_lengths, leaf_of, refuse_chain, refuse_making};
use command_line::NewFile;
use grown_chains::are_types;
use link_rules::{Linked, LinkedFile, order};
use make_file::{MakeRefusal, make_child, make_dynamic, make_fixed};
use printing::{Status, out_of_memory, send_told};
use shown_ids::{CollectFault, collect};
use std::alloc::{AllocError, Global};
use store_model::{Host, Ids, Sink, Store};
use vx_base::{Guid, Name, NoRoom, Parts};

/// Why a new file isn't made.
#[derive(Drop)]
pub enum NewFileRefusal {
    /// The files of its parent's chain aren't read.
    Parent(ChainRefusal),
    /// The file itself isn't made.
    File(MakeRefusal),
    /// Memory ran out before anything was looked at.
    NoRoom,
}

/// What a parent's name leads to, and the identifiers that the files of its chain show.
#[derive(Drop)]
pub struct ParentChain {
    linked: Linked,
    known: Vec<Guid>,
}

// Prints the line of the file of this name that was made.
fn made_said<K: Sink>(out: &mut K, name: &str, len: u64) -> Status
    requires { length name.now ≤ 255 }
    ensures { Sent (K.written out.old) (K.written out.new) (K.faults out.old) (K.faults out.new) Status.Done (made_line name.now len) result }
{
    match send_told(out, b"made ", name.as_bytes(), len) {
        Ok(()) => Status::Done,
        Err(_) => Status::Fault,
    }
}

/// Prints whether the file of this name was made, of how many bytes.
pub fn say_made<K: Sink>(
    alloc: Global,
    out: &mut K,
    name: &str,
    made: Result<u64, NewFileRefusal>,
) -> Status
    requires { length name.now ≤ 255 }
    ensures { SaysMade name.now made (K.written out.old) (K.written out.new) (K.faults out.old) (K.faults out.new) result }
{
    match made {
        Ok(len) => made_said(out, name, len),
        Err(NewFileRefusal::Parent(refusal)) => refuse_chain(alloc, out, refusal),
        Err(NewFileRefusal::File(refusal)) => refuse_making(alloc, out, name, refusal),
        Err(NewFileRefusal::NoRoom) => out_of_memory(out),
    }
}

// The same answer, of a file that has no parent, or whose parent's chain is opened.
fn of_file(made: Result<u64, MakeRefusal>) -> Result<u64, NewFileRefusal>
    ensures { result ≡ of_file made }
{
    match made {
        Ok(len) => Ok(len),
        Err(refusal) => Err(NewFileRefusal::File(refusal)),
    }
}

// The identifiers that a file of the store, of these numbers, shows.
fn shown_by<S: Store>(
    alloc: Global,
    store: &mut S,
    number: u32,
    parts: &Parts,
) -> Result<Vec<Guid>, ChainRefusal>
    requires there { number < (S.disk store.old).files }
    requires numbers { HasNumbers parts.now }
    requires within { WhereTold (S.disk store.old).told (λ trace. LieWithin parts.now (length (seen (file_of trace number)))) }
    ensures ids { IfOk result (λ ids. WhereTold (S.disk store.old).told (λ trace. ids.items ≡ shown parts.now (seen (file_of trace number)))) }
    ensures store { LeavesStore (S.disk store.old) (S.disk store.new) result }
{
    match collect(alloc, store, number, parts) {
        Ok(ids) => Ok(ids),
        Err(CollectFault::Store(fault)) => Err(ChainRefusal::Store(fault)),
        Err(CollectFault::NoRoom) => Err(ChainRefusal::NoRoom),
    }
}

// Adds identifiers.
fn add_all(known: &mut Vec<Guid>, ids: &[Guid]) -> Result<(), NoRoom>
    ensures { OnOk result (known.new.items ≡ known.old.items ++ ids.now) }
{
    for id in ids {
        known.push(*id)?;
    }
    Ok(())
}

// The identifiers that a chain's files show, which the store has in their order.
fn all_shown<S: Store>(
    alloc: Global,
    store: &mut S,
    files: &[LinkedFile],
) -> Result<Vec<Guid>, ChainRefusal>
    requires all { (S.disk store.old).files ≡ length files.now }
    requires few { length files.now ≤ most_files }
    requires served { All IsServed files.now }
    requires opened { WhereTold (S.disk store.old).told (AreOpenedFrom 0 files.now) }
    ensures ids { IfOk result (λ ids. WhereTold (S.disk store.old).told (λ trace. ids.items ≡ shown_from 0 files.now trace)) }
    ensures store { LeavesStore (S.disk store.old) (S.disk store.new) result }
{
    check_lengths(store, files.len() as u32)?;
    let mut known = Vec::new(alloc);
    let mut number = 0;
    for file in files {
        let ids = shown_by(alloc, store, number, &file.parts)?;
        add_all(&mut known, ids.as_slice())?;
        number += 1;
    }
    Ok(known)
}

// The identifiers that the files of a chain show, which were opened.
fn known_of<H: Host>(
    alloc: Global,
    host: &mut H,
    files: &[LinkedFile],
) -> Result<Vec<Guid>, ChainRefusal>
    requires idle { WhereTold (H.hosted host.old).folder AllIdle }
    requires few { length files.now ≤ most_files }
    requires once { NoneTwice (names_of files.now) }
    requires served { All IsServed files.now }
    requires opened { WhereTold (H.hosted host.old).folder (λ folder. AreOpened (contents folder) files.now) }
    ensures ids { IfOk result (λ ids. WhereTold (H.hosted host.old).folder (λ folder. ShowIds (contents folder) files.now ids.items)) }
    ensures moments { OnlyAttaches (names_of files.now) (H.hosted host.old) (H.hosted host.new) }
    ensures leaves { LeavesRead (H.hosted host.old) (H.hosted host.new) result }
{
    let mut store = attach(alloc, host, files)?;
    let known = all_shown(alloc, &mut store, files);
    host.give_back(store);
    known
}

// Opens the chain to which a parent's name leads, and collects what it shows.
fn open_parent<H: Host>(
    alloc: Global,
    host: &mut H,
    parent: &Name,
) -> Result<ParentChain, ChainRefusal>
    requires idle { WhereTold (H.hosted host.old).folder AllIdle }
    ensures answer { WhereTold (H.hosted host.old).folder (λ folder. AnswersBy meaning_of_chain (OpensParent folder parent.now) result) }
    ensures linked { IfOk result (λ above. IsLinkedUp parent.now above.linked) }
    ensures served { IfOk result (λ above. All IsServed above.linked.files) }
    ensures moments { TouchesSafely (λ folder. IsOnWay (contents folder) parent.now) (H.hosted host.old) (H.hosted host.new) }
    ensures leaves { LeavesFollowed meaning_of_chain parent.now (H.hosted host.old) (H.hosted host.new) result }
{
    let linked = order(alloc, host, parent)?;
    let known = known_of(alloc, host, linked.files.as_slice())?;
    Ok(ParentChain { linked, known })
}

// Makes a child, once its parent's chain is opened.
fn child<H: Host, I: Ids>(
    alloc: Global,
    host: &mut H,
    ids: &mut I,
    name: &str,
    parent: &str,
    block: u32,
) -> Result<u64, NewFileRefusal>
    requires idle { WhereTold (H.hosted host.old).folder AllIdle }
    requires name { IsName name.now }
    requires parent { IsName parent.now }
    requires block { IsBlockSize (megabyte * block) }
    ensures ended { EndsMaking name.now (child_of parent.now block) (outside (H.hosted host.old) (I.drawn ids.old)) (outside (H.hosted host.new) (I.drawn ids.new)) result }
    ensures untold { OnOk result ((H.hosted host.old).folder ≡ None → (H.hosted host.new).folder ≡ None) }
    ensures typed { OnOk result (HasTypedParent (child_of parent.now block) (H.hosted host.old).folder) }
{
    let (own, above) = match names_of_both(alloc, name, parent) {
        Ok(names) => names,
        Err(AllocError) => return Err(NewFileRefusal::NoRoom),
    };
    match open_parent(alloc, host, &above) {
        Ok(ParentChain { linked, known }) => {
            let leaf = leaf_of(linked.files.as_slice());
            are_types(leaf);
            let shown = known.as_slice();
            let made = make_child(
                alloc,
                host,
                ids,
                &own,
                &leaf.name,
                &leaf.parts,
                shown,
                block,
            );
            of_file(made)
        }
        Err(refusal) => Err(NewFileRefusal::Parent(refusal)),
    }
}

// The names of a child and of its parent.
fn names_of_both(alloc: Global, name: &str, parent: &str) -> Result<(Name, Name), AllocError>
    requires name { IsName name.now }
    requires parent { IsName parent.now }
    ensures { IfOk result (λ names. (names.0 ≡ name.now) × (names.1 ≡ parent.now)) }
{
    let own = Name::from_checked(alloc, name)?;
    let above = Name::from_checked(alloc, parent)?;
    Ok((own, above))
}

/// Makes the new file of this name. Answers its length in bytes.
pub fn make_new<H: Host, I: Ids>(
    alloc: Global,
    host: &mut H,
    ids: &mut I,
    name: &str,
    file: NewFile<'_>,
) -> Result<u64, NewFileRefusal>
    requires idle { WhereTold (H.hosted host.old).folder AllIdle }
    requires name { IsName name.now }
    requires file { IsNewFile (plain_file file) }
    ensures ended { EndsMaking name.now (plain_file file.entry) (outside (H.hosted host.old) (I.drawn ids.old)) (outside (H.hosted host.new) (I.drawn ids.new)) result }
    ensures untold { OnOk result ((H.hosted host.old).folder ≡ None → (H.hosted host.new).folder ≡ None) }
    ensures typed { OnOk result (HasTypedParent (plain_file file.entry) (H.hosted host.old).folder) }
{
    let own = match Name::from_checked(alloc, name) {
        Ok(own) => own,
        Err(AllocError) => return Err(NewFileRefusal::NoRoom),
    };
    match file {
        NewFile::Fixed { sectors, block } => {
            let made = make_fixed(alloc, host, ids, &own, sectors, block);
            of_file(made)
        }
        NewFile::Dynamic { sectors, block } => {
            let made = make_dynamic(alloc, host, ids, &own, sectors, block);
            of_file(made)
        }
        NewFile::Child { parent, block } => child(alloc, host, ids, name, parent, block),
    }
}

/// Makes the new file of this name, and prints its line, or why it isn't made.
pub fn make<H: Host, I: Ids, K: Sink>(
    alloc: Global,
    host: &mut H,
    ids: &mut I,
    out: &mut K,
    name: &str,
    file: NewFile<'_>,
) -> Status
    requires idle { WhereTold (H.hosted host.old).folder AllIdle }
    requires name { IsName name.now }
    requires file { IsNewFile (plain_file file) }
    ensures { MakeEnded name.now (plain_file file.entry) (outside (H.hosted host.old) (I.drawn ids.old))
        (outside (H.hosted host.new) (I.drawn ids.new)) (K.written out.old) (K.written out.new) (K.faults out.old) (K.faults out.new) result }
{
    let made = make_new(alloc, host, ids, name, file);
    say_made(alloc, out, name, made)
}
