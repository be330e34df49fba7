//! The files of a chain, lent together as one store.

ghost use Rattle.std.specs.Prelude.{◌≡◌, ◌≤◌, ◌<◌, ◌^◌, All, IfErr, IfOk, OnOk, length};
ghost use Rattle.chain_model.specs.Members.{NoneTwice};
ghost use Rattle.link_rules.specs.Chains as chains;
ghost use Rattle.link_rules.specs.Folders.{AllIdle, contents};
ghost use Rattle.link_rules.specs.Lines.{BeginsWith, IsLine};
ghost use Rattle.store_model.specs.Disk.{WhereTold};
ghost use Rattle.command_base.specs.Causes.{LeavesStore, meaning_of_chain};
ghost use Rattle.command_base.specs.Commands.{AreOpened, AreShort, Lends, LendsNone};

use crate::refusal::ChainRefusal;
use link_rules::LinkedFile;
use std::alloc::Global;
use store_model::{Host, Store};
use vx_base::{Names, NoRoom};

/// A longer file isn't read: the places that its log may name end here.
const MOST_LEN: u64 = 1 << 63;

/// The first file of a chain.
pub fn leaf_of(files: &[LinkedFile]) -> &LinkedFile
    requires { IsLine files.now }
    ensures { BeginsWith result.now files.now }
{
    match files {
        [leaf, ..] => leaf,
        [] => unreachable!(),
    }
}

/// The names of files.
pub fn names_of(alloc: Global, files: &[LinkedFile]) -> Result<Names, NoRoom>
    ensures { IfOk result (λ names. names ≡ chains.names_of files.now) }
{
    let mut names = Names::new(alloc);
    for file in files {
        names.push(file.name.try_clone(alloc)?)?;
    }
    Ok(names)
}

/// Lends the files of a chain as one store, numbered from the leaf on.
pub fn attach<H: Host>(
    alloc: Global,
    host: &mut H,
    files: &[LinkedFile],
) -> Result<H::S, ChainRefusal>
    requires idle { WhereTold (H.hosted host.old).folder AllIdle }
    requires few { length files.now ≤ chains.most_files }
    requires once { NoneTwice (chains.names_of files.now) }
    requires opened { WhereTold (H.hosted host.old).folder (λ folder. AreOpened (contents folder) files.now) }
    ensures ok { IfOk result (λ store. Lends (chains.names_of files.now) (H.hosted host.old) (H.hosted host.new) (H.S.disk store)) }
    ensures err { IfErr result (λ refusal. LendsNone (H.hosted host.old) (H.hosted host.new) (meaning_of_chain refusal)) }
{
    let names = names_of(alloc, files)?;
    Ok(host.attach(names.as_slice())?)
}

/// Whether the store's files, so many, are short enough to be read. One that isn't is answered by want of memory.
pub fn check_lengths<S: Store>(store: &mut S, count: u32) -> Result<(), ChainRefusal>
    requires { count ≤ (S.disk store.old).files }
    ensures short { OnOk result (WhereTold (S.disk store.old).told (AreShort count)) }
    ensures store { LeavesStore (S.disk store.old) (S.disk store.new) result }
{
    for number in 0..count {
        if store.len(number)? > MOST_LEN {
            return Err(ChainRefusal::NoRoom);
        }
    }
    Ok(())
}
