//! Printing why a command wasn't done.

ghost use Rattle.std.specs.Prelude.{◌≡◌, ◌≤◌, codes, length};
ghost use Rattle.file_open.specs.Causes.{meaning_of};
ghost use Rattle.link_rules.specs.Causes as link;
ghost use Rattle.command_base.specs.Commands.{Reports};
ghost use Rattle.printing.specs.Answers.{fault_line};
ghost use Rattle.command_base.specs.Causes.{meaning_of_chain, meaning_of_dump, meaning_of_make, of_chain};
ghost use Rattle.printing.specs.Sent.{Sent};

use crate::refusal::{ChainRefusal, DumpRefusal};
use crate::text::{
    bad_locator_line, call_line, chain_too_long_line, geometry_line, linkage_line, loop_line,
    no_parent_name_line, taken_line, unfit_line, unopened_line,
};
use file_open::OpenRefusal;
use link_rules::LinkRefusal;
use make_file::MakeRefusal;
use printing::{Status, out_of_memory, refuse, send_told};
use std::alloc::Global;
use store_model::Sink;

/// Prints the line of a fault of this kind of thing, with that one's count.
pub fn fail<K: Sink>(out: &mut K, kind: &[u8], count: u64) -> Status
    requires { length kind.now ≤ 255 }
    ensures { Sent (K.written out.old) (K.written out.new) (K.faults out.old) (K.faults out.new) Status.Fault (fault_line kind.now count) result }
{
    match send_told(out, b"fault ", kind, count) {
        Ok(()) => Status::Fault,
        Err(_) => Status::Fault,
    }
}

/// Prints why the file of this name isn't opened, whatever its parent.
pub fn refuse_opening<K: Sink>(
    alloc: Global,
    out: &mut K,
    file: &str,
    refusal: OpenRefusal,
) -> Status
    ensures { Reports (of_chain (link.of_file file.now (meaning_of refusal))) (K.written out.old) (K.written out.new) (K.faults out.old)
        (K.faults out.new) result }
{
    match refusal {
        OpenRefusal::Host(fault) => fail(out, b"host", fault.count),
        OpenRefusal::Store(fault) => fail(out, b"store", fault.count),
        OpenRefusal::NoRoom => out_of_memory(out),
        _ => refuse(out, unopened_line(alloc, file, &refusal)),
    }
}

/// Prints why a leaf's name leads to no chain.
pub fn refuse_link<K: Sink>(alloc: Global, out: &mut K, refusal: LinkRefusal) -> Status
    ensures { Reports (of_chain (link.meaning_of refusal)) (K.written out.old) (K.written out.new) (K.faults out.old) (K.faults out.new) result }
{
    match refusal {
        LinkRefusal::Unopened { file, refusal } => {
            refuse_opening(alloc, out, file.as_str(), refusal)
        }
        LinkRefusal::BadLocator { file, entry } => {
            refuse(out, bad_locator_line(alloc, file.as_str(), entry))
        }
        LinkRefusal::NoParentName { file } => {
            refuse(out, no_parent_name_line(alloc, file.as_str()))
        }
        LinkRefusal::ChainLoop { file, name } => {
            refuse(out, loop_line(alloc, file.as_str(), name.as_str()))
        }
        LinkRefusal::ChainTooLong { file } => {
            refuse(out, chain_too_long_line(alloc, file.as_str()))
        }
        LinkRefusal::LinkageMismatch {
            file,
            wanted,
            second,
            found,
        } => {
            refuse(
                out,
                linkage_line(alloc, file.as_str(), &wanted, &second, found),
            )
        }
        LinkRefusal::GeometryMismatch {
            file,
            child,
            parent,
        } => { refuse(out, geometry_line(alloc, file.as_str(), &child, &parent)) }
        LinkRefusal::NoRoom => out_of_memory(out),
    }
}

/// Prints why the files of a chain aren't read.
pub fn refuse_chain<K: Sink>(alloc: Global, out: &mut K, refusal: ChainRefusal) -> Status
    ensures { Reports (meaning_of_chain refusal) (K.written out.old) (K.written out.new) (K.faults out.old) (K.faults out.new) result }
{
    match refusal {
        ChainRefusal::Unlinked(refusal) => refuse_link(alloc, out, refusal),
        ChainRefusal::Host(fault) => fail(out, b"host", fault.count),
        ChainRefusal::Store(fault) => fail(out, b"store", fault.count),
        ChainRefusal::NoRoom => out_of_memory(out),
    }
}

/// Prints why no sectors are shown.
pub fn refuse_dump<K: Sink>(alloc: Global, out: &mut K, refusal: DumpRefusal) -> Status
    ensures { Reports (meaning_of_dump refusal) (K.written out.old) (K.written out.new) (K.faults out.old) (K.faults out.new) result }
{
    match refusal {
        DumpRefusal::Chain(refusal) => refuse_chain(alloc, out, refusal),
        DumpRefusal::Range(refusal) => refuse(out, call_line(alloc, refusal)),
    }
}

/// Prints why the file of this name isn't made.
pub fn refuse_making<K: Sink>(
    alloc: Global,
    out: &mut K,
    name: &str,
    refusal: MakeRefusal,
) -> Status
    ensures { Reports (meaning_of_make name.now refusal) (K.written out.old) (K.written out.new) (K.faults out.old) (K.faults out.new) result }
{
    match refusal {
        MakeRefusal::NameTaken => refuse(out, taken_line(alloc, name)),
        MakeRefusal::IdUnfit { id } => refuse(out, unfit_line(alloc, id)),
        MakeRefusal::Host(fault) => fail(out, b"host", fault.count),
        MakeRefusal::Store(fault) => fail(out, b"store", fault.count),
        MakeRefusal::NoRoom => out_of_memory(out),
    }
}
