//! The command that repairs a file.

ghost use Rattle.std.specs.Prelude.{◌≡◌, ◌≢◌, ◌≤◌, MatchResult, length};
ghost use Rattle.link_rules.specs.Folders.{AllIdle};
ghost use Rattle.make_file.specs.Makes.{outside};
ghost use Rattle.named_file.specs.Repairs.{OnlyRepairs, RepairsSafely};
ghost use Rattle.printing.specs.Sent.{Sent};
ghost use Rattle.store_model.specs.Disk.{WhereTold};
ghost use Rattle.command_base.specs.Causes.{meaning_of_repair};
ghost use Rattle.command_base.specs.Checks.{IsReplayedAt};
ghost use Rattle.command_base.specs.Commands.{Ended, Reports};
ghost use Rattle.folder_commands.specs.Repairs.{DrawsAtMostOne, IsRepairText, repaired_line};
ghost use Rattle.vx_base.specs.Names.{IsName};

use command_base::{fail, refuse_opening, unfit_line};
use file_repair::RepairRefusal;
use named_file::repair_named;
use printing::{Status, out_of_memory, refuse, send_named};
use std::alloc::{AllocError, Global};
use store_model::{Host, Ids, Sink};
use vx_base::Name;

// Prints the line of the file of this name that was repaired.
fn repaired_said<K: Sink>(out: &mut K, name: &str) -> Status
    requires { length name.now ≤ 255 }
    ensures { Sent (K.written out.old) (K.written out.new) (K.faults out.old) (K.faults out.new) Status.Done (repaired_line name.now) result }
{
    match send_named(out, b"repaired ", name.as_bytes()) {
        Ok(()) => Status::Done,
        Err(_) => Status::Fault,
    }
}

// Prints why the file of this name isn't repaired.
fn refuse_repair<K: Sink>(alloc: Global, out: &mut K, name: &str, refusal: RepairRefusal) -> Status
    ensures { Reports (meaning_of_repair name.now refusal) (K.written out.old) (K.written out.new) (K.faults out.old) (K.faults out.new) result }
{
    match refusal {
        RepairRefusal::Open(refusal) => refuse_opening(alloc, out, name, refusal),
        RepairRefusal::IdUnfit { id } => refuse(out, unfit_line(alloc, id)),
        RepairRefusal::Store(fault) => fail(out, b"store", fault.count),
        RepairRefusal::NoRoom => out_of_memory(out),
    }
}

/// Repairs the file of this name, and prints its line, or why it isn't repaired.
pub fn repair<H: Host, I: Ids, K: Sink>(
    alloc: Global,
    host: &mut H,
    ids: &mut I,
    out: &mut K,
    name: &str,
) -> Status
    requires idle { WhereTold (H.hosted host.old).folder AllIdle }
    requires name { IsName name.now }
    ensures ended { Ended (IsRepairText name.now (outside (H.hosted host.old) (I.drawn ids.old)) (outside (H.hosted host.new) (I.drawn ids.new)))
        (H.hosted host.old).faults (H.hosted host.new).faults (K.written out.old) (K.written out.new) (K.faults out.old) (K.faults out.new) result }
    ensures idle { result ≢ Status.Fault → WhereTold (H.hosted host.old).folder (λ folder. WhereTold (H.hosted host.new).folder AllIdle) }
    ensures only { OnlyRepairs name.now (H.hosted host.old).folder (H.hosted host.new).folder }
    ensures moments { RepairsSafely name.now (H.hosted host.old) (H.hosted host.new) }
    ensures kept { result ≡ Status.Refused → IsReplayedAt name.now (H.hosted host.old).folder (H.hosted host.new).folder }
    ensures drawn { DrawsAtMostOne (I.drawn ids.old) (I.drawn ids.new) }
{
    let own = match Name::from_checked(alloc, name) {
        Ok(own) => own,
        Err(AllocError) => return out_of_memory(out),
    };
    match repair_named(alloc, host, &own, ids) {
        Ok(()) => repaired_said(out, name),
        Err(refusal) => refuse_repair(alloc, out, name, refusal),
    }
}
