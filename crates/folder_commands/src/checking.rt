//! The command that lists what is wrong with a file.

ghost use Rattle.std.specs.Prelude.{◌≡◌, ◌≢◌, ◌⊎◌, ◌++◌, List, map};
ghost use Rattle.check_repair.specs.Answers.{MeanRules, copy_finding};
ghost use Rattle.check_repair.specs.Findings.{Breaks};
ghost use Rattle.link_rules.specs.Folders.{AllIdle};
ghost use Rattle.link_rules.specs.Touches.{TouchesSafely};
ghost use Rattle.parent_locator.specs.Listing.{fault_rule};
ghost use Rattle.store_model.specs.Disk.{WhereTold};
ghost use Rattle.command_base.specs.Checks.{IsCheckText, IsReplayedAt, OnlyLooks};
ghost use Rattle.command_base.specs.Commands.{Ended, SaysFindings};
ghost use Rattle.vhdx_format.specs.Rules.{BrokenRule};
ghost use Rattle.vx_base.specs.Names.{IsName};

use crate::findings::findings_text;
use check_repair::Findings;
use command_base::refuse_opening;
use named_file::check_named;
use printing::{Status, deliver, out_of_memory};
use std::alloc::{AllocError, Global};
use store_model::{Host, Sink};
use vx_base::{Name, NoRoom};

// Prints what was found wrong with the file of this name.
fn tell_findings<K: Sink>(alloc: Global, out: &mut K, name: &str, found: &Findings) -> Status
    ensures { (rules : List BrokenRule) → MeanRules found.now.rules.items rules
        → SaysFindings name.now (map Breaks (rules ++ map fault_rule found.now.locator.items) ++ map copy_finding found.now.copies.items)
        (K.written out.old) (K.written out.new) (K.faults out.old) (K.faults out.new) result }
{
    let text = match findings_text(alloc, name, found) {
        Ok(text) => text,
        Err(NoRoom) => return out_of_memory(out),
    };
    let lines = text.as_bytes();
    if lines.is_empty() {
        return deliver(out, Status::Done, b"clean\n");
    }
    deliver(out, Status::Findings, lines)
}

/// Prints what is wrong with the file of this name, or that nothing is.
pub fn check<H: Host, K: Sink>(alloc: Global, host: &mut H, out: &mut K, name: &str) -> Status
    requires idle { WhereTold (H.hosted host.old).folder AllIdle }
    requires name { IsName name.now }
    ensures ended { Ended (IsCheckText (H.hosted host.old) (H.hosted host.new) name.now) (H.hosted host.old).faults (H.hosted host.new).faults
        (K.written out.old) (K.written out.new) (K.faults out.old) (K.faults out.new) result }
    ensures idle { result ≢ Status.Fault → WhereTold (H.hosted host.old).folder (λ folder. WhereTold (H.hosted host.new).folder AllIdle) }
    ensures looks { OnlyLooks name.now (H.hosted host.old).folder (H.hosted host.new).folder }
    ensures moments { TouchesSafely (λ folder other. other ≡ name.now) (H.hosted host.old) (H.hosted host.new) }
    ensures replayed { (result ≡ Status.Done) ⊎ (result ≡ Status.Findings) → IsReplayedAt name.now (H.hosted host.old).folder (H.hosted host.new).folder }
{
    let own = match Name::from_checked(alloc, name) {
        Ok(own) => own,
        Err(AllocError) => return out_of_memory(out),
    };
    match check_named(alloc, host, &own) {
        Ok(found) => tell_findings(alloc, out, name, &found),
        Err(refusal) => refuse_opening(alloc, out, name, refusal),
    }
}
