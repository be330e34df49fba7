//! The commands that show what files hold: each prints its answer.

ghost use Rattle.std.specs.Prelude.{◌≡◌, ◌≢◌, ◌⊎◌};
ghost use Rattle.link_rules.specs.Folders.{AllIdle, contents};
ghost use Rattle.link_rules.specs.Touches.{IsOnWay, TouchesSafely};
ghost use Rattle.store_model.specs.Disk.{WhereTold};
ghost use Rattle.command_base.specs.Commands.{Ended};
ghost use Rattle.command_base.specs.Folders.{IsReplayedIn, OnlyFollows};
ghost use Rattle.command_base.specs.Printed.{IsDumpText, IsInfoText};
ghost use Rattle.vx_base.specs.Names.{IsName};

use crate::listing::info_text;
use crate::sectors::find;
use command_base::{refuse_dump, refuse_link};
use link_rules::order;
use printing::{Status, out_of_memory, say, show};
use std::alloc::{AllocError, Global};
use store_model::{Host, Sink};
use vx_base::Name;

/// Prints the lines of sectors of a leaf's disk, or why none are shown.
pub fn dump<H: Host, K: Sink>(
    alloc: Global,
    host: &mut H,
    out: &mut K,
    leaf: &str,
    first: u64,
    count: u64,
) -> Status
    requires idle { WhereTold (H.hosted host.old).folder AllIdle }
    requires name { IsName leaf.now }
    ensures ended { Ended (IsDumpText (H.hosted host.old) (H.hosted host.new) leaf.now first count) (H.hosted host.old).faults
        (H.hosted host.new).faults (K.written out.old) (K.written out.new) (K.faults out.old) (K.faults out.new) result }
    ensures idle { result ≢ Status.Fault → WhereTold (H.hosted host.old).folder (λ folder. WhereTold (H.hosted host.new).folder AllIdle) }
    ensures stays { OnlyFollows leaf.now (H.hosted host.old).folder (H.hosted host.new).folder }
    ensures moments { TouchesSafely (λ folder. IsOnWay (contents folder) leaf.now) (H.hosted host.old) (H.hosted host.new) }
    ensures replayed { (result ≡ Status.Done) ⊎ (result ≡ Status.Refused) → IsReplayedIn leaf.now (H.hosted host.old).folder (H.hosted host.new).folder }
{
    let name = match Name::from_checked(alloc, leaf) {
        Ok(name) => name,
        Err(AllocError) => return out_of_memory(out),
    };
    match find(alloc, host, &name, first, count) {
        Ok(sectors) => show(alloc, out, first, count, sectors.as_slice()),
        Err(refusal) => refuse_dump(alloc, out, refusal),
    }
}

/// Prints the lines of the files to which a leaf's name leads, or why it leads to none.
pub fn info<H: Host, K: Sink>(alloc: Global, host: &mut H, out: &mut K, leaf: &str) -> Status
    requires idle { WhereTold (H.hosted host.old).folder AllIdle }
    requires name { IsName leaf.now }
    ensures ended { Ended (IsInfoText (H.hosted host.old) (H.hosted host.new) leaf.now) (H.hosted host.old).faults (H.hosted host.new).faults
        (K.written out.old) (K.written out.new) (K.faults out.old) (K.faults out.new) result }
    ensures idle { result ≢ Status.Fault → WhereTold (H.hosted host.old).folder (λ folder. WhereTold (H.hosted host.new).folder AllIdle) }
    ensures stays { OnlyFollows leaf.now (H.hosted host.old).folder (H.hosted host.new).folder }
    ensures moments { TouchesSafely (λ folder. IsOnWay (contents folder) leaf.now) (H.hosted host.old) (H.hosted host.new) }
    ensures replayed { (result ≡ Status.Done) ⊎ (result ≡ Status.Refused) → IsReplayedIn leaf.now (H.hosted host.old).folder (H.hosted host.new).folder }
{
    let name = match Name::from_checked(alloc, leaf) {
        Ok(name) => name,
        Err(AllocError) => return out_of_memory(out),
    };
    match order(alloc, host, &name) {
        Ok(linked) => say(out, Status::Done, info_text(alloc, &linked)),
        Err(refusal) => refuse_link(alloc, out, refusal),
    }
}
