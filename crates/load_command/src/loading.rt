//! A load, from its first file to its three lines.

ghost use Rattle.std.specs.Prelude.{◌≡◌, ◌≢◌, ◌<◌, All, ℕ, List, Option, Some, None, IfErr, IfOk, OnOk, string_bytes};
ghost use Rattle.command_base.specs.Commands.{Ended};
ghost use Rattle.command_base.specs.Ends.{Ends};
ghost use Rattle.command_base.specs.Folders.{OnlyFollows};
ghost use Rattle.command_base.specs.Printed.{IsText, RefusesLeaf, ShowsFault};
ghost use Rattle.command_base.specs.Worlds.{world};
ghost use Rattle.link_rules.specs.Folders.{AllIdle, contents};
ghost use Rattle.link_rules.specs.Touches.{IsOnWay, TouchesSafely};
ghost use Rattle.load_command.specs.Commands.{load_name};
ghost use Rattle.load_command.specs.Growing.{HasStepped, HaveStepped};
ghost use Rattle.load_command.specs.Loads.{RunsLoad};
ghost use Rattle.load_command.specs.Stops.{IsLines, IsSummed, StopsSo, StopsWithin, WritesBelow};
ghost use Rattle.make_file.specs.Makes.{outside};
ghost use Rattle.store_model.specs.Disk.{WhereTold};

use crate::commands::{Command, load_commands};
use crate::names::{file_of, name_of};
use crate::serving::{serve_lines, unserved};
use crate::stop::{Stop, say_stop};
use crate::sum::sum_of;
use command_base::refuse_chain;
use folder_commands::make_new;
use load_calls::{counts_of, lines_text, load_lines, loads_end_alike, preparing_lines};
use printing::{Status, out_of_memory, say};
use serve_session::Tally;
use std::alloc::{AllocError, Global};
use std::sync::Wait;
use std::thread::Threads;
use store_model::{Gate, Host, Ids, Sink, Store};
use vx_base::{Name, NoRoom};

/// How many workers merge (profile).
const WORKERS: u32 = 3;

// Makes the file of this number.
fn make_file<H: Host, I: Ids>(
    alloc: Global,
    host: &mut H,
    ids: &mut I,
    file: u32,
) -> Result<(), Stop>
    requires idle { WhereTold (H.hosted host.old).folder AllIdle }
    ensures done { OnOk result ((seed : ℕ) → HasStepped seed (Command.Make file) (outside (H.hosted host.old) (I.drawn ids.old)) (outside (H.hosted host.new) (I.drawn ids.new)) None) }
    ensures stopped { IfErr result (λ stop. (seed : ℕ) → StopsSo seed (Command.Make file) (outside (H.hosted host.old) (I.drawn ids.old)) (outside (H.hosted host.new) (I.drawn ids.new)) stop) }
{
    match make_new(alloc, host, ids, name_of(file), file_of(file)) {
        Ok(_) => Ok(()),
        Err(refusal) => Err(Stop::Unmade { file, refusal }),
    }
}

// Makes the writes to the file of this number.
fn write_file<H: Host, R: Threads + Wait + Sync, I: Ids, G: Gate + Sync>(
    rt: &R,
    alloc: Global,
    host: &mut H,
    ids: &mut I,
    seed: u32,
    file: u32,
    gate: &G,
) -> Result<Tally, Stop>
where
    H::S: Send,
    <H::S as Store>::R: Send + Drop,
    requires idle { WhereTold (H.hosted host.old).folder AllIdle }
    requires file { file < 4 }
    ensures done { IfOk result (λ tally. HasStepped seed (Command.Write file) (outside (H.hosted host.old) (I.drawn ids.old)) (outside (H.hosted host.new) (I.drawn ids.new)) (Some tally)) }
    ensures stopped { IfErr result (StopsSo seed (Command.Write file) (outside (H.hosted host.old) (I.drawn ids.old)) (outside (H.hosted host.new) (I.drawn ids.new))) }
{
    let Ok(lines) = preparing_lines(alloc, seed, file) else {
        return Err(unserved());
    };
    serve_lines(
        rt,
        alloc,
        host,
        ids,
        name_of(file),
        0,
        None,
        lines.as_slice(),
        gate,
    )
}

// Makes the guests' calls, while workers merge.
fn run_guests<H: Host, R: Threads + Wait + Sync, I: Ids, G: Gate + Sync>(
    rt: &R,
    alloc: Global,
    host: &mut H,
    ids: &mut I,
    seed: u32,
    gate: &G,
) -> Result<Tally, Stop>
where
    H::S: Send,
    <H::S as Store>::R: Send + Drop,
    requires idle { WhereTold (H.hosted host.old).folder AllIdle }
    ensures done { IfOk result (λ tally. HasStepped seed Command.Run (outside (H.hosted host.old) (I.drawn ids.old)) (outside (H.hosted host.new) (I.drawn ids.new)) (Some tally)) }
    ensures stopped { IfErr result (StopsSo seed Command.Run (outside (H.hosted host.old) (I.drawn ids.old)) (outside (H.hosted host.new) (I.drawn ids.new))) }
{
    let Ok(lines) = load_lines(alloc, seed) else {
        return Err(unserved());
    };
    serve_lines(
        rt,
        alloc,
        host,
        ids,
        name_of(4),
        WORKERS,
        Some(name_of(2)),
        lines.as_slice(),
        gate,
    )
}

// Runs a command of a load. Answers what its calls came to, if it makes some.
fn run_one<H: Host, R: Threads + Wait + Sync, I: Ids, G: Gate + Sync>(
    rt: &R,
    alloc: Global,
    host: &mut H,
    ids: &mut I,
    seed: u32,
    command: Command,
    gate: &G,
) -> Result<Option<Tally>, Stop>
where
    H::S: Send,
    <H::S as Store>::R: Send + Drop,
    requires idle { WhereTold (H.hosted host.old).folder AllIdle }
    requires writes { WritesBelow 4 command }
    ensures done { IfOk result (HasStepped seed command (outside (H.hosted host.old) (I.drawn ids.old)) (outside (H.hosted host.new) (I.drawn ids.new))) }
    ensures stopped { IfErr result (StopsSo seed command (outside (H.hosted host.old) (I.drawn ids.old)) (outside (H.hosted host.new) (I.drawn ids.new))) }
{
    match command {
        Command::Make(file) => {
            make_file(alloc, host, ids, file)?;
            Ok(None)
        }
        Command::Write(file) => Ok(Some(write_file(rt, alloc, host, ids, seed, file, gate)?)),
        Command::Run => Ok(Some(run_guests(rt, alloc, host, ids, seed, gate)?)),
    }
}

// Runs these commands, one after the other, until one isn't done. Answers what the calls of the last one came to.
fn run_all<H: Host, R: Threads + Wait + Sync, I: Ids, G: Gate + Sync>(
    rt: &R,
    alloc: Global,
    host: &mut H,
    ids: &mut I,
    seed: u32,
    commands: &[Command],
    gate: &G,
) -> Result<Option<Tally>, Stop>
where
    H::S: Send,
    <H::S as Store>::R: Send + Drop,
    requires idle { WhereTold (H.hosted host.old).folder AllIdle }
    requires writes { All (WritesBelow 4) commands.now }
    ensures done { IfOk result (HaveStepped seed commands.now (outside (H.hosted host.old) (I.drawn ids.old)) None (outside (H.hosted host.new) (I.drawn ids.new))) }
    ensures stopped { IfErr result (StopsWithin seed commands.now (outside (H.hosted host.old) (I.drawn ids.old)) (outside (H.hosted host.new) (I.drawn ids.new))) }
{
    let mut heard = None;
    for command in commands {
        heard = run_one(rt, alloc, host, ids, seed, *command, gate)?;
    }
    Ok(heard)
}

// The three lines, by the sum of the disk and what the guests' calls came to.
fn text_of(alloc: Global, seed: u32, sum: u64, tally: Tally) -> Result<String, NoRoom>
    ensures { IfOk result (λ text. IsLines seed tally sum (string_bytes text)) }
{
    let lines = load_lines(alloc, seed)?;
    let counts = counts_of(lines.as_slice());
    Ok(lines_text(alloc, counts, sum, tally.seen)?)
}

// Sums up the disk of the last file's chain, and prints the three lines, by what the guests' calls came to.
fn show_load<H: Host, K: Sink>(
    alloc: Global,
    host: &mut H,
    out: &mut K,
    seed: u32,
    tally: Tally,
) -> Status
    requires idle { WhereTold (H.hosted host.old).folder AllIdle }
    ensures ended { Ended (IsText (IsSummed seed (H.hosted host.old).folder tally) (RefusesLeaf (H.hosted host.old).folder (load_name 4)) (ShowsFault (H.hosted host.old) (H.hosted host.new)))
        (H.hosted host.old).faults (H.hosted host.new).faults (K.written out.old) (K.written out.new) (K.faults out.old) (K.faults out.new) result }
    ensures idle { result ≢ Status.Fault → WhereTold (H.hosted host.old).folder (λ folder. WhereTold (H.hosted host.new).folder AllIdle) }
    ensures follows { OnlyFollows (load_name 4) (H.hosted host.old).folder (H.hosted host.new).folder }
    ensures moments { TouchesSafely (λ folder. IsOnWay (contents folder) (load_name 4)) (H.hosted host.old) (H.hosted host.new) }
{
    let leaf = match Name::from_checked(alloc, name_of(4)) {
        Ok(leaf) => leaf,
        Err(AllocError) => return out_of_memory(out),
    };
    match sum_of(alloc, host, &leaf) {
        Ok(sum) => say(out, Status::Done, text_of(alloc, seed, sum, tally)),
        Err(refusal) => refuse_chain(alloc, out, refusal),
    }
}

/// Makes the files of a load of this seed, each written before the next one is made, and the calls of its guests on the last one's disk while
/// workers merge the third one; and prints how many calls there were, the sum of the disk, and what the guests' reads saw. What isn't done stops
/// it, and is printed as the command of its own would.
pub fn load<H: Host, R: Threads + Wait + Sync, I: Ids, K: Sink, G: Gate + Sync>(
    rt: &R,
    alloc: Global,
    host: &mut H,
    ids: &mut I,
    out: &mut K,
    seed: u32,
    gate: &G,
) -> Status
where
    H::S: Send,
    <H::S as Store>::R: Send + Drop,
    requires idle { WhereTold (H.hosted host.old).folder AllIdle }
    ensures runs { (left : Option (List ℕ)) (source_faults : ℕ) → RunsLoad seed (world (H.hosted host.old) (I.drawn ids.old) left source_faults (K.written out.old) (K.faults out.old))
        (world (H.hosted host.new) (I.drawn ids.new) left source_faults (K.written out.new) (K.faults out.new)) result }
    ensures ends { (left : Option (List ℕ)) (source_faults : ℕ) → Ends (Unit {0}) (world (H.hosted host.old) (I.drawn ids.old) left source_faults (K.written out.old) (K.faults out.old))
        (world (H.hosted host.new) (I.drawn ids.new) left source_faults (K.written out.new) (K.faults out.new)) result }
{
    loads_end_alike();
    let commands = load_commands();
    match run_all(rt, alloc, host, ids, seed, &commands, gate) {
        Ok(Some(tally)) => show_load(alloc, host, out, seed, tally),
        Ok(None) => unreachable!(),
        Err(stop) => say_stop(alloc, out, stop),
    }
}
