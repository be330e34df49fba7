//! Sessions of a load.

ghost use Rattle.command_base.specs.declared.refusal.ChainRefusal.TheVariants as chain;
ghost use Rattle.std.specs.Prelude.{◌≡◌, ◌≤◌, ◌^◌, Err, IfErr, IfOk, IfSome, None, Ok, length, option_map};
ghost use Rattle.steps_command.specs.declared.refusal.StepsRefusal.TheVariants as steps;
ghost use Rattle.link_rules.specs.Folders.{AllIdle};
ghost use Rattle.load_command.specs.Stops.{EndsBadly, EndsServing, EndsWell, HasServed, is_done_run};
ghost use Rattle.make_file.specs.Makes.{outside};
ghost use Rattle.store_model.specs.Disk.{WhereTold};
ghost use Rattle.vx_base.specs.Names.{IsName};

use crate::stop::Stop;
use command_base::ChainRefusal;
use script::Line;
use serve_command::serve_leaf;
use serve_session::{MergeRun, Tally};
use std::alloc::{AllocError, Global};
use std::sync::Wait;
use std::thread::Threads;
use steps_command::{StepsRefusal, names_in};
use store_model::{Gate, Host, Ids, Store};

/// No session began, as memory ran out.
pub fn unserved() -> Stop
    ensures { result ≡ Stop.Unserved (Err (steps.Chain chain.NoRoom)) }
{
    Stop::Unserved(Err(StepsRefusal::Chain(ChainRefusal::NoRoom)))
}

// Whether a session ended with status 0.
fn is_done(run: &MergeRun) -> bool
    ensures { result ≡ is_done_run run.now }
{
    let run_ended = run.run.transcript.is_ok() && run.run.fault.is_none() && run.run.closed.is_ok();
    run_ended && run.unread == 0 && run.merged.is_ok()
}

// What the calls of a session that ran came to, where it ended with status 0 and none was refused.
fn judge_run(run: MergeRun) -> Result<Tally, Stop>
    ensures well { IfOk result (λ tally. EndsWell (Ok run) tally × (tally.refused ≡ None)) }
    ensures badly { IfErr result (EndsBadly (Ok run)) }
{
    if !is_done(&run) {
        return Err(Stop::Unserved(Ok(run)));
    }
    let tally = run.tally;
    match tally.refused {
        None => Ok(tally),
        Some(refusal) => Err(Stop::Call(refusal)),
    }
}

// The same of a session, if one began.
fn judge(run: Result<MergeRun, StepsRefusal>) -> Result<Tally, Stop>
    ensures well { IfOk result (λ tally. EndsWell run tally × (tally.refused ≡ None)) }
    ensures badly { IfErr result (EndsBadly run) }
{
    match run {
        Ok(run) => judge_run(run),
        Err(refusal) => Err(Stop::Unserved(Err(refusal))),
    }
}

/// Makes the calls of these lines on the disk of the chain to which a leaf's name leads, with the merge of the file of a name by so many workers,
/// if a name is given. Answers what they came to.
pub fn serve_lines<H: Host, R: Threads + Wait + Sync, I: Ids, G: Gate + Sync>(
    rt: &R,
    alloc: Global,
    host: &mut H,
    ids: &mut I,
    leaf: &str,
    workers: u32,
    merge: Option<&str>,
    lines: &[Line],
    gate: &G,
) -> Result<Tally, Stop>
where
    H::S: Send,
    <H::S as Store>::R: Send + Drop,
    requires idle { WhereTold (H.hosted host.old).folder AllIdle }
    requires name { IsName leaf.now }
    requires merge { IfSome (option_map (λ s. s.now) merge) IsName }
    requires workers { workers ≤ 64 }
    requires lines { length lines.now ≤ 2 ^ 20 }
    ensures served { IfOk result (HasServed leaf.now (option_map (λ s. s.now) merge.entry) lines.now (outside (H.hosted host.old) (I.drawn ids.old)) (outside (H.hosted host.new) (I.drawn ids.new))) }
    ensures stopped { IfErr result (EndsServing leaf.now (option_map (λ s. s.now) merge.entry) lines.now (outside (H.hosted host.old) (I.drawn ids.old)) (outside (H.hosted host.new) (I.drawn ids.new))) }
{
    let (leaf, source) = match names_in(alloc, leaf, merge) {
        Ok(names) => names,
        Err(AllocError) => return Err(unserved()),
    };
    judge(serve_leaf(rt, alloc, host, ids, &leaf, workers, &source, lines, gate))
}
