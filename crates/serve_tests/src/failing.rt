//! Calls of a store that fail while guests are served, and crashes at each moment: what is told, and what is left.

ghost use Rattle.link_rules.specs.Folders.{AllIdle};
ghost use Rattle.mem_store.specs.HostTold.{hosted_by};
ghost use Rattle.store_model.specs.Disk.{WhereTold};

use crate::common::{
    ask, ask_at, bytes_of, empty_host, host_with, ids_of, lines_of, run_script, script_done,
};
use mem_file::Pick;
use mem_store::{Crash, MemHost, MemSink};
use std::alloc::Global;
use std::process::Abort;
use std::sync::Wait;
use std::thread::Threads;
use vhdx_app::Status;

const SMALL_BLOCKS: &str = "make dynamic d.vhdx --sectors 2097152 --block 1";

const SERVE: &str = "serve d.vhdx --workers 0";

// Guest 1's second write is only made once its first one is flushed; guest 2 writes elsewhere.
const SCRIPT: &str =
    "1 write 0 1 aa\n2 write 4096 1 cc\n1 flush\n2 read 4096 1\n1 write 1 1 bb\n2 flush\n";

// A host after a script over d.vhdx in which this call of a store fails, and what was printed.
fn failed<R: Abort + Threads + Wait + Sync>(
    rt: &R,
    alloc: Global,
    call: u64,
) -> (MemHost, Status, MemSink) {
    let mut host = empty_host(alloc);
    let mut ids = ids_of(rt, alloc, &[]);
    script_done(rt, alloc, SMALL_BLOCKS, "", &mut host, &mut ids);
    host.failing_in_store = [call].to_vec(alloc).expect(rt, "no memory");
    let (status, out) = run_script(rt, alloc, SERVE, SCRIPT, &mut host, &mut ids);
    (host, status, out)
}

// Asks that what the failing call has left opens, and that the same script runs over it.
fn ask_unbroken<R: Abort + Threads + Wait + Sync>(
    rt: &R,
    alloc: Global,
    host: &MemHost,
    call: u64,
) {
    let bytes = bytes_of(host, "d.vhdx").expect(rt, "no file");
    let mut again = host_with(rt, alloc, "d.vhdx", bytes);
    let mut ids = ids_of(rt, alloc, &[[7; 16], [8; 16], [9; 16]]);
    let (status, _out) = run_script(rt, alloc, SERVE, SCRIPT, &mut again, &mut ids);
    ask_at(rt, status == Status::Done, call);
}

// Where a call of the store fails the run ends by it; where guests were served already, each of their calls is told.
#[test]
fn failing_calls(rt: HostRuntime) {
    let alloc = rt.alloc();
    let mut served = false;
    for call in 1..1000u64 {
        let (host, status, out) = failed(&rt, alloc, call);
        if status == Status::Done {
            ask(&rt, call > 20, "too few calls");
            break;
        }
        ask_at(&rt, status == Status::Fault, call);
        let text = std::str::from_utf8(out.bytes.as_slice()).expect(&rt, "no text");
        if text.starts_with("fault ") {
            ask_at(&rt, text.lines().count() == 1, call);
        } else {
            served = true;
            ask_at(&rt, lines_of(text, 1) == 3 && lines_of(text, 2) == 3, call);
        }
        ask_unbroken(&rt, alloc, &host, call);
    }
    ask(&rt, served, "never served");
}

// Whether this sector of the disk of d.vhdx begins with this byte, as a dump has it.
fn begins_with<R: Abort + Threads + Wait + Sync>(
    rt: &R,
    alloc: Global,
    host: &mut MemHost,
    sector: u64,
    byte: u8,
) -> bool
    requires { WhereTold (hosted_by host.old).folder AllIdle }
    ensures { WhereTold (hosted_by host.new).folder AllIdle }
{
    let mut ids = ids_of(rt, alloc, &[]);
    let dump = format!(in alloc; "dump d.vhdx {sector} 1").expect(rt, "no memory");
    let line = format!(in alloc; "{sector} {byte:02x}").expect(rt, "no memory");
    let out = script_done(rt, alloc, &dump, "", host, &mut ids);
    out.bytes.starts_with(line.as_bytes())
}

// Which of the three writes the disk of d.vhdx shows.
fn shown_writes<R: Abort + Threads + Wait + Sync>(
    rt: &R,
    alloc: Global,
    host: &mut MemHost,
) -> (bool, bool, bool)
    requires { WhereTold (hosted_by host.old).folder AllIdle }
{
    let first = begins_with(rt, alloc, host, 0, 0xAA);
    let second = begins_with(rt, alloc, host, 1, 0xBB);
    let other = begins_with(rt, alloc, host, 4096, 0xCC);
    (first, second, other)
}

// What a crash at this moment of the session leaves of the disk; None behind its end.
fn crashed<R: Abort + Threads + Wait + Sync>(
    rt: &R,
    alloc: Global,
    moment: u64,
    pick: Pick,
) -> Option<(bool, bool, bool)> {
    let mut host = empty_host(alloc);
    let mut ids = ids_of(rt, alloc, &[]);
    script_done(rt, alloc, SMALL_BLOCKS, "", &mut host, &mut ids);
    // The opening's store comes back first.
    let store = host.returned.checked_add(1).expect(rt, "no number");
    host.crash = Some(Crash {
        store,
        moment,
        pick,
    });
    let (status, _out) = run_script(rt, alloc, SERVE, SCRIPT, &mut host, &mut ids);
    ask(rt, status == Status::Done, "not done");
    let left = host.take_crashed()?;
    let bytes = bytes_of(&left, "d.vhdx").expect(rt, "no file");
    let mut again = host_with(rt, alloc, "d.vhdx", bytes);
    Some(shown_writes(rt, alloc, &mut again))
}

// At each moment guest 1's second write is there only once its first one is, which was flushed before; at the last one all are there.
fn each_crash<R: Abort + Threads + Wait + Sync>(rt: &R, alloc: Global, pick: Pick) -> bool {
    let mut all = false;
    for moment in 0..1000u64 {
        let Some((first, second, other)) = crashed(rt, alloc, moment, pick) else {
            ask(rt, moment > 10, "too few moments");
            return all;
        };
        ask(rt, first || !second, "the second write alone");
        all = first && second && other;
    }
    panic!(rt; "too many moments")
}

#[test]
fn crashes_of_a_session(rt: HostRuntime) {
    for pick in [Pick::Nothing, Pick::Everything, Pick::EverySecond] {
        let all = each_crash(&rt, rt.alloc(), pick);
        ask(&rt, all, "a write was lost");
    }
}
