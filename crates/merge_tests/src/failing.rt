//! Calls of a store that fail while a merge runs beside guests, and crashes at each moment: what is told, and what is left, from which the
//! merge goes on to its end.

ghost use Rattle.link_rules.specs.Folders.{AllIdle};
ghost use Rattle.mem_store.specs.HostTold.{hosted_by};
ghost use Rattle.store_model.specs.Disk.{WhereTold};

use crate::common::{
    DRAWN, DRAWN_LATER, LOOK, add, ask, ask_at, copy_of, empty_host, ids_of, lines_of, printed,
    run_script, says, script_done, serve_line, text_of,
};
use crate::merges::{Files, READS, chain, files_in, host_of};
use mem_file::Pick;
use mem_store::{MemHost, MemStore, Returned};
use std::alloc::Global;
use std::process::Abort;
use std::sync::Wait;
use std::thread::Threads;
use vhdx_app::Status;

// Guest 1's second write is only made once its first one is flushed; guest 2 writes elsewhere.
const SCRIPT: &str =
    "1 write 0 1 aa\n2 write 4097 1 cc\n1 flush\n2 read 4097 1\n1 write 1 1 bb\n2 flush\n";

// What is told of the writes.
const FIRST_DONE: &str = " 1 1 write 0 1 aa = done\n";

const FIRST_REFUSED: &str = " 1 1 write 0 1 aa = refused 38 ReadFault ";

const OTHER_DONE: &str = " 2 1 write 4097 1 cc = done\n";

// Of how many calls that fail, and of how many crashes, one is mended: what it leaves is merged to the end.
const MENDED: u64 = 16;

// The disks that may be left, each with which writes it has: the first of guest 1, its second, and that of guest 2.
static DISKS: [((bool, bool, bool), &str); 8] = [
    (
        (false, false, false),
        "1 read 0 2048 = 2560*00 512*33 512*55 1044992*00\n2 read 2048 2048 = 512*22 1048064*00\n3 read 4096 2048 = 512*44 1048064*00\n4 read 6144 2048 = 512*66 1048064*00\n",
    ),
    (
        (true, false, false),
        "1 read 0 2048 = 512*aa 2048*00 512*33 512*55 1044992*00\n2 read 2048 2048 = 512*22 1048064*00\n3 read 4096 2048 = 512*44 1048064*00\n4 read 6144 2048 = 512*66 1048064*00\n",
    ),
    (
        (false, true, false),
        "1 read 0 2048 = 512*00 512*bb 1536*00 512*33 512*55 1044992*00\n2 read 2048 2048 = 512*22 1048064*00\n3 read 4096 2048 = 512*44 1048064*00\n4 read 6144 2048 = 512*66 1048064*00\n",
    ),
    (
        (true, true, false),
        "1 read 0 2048 = 512*aa 512*bb 1536*00 512*33 512*55 1044992*00\n2 read 2048 2048 = 512*22 1048064*00\n3 read 4096 2048 = 512*44 1048064*00\n4 read 6144 2048 = 512*66 1048064*00\n",
    ),
    (
        (false, false, true),
        "1 read 0 2048 = 2560*00 512*33 512*55 1044992*00\n2 read 2048 2048 = 512*22 1048064*00\n3 read 4096 2048 = 512*44 512*cc 1047552*00\n4 read 6144 2048 = 512*66 1048064*00\n",
    ),
    (
        (true, false, true),
        "1 read 0 2048 = 512*aa 2048*00 512*33 512*55 1044992*00\n2 read 2048 2048 = 512*22 1048064*00\n3 read 4096 2048 = 512*44 512*cc 1047552*00\n4 read 6144 2048 = 512*66 1048064*00\n",
    ),
    (
        (false, true, true),
        "1 read 0 2048 = 512*00 512*bb 1536*00 512*33 512*55 1044992*00\n2 read 2048 2048 = 512*22 1048064*00\n3 read 4096 2048 = 512*44 512*cc 1047552*00\n4 read 6144 2048 = 512*66 1048064*00\n",
    ),
    (
        (true, true, true),
        "1 read 0 2048 = 512*aa 512*bb 1536*00 512*33 512*55 1044992*00\n2 read 2048 2048 = 512*22 1048064*00\n3 read 4096 2048 = 512*44 512*cc 1047552*00\n4 read 6144 2048 = 512*66 1048064*00\n",
    ),
];

// What an opened chain shows: which writes, as above, and whether the merge is done.
#[derive(Clone, Copy)]
struct Shown {
    first: bool,
    second: bool,
    other: bool,
    merged: bool,
}

const BEGUN: Shown = Shown {
    first: false,
    second: false,
    other: false,
    merged: false,
};

impl Shown {
    // Whether all is done.
    fn is_all(&self) -> bool {
        self.first && self.second && self.other && self.merged
    }

    // Whether each write that is shown is shown there too.
    fn is_within(&self, now: &Shown) -> bool {
        (now.first || !self.first) && (now.second || !self.second) && (now.other || !self.other)
    }
}

// The writes that a disk shows.
fn writes_in<R: Abort>(rt: &R, text: &str) -> (bool, bool, bool) {
    for (writes, disk) in &DISKS {
        if text == *disk {
            return *writes;
        }
    }
    panic!(rt; "another disk: {text}")
}

// Whether the chain's lines are those behind the merge of the file of this name.
fn merged_in<R: Abort>(rt: &R, name: &str, text: &str) -> bool {
    let count = text.lines().count();
    let by_leaf = text.starts_with("c.vhdx child ");
    let retired = text.starts_with("retired c.vhdx to b.vhdx\nb.vhdx child ");
    let merged = if name == "c.vhdx" {
        retired && count == 3
    } else {
        by_leaf && count == 2
    };
    ask(rt, merged || (by_leaf && count == 3), text);
    merged
}

fn look_at<R: Abort + Threads + Wait + Sync>(
    rt: &R,
    alloc: Global,
    name: &str,
    host: &mut MemHost,
) -> Shown
    requires { WhereTold (hosted_by host.old).folder AllIdle }
    ensures { WhereTold (hosted_by host.new).folder AllIdle }
{
    let disk = printed(rt, alloc, LOOK, READS, host);
    let info = printed(rt, alloc, "info c.vhdx", "", host);
    let (first, second, other) = writes_in(rt, text_of(rt, &disk));
    Shown {
        first,
        second,
        other,
        merged: merged_in(rt, name, text_of(rt, &info)),
    }
}

// Merges to the end what was left, or is refused where the file has left the chain. Gives what stands behind it.
fn end_merge<R: Abort + Threads + Wait + Sync>(
    rt: &R,
    alloc: Global,
    name: &str,
    merged: bool,
    host: &mut MemHost,
) -> Files
    requires { WhereTold (hosted_by host.old).folder AllIdle }
{
    let line = serve_line(rt, alloc, 1, name);
    let mut ids = ids_of(rt, alloc, &DRAWN_LATER);
    let (status, out) = run_script(rt, alloc, &line, "", host, &mut ids);
    let ended = if merged {
        status == Status::Refused && out.bytes.starts_with(b"refused 40 NotInChain ")
    } else {
        status == Status::Done && says(&out, "")
    };
    ask(rt, ended, "not merged to the end");
    files_in(rt, alloc, host)
}

// Opens what was left and merges it to the end, which changes nothing of the disk. Gives what it showed before.
fn mended<R: Abort + Threads + Wait + Sync>(
    rt: &R,
    alloc: Global,
    name: &str,
    left: &Files,
) -> Shown {
    let mut host = host_of(rt, alloc, left);
    let before = look_at(rt, alloc, name, &mut host);
    let files = end_merge(rt, alloc, name, before.merged, &mut host);
    let mut host = host_of(rt, alloc, &files);
    let after = look_at(rt, alloc, name, &mut host);
    let same = before.is_within(&after) && after.is_within(&before);
    ask(rt, same && after.merged, "another disk behind the merge");
    before
}

// Opens what was left, and where it is to be merged to the end does that too. Gives what it showed before.
fn shown_in<R: Abort + Threads + Wait + Sync>(
    rt: &R,
    alloc: Global,
    name: &str,
    left: &Files,
    mends: bool,
) -> Shown {
    if mends {
        mended(rt, alloc, name, left)
    } else {
        look_at(rt, alloc, name, &mut host_of(rt, alloc, left))
    }
}

// Whether the session is done though this call of a store is to fail. If it isn't, each call is told, once guests were served at all, and the
// fault leaves what was flushed, and, where it is tried, what can be merged to the end.
fn is_done<R: Abort + Threads + Wait + Sync>(
    rt: &R,
    alloc: Global,
    name: &str,
    files: &Files,
    call: u64,
    mends: bool,
) -> bool {
    let mut host = host_of(rt, alloc, files);
    host.failing_in_store = [call].to_vec(alloc).expect(rt, "no memory");
    let line = serve_line(rt, alloc, 2, name);
    let mut ids = ids_of(rt, alloc, &DRAWN);
    let (status, out) = run_script(rt, alloc, &line, SCRIPT, &mut host, &mut ids);
    let text = text_of(rt, &out);
    let done = status == Status::Done;
    ask_at(rt, done || status == Status::Fault, call);
    let told = if text.starts_with("fault ") {
        text.lines().count() == 1
    } else {
        lines_of(text, 1) == 3 && lines_of(text, 2) == 3
    };
    ask_at(rt, told, call);
    let left = files_in(rt, alloc, &host);
    let now = shown_in(rt, alloc, name, &left, mends);
    let first = now.first || !text.contains(" 1 2 flush = done\n") || !text.contains(FIRST_DONE);
    let other = now.other || !text.contains(" 2 3 flush = done\n") || !text.contains(OTHER_DONE);
    ask(rt, first && other, text);
    // The second write is there without the first one only where that was refused.
    ask(
        rt,
        now.first || !now.second || text.contains(FIRST_REFUSED),
        text,
    );
    ask(rt, !done || now.is_all(), text);
    done
}

// Asks it of every fourth call from this one on, up to the first that no session makes. Threads take their turns in any order, so that the number
// of calls differs from run to run.
fn failing_calls<R: Abort + Threads + Wait + Sync>(rt: &R, alloc: Global, name: &str, first: u64) {
    let host = chain(rt, alloc);
    let files = files_in(rt, alloc, &host);
    for turn in 0..2_500u64 {
        let call = turn.saturating_mul(4).saturating_add(first);
        if is_done(rt, alloc, name, &files, call, turn % MENDED == 0) {
            ask(rt, call > 60, "too few calls");
            return;
        }
    }
    panic!(rt; "too many calls")
}

#[test]
fn calls_1_5_9_of_a_leaf_merge_fail(rt: HostRuntime) {
    failing_calls(&rt, rt.alloc(), "c.vhdx", 1);
}

#[test]
fn calls_2_6_10_of_a_leaf_merge_fail(rt: HostRuntime) {
    failing_calls(&rt, rt.alloc(), "c.vhdx", 2);
}

#[test]
fn calls_3_7_11_of_a_leaf_merge_fail(rt: HostRuntime) {
    failing_calls(&rt, rt.alloc(), "c.vhdx", 3);
}

#[test]
fn calls_4_8_12_of_a_leaf_merge_fail(rt: HostRuntime) {
    failing_calls(&rt, rt.alloc(), "c.vhdx", 4);
}

#[test]
fn calls_1_5_9_of_a_merge_fail(rt: HostRuntime) {
    failing_calls(&rt, rt.alloc(), "b.vhdx", 1);
}

#[test]
fn calls_2_6_10_of_a_merge_fail(rt: HostRuntime) {
    failing_calls(&rt, rt.alloc(), "b.vhdx", 2);
}

#[test]
fn calls_3_7_11_of_a_merge_fail(rt: HostRuntime) {
    failing_calls(&rt, rt.alloc(), "b.vhdx", 3);
}

#[test]
fn calls_4_8_12_of_a_merge_fail(rt: HostRuntime) {
    failing_calls(&rt, rt.alloc(), "b.vhdx", 4);
}

// The session's store as it comes back, behind those of the openings: it tells what was done to the chain's files.
fn session<R: Abort + Threads + Wait + Sync>(
    rt: &R,
    alloc: Global,
    name: &str,
    files: &Files,
) -> MemStore {
    let mut host = host_of(rt, alloc, files);
    host.keep_returned();
    let line = serve_line(rt, alloc, 2, name);
    let mut ids = ids_of(rt, alloc, &DRAWN);
    script_done(rt, alloc, &line, SCRIPT, &mut host, &mut ids);
    let mut past = host.past.take().expect(rt, "no store is kept");
    ask(rt, 3 < past.len(), "no store of the session");
    let Returned { store, rest } = past.remove(3);
    let alone = rest.iter().all(|slot| slot.file.is_none());
    ask(rt, alone, "a file is no part of the chain");
    store
}

// What a crash at this moment of the session leaves.
fn crashed<R: Abort>(rt: &R, alloc: Global, store: &MemStore, moment: u64, pick: Pick) -> Files {
    ask(rt, moment <= store.order.len() as u64, "no such moment");
    let left = store.image(moment, pick).expect(rt, "no memory");
    files_in(rt, alloc, &left)
}

// Asks that a crash at each moment of the session leaves the disk and a chain from which the merge goes on. Gives what the last one showed.
fn each_crash<R: Abort + Threads + Wait + Sync>(
    rt: &R,
    alloc: Global,
    name: &str,
    store: &MemStore,
    pick: Pick,
) -> Shown {
    let mut last = BEGUN;
    let count = store.order.len() as u64;
    for moment in 0..count.saturating_add(1) {
        let left = crashed(rt, alloc, store, moment, pick);
        let now = shown_in(rt, alloc, name, &left, moment % MENDED == 0);
        // What was shown is still so, and the first write before the second one.
        ask(rt, last.is_within(&now), "a write is lost again");
        ask(rt, now.first || !now.second, "the second write alone");
        ask(rt, now.merged || !last.merged, "the merge is lost again");
        last = now;
    }
    last
}

// Asks it of crashes that leave these of the changes that weren't synced. The last one shows all.
fn ask_crashes<R: Abort + Threads + Wait + Sync>(
    rt: &R,
    alloc: Global,
    name: &str,
    picks: &[Pick],
) {
    let host = chain(rt, alloc);
    let files = files_in(rt, alloc, &host);
    let store = session(rt, alloc, name, &files);
    ask(rt, store.order.len() >= 40, "too few moments");
    for pick in picks {
        let shown = each_crash(rt, alloc, name, &store, *pick);
        ask(rt, shown.is_all(), "another end");
    }
}

#[test]
fn crashes_of_a_leaf_merge(rt: HostRuntime) {
    let picks = [Pick::Nothing, Pick::Everything];
    ask_crashes(&rt, rt.alloc(), "c.vhdx", &picks);
}

#[test]
fn crashes_of_a_merge(rt: HostRuntime) {
    let picks = [Pick::Nothing, Pick::Everything];
    ask_crashes(&rt, rt.alloc(), "b.vhdx", &picks);
}
