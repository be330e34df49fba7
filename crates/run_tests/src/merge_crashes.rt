//! Merges over files in memory that a crash ends, or in which a call fails: what is left, from which the merge goes on to its end.

ghost use Rattle.link_rules.specs.Folders.{AllIdle};
ghost use Rattle.mem_store.specs.HostTold.{hosted_by};
ghost use Rattle.store_model.specs.Disk.{WhereTold};

use crate::common::{
    Case, add, ask, ask_text, bytes_of, empty_host, ids_of, is_told, listed, prepare, run_script,
    says, script_done, stands,
};
use mem_file::Pick;
use mem_store::{Crash, MemHost, MemIds, MemStore, Returned};
use std::alloc::Global;
use std::process::Abort;
use std::sync::Wait;
use std::thread::Threads;
use vhdx_app::Status;

/// The script of a merge that goes to its end, and what it prints.
pub const TO_THE_END: &str = "copy\nfinish\n";

pub const ENDED: &str = "- copy = done\n- finish = done\n";

// What a session with a merge draws, at most.
pub const DRAWN: [[u8; 16]; 8] = [
    [0x11; 16], [0x12; 16], [0x13; 16], [0x14; 16], [0x15; 16], [0x16; 16], [0x17; 16], [0x18; 16],
];

// The same of a later one.
pub const DRAWN_LATER: [[u8; 16]; 8] = [
    [0x21; 16], [0x22; 16], [0x23; 16], [0x24; 16], [0x25; 16], [0x26; 16], [0x27; 16], [0x28; 16],
];

/// How a session is refused that draws zeros, or the first one again.
pub const UNFIT_ZERO: &str = "refused 44 IdUnfit {00000000-0000-0000-0000-000000000000}\n";

pub const UNFIT_FIRST: &str = "refused 44 IdUnfit {11111111-1111-1111-1111-111111111111}\n";

/// What stands around the identifier in a line of a file.
pub type Line = [&'static str; 2];

/// A merge in the chain of c.vhdx, and a session that makes it.
#[derive(Clone, Copy)]
pub struct Merging {
    /// The lines that make the chain, with their scripts.
    pub made: &'static [(&'static str, &'static str)],
    /// How many files are opened before the session starts.
    pub opened: usize,
    /// The line that starts the session, and how it is refused where the source has left the chain.
    pub line: &'static str,
    pub gone: &'static str,
    /// The session's script, whose first two lines are a write of 512 bytes and a flush; what it prints up to there, and in all.
    pub script: &'static str,
    pub flushed: &'static str,
    pub finished: &'static str,
    /// How many bytes were written, and the disk's first two stripes where they are; the last with all.
    pub disks: &'static [(u64, &'static str)],
    /// The lines of the chain's files before, and once the source has left it.
    pub whole: &'static [Line],
    pub merged: &'static [Line],
    /// What the last change of the leaf's file takes away, and where it stands.
    pub last: (usize, &'static [u8]),
}

impl Merging {
    // How many bytes its session writes.
    fn all(&self) -> u64 {
        match self.disks {
            [.., (written, _)] => *written,
            [] => 0,
        }
    }
}

// A chain to be merged.
fn chain<R: Abort + Threads + Wait + Sync>(rt: &R, alloc: Global, of: &Merging) -> MemHost
    ensures { WhereTold (hosted_by result).folder AllIdle }
{
    let mut host = empty_host(alloc);
    let mut ids = ids_of(rt, alloc, &[]);
    prepare(rt, alloc, of.made, &mut host, &mut ids);
    host
}

/// The bytes of the chain's files.
struct ChainBytes {
    base: Vec<u8>,
    /// Nothing where there is no such file.
    middle: Vec<u8>,
    leaf: Vec<u8>,
}

impl Drop for ChainBytes {
    fn drop(self) {
        let ChainBytes {
            base: _,
            middle: _,
            leaf: _,
        } = self;
    }
}

// A copy of the file of this name; nothing where there is none.
fn copy_of<R: Abort>(rt: &R, alloc: Global, host: &MemHost, name: &str) -> Vec<u8> {
    let bytes = bytes_of(host, name).unwrap_or(&[]);
    bytes.to_vec(alloc).expect(rt, "no memory")
}

// What stands in the host.
fn held_bytes<R: Abort>(rt: &R, alloc: Global, host: &MemHost) -> ChainBytes {
    ChainBytes {
        base: copy_of(rt, alloc, host, "b.vhdx"),
        middle: copy_of(rt, alloc, host, "m.vhdx"),
        leaf: copy_of(rt, alloc, host, "c.vhdx"),
    }
}

// Puts the file between the leaf and the base into the host, where there is one.
fn add_middle<R: Abort>(rt: &R, alloc: Global, host: &mut MemHost, bytes: &[u8])
    requires { WhereTold (hosted_by host.old).folder AllIdle }
    ensures { WhereTold (hosted_by host.new).folder AllIdle }
{
    if !bytes.is_empty() {
        add(rt, alloc, host, "m.vhdx", bytes);
    }
}

// A host of these files.
fn host_of<R: Abort>(rt: &R, alloc: Global, files: &ChainBytes) -> MemHost
    ensures { WhereTold (hosted_by result).folder AllIdle }
{
    let mut host = empty_host(alloc);
    add(rt, alloc, &mut host, "b.vhdx", &files.base);
    add_middle(rt, alloc, &mut host, &files.middle);
    add(rt, alloc, &mut host, "c.vhdx", &files.leaf);
    host
}

fn are_same(files: &ChainBytes, others: &ChainBytes) -> bool {
    files.base.as_slice() == others.base.as_slice()
        && files.middle.as_slice() == others.middle.as_slice()
        && files.leaf.as_slice() == others.leaf.as_slice()
}

/// Asks that each case over a chain ends as it says.
pub fn each_is_told<R: Abort + Threads + Wait + Sync>(
    rt: &R,
    alloc: Global,
    of: &Merging,
    cases: &[Case],
) {
    for case in cases {
        let mut host = chain(rt, alloc, of);
        let mut ids = ids_of(rt, alloc, &DRAWN);
        let told = is_told(rt, alloc, case, &mut host, &mut ids);
        ask(rt, told, case.text);
    }
}

// Whether a merge that draws these is refused so, and no file changed.
fn is_refused<R: Abort + Threads + Wait + Sync>(
    rt: &R,
    alloc: Global,
    of: &Merging,
    drawn: &[[u8; 16]],
    text: &str,
) -> bool {
    let mut host = chain(rt, alloc, of);
    let before = held_bytes(rt, alloc, &host);
    let mut ids = ids_of(rt, alloc, drawn);
    let (status, out) = run_script(rt, alloc, of.line, TO_THE_END, &mut host, &mut ids);
    let after = held_bytes(rt, alloc, &host);
    status == Status::Refused && says(&out, text) && are_same(&after, &before)
}

/// Asks that merges are refused so in which one of the identifiers that are drawn is of another byte.
pub fn each_unfit_is_refused<R: Abort + Threads + Wait + Sync>(
    rt: &R,
    alloc: Global,
    of: &Merging,
    rows: &[(usize, u8, &str)],
) {
    for (place, byte, text) in rows {
        let mut drawn = DRAWN;
        if let Some(unfit) = drawn.get_mut(*place) {
            *unfit = [*byte; 16];
        }
        let refused = is_refused(rt, alloc, of, &drawn, text);
        ask(rt, refused, text);
    }
}

fn written_in<R: Abort>(rt: &R, of: &Merging, text: &[u8]) -> u64 {
    for (written, disk) in of.disks {
        if text == disk.as_bytes() {
            return *written;
        }
    }
    panic!(rt; "another disk")
}

// Whether the text is these lines, each with an identifier of 38 bytes between its two parts.
fn are_lines(text: &[u8], lines: &[Line]) -> bool {
    let mut at = 0usize;
    for [front, back] in lines {
        let behind = at.saturating_add(front.len()).saturating_add(38);
        let told = stands(text, at, front.as_bytes()) && stands(text, behind, back.as_bytes());
        if !told {
            return false;
        }
        at = behind.saturating_add(back.len());
    }
    at == text.len()
}

fn merged_in<R: Abort>(rt: &R, of: &Merging, text: &[u8]) -> bool {
    if are_lines(text, of.whole) {
        return false;
    }
    if are_lines(text, of.merged) {
        return true;
    }
    panic!(rt; "another chain")
}

/// What an opened chain shows: how many of the session's bytes are written, and whether the source has left it.
#[derive(Clone, Copy, PartialEq)]
struct Shown {
    written: u64,
    merged: bool,
}

const BEGUN: Shown = Shown {
    written: 0,
    merged: false,
};

fn look_at<R: Abort + Threads + Wait + Sync>(
    rt: &R,
    alloc: Global,
    of: &Merging,
    host: &mut MemHost,
    ids: &mut MemIds,
) -> Shown
    requires { WhereTold (hosted_by host.old).folder AllIdle }
    ensures { WhereTold (hosted_by host.new).folder AllIdle }
{
    let line = "steps c.vhdx --read-only";
    let script = "read 0 2048\nread 2048 2048\n";
    let disk = script_done(rt, alloc, line, script, host, ids);
    let info = script_done(rt, alloc, "info c.vhdx", "", host, ids);
    Shown {
        written: written_in(rt, of, &disk.bytes),
        merged: merged_in(rt, of, &info.bytes),
    }
}

// Merges to the end what was left, or is refused where the source has left the chain. Gives what stands behind it.
fn end_merge<R: Abort + Threads + Wait + Sync>(
    rt: &R,
    alloc: Global,
    of: &Merging,
    merged: bool,
    host: &mut MemHost,
    ids: &mut MemIds,
) -> ChainBytes
    requires { WhereTold (hosted_by host.old).folder AllIdle }
{
    let (status, text) = if merged {
        (Status::Refused, of.gone)
    } else {
        (Status::Done, ENDED)
    };
    let (met, out) = run_script(rt, alloc, of.line, TO_THE_END, host, ids);
    let ended = met == status && says(&out, text);
    ask(rt, ended, "not merged to the end");
    held_bytes(rt, alloc, host)
}

// Opens what was left and merges it to the end, which changes nothing of the disk. Gives what it showed before.
fn mended<R: Abort + Threads + Wait + Sync>(
    rt: &R,
    alloc: Global,
    of: &Merging,
    left: &ChainBytes,
) -> Shown {
    let mut host = host_of(rt, alloc, left);
    let mut ids = ids_of(rt, alloc, &DRAWN_LATER);
    let before = look_at(rt, alloc, of, &mut host, &mut ids);
    let files = end_merge(rt, alloc, of, before.merged, &mut host, &mut ids);
    let mut host = host_of(rt, alloc, &files);
    let after = look_at(rt, alloc, of, &mut host, &mut ids);
    let same = after.merged && after.written == before.written;
    ask(rt, same, "another disk behind the merge");
    before
}

// The session's store as it comes back, behind those of the openings: it tells what was done to the chain's files.
fn session<R: Abort + Threads + Wait + Sync>(
    rt: &R,
    alloc: Global,
    of: &Merging,
    files: &ChainBytes,
) -> MemStore {
    let mut host = host_of(rt, alloc, files);
    host.keep_returned();
    let mut ids = ids_of(rt, alloc, &DRAWN);
    let out = script_done(rt, alloc, of.line, of.script, &mut host, &mut ids);
    ask_text(rt, &out, of.finished);
    let mut past = host.past.take().expect(rt, "no store is kept");
    ask(rt, of.opened < past.len(), "no store of the session");
    let Returned { store, rest } = past.remove(of.opened);
    let alone = rest.iter().all(|slot| slot.file.is_none());
    ask(rt, alone, "a file is no part of the chain");
    store
}

// What a crash at this moment of the session leaves.
fn crashed<R: Abort>(
    rt: &R,
    alloc: Global,
    store: &MemStore,
    moment: u64,
    pick: Pick,
) -> ChainBytes {
    ask(rt, moment <= store.order.len() as u64, "no such moment");
    let left = store.image(moment, pick).expect(rt, "no memory");
    held_bytes(rt, alloc, &left)
}

// Asks that what was shown at a moment is still so, that the first write is there once the flush is done, and each once the merge is.
fn goes_on<R: Abort>(rt: &R, of: &Merging, before: Shown, now: Shown, flushed: bool) {
    let lost = now.written < before.written || (before.merged && !now.merged);
    ask(rt, !lost, "lost again");
    let lost = (flushed && now.written < 512) || (now.merged && now.written != of.all());
    ask(rt, !lost, "a flushed write is lost");
}

// The files of a new chain, which is whole and can be merged.
fn new_files<R: Abort + Threads + Wait + Sync>(rt: &R, alloc: Global, of: &Merging) -> ChainBytes {
    let host = chain(rt, alloc, of);
    let files = held_bytes(rt, alloc, &host);
    let begun = mended(rt, alloc, of, &files) == BEGUN;
    ask(rt, begun, "another chain before the merge");
    files
}

// The moment at which the base grows beyond this: the copy has begun, so that the flush is done.
fn moment_of_copy<R: Abort>(rt: &R, alloc: Global, store: &MemStore, len: usize) -> u64 {
    for moment in 0..store.order.len() {
        let left = crashed(rt, alloc, store, moment as u64, Pick::Everything);
        if left.base.len() > len {
            return moment as u64;
        }
    }
    panic!(rt; "no copy")
}

// Asks that each crash of the session leaves the disk and a chain from which the merge goes on to its end, the flush being done from a
// moment on. Gives what the last one showed, and whether the merge was done while the last change stood in the log alone.
fn each_crash<R: Abort + Threads + Wait + Sync>(
    rt: &R,
    alloc: Global,
    of: &Merging,
    store: &MemStore,
    flushed: u64,
    pick: Pick,
) -> (Shown, bool) {
    let (at, bytes) = of.last;
    let mut image = crashed(rt, alloc, store, 0, pick);
    let mut last = mended(rt, alloc, of, &image);
    let mut logged = false;
    for before in 0..store.order.len() {
        let moment = (before as u64).saturating_add(1);
        let left = crashed(rt, alloc, store, moment, pick);
        // Where no byte is another one than at the moment before, all is as it was.
        let now = if are_same(&left, &image) {
            last
        } else {
            mended(rt, alloc, of, &left)
        };
        goes_on(rt, of, last, now, moment >= flushed);
        logged |= now.merged && stands(&left.leaf, at, bytes);
        last = now;
        image = left;
    }
    (last, logged)
}

/// Asks it of crashes that leave these of the changes that weren't synced. The last one shows the whole merge.
pub fn each_pick<R: Abort + Threads + Wait + Sync>(
    rt: &R,
    alloc: Global,
    of: &Merging,
    picks: &[Pick],
) {
    let files = new_files(rt, alloc, of);
    let store = session(rt, alloc, of, &files);
    ask(rt, store.order.len() >= 40, "too few moments");
    let flushed = moment_of_copy(rt, alloc, &store, files.base.len());
    for pick in picks {
        let (shown, logged) = each_crash(rt, alloc, of, &store, flushed, *pick);
        let ended = shown.merged && shown.written == of.all() && logged;
        ask(rt, ended, "another end");
    }
}

// What a crash of an opening of these files leaves, where it has such a moment.
fn crashed_opening<R: Abort + Threads + Wait + Sync>(
    rt: &R,
    alloc: Global,
    files: &ChainBytes,
    crash: Crash,
) -> Option<ChainBytes> {
    let mut host = host_of(rt, alloc, files);
    host.crash = Some(crash);
    let mut ids = ids_of(rt, alloc, &[]);
    script_done(rt, alloc, "info c.vhdx", "", &mut host, &mut ids);
    let left = host.take_crashed()?;
    Some(held_bytes(rt, alloc, &left))
}

// What these files show.
fn shown_in<R: Abort + Threads + Wait + Sync>(
    rt: &R,
    alloc: Global,
    of: &Merging,
    files: &ChainBytes,
) -> Shown {
    let mut host = host_of(rt, alloc, files);
    let mut ids = ids_of(rt, alloc, &DRAWN_LATER);
    look_at(rt, alloc, of, &mut host, &mut ids)
}

// Asks that a crash at each moment of this store of an opening leaves what shows the same. Gives how many left other bytes than the files
// had.
fn each_second_crash<R: Abort + Threads + Wait + Sync>(
    rt: &R,
    alloc: Global,
    of: &Merging,
    files: &ChainBytes,
    shown: Shown,
    store: u64,
    pick: Pick,
) -> u64 {
    let mut others = 0u64;
    for moment in 0..500u64 {
        let crash = Crash {
            store,
            moment,
            pick,
        };
        let Some(left) = crashed_opening(rt, alloc, files, crash) else {
            return others;
        };
        if !are_same(&left, files) {
            let now = shown_in(rt, alloc, of, &left);
            ask(rt, now == shown, "another disk behind a second crash");
            others = others.saturating_add(1);
        }
    }
    panic!(rt; "too many moments")
}

// Asks it of each store of the opening.
fn opens_again<R: Abort + Threads + Wait + Sync>(
    rt: &R,
    alloc: Global,
    of: &Merging,
    files: &ChainBytes,
    pick: Pick,
) -> u64 {
    let shown = shown_in(rt, alloc, of, files);
    let mut others = 0u64;
    for store in 0..of.opened {
        let more = each_second_crash(rt, alloc, of, files, shown, store as u64, pick);
        others = others.saturating_add(more);
    }
    others
}

/// Asks it of what a crash at each moment of the session leaves.
pub fn each_opens_again<R: Abort + Threads + Wait + Sync>(
    rt: &R,
    alloc: Global,
    of: &Merging,
    pick: Pick,
) {
    let files = new_files(rt, alloc, of);
    let store = session(rt, alloc, of, &files);
    let mut image = crashed(rt, alloc, &store, 0, pick);
    let mut others = 0u64;
    for before in 0..store.order.len() {
        let moment = (before as u64).saturating_add(1);
        let left = crashed(rt, alloc, &store, moment, pick);
        if !are_same(&left, &image) {
            others = others.saturating_add(opens_again(rt, alloc, of, &left, pick));
        }
        image = left;
    }
    ask(rt, others > 0, "no opening changed a file");
}

// Whether the session is done though this call of a store is to fail. If it isn't, the fault leaves what can be merged to the end.
fn is_done<R: Abort + Threads + Wait + Sync>(
    rt: &R,
    alloc: Global,
    of: &Merging,
    files: &ChainBytes,
    call: u64,
) -> bool {
    let mut host = host_of(rt, alloc, files);
    host.failing_in_store = listed(rt, alloc, call);
    let mut ids = ids_of(rt, alloc, &DRAWN);
    let (status, out) = run_script(rt, alloc, of.line, of.script, &mut host, &mut ids);
    let left = held_bytes(rt, alloc, &host);
    // Where no byte was changed the chain is as it was.
    let now = if are_same(&left, files) {
        BEGUN
    } else {
        mended(rt, alloc, of, &left)
    };
    let flushed = stands(&out.bytes, 0, of.flushed.as_bytes());
    let finished = stands(&out.bytes, 0, of.finished.as_bytes());
    let kept = !flushed || now.written >= 512;
    ask(rt, kept, "a flushed write is lost");
    ask(rt, !finished || now.merged, "a finished merge is lost");
    let done = status == Status::Done && says(&out, of.finished);
    ask(rt, done || status == Status::Fault, "another status");
    done
}

/// Asks it of each second call, from the first one on.
pub fn each_failing_call<R: Abort + Threads + Wait + Sync>(
    rt: &R,
    alloc: Global,
    of: &Merging,
    first: u64,
) {
    let files = new_files(rt, alloc, of);
    for pair in 0..500u64 {
        let call = pair.saturating_mul(2).saturating_add(first);
        if is_done(rt, alloc, of, &files, call) {
            ask(rt, pair > 40, "too few calls");
            return;
        }
    }
    panic!(rt; "too many calls")
}
