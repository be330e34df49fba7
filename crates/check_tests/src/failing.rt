//! Calls that fail while a file is looked at or repaired, crashes at each moment of a repair, and identifiers that are unfit: what is told,
//! and that what is left has the same disk and can be repaired.

use crate::common::{
    CHECK, CLEAN, Case, PLAIN, REPAIR, REPAIRED, ask, ask_at, ask_case, ask_run, attempt, bytes_of,
};
use crate::files::{CHILD, FIRST, FIXED, LOG, Patch, changed, file_of, placed};
use mem_file::Pick;
use mem_store::Crash;
use std::alloc::Global;
use std::process::Abort;
use std::sync::Wait;
use std::thread::Threads;
use vhdx_app::Status;

// A copy of each that isn't valid, and two sectors, of which the log's entry makes the first zeros.
static DAMAGE: [Patch; 4] = [
    (65_536, b"H"),
    (262_144, b"R"),
    (4_194_304, &[0x5A; 512]),
    (4_198_400, &[0x5A; 512]),
];

const DUMP: &str = "dump f.vhdx 0 9";

static REPLAYED: [Patch; 1] = [(4_194_304, &[0; 512])];

// The file with this damage, and with a log whose entry isn't applied.
fn damaged<R: Abort + Threads + Wait + Sync>(rt: &R, alloc: Global) -> Vec<u8> {
    let whole = file_of(rt, alloc, FIXED);
    let logged = changed(rt, alloc, &whole, &LOG);
    changed(rt, alloc, &logged, &DAMAGE)
}

// An identifier of these bytes is drawn, and no call fails.
fn case_of(byte: u8) -> Case {
    Case {
        id: [byte; 16],
        ..PLAIN
    }
}

// What a dump of the file's first nine sectors prints, of which the first is zeros and the last isn't.
fn disk_of<R: Abort + Threads + Wait + Sync>(rt: &R, alloc: Global, file: &[u8]) -> Vec<u8> {
    let (status, out, _host) = attempt(rt, alloc, DUMP, file, PLAIN);
    ask(rt, status == Status::Done, "no dump");
    let zeros = out.bytes.as_slice().starts_with(b"0 00".as_slice());
    let other = out.bytes.as_slice().ends_with(b"5a\n".as_slice());
    ask(rt, zeros && other, "another disk");
    out.bytes.as_slice().to_vec(alloc).expect(rt, "no memory")
}

// Asks that a file that was left has this disk, and that another repair of it ends well.
fn ask_left<R: Abort + Threads + Wait + Sync>(
    rt: &R,
    alloc: Global,
    file: &[u8],
    disk: &[u8],
    number: u64,
) {
    let same = disk_of(rt, alloc, file).as_slice() == disk;
    ask_at(rt, same, number);
    let (status, out, host) = attempt(rt, alloc, REPAIR, file, case_of(10));
    ask_at(rt, status == Status::Done, number);
    ask_at(rt, out.bytes.as_slice() == REPAIRED.as_bytes(), number);
    let mended = bytes_of(&host, "f.vhdx").expect(rt, "no file");
    ask_run(rt, alloc, CHECK, mended, Status::Done, CLEAN, mended);
    let same = disk_of(rt, alloc, mended).as_slice() == disk;
    ask_at(rt, same, number);
}

// Lets each call of the store of a run fail in turn, up to the run that meets none and ends so. Gives how many there are. What is left as
// by the call before is judged already.
fn each_failing<R: Abort + Threads + Wait + Sync>(
    rt: &R,
    alloc: Global,
    line: &str,
    tears: bool,
    ends: Status,
) -> u64 {
    let file = damaged(rt, alloc);
    let disk = disk_of(rt, alloc, &file);
    let mut judged = Vec::new(alloc);
    for store in 1..1000u64 {
        let case = Case {
            store,
            tears,
            ..PLAIN
        };
        let (status, out, host) = attempt(rt, alloc, line, &file, case);
        if status != Status::Fault {
            ask_at(rt, status == ends, store);
            return store.saturating_sub(1);
        }
        let told = out.bytes.as_slice() == b"fault store 1\n".as_slice();
        ask_at(rt, told, store);
        let left = bytes_of(&host, "f.vhdx").expect(rt, "no file");
        if left != judged.as_slice() {
            ask_left(rt, alloc, left, &disk, store);
            judged = left.to_vec(alloc).expect(rt, "no memory");
        }
    }
    panic!(rt; "too many calls")
}

#[test]
fn failing_calls_of_a_store(rt: HostRuntime) {
    for (line, tears, ends) in [
        (CHECK, true, Status::Findings),
        (REPAIR, false, Status::Done),
        (REPAIR, true, Status::Done),
    ] {
        let calls = each_failing(&rt, rt.alloc(), line, tears, ends);
        ask(&rt, calls > 15, "too few calls");
    }
}

// What a crash at this moment of a line's run leaves of the file. None behind the run's end.
fn crashed<R: Abort + Threads + Wait + Sync>(
    rt: &R,
    alloc: Global,
    line: &str,
    file: &[u8],
    moment: u64,
    pick: Pick,
) -> Option<Vec<u8>> {
    let crash = Some(Crash {
        store: 0,
        moment,
        pick,
    });
    let case = Case { crash, ..PLAIN };
    let (status, _out, mut host) = attempt(rt, alloc, line, file, case);
    ask_at(rt, status == Status::Done, moment);
    let left = host.take_crashed()?;
    let bytes = bytes_of(&left, "f.vhdx").expect(rt, "no file");
    Some(bytes.to_vec(alloc).expect(rt, "no memory"))
}

// Asks that a crash at each moment of an opening of the file leaves this disk.
fn ask_reopened<R: Abort + Threads + Wait + Sync>(
    rt: &R,
    alloc: Global,
    file: &[u8],
    disk: &[u8],
    pick: Pick,
) {
    for moment in 0..1000u64 {
        let Some(left) = crashed(rt, alloc, DUMP, file, moment, pick) else {
            return;
        };
        let same = disk_of(rt, alloc, &left).as_slice() == disk;
        ask_at(rt, same, moment);
    }
    panic!(rt; "too many moments")
}

// Lets a crash come at each moment of a repair. Gives how many there are.
fn each_crash<R: Abort + Threads + Wait + Sync>(rt: &R, alloc: Global, pick: Pick) -> u64 {
    let file = damaged(rt, alloc);
    let disk = disk_of(rt, alloc, &file);
    for moment in 0..1000u64 {
        let Some(left) = crashed(rt, alloc, REPAIR, &file, moment, pick) else {
            return moment;
        };
        ask_reopened(rt, alloc, &left, &disk, pick);
        ask_left(rt, alloc, &left, &disk, moment);
    }
    panic!(rt; "too many moments")
}

#[test]
fn crashes_of_a_repair(rt: HostRuntime) {
    for pick in [
        Pick::Nothing,
        Pick::Everything,
        Pick::EverySecond,
        Pick::Front(6),
    ] {
        let moments = each_crash(&rt, rt.alloc(), pick);
        ask(&rt, moments > 6, "too few moments");
    }
}

// Which call of the host fails, or of the sink, and what is printed then.
static CALLS: [(u64, u64, &str); 3] = [
    (1, 0, "fault host 1\n"),
    (2, 0, "fault host 1\n"),
    (0, 1, ""),
];

#[test]
fn failing_calls_outside(rt: HostRuntime) {
    let alloc = rt.alloc();
    let file = damaged(&rt, alloc);
    let looked = placed(&rt, alloc, &file, &REPLAYED);
    let mended = changed(&rt, alloc, &looked, FIRST);
    for (line, left) in [(CHECK, &looked), (REPAIR, &mended)] {
        for (host, sink, text) in &CALLS {
            let case = Case {
                host: *host,
                sink: *sink,
                ..PLAIN
            };
            let left = if *sink == 0 { &file } else { left };
            ask_case(&rt, alloc, line, &file, case, Status::Fault, text, left);
        }
    }
}

// The byte of which an identifier is made, and its text: zero, and those that a child shows, of its header, of its log, of a place in the
// log's ring, and of its parent in the locator.
static UNFIT: [(u8, &str); 6] = [
    (0, "{00000000-0000-0000-0000-000000000000}"),
    (4, "{04040404-0404-0404-0404-040404040404}"),
    (5, "{05050505-0505-0505-0505-050505050505}"),
    (7, "{07070707-0707-0707-0707-070707070707}"),
    (8, "{08080808-0808-0808-0808-080808080808}"),
    (2, "{02020202-0202-0202-0202-020202020202}"),
];

// Those of a copy of the header that isn't valid, of the disk, and of the parent's header.
static FIT: [u8; 3] = [6, 3, 1];

static SHOWN: [Patch; 5] = [
    (65_536, b"H"),
    (65_552, &[6; 16]),
    (131_120, &[7; 16]),
    (1_052_672, b"loge"),
    (1_052_704, &[8; 16]),
];

// Asks that a repair which draws this identifier is refused by it, and leaves this.
fn ask_unfit<R: Abort + Threads + Wait + Sync>(
    rt: &R,
    alloc: Global,
    file: &[u8],
    byte: u8,
    id: &str,
    left: &[u8],
) {
    let case = case_of(byte);
    let text = format!(in alloc; "refused 44 IdUnfit {id}\n").expect(rt, "no memory");
    let status = Status::Refused;
    ask_case(rt, alloc, REPAIR, file, case, status, &text, left);
}

#[test]
fn unfit_identifiers(rt: HostRuntime) {
    let alloc = rt.alloc();
    let whole = file_of(&rt, alloc, CHILD);
    let file = changed(&rt, alloc, &whole, &SHOWN);
    for (byte, id) in &UNFIT {
        ask_unfit(&rt, alloc, &file, *byte, id, &file);
    }
    for byte in &FIT {
        let (status, _out, _host) = attempt(&rt, alloc, REPAIR, &file, case_of(*byte));
        ask(&rt, status == Status::Done, "unfit");
    }
}

static BAD_STATE: [Patch; 1] = [(3_145_728, &[4])];

const FOUND: &str =
    "finding 15 BadBatState f.vhdx index 0\nfinding 28 HeaderCopy f.vhdx copy 1\nfinding 29 RegionCopy f.vhdx copy 2\nfinding 30 LogNamed f.vhdx\n";

// The log is replayed before an identifier or a table is judged, and nothing else is written; a name that no file has is refused.
#[test]
fn refused_before_a_write(rt: HostRuntime) {
    let alloc = rt.alloc();
    let file = damaged(&rt, alloc);
    let left = placed(&rt, alloc, &file, &REPLAYED);
    let id = "{07070707-0707-0707-0707-070707070707}";
    ask_unfit(&rt, alloc, &file, 7, id, &left);
    for line in ["check none.vhdx", "repair none.vhdx"] {
        let text = "refused 21 FileMissing none.vhdx\n";
        ask_run(&rt, alloc, line, &file, Status::Refused, text, &file);
    }
    let file = changed(&rt, alloc, &file, &BAD_STATE);
    let left = placed(&rt, alloc, &file, &REPLAYED);
    ask_run(&rt, alloc, CHECK, &file, Status::Findings, FOUND, &left);
    let text = "refused 15 BadBatState f.vhdx index 0\n";
    ask_run(&rt, alloc, REPAIR, &file, Status::Refused, text, &left);
}
