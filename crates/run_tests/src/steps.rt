//! Scripts over files in memory: what they are told, what they leave in the files, and what a crash or a failing call leaves.

ghost use Rattle.link_rules.specs.Folders.{AllIdle};
ghost use Rattle.mem_store.specs.HostTold.{hosted_by};
ghost use Rattle.store_model.specs.Disk.{WhereTold};

use crate::common::{
    Case, PLAIN, add_text, ask, ask_at, bytes_of, each_ends, empty_host, host_with, ids_of,
    line_of, listed, owned, run_script, says, script_done,
};
use crate::stories::{Step, play};
use mem_file::Pick;
use mem_store::{Crash, MemHost, MemSink};
use std::alloc::Global;
use std::process::Abort;
use std::sync::Wait;
use std::thread::Threads;
use vhdx_app::Status;

const BASE: &str = "make dynamic b.vhdx --sectors 2097152";

const SMALL_BLOCKS: &str = "make dynamic d.vhdx --sectors 2097152 --block 1";

const CHILD: &str = "make child c.vhdx --parent b.vhdx";

static TOLD: [Case; 9] = [
    Case {
        before: &[(BASE, "")],
        line: "steps b.vhdx",
        script: "read 2095104 2048\nread 0 2049\nread 2097152 1\nread 0 0\n",
        text: "1 read 2095104 2048 = 1048576*00\n- read 0 2049 = refused 33 TooLong count 2049 limit 2048\n- read 2097152 1 = refused 32 OutOfRange first 2097152 count 1 sectors 2097152\n- read 0 0 = refused 31 EmptyRange\n",
        ..PLAIN
    },
    Case {
        before: &[(BASE, "")],
        line: "steps b.vhdx",
        ..PLAIN
    },
    // The script is read before a file is looked for.
    Case {
        line: "steps b.vhdx",
        script: "flush\nwrite 0 1 g1\nread 0 1\n",
        status: Status::Usage,
        text: "line 2\n",
        ..PLAIN
    },
    Case {
        line: "steps b.vhdx",
        script: "flush\n",
        status: Status::Refused,
        text: "refused 21 FileMissing b.vhdx\n",
        ..PLAIN
    },
    Case {
        before: &[(SMALL_BLOCKS, "")],
        line: "steps d.vhdx --read-only",
        script: "read 0 1\nwrite 0 1 aa\nflush\n",
        text: "1 read 0 1 = 512*00\n- write 0 1 aa = refused 34 ReadOnly\n- flush = refused 34 ReadOnly\n",
        ..PLAIN
    },
    Case {
        before: &[(BASE, ""), (CHILD, "")],
        line: "steps c.vhdx",
        script: "write 4095 2 aa\nread 4094 4\n",
        text: "1 write 4095 2 aa = done\n2 read 4094 4 = 512*00 1024*aa 512*00\n",
        ..PLAIN
    },
    Case {
        before: &[(BASE, "")],
        line: "steps b.vhdx",
        script: "write 0 2049 aa\ntrim 0 524289\ntrim 0 524288\nflush\n",
        text: "- write 0 2049 aa = refused 33 TooLong count 2049 limit 2048\n- trim 0 524289 = refused 33 TooLong count 524289 limit 524288\n1 trim 0 524288 = done\n2 flush = done\n",
        ..PLAIN
    },
    // The base's own identifier is drawn again for the session.
    Case {
        before: &[(BASE, "")],
        drawn: &[[1; 16], [2; 16], [3; 16], [2; 16]],
        line: "steps b.vhdx",
        script: "flush\n",
        status: Status::Refused,
        text: "refused 44 IdUnfit {02020202-0202-0202-0202-020202020202}\n",
        ..PLAIN
    },
    Case {
        before: &[(BASE, "")],
        drawn: &[[1; 16], [2; 16], [3; 16], [0; 16]],
        line: "steps b.vhdx",
        status: Status::Refused,
        text: "refused 44 IdUnfit {00000000-0000-0000-0000-000000000000}\n",
        ..PLAIN
    },
];

#[test]
fn what_scripts_are_told(rt: HostRuntime) {
    each_ends(&rt, rt.alloc(), &TOLD)
}

// A block that was trimmed leaves its place, which is given again once that is committed.
static PLACES: [Step; 8] = [
    Step::Prepare(&[(SMALL_BLOCKS, "")]),
    Step::Script(
        "steps d.vhdx",
        "write 0 1 aa\ntrim 0 2048\nwrite 2047 1 bb\nread 2046 2\n",
        "1 write 0 1 aa = done\n2 trim 0 2048 = done\n3 write 2047 1 bb = done\n4 read 2046 2 = 512*00 512*bb\n",
    ),
    Step::Length("d.vhdx", 6_291_456),
    Step::Stands("d.vhdx", &[(3_145_728, &[6, 0, 0x50, 0, 0, 0, 0, 0])]),
    Step::Prepare(&[("make dynamic e.vhdx --sectors 2097152 --block 1", "")]),
    Step::Script(
        "steps e.vhdx",
        "write 0 1 aa\ntrim 0 2048\nflush\nwrite 2047 1 bb\nread 2046 2\n",
        "1 write 0 1 aa = done\n2 trim 0 2048 = done\n3 flush = done\n4 write 2047 1 bb = done\n5 read 2046 2 = 512*00 512*bb\n",
    ),
    Step::Length("e.vhdx", 5_242_880),
    Step::Stands("e.vhdx", &[(3_145_728, &[6, 0, 0x40, 0, 0, 0, 0, 0])]),
];

#[test]
fn places_of_blocks(rt: HostRuntime) {
    play(&rt, rt.alloc(), &PLACES);
}

// Blocks of a child become partly present, with the bitmap block of their chunk, and bytes that stand then in the file.
static IN_CHUNKS: [Step; 8] = [
    Step::Prepare(&[(BASE, ""), (CHILD, "")]),
    Step::Script(
        "steps c.vhdx",
        "write 4095 2 aa\nread 4094 4\n",
        "1 write 4095 2 aa = done\n2 read 4094 4 = 512*00 1024*aa 512*00\n",
    ),
    Step::Length("c.vhdx", 9_437_184),
    Step::Stands(
        "c.vhdx",
        &[
            (3_145_728, &[7, 0, 0x50, 0, 0, 0, 0, 0]),
            (3_145_736, &[7, 0, 0x70, 0, 0, 0, 0, 0]),
            (3_162_112, &[6, 0, 0x40, 0, 0, 0, 0, 0]),
        ],
    ),
    Step::Prepare(&[
        ("make dynamic d.vhdx --sectors 16777216", ""),
        ("make child e.vhdx --parent d.vhdx", ""),
    ]),
    Step::Script(
        "steps e.vhdx",
        "write 8388609 1 aa\nread 8388608 3\n",
        "1 write 8388609 1 aa = done\n2 read 8388608 3 = 512*00 512*aa 512*00\n",
    ),
    Step::Length("e.vhdx", 7_340_032),
    Step::Stands(
        "e.vhdx",
        &[
            (3_162_120, &[7, 0, 0x50, 0, 0, 0, 0, 0]),
            (3_178_504, &[6, 0, 0x40, 0, 0, 0, 0, 0]),
            (4_194_304, &[2, 0, 0, 0, 0, 0, 0, 0]),
        ],
    ),
];

#[test]
fn blocks_of_a_child(rt: HostRuntime) {
    play(&rt, rt.alloc(), &IN_CHUNKS);
}

// A sector's line of a dump: so many bytes bb, then zeros.
fn front_line<R: Abort>(rt: &R, alloc: Global, number: &str, n: usize) -> String {
    let mut line = owned(rt, alloc, number);
    add_text(rt, &mut line, " ");
    for i in 0..512 {
        add_text(rt, &mut line, if i < n { "bb" } else { "00" });
    }
    add_text(rt, &mut line, "\n");
    line
}

// Stands for a sector of which the front alone was written.
const TORN: u8 = 0x0B;

// The first bytes of sectors 0 and 1 of the disk of d.vhdx, as a dump has them, or that the second was written up to there.
fn first_sectors<R: Abort + Threads + Wait + Sync>(
    rt: &R,
    alloc: Global,
    host: &mut MemHost,
    front: usize,
) -> [u8; 2]
    requires { WhereTold (hosted_by host.old).folder AllIdle }
{
    let mut ids = ids_of(rt, alloc, &[]);
    let out = script_done(rt, alloc, "dump d.vhdx 0 2", "", host, &mut ids);
    for (zero, one, shown) in [
        ("00", 0, [0, 0]),
        ("aa", 0, [0xAA, 0]),
        ("aa", 512, [0xAA, 0xBB]),
        ("00", 512, [0, 0xBB]),
        ("aa", front, [0xAA, TORN]),
        ("00", front, [0, TORN]),
    ] {
        let mut text = line_of(rt, alloc, "0", zero);
        let second = front_line(rt, alloc, "1", one);
        add_text(rt, &mut text, &second);
        if says(&out, &text) {
            return shown;
        }
    }
    panic!(rt; "other bytes")
}

const FLUSHED: &str = "write 0 1 aa\nflush\nwrite 1 1 bb\n";

// How many of a sector's bytes an image has at least, if it has some of them.
fn front_of(pick: Pick) -> usize {
    match pick {
        Pick::Front(n) => n as usize,
        Pick::Nothing | Pick::Everything | Pick::EverySecond => 512,
    }
}

// What a crash at this moment of the session leaves of the disk; None behind its end.
fn crashed<R: Abort + Threads + Wait + Sync>(
    rt: &R,
    alloc: Global,
    moment: u64,
    pick: Pick,
) -> Option<[u8; 2]> {
    let mut host = empty_host(alloc);
    let mut ids = ids_of(rt, alloc, &[]);
    script_done(rt, alloc, SMALL_BLOCKS, "", &mut host, &mut ids);
    // The opening's store comes back first.
    let store = host.returned.checked_add(1).expect(rt, "no number");
    host.crash = Some(Crash {
        store,
        moment,
        pick,
    });
    let (status, _out) = run_script(rt, alloc, "steps d.vhdx", FLUSHED, &mut host, &mut ids);
    ask(rt, status == Status::Done, "not done");
    let left = host.take_crashed()?;
    let bytes = bytes_of(&left, "d.vhdx").expect(rt, "no file");
    let mut again = host_with(rt, alloc, "d.vhdx", bytes);
    Some(first_sectors(rt, alloc, &mut again, front_of(pick)))
}

// What a crash at the last moment of the session leaves of the disk, and whether one at some moment left the second sector torn. At each
// moment the second write is there only once the first one is, which was flushed before.
fn each_crash<R: Abort + Threads + Wait + Sync>(
    rt: &R,
    alloc: Global,
    pick: Pick,
) -> ([u8; 2], bool) {
    let mut shown = [0, 0];
    let mut torn = false;
    for moment in 0..1000 {
        let Some(now) = crashed(rt, alloc, moment, pick) else {
            ask(rt, moment > 10, "too few moments");
            return (shown, torn);
        };
        ask(rt, now[0] != 0 || now[1] == 0, "the second write alone");
        torn |= now[1] == TORN;
        shown = now;
    }
    panic!(rt; "too many moments")
}

#[test]
fn crashes_of_a_session(rt: HostRuntime) {
    for pick in [Pick::Nothing, Pick::Everything, Pick::EverySecond] {
        let left = each_crash(&rt, rt.alloc(), pick);
        ask(&rt, left == ([0xAA, 0xBB], false), "another disk");
    }
}

// Of each write 40 bytes tear a header, and an entry of the log in its own; 256 a sector; 6,000 an entry in its first page.
#[test]
fn torn_writes_of_a_session(rt: HostRuntime) {
    for (front, torn) in [(40, true), (256, true), (6000, false)] {
        let left = each_crash(&rt, rt.alloc(), Pick::Front(front));
        ask_at(&rt, left == ([0xAA, 0xBB], torn), u64::from(front));
    }
}

const TO_BREAK: &str = "write 0 1 aa\nflush\nread 0 1\nflush\n";

const UNBROKEN: &str =
    "1 write 0 1 aa = done\n2 flush = done\n3 read 0 1 = 512*aa\n4 flush = done\n";

const BROKEN: &str =
    "1 write 0 1 aa = done\n- flush = refused 35 Broken d.vhdx count 1\n- read 0 1 = refused 35 Broken d.vhdx count 1\n- flush = refused 35 Broken d.vhdx count 1\n";

// A host after a script over d.vhdx in which this call of a store fails, and what was printed.
fn failed<R: Abort + Threads + Wait + Sync>(
    rt: &R,
    alloc: Global,
    call: u64,
) -> (MemHost, Status, MemSink) {
    let mut host = empty_host(alloc);
    let mut ids = ids_of(rt, alloc, &[]);
    script_done(rt, alloc, SMALL_BLOCKS, "", &mut host, &mut ids);
    host.failing_in_store = listed(rt, alloc, call);
    let (status, out) = run_script(rt, alloc, "steps d.vhdx", TO_BREAK, &mut host, &mut ids);
    (host, status, out)
}

// Asks that what the failing call has left opens, and that the same script runs over it.
fn ask_unbroken<R: Abort + Threads + Wait + Sync>(
    rt: &R,
    alloc: Global,
    host: &MemHost,
    call: u64,
) {
    let bytes = bytes_of(host, "d.vhdx").expect(rt, "no file");
    let mut again = host_with(rt, alloc, "d.vhdx", bytes);
    let mut ids = ids_of(rt, alloc, &[[7; 16], [8; 16], [9; 16]]);
    let (status, out) = run_script(rt, alloc, "steps d.vhdx", TO_BREAK, &mut again, &mut ids);
    let done = status == Status::Done && says(&out, UNBROKEN);
    ask_at(rt, done, call);
}

#[test]
fn failing_calls(rt: HostRuntime) {
    let mut broken = false;
    for call in 1..1000 {
        let (host, status, out) = failed(&rt, rt.alloc(), call);
        if status == Status::Done {
            ask(&rt, call > 20, "too few calls");
            break;
        }
        ask_at(&rt, status == Status::Fault, call);
        // Where a write or a sync of the flush fails it breaks the session, for all calls behind it.
        broken |= says(&out, BROKEN);
        ask_unbroken(&rt, rt.alloc(), &host, call);
    }
    ask(&rt, broken, "never broken");
}
