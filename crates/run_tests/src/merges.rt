//! The merge of a file inside a chain in memory: what its lines are told, what stands in the files behind it, and what a crash
//! at each moment or a failing call leaves, from which the merge goes on to its end.

use crate::common::{Case, PLAIN};
use crate::merge_crashes::{
    DRAWN, DRAWN_LATER, ENDED, Merging, TO_THE_END, UNFIT_FIRST, UNFIT_ZERO, each_failing_call,
    each_is_told, each_opens_again, each_pick, each_unfit_is_refused,
};
use crate::stories::{Step, play};
use mem_file::Pick;
use vhdx_app::Status;

const MERGE: &str = "steps c.vhdx --merge m.vhdx";

const GONE: &str = "refused 40 NotInChain m.vhdx\n";

/// A chain of three files. Sector 5 of its disk stands in the middle one, and nothing in the others.
pub const THREE_FILES: &[(&str, &str)] = &[
    ("make dynamic b.vhdx --sectors 2097152 --block 1", ""),
    ("make child m.vhdx --parent b.vhdx", ""),
    ("steps m.vhdx", "write 5 1 22\n"),
    ("make child c.vhdx --parent m.vhdx", ""),
];

static MIDDLE: Merging = Merging {
    made: THREE_FILES,
    opened: 3,
    line: MERGE,
    gone: GONE,
    script: "write 0 1 aa\nflush\ncopy\nfinish\n",
    flushed: "1 write 0 1 aa = done\n2 flush = done\n",
    finished: "1 write 0 1 aa = done\n2 flush = done\n- copy = done\n- finish = done\n",
    disks: &[
        (
            0,
            "1 read 0 2048 = 2560*00 512*22 1045504*00\n2 read 2048 2048 = 1048576*00\n",
        ),
        (
            256,
            "1 read 0 2048 = 256*aa 2304*00 512*22 1045504*00\n2 read 2048 2048 = 1048576*00\n",
        ),
        (
            512,
            "1 read 0 2048 = 512*aa 2048*00 512*22 1045504*00\n2 read 2048 2048 = 1048576*00\n",
        ),
    ],
    whole: &[
        [
            "c.vhdx child sectors 2097152 sector 512 block 2 id ",
            " parent m.vhdx\n",
        ],
        [
            "m.vhdx child sectors 2097152 sector 512 block 2 id ",
            " parent b.vhdx\n",
        ],
        [
            "b.vhdx dynamic sectors 2097152 sector 512 block 1 id ",
            " parent none\n",
        ],
    ],
    merged: &[
        [
            "c.vhdx child sectors 2097152 sector 512 block 2 id ",
            " parent b.vhdx\n",
        ],
        [
            "b.vhdx dynamic sectors 2097152 sector 512 block 1 id ",
            " parent none\n",
        ],
    ],
    // The first letter of the parent's name in the locator.
    last: (2_162_906, b"m"),
};

static TOLD: [Case; 9] = [
    Case {
        line: MERGE,
        script: "copy\nfinish\nread 4 3\n",
        text: "- copy = done\n- finish = done\n1 read 4 3 = 512*00 512*22 512*00\n",
        ..PLAIN
    },
    Case {
        line: MERGE,
        script: "fetch 0\nput\nfinish\ncopy\nfinish\n",
        text: "- fetch 0 = stamp 0\n- put = copied\n- finish = refused 47 NotYet stripe 1\n- copy = done\n- finish = done\n",
        ..PLAIN
    },
    // A put takes the piece, and a fetch that is refused drops it.
    Case {
        line: MERGE,
        script: "put\nfetch 1024\nfetch 0\nput\nput\nfetch 1023\nfetch 1024\nput\n",
        text: "- put = refused 50 NoPiece\n- fetch 1024 = refused 49 NoStripe stripe 1024 stripes 1024\n- fetch 0 = stamp 0\n- put = copied\n- put = refused 50 NoPiece\n- fetch 1023 = stamp 0\n- fetch 1024 = refused 49 NoStripe stripe 1024 stripes 1024\n- put = refused 50 NoPiece\n",
        ..PLAIN
    },
    Case {
        line: MERGE,
        script: "copy\nfinish\nfinish\nput\nfetch 0\ncopy\n",
        text: "- copy = done\n- finish = done\n- finish = refused 45 NoMerge\n- put = refused 45 NoMerge\n- fetch 0 = refused 45 NoMerge\n- copy = refused 45 NoMerge\n",
        ..PLAIN
    },
    // What the leaf has lies over what is put below it.
    Case {
        line: MERGE,
        script: "read 4 3\nfetch 0\nwrite 5 1 bb\nput\nread 4 3\ncopy\ntrim 5 1\nread 4 3\nwrite 6 1 cc\nfinish\nread 4 3\nflush\n",
        text: "1 read 4 3 = 512*00 512*22 512*00\n- fetch 0 = stamp 0\n2 write 5 1 bb = done\n- put = copied\n3 read 4 3 = 512*00 512*bb 512*00\n- copy = done\n4 trim 5 1 = done\n5 read 4 3 = 1536*00\n6 write 6 1 cc = done\n- finish = done\n7 read 4 3 = 1024*00 512*cc\n8 flush = done\n",
        ..PLAIN
    },
    Case {
        line: "steps c.vhdx",
        script: "finish\nput\nfetch 0\ncopy\n",
        text: "- finish = refused 45 NoMerge\n- put = refused 45 NoMerge\n- fetch 0 = refused 45 NoMerge\n- copy = refused 45 NoMerge\n",
        ..PLAIN
    },
    Case {
        line: "steps c.vhdx --merge x.vhdx",
        script: "copy\n",
        status: Status::Refused,
        text: "refused 40 NotInChain x.vhdx\n",
        ..PLAIN
    },
    Case {
        line: "steps c.vhdx --merge b.vhdx",
        script: "copy\n",
        status: Status::Refused,
        text: "refused 41 IsBase b.vhdx\n",
        ..PLAIN
    },
    Case {
        line: "steps c.vhdx --merge m.vhdx --read-only",
        script: "copy\n",
        status: Status::Refused,
        text: "refused 34 ReadOnly\n",
        ..PLAIN
    },
];

#[test]
fn what_merges_are_told(rt: HostRuntime) {
    each_is_told(&rt, rt.alloc(), &MIDDLE, &TOLD);
}

const SIXTH: &str = "refused 44 IdUnfit {16161616-1616-1616-1616-161616161616}\n";

// Which of those drawn is another one, of what byte, and how the merge is refused then.
static UNFIT: [(usize, u8, &str); 7] = [
    (0, 0, UNFIT_ZERO),
    (3, 0, UNFIT_ZERO),
    (7, 0, UNFIT_ZERO),
    (1, 0x11, UNFIT_FIRST),
    (4, 0x11, UNFIT_FIRST),
    (7, 0x11, UNFIT_FIRST),
    (7, 0x16, SIXTH),
];

#[test]
fn an_unfit_identifier(rt: HostRuntime) {
    each_unfit_is_refused(&rt, rt.alloc(), &MIDDLE, &UNFIT);
}

const DUMP: &str = "dump c.vhdx 0 2048";

static FILES: [Step; 10] = [
    Step::Prepare(THREE_FILES),
    Step::Ids(&DRAWN),
    Step::Dump(DUMP, &[(0, 5, "00"), (5, 6, "22"), (6, 2_048, "00")]),
    Step::Script(MERGE, TO_THE_END, ENDED),
    Step::Done(
        "info c.vhdx",
        "c.vhdx child sectors 2097152 sector 512 block 2 id {12121212-1212-1212-1212-121212121212} parent b.vhdx\nb.vhdx dynamic sectors 2097152 sector 512 block 1 id {17171717-1717-1717-1717-171717171717} parent none\n",
    ),
    Step::Dump(DUMP, &[(0, 5, "00"), (5, 6, "22"), (6, 2_048, "00")]),
    // The base has its first block, at its old end.
    Step::Length("b.vhdx", 5_242_880),
    Step::Stands(
        "b.vhdx",
        &[
            (3_145_728, &[6, 0, 0x40, 0, 0, 0, 0, 0]),
            (4_196_864, &[0x22; 512]),
        ],
    ),
    Step::Ids(&DRAWN_LATER),
    Step::Refused(&[MERGE], GONE),
];

#[test]
fn files_of_a_merge(rt: HostRuntime) {
    play(&rt, rt.alloc(), &FILES);
}

#[test]
fn crashes_of_a_merge(rt: HostRuntime) {
    let picks = [Pick::Nothing, Pick::Everything, Pick::EverySecond];
    each_pick(&rt, rt.alloc(), &MIDDLE, &picks)
}

#[test]
fn torn_writes_of_a_merge(rt: HostRuntime) {
    each_pick(&rt, rt.alloc(), &MIDDLE, &[Pick::Front(256)])
}

#[test]
fn second_crashes_of_a_merge(rt: HostRuntime) {
    each_opens_again(&rt, rt.alloc(), &MIDDLE, Pick::Everything)
}

#[test]
fn second_crashes_of_a_merge_that_lost_all(rt: HostRuntime) {
    each_opens_again(&rt, rt.alloc(), &MIDDLE, Pick::Nothing)
}

#[test]
fn failing_odd_calls_of_a_merge(rt: HostRuntime) {
    each_failing_call(&rt, rt.alloc(), &MIDDLE, 1)
}

#[test]
fn failing_even_calls_of_a_merge(rt: HostRuntime) {
    each_failing_call(&rt, rt.alloc(), &MIDDLE, 2)
}
