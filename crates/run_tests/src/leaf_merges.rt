//! The merge of the leaf of a chain in memory: what its lines are told, what stands in the files behind it, and what a crash at
//! each moment or a failing call leaves, from which the merge goes on to its end.

use crate::common::{Case, PLAIN};
use crate::merge_crashes::{
    DRAWN, DRAWN_LATER, ENDED, Merging, TO_THE_END, UNFIT_FIRST, UNFIT_ZERO, each_failing_call,
    each_is_told, each_opens_again, each_pick, each_unfit_is_refused,
};
use crate::merges::THREE_FILES;
use crate::stories::{Content, Step, play};
use mem_file::Pick;
use vhdx_app::Status;

const MERGE: &str = "steps c.vhdx --merge c.vhdx";

const GONE: &str = "refused 40 NotInChain c.vhdx\n";

// A chain of two files. Sector 3 of its disk stands in the leaf, sector 2,048 in the base.
const TWO_FILES: &[(&str, &str)] = &[
    ("make dynamic b.vhdx --sectors 8192 --block 1", ""),
    ("steps b.vhdx", "write 2048 1 22\n"),
    ("make child c.vhdx --parent b.vhdx", ""),
    ("steps c.vhdx", "write 3 1 33\n"),
];

static LEAF: Merging = Merging {
    made: TWO_FILES,
    opened: 2,
    line: MERGE,
    gone: GONE,
    script: "write 0 1 aa\nflush\ncopy\nwrite 0 1 bb\ncopy\nfinish\n",
    flushed: "1 write 0 1 aa = done\n2 flush = done\n",
    finished: "1 write 0 1 aa = done\n2 flush = done\n- copy = done\n3 write 0 1 bb = done\n- copy = done\n- finish = done\n",
    disks: &[
        (
            0,
            "1 read 0 2048 = 1536*00 512*33 1046528*00\n2 read 2048 2048 = 512*22 1048064*00\n",
        ),
        (
            256,
            "1 read 0 2048 = 256*aa 1280*00 512*33 1046528*00\n2 read 2048 2048 = 512*22 1048064*00\n",
        ),
        (
            512,
            "1 read 0 2048 = 512*aa 1024*00 512*33 1046528*00\n2 read 2048 2048 = 512*22 1048064*00\n",
        ),
        (
            768,
            "1 read 0 2048 = 256*bb 256*aa 1024*00 512*33 1046528*00\n2 read 2048 2048 = 512*22 1048064*00\n",
        ),
        (
            1024,
            "1 read 0 2048 = 512*bb 1024*00 512*33 1046528*00\n2 read 2048 2048 = 512*22 1048064*00\n",
        ),
    ],
    whole: &[
        [
            "c.vhdx child sectors 8192 sector 512 block 2 id ",
            " parent b.vhdx\n",
        ],
        [
            "b.vhdx dynamic sectors 8192 sector 512 block 1 id ",
            " parent none\n",
        ],
    ],
    merged: &[[
        "retired c.vhdx to b.vhdx\nb.vhdx dynamic sectors 8192 sector 512 block 1 id ",
        " parent none\n",
    ]],
    // How many items its metadata has, without the retired one.
    last: (2_097_162, &[6, 0]),
};

// A write before the put, which is refused; and the end of the merge.
const STALE: &str =
    "write 0 1 11\nfetch 0\nwrite 1 1 bb\nput\ncopy\nfinish\nread 0 2\nfinish\nput\nfetch 0\n";

const STALE_TOLD: &str =
    "1 write 0 1 11 = done\n- fetch 0 = stamp 1\n2 write 1 1 bb = done\n- put = refused 46 Stale taken 1 now 2\n- copy = done\n- finish = done\n3 read 0 2 = 512*11 512*bb\n- finish = refused 45 NoMerge\n- put = refused 45 NoMerge\n- fetch 0 = refused 45 NoMerge\n";

static TOLD: [Case; 10] = [
    Case {
        line: MERGE,
        script: STALE,
        text: STALE_TOLD,
        ..PLAIN
    },
    Case {
        line: MERGE,
        script: "finish\nput\nfetch 4\nfetch 3\nfetch 4\nput\n",
        text: "- finish = refused 47 NotYet stripe 0\n- put = refused 50 NoPiece\n- fetch 4 = refused 49 NoStripe stripe 4 stripes 4\n- fetch 3 = stamp 0\n- fetch 4 = refused 49 NoStripe stripe 4 stripes 4\n- put = refused 50 NoPiece\n",
        ..PLAIN
    },
    // The lowest stripe that is missing.
    Case {
        line: MERGE,
        script: "fetch 0\nput\nfetch 2\nput\nfinish\nfetch 1\nput\nfinish\ncopy\nfinish\n",
        text: "- fetch 0 = stamp 0\n- put = copied\n- fetch 2 = stamp 0\n- put = copied\n- finish = refused 47 NotYet stripe 1\n- fetch 1 = stamp 0\n- put = copied\n- finish = refused 47 NotYet stripe 3\n- copy = done\n- finish = done\n",
        ..PLAIN
    },
    // A stripe that was copied is missing again once it is written or trimmed.
    Case {
        line: MERGE,
        script: "copy\nwrite 4096 1 aa\nfinish\nread 4095 3\ncopy\ntrim 2048 2048\nfinish\ncopy\nwrite 6143 2 bb\nfinish\nfetch 2\nput\nfinish\ncopy\nfinish\nread 2048 1\nread 4096 1\nread 6143 2\n",
        text: "- copy = done\n1 write 4096 1 aa = done\n- finish = refused 47 NotYet stripe 2\n2 read 4095 3 = 512*00 512*aa 512*00\n- copy = done\n3 trim 2048 2048 = done\n- finish = refused 47 NotYet stripe 1\n- copy = done\n4 write 6143 2 bb = done\n- finish = refused 47 NotYet stripe 2\n- fetch 2 = stamp 4\n- put = copied\n- finish = refused 47 NotYet stripe 3\n- copy = done\n- finish = done\n5 read 2048 1 = 512*00\n6 read 4096 1 = 512*aa\n7 read 6143 2 = 1024*bb\n",
        ..PLAIN
    },
    // Reads, flushes, what is refused and writes elsewhere leave the stamp; a trim is a new one. A put leaves no piece.
    Case {
        line: MERGE,
        script: "write 0 1 aa\nfetch 0\nread 0 1\nflush\nput\nfetch 0\nwrite 2048 1 bb\nwrite 0 2049 cc\nput\nfetch 0\ntrim 0 1\nput\nput\nfetch 0\nput\nput\nfetch 1\n",
        text: "1 write 0 1 aa = done\n- fetch 0 = stamp 1\n2 read 0 1 = 512*aa\n3 flush = done\n- put = copied\n- fetch 0 = stamp 1\n4 write 2048 1 bb = done\n- write 0 2049 cc = refused 33 TooLong count 2049 limit 2048\n- put = copied\n- fetch 0 = stamp 1\n5 trim 0 1 = done\n- put = refused 46 Stale taken 1 now 5\n- put = refused 50 NoPiece\n- fetch 0 = stamp 5\n- put = copied\n- put = refused 50 NoPiece\n- fetch 1 = stamp 4\n",
        ..PLAIN
    },
    // Reads and flushes leave the marks, and the parent is written from then on.
    Case {
        line: MERGE,
        script: "copy\nread 2 2\nflush\nfinish\nwrite 5 1 cc\ntrim 3 1\nread 2 4\nread 2048 1\nflush\n",
        text: "- copy = done\n1 read 2 2 = 512*00 512*33\n2 flush = done\n- finish = done\n3 write 5 1 cc = done\n4 trim 3 1 = done\n5 read 2 4 = 1536*00 512*cc\n6 read 2048 1 = 512*22\n7 flush = done\n",
        ..PLAIN
    },
    // A session that ends before the merge has finished.
    Case {
        line: MERGE,
        script: "write 0 1 aa\nfetch 0\nput\n",
        text: "1 write 0 1 aa = done\n- fetch 0 = stamp 1\n- put = copied\n",
        ..PLAIN
    },
    Case {
        line: "steps b.vhdx --merge b.vhdx",
        script: "copy\n",
        status: Status::Refused,
        text: "refused 41 IsBase b.vhdx\n",
        ..PLAIN
    },
    Case {
        line: "steps c.vhdx --merge c.vhdx --read-only",
        script: "copy\n",
        status: Status::Refused,
        text: "refused 34 ReadOnly\n",
        ..PLAIN
    },
    Case {
        line: "steps c.vhdx --merge d.vhdx",
        script: "copy\n",
        status: Status::Refused,
        text: "refused 40 NotInChain d.vhdx\n",
        ..PLAIN
    },
];

#[test]
fn what_leaf_merges_are_told(rt: HostRuntime) {
    each_is_told(&rt, rt.alloc(), &LEAF, &TOLD);
}

// A merge is not finished, begins anew and is finished; then the leaf is retired.
static IN_TURN: [Step; 5] = [
    Step::Prepare(TWO_FILES),
    Step::Script(
        MERGE,
        "write 0 1 aa\ncopy\nfetch 0\n",
        "1 write 0 1 aa = done\n- copy = done\n- fetch 0 = stamp 1\n",
    ),
    Step::Script(
        MERGE,
        "put\nfinish\nread 0 4\nread 2048 1\ncopy\nfinish\n",
        "- put = refused 50 NoPiece\n- finish = refused 47 NotYet stripe 0\n1 read 0 4 = 512*aa 1024*00 512*33\n2 read 2048 1 = 512*22\n- copy = done\n- finish = done\n",
    ),
    Step::Refused(&[MERGE], GONE),
    Step::Script(
        "steps c.vhdx",
        "read 0 4\nread 2048 1\nwrite 0 1 bb\nread 0 1\n",
        "1 read 0 4 = 512*aa 1024*00 512*33\n2 read 2048 1 = 512*22\n3 write 0 1 bb = done\n4 read 0 1 = 512*bb\n",
    ),
];

#[test]
fn leaf_merges_in_turn(rt: HostRuntime) {
    play(&rt, rt.alloc(), &IN_TURN);
}

const FIFTH: &str = "refused 44 IdUnfit {15151515-1515-1515-1515-151515151515}\n";

// Which of those drawn is another one, of what byte, and how the merge is refused then.
static UNFIT: [(usize, u8, &str); 6] = [
    (0, 0, UNFIT_ZERO),
    (3, 0, UNFIT_ZERO),
    (6, 0, UNFIT_ZERO),
    (1, 0x11, UNFIT_FIRST),
    (6, 0x11, UNFIT_FIRST),
    (6, 0x15, FIFTH),
];

#[test]
fn unfit_identifiers_of_a_leaf_merge(rt: HostRuntime) {
    each_unfit_is_refused(&rt, rt.alloc(), &LEAF, &UNFIT);
}

static FILES: [Step; 10] = [
    Step::Prepare(&[
        ("make dynamic b.vhdx --sectors 2097152", ""),
        ("make child c.vhdx --parent b.vhdx", ""),
    ]),
    Step::Script(
        MERGE,
        "finish\nput\nfetch 1024\n",
        "- finish = refused 47 NotYet stripe 0\n- put = refused 50 NoPiece\n- fetch 1024 = refused 49 NoStripe stripe 1024 stripes 1024\n",
    ),
    Step::Ids(&DRAWN),
    Step::Script(MERGE, STALE, STALE_TOLD),
    Step::Done(
        "info c.vhdx",
        "retired c.vhdx to b.vhdx\nb.vhdx dynamic sectors 2097152 sector 512 block 32 id {17171717-1717-1717-1717-171717171717} parent none\n",
    ),
    Step::Dump("dump c.vhdx 0 1", &[(0, 1, "11")]),
    Step::Length("b.vhdx", 37_748_736),
    // The parent's first block, and its two sectors.
    Step::Stands(
        "b.vhdx",
        &[
            (3_145_728, &[6, 0, 0x40, 0, 0, 0, 0, 0]),
            (4_194_304, &[0x11; 512]),
            (4_194_816, &[0xBB; 512]),
        ],
    ),
    // In the leaf's metadata the count of items, the locator's place, its length of 308 and its flags, and the same of the retired item;
    // and the locator's head, and of its entries the lengths.
    Step::Stands(
        "c.vhdx",
        &[
            (2_097_162, &[7, 0]),
            (
                2_097_344,
                &[
                    0x2D, 0x5F, 0xD3, 0xA8, 0x0B, 0xB3, 0x4D, 0x45, 0xAB, 0xF7, 0xD3, 0xD8, 0x48,
                    0x34, 0xAB, 0x0C, 0, 0x10, 1, 0, 0x34, 1, 0, 0, 4, 0, 0, 0,
                ],
            ),
            (
                2_097_376,
                &[
                    0x52, 0x0A, 0x3F, 0x7D, 0x1B, 0x6C, 0x0E, 0x4E, 0x9B, 0x1A, 0x2F, 0x4C, 0x8E,
                    0x6D, 0x9A, 0x31, 0, 0x20, 1, 0, 12, 0, 0, 0, 1, 0, 0, 0,
                ],
            ),
            (
                2_166_784,
                &[
                    0xB7, 0xEF, 0x4A, 0xB0, 0x9E, 0xD1, 0x81, 0x4A, 0xB7, 0x89, 0x25, 0xB8, 0xE9,
                    0x44, 0x59, 0x13, 0, 0, 3, 0,
                ],
            ),
            (2_166_812, &[28, 0, 76, 0]),
            (2_166_824, &[30, 0, 76, 0]),
            (2_166_836, &[26, 0, 16, 0]),
        ],
    ),
    // The texts of the locator, from the first key on, and the name for which the leaf is retired.
    Step::Wide(
        "c.vhdx",
        &[
            (2_166_840, "parent_linkage"),
            (2_166_868, "{00000000-0000-0000-0000-00000000000a}"),
            (2_166_944, "parent_linkage2"),
            (2_166_974, "{15151515-1515-1515-1515-151515151515}"),
            (2_167_050, "relative_path"),
            (2_167_076, ".\\b.vhdx"),
            (2_170_880, "b.vhdx"),
        ],
    ),
];

#[test]
fn files_of_a_leaf_merge(rt: HostRuntime) {
    play(&rt, rt.alloc(), &FILES);
}

// The next session by the leaf's name writes the parent, and the leaf no more.
static SESSIONS: [Step; 8] = [
    Step::Prepare(TWO_FILES),
    Step::Ids(&DRAWN),
    Step::Script(MERGE, TO_THE_END, ENDED),
    Step::Put("before", Content::Copy("c.vhdx")),
    Step::Ids(&DRAWN_LATER),
    Step::Script(
        "steps c.vhdx",
        "write 2049 1 cc\nread 2048 2\n",
        "1 write 2049 1 cc = done\n2 read 2048 2 = 512*22 512*cc\n",
    ),
    Step::Same("c.vhdx", "before"),
    // Its block of sector 2,048 is the first that was written.
    Step::Stands(
        "b.vhdx",
        &[(4_194_304, &[0x22; 512]), (4_194_816, &[0xCC; 512])],
    ),
];

#[test]
fn sessions_behind_a_leaf_merge(rt: HostRuntime) {
    play(&rt, rt.alloc(), &SESSIONS);
}

// A parent that was retired stands for itself once it takes the leaf's place: its item has no place and no length.
static RETIRED_PARENT: [Step; 6] = [
    Step::Prepare(TWO_FILES),
    // An item in the base's metadata that it is retired, which says nothing in a parent's place: that there are six, its place and
    // length, and the name x.vhdx.
    Step::Put(
        "b.vhdx",
        Content::Patched(&[
            (2_097_162, &[6, 0]),
            (
                2_097_344,
                &[
                    0x52, 0x0A, 0x3F, 0x7D, 0x1B, 0x6C, 0x0E, 0x4E, 0x9B, 0x1A, 0x2F, 0x4C, 0x8E,
                    0x6D, 0x9A, 0x31, 0, 0x10, 1, 0, 12, 0, 0, 0, 1, 0, 0, 0,
                ],
            ),
            (
                2_166_784,
                &[0x78, 0, 0x2E, 0, 0x76, 0, 0x68, 0, 0x64, 0, 0x78, 0],
            ),
        ]),
    ),
    Step::Ids(&DRAWN),
    Step::Script(MERGE, TO_THE_END, ENDED),
    Step::Stands(
        "b.vhdx",
        &[(2_097_360, &[0, 0, 0, 0, 0, 0, 0, 0, 1, 0, 0, 0])],
    ),
    Step::Script("steps c.vhdx", "read 3 1\n", "1 read 3 1 = 512*33\n"),
];

#[test]
fn a_retired_parent(rt: HostRuntime) {
    play(&rt, rt.alloc(), &RETIRED_PARENT);
}

// The file between leaf and base takes the leaf's place, and is then merged itself.
static TWO_LEAVES: [Step; 7] = [
    Step::Prepare(THREE_FILES),
    Step::Ids(&DRAWN),
    Step::Script(
        MERGE,
        "write 6 1 bb\ncopy\nfinish\nwrite 7 1 cc\n",
        "1 write 6 1 bb = done\n- copy = done\n- finish = done\n2 write 7 1 cc = done\n",
    ),
    Step::Ids(&DRAWN_LATER),
    Step::Script("steps c.vhdx --merge m.vhdx", TO_THE_END, ENDED),
    Step::Done(
        "info c.vhdx",
        "retired c.vhdx to m.vhdx\nretired m.vhdx to b.vhdx\nb.vhdx dynamic sectors 2097152 sector 512 block 1 id {27272727-2727-2727-2727-272727272727} parent none\n",
    ),
    Step::Script(
        "steps c.vhdx",
        "read 4 5\n",
        "1 read 4 5 = 512*00 512*22 512*bb 512*cc 512*00\n",
    ),
];

#[test]
fn one_leaf_behind_another(rt: HostRuntime) {
    play(&rt, rt.alloc(), &TWO_LEAVES);
}

#[test]
fn crashes_of_a_leaf_merge(rt: HostRuntime) {
    let picks = [Pick::Nothing, Pick::Everything, Pick::EverySecond];
    each_pick(&rt, rt.alloc(), &LEAF, &picks)
}

#[test]
fn torn_writes_of_a_leaf_merge(rt: HostRuntime) {
    each_pick(&rt, rt.alloc(), &LEAF, &[Pick::Front(256)])
}

#[test]
fn second_crashes_of_a_leaf_merge(rt: HostRuntime) {
    each_opens_again(&rt, rt.alloc(), &LEAF, Pick::Everything)
}

#[test]
fn second_crashes_of_a_leaf_merge_that_lost_all(rt: HostRuntime) {
    each_opens_again(&rt, rt.alloc(), &LEAF, Pick::Nothing)
}

#[test]
fn failing_odd_calls_of_a_leaf_merge(rt: HostRuntime) {
    each_failing_call(&rt, rt.alloc(), &LEAF, 1)
}

#[test]
fn failing_even_calls_of_a_leaf_merge(rt: HostRuntime) {
    each_failing_call(&rt, rt.alloc(), &LEAF, 2)
}
