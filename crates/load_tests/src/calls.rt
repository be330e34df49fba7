//! Numbers as they are drawn, and the calls that they make.

use crate::asking::{ask, done};
use load_calls::{Draws, load_lines, preparing_lines};
use script::{Form, Line};

/// A seed, how many numbers are drawn before, and the next two.
struct Row {
    seed: u32,
    before: u32,
    next: (u32, u32),
}

static ROWS: [Row; 5] = [
    Row {
        seed: 0,
        before: 0,
        next: (167_951_807, 218_396_424),
    },
    Row {
        seed: 0,
        before: 2,
        next: (1_299_921_937, 861_605_236),
    },
    Row {
        seed: 1,
        before: 0,
        next: (908_834_774, 1_093_944_153),
    },
    Row {
        seed: 1,
        before: 2,
        next: (1_392_341_196, 822_192_870),
    },
    Row {
        seed: 4_294_967_295,
        before: 0,
        next: (69_501_759, 1_503_429_036),
    },
];

fn are_drawn(row: &Row) -> bool {
    let mut draws = Draws::behind(row.seed, row.before);
    draws.next() == row.next.0 && draws.next() == row.next.1
}

#[test]
fn numbers_are_as_computed(rt: HostRuntime) {
    for (k, row) in ROWS.iter().enumerate() {
        ask(&rt, k, are_drawn(row));
    }
}

// A line of a script, by its place.
struct Wanted {
    place: usize,
    guest: u32,
    form: Form,
}

fn has_line(lines: &[Line], wanted: &Wanted) -> bool {
    match lines.get(wanted.place) {
        Some(line) => line.guest == wanted.guest && line.form == wanted.form,
        None => false,
    }
}

// Of seed 0 the first and the last write to the first file, with the flush behind them.
static PREPARING: [Wanted; 3] = [
    Wanted {
        place: 0,
        guest: 1,
        form: Form::Write {
            first: 55_462,
            count: 8,
            byte: 8,
        },
    },
    Wanted {
        place: 31,
        guest: 1,
        form: Form::Write {
            first: 53_352,
            count: 7,
            byte: 53,
        },
    },
    Wanted {
        place: 32,
        guest: 1,
        form: Form::Flush,
    },
];

// Of seed 0 the first calls of guests 1, 2 and 3, and the last ones of guests 3 and 4.
static CALLS: [Wanted; 5] = [
    Wanted {
        place: 0,
        guest: 1,
        form: Form::Write {
            first: 30_776,
            count: 6,
            byte: 114,
        },
    },
    Wanted {
        place: 256,
        guest: 2,
        form: Form::Write {
            first: 45_253,
            count: 12,
            byte: 128,
        },
    },
    Wanted {
        place: 512,
        guest: 3,
        form: Form::Read {
            first: 75_580,
            count: 14,
        },
    },
    Wanted {
        place: 767,
        guest: 3,
        form: Form::Flush,
    },
    Wanted {
        place: 1023,
        guest: 4,
        form: Form::Write {
            first: 129_062,
            count: 7,
            byte: 180,
        },
    },
];

#[test]
fn calls_are_as_computed(rt: HostRuntime) {
    let preparing = done(&rt, preparing_lines(rt.alloc(), 0, 0));
    ask(&rt, 0, preparing.as_slice().len() == 33);
    for (k, wanted) in PREPARING.iter().enumerate() {
        ask(&rt, k + 1, has_line(preparing.as_slice(), wanted));
    }
    let lines = done(&rt, load_lines(rt.alloc(), 0));
    ask(&rt, 4, lines.as_slice().len() == 1024);
    for (k, wanted) in CALLS.iter().enumerate() {
        ask(&rt, k + 5, has_line(lines.as_slice(), wanted));
    }
}
