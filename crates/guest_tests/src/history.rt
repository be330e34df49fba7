//! Ranges at their edges, and entries that are kept.

use crate::asking::{ask, done};
use crate::questions::Question;
use guest_model::{CallRef, Caller, ChainRefusal, KeepAll, KeepMarks, Recorder};
use ledger::Ledger;
use std::process::Abort;

/// A disk of 1 GB, in sectors.
pub const SECTORS: u64 = 2_097_152;

const EMPTY: ChainRefusal = ChainRefusal::EmptyRange;

const TOO_LONG: ChainRefusal = ChainRefusal::TooLong {
    count: 2_049,
    limit: 2_048,
};

const BEHIND: ChainRefusal = ChainRefusal::OutOfRange {
    first: SECTORS,
    count: 1,
    sectors: SECTORS,
};

const OVER_THE_END: ChainRefusal = ChainRefusal::OutOfRange {
    first: 2_095_105,
    count: 2_048,
    sectors: SECTORS,
};

const FAR_BEHIND: ChainRefusal = ChainRefusal::OutOfRange {
    first: u64::MAX,
    count: 1,
    sectors: SECTORS,
};

/// Ranges with what they are answered.
pub const RANGES: &[Question] = &[
    Question::Range(2_095_104, 2_048, Ok(())),
    Question::Range(u64::MAX, 0, Err(EMPTY)),
    Question::Range(u64::MAX, 2_049, Err(TOO_LONG)),
    Question::Range(SECTORS, 1, Err(BEHIND)),
    Question::Range(2_095_105, 2_048, Err(OVER_THE_END)),
    Question::Range(u64::MAX, 1, Err(FAR_BEHIND)),
];

// Calls with their numbers, a write of four bytes first.
static CALLS: [(u64, CallRef<'static>); 3] = [
    (
        1,
        CallRef::Write {
            first: 3,
            bytes: b"abcd",
        },
    ),
    (2, CallRef::Trim { first: 5, count: 6 }),
    (3, CallRef::Flush),
];

// Notes the calls of guest 7, and takes the last back.
fn note_some<R: Abort, K: Recorder>(rt: &R, recorder: &mut K) {
    for (no, call) in &CALLS {
        let caller = Caller { guest: 7, no: *no };
        done(rt, recorder.note(caller, *call));
    }
    ask(rt, 1, recorder.len() == 3);
    recorder.drop_last();
    ask(rt, 2, recorder.len() == 2);
}

#[test]
fn calls_are_kept(rt: HostRuntime) {
    let mut all = KeepAll::new(rt.alloc());
    note_some(&rt, &mut all);
    let entries = all.into_entries();
    assert!(rt; entries.len() == 2);
    let (first, second) = (entries[0].caller(), entries[1].caller());
    ask(&rt, 3, first.guest == 7);
    ask(&rt, 4, first.no == 1);
    ask(&rt, 5, second.guest == 7);
    ask(&rt, 6, second.no == 2);
    note_some(&rt, &mut KeepMarks::new());
}

#[test]
fn calls_are_told(rt: HostRuntime) {
    let mut keeping = Ledger::keeping(rt.alloc());
    note_some(&rt, &mut keeping);
    let Some(entries) = keeping.entries() else {
        panic!(rt; "no entries are kept");
    };
    assert!(rt; entries.len() == 2);
    ask(&rt, 7, entries[0].caller().no == 1);
    ask(&rt, 8, entries[1].caller().no == 2);
    let mut telling = Ledger::telling(rt.alloc());
    note_some(&rt, &mut telling);
    ask(&rt, 9, telling.entries().is_none());
}
