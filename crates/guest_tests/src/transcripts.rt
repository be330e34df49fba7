//! Transcripts, of steps and of guests, with the texts of what refuses a call.

ghost use Rattle.std.specs.Prelude.{◌≡◌, ◌++◌, ◌∷◌, [], length};
ghost use Rattle.guest_model.specs.Calls.{entry_of};

use crate::asking::{ask, done, is_text};
use guest_model::{CallRef, Caller, ChainRefusal, KeepAll, Recorder};
use script::{Answer, Form, Text, ToldCall, ToldCalls, push_answered, serve_text, steps_text};
use std::alloc::Global;
use std::process::Abort;

static NAMES: [&str; 2] = ["c.vhdx", "b.vhdx"];

/// A call's place in the history, its line and its answer.
type Row = (Option<u64>, Form, Answer<'static>);

fn told<R: Abort>(rt: &R, alloc: Global, row: &Row) -> ToldCall {
    let mut text = String::new(alloc);
    done(rt, push_answered(&mut text, &NAMES, row.1, row.2));
    ToldCall {
        place: row.0,
        text: Text::from_string(text),
    }
}

// Asks that the transcript of these calls is this text.
fn ask_steps<R: Abort>(rt: &R, alloc: Global, rows: &[Row], wanted: &str) {
    let mut all = Vec::new(alloc);
    for row in rows {
        done(rt, all.push(told(rt, alloc, row)));
    }
    let text = done(rt, steps_text(alloc, &all));
    ask(rt, 1, is_text(&text, wanted));
}

const WRITE_TWO: Form = Form::Write {
    first: 4095,
    count: 2,
    byte: 0xaa,
};

const READ_FOUR: Form = Form::Read {
    first: 4094,
    count: 4,
};

const READ_BEHIND: Form = Form::Read {
    first: 2_097_152,
    count: 1,
};

const TRIM: Form = Form::Trim {
    first: 0,
    count: 2048,
};

const PAST_THE_END: ChainRefusal = ChainRefusal::OutOfRange {
    first: 2_097_152,
    count: 1,
    sectors: 2_097_152,
};

const BROKEN: ChainRefusal = ChainRefusal::Broken { file: 1, count: 2 };

// Four sectors, the second and the third of them filled.
static SECTORS: [[u8; 512]; 4] = [[0; 512], [0xaa; 512], [0xaa; 512], [0; 512]];

#[test]
fn a_transcript_of_steps(rt: HostRuntime) {
    let rows = [
        (Some(1), WRITE_TWO, Answer::Done),
        (Some(2), READ_FOUR, Answer::Bytes(SECTORS.as_flattened())),
        (None, READ_BEHIND, Answer::Refused(PAST_THE_END)),
        (Some(3), TRIM, Answer::Done),
        (None, Form::Flush, Answer::Refused(BROKEN)),
    ];
    let wanted = "1 write 4095 2 aa = done\n\
        2 read 4094 4 = 512*00 1024*aa 512*00\n\
        - read 2097152 1 = refused 32 OutOfRange first 2097152 count 1 sectors 2097152\n\
        3 trim 0 2048 = done\n\
        - flush = refused 35 Broken b.vhdx count 2\n";
    ask_steps(&rt, rt.alloc(), &rows, wanted);
}

const FETCH: Form = Form::Fetch { stripe: 1023 };

const WRITE_ONE: Form = Form::Write {
    first: 0,
    count: 1,
    byte: 1,
};

const STALE: ChainRefusal = ChainRefusal::Stale { taken: 0, now: 1 };

const MISSING: ChainRefusal = ChainRefusal::NotYet { stripe: 7 };

static MERGED: [Row; 9] = [
    (None, FETCH, Answer::Stamp(0)),
    (Some(1), WRITE_ONE, Answer::Done),
    (None, Form::Put, Answer::Refused(STALE)),
    (None, FETCH, Answer::Stamp(u64::MAX)),
    (None, Form::Put, Answer::Copied),
    (None, Form::Finish, Answer::Refused(MISSING)),
    (None, Form::Copy, Answer::Done),
    (None, Form::Finish, Answer::Done),
    (None, Form::Copy, Answer::Refused(ChainRefusal::NoMerge)),
];

#[test]
fn a_transcript_of_a_merge(rt: HostRuntime) {
    let wanted = "- fetch 1023 = stamp 0\n\
        1 write 0 1 01 = done\n\
        - put = refused 46 Stale taken 0 now 1\n\
        - fetch 1023 = stamp 18446744073709551615\n\
        - put = copied\n\
        - finish = refused 47 NotYet stripe 7\n\
        - copy = done\n\
        - finish = done\n\
        - copy = refused 45 NoMerge\n";
    ask_steps(&rt, rt.alloc(), &MERGED, wanted);
}

// Two calls of one guest.
fn calls<R: Abort>(rt: &R, alloc: Global, rows: &[Row; 2]) -> ToldCalls
    ensures { length result ≡ 2 }
{
    let mut calls = ToldCalls::new(alloc);
    done(rt, calls.push(told(rt, alloc, &rows[0])));
    done(rt, calls.push(told(rt, alloc, &rows[1])));
    calls
}

const EMPTY: Answer<'static> = Answer::Refused(ChainRefusal::EmptyRange);

const WRITE: Form = Form::Write {
    first: 0,
    count: 1,
    byte: 0xaa,
};

const READ: Form = Form::Read { first: 0, count: 1 };

const READ_NONE: Form = Form::Read { first: 0, count: 0 };

const READ_NONE_LATER: Form = Form::Read { first: 9, count: 0 };

// The calls of the first guest, and of the third.
static FIRST: [Row; 2] = [(Some(2), WRITE, Answer::Done), (None, READ_NONE, EMPTY)];

static THIRD: [Row; 2] = [
    (None, READ_NONE_LATER, EMPTY),
    (Some(1), READ, Answer::Bytes(&[0; 512])),
];

// Keeps a call of a guest, of this number.
fn note<R: Abort>(rt: &R, history: &mut KeepAll, guest: u32, no: u64, call: CallRef<'_>)
    ensures { history.new ≡ history.old ++ entry_of (record { guest = guest; no = no }) call.entry ∷ [] }
{
    done(rt, history.note(Caller { guest, no }, call));
}

#[test]
fn a_transcript_of_guests(rt: HostRuntime) {
    let alloc = rt.alloc();
    let guests = [
        calls(&rt, alloc, &FIRST),
        ToldCalls::new(alloc),
        calls(&rt, alloc, &THIRD),
    ];
    let mut history = KeepAll::new(alloc);
    let read = CallRef::Read { first: 0, count: 1 };
    note(&rt, &mut history, 3, 2, read);
    let bytes = &[0xaa];
    note(&rt, &mut history, 1, 1, CallRef::Write { first: 0, bytes });
    let wanted = "1 3 2 read 0 1 = 512*00\n\
        2 1 1 write 0 1 aa = done\n\
        - 1 2 read 0 0 = refused 31 EmptyRange\n\
        - 3 1 read 9 0 = refused 31 EmptyRange\n";
    let text = done(&rt, serve_text(alloc, history.entries(), &guests));
    ask(&rt, 1, is_text(&text, wanted));
}
