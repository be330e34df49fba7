//! Questions that tables ask: each row is data, and a failure tells the table's name and the row, counted from 0.

use crate::history::SECTORS;
use crate::scripts::{Wanted, is_broken, is_read};
use crate::words::{Asked, asks, asks_nothing};
use crate::{history, scripts, words};
use guest_model::{ChainRefusal, check_range};
use script::ScriptKind;
use std::alloc::Global;
use std::process::Abort;

/// A question with what is to be answered.
pub enum Question {
    /// Of a range of a disk of 1 GB, whether it may be asked for.
    Range(u64, u64, Result<(), ChainRefusal>),
    /// Of a text, the script that it is.
    Script(ScriptKind, &'static [u8], &'static [Wanted]),
    /// Of a text, its first broken line.
    Broken(ScriptKind, &'static [u8], u64),
    /// Of a line of words, what it asks for.
    Asks(&'static str, Asked<'static>),
    /// A line of words that asks for nothing.
    AsksNothing(&'static str),
}

fn holds<R: Abort>(rt: &R, alloc: Global, question: &Question) -> bool {
    match question {
        Question::Range(first, count, wanted) => {
            check_range(*first, *count, 2_048, SECTORS) == *wanted
        }
        Question::Script(kind, text, wanted) => is_read(alloc, *kind, text, wanted),
        Question::Broken(kind, text, line) => is_broken(alloc, *kind, text, *line),
        Question::Asks(line, wanted) => asks(rt, alloc, line, wanted),
        Question::AsksNothing(line) => asks_nothing(rt, alloc, line),
    }
}

/// A table under its name.
type Table = (&'static str, &'static [Question]);

// Asks each question of a table.
fn ask_all<R: Abort>(rt: &R, alloc: Global, table: &Table) {
    for (row, question) in table.1.iter().enumerate() {
        let so = holds(rt, alloc, question);
        assert!(rt; so, "{} {row}", table.0);
    }
}

// In three, since a large constant is checked as a whole.
static CALLS: [Table; 3] = [
    ("ranges", history::RANGES),
    ("lines are read", scripts::SCRIPTS),
    ("the first broken line is named", scripts::BROKEN),
];

static WORDS: [Table; 2] = [
    ("lines ask for one thing", words::LINES),
    ("other lines ask for nothing", words::REFUSED),
];

static CLIENTS: [Table; 2] = [
    ("lines ask for a client", words::CLIENTS),
    ("other lines ask for none", words::NO_CLIENTS),
];

fn ask_tables<R: Abort>(rt: &R, alloc: Global, tables: &[Table]) {
    for table in tables {
        ask_all(rt, alloc, table);
    }
}

#[test]
fn tables_of_questions(rt: HostRuntime) {
    ask_tables(&rt, rt.alloc(), &CALLS);
    ask_tables(&rt, rt.alloc(), &WORDS);
    ask_tables(&rt, rt.alloc(), &CLIENTS);
}
