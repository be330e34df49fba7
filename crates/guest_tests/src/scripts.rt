//! Scripts, with their lines or their first broken line.

use crate::questions::Question;
use script::{Form, Line, ScriptKind, ScriptRefusal, read_script};
use std::alloc::Global;

const STEPS: ScriptKind = ScriptKind::Steps;

const SERVE: ScriptKind = ScriptKind::Serve;

/// A line's guest and form.
pub type Wanted = (u32, Form);

fn is_line(line: &Line, wanted: &Wanted) -> bool {
    line.guest == wanted.0 && line.form == wanted.1
}

fn are_lines(lines: &[Line], wanted: &[Wanted]) -> bool {
    if lines.len() != wanted.len() {
        return false;
    }
    for k in 0..lines.len() {
        if !is_line(&lines[k], &wanted[k]) {
            return false;
        }
    }
    true
}

/// Whether the text is a script of these lines.
pub fn is_read(alloc: Global, kind: ScriptKind, text: &[u8], wanted: &[Wanted]) -> bool {
    match read_script(alloc, text, kind) {
        Ok(script) => are_lines(script.as_slice(), wanted),
        Err(_) => false,
    }
}

const READ: Form = Form::Read {
    first: 4094,
    count: 4,
};

const WRITE: Form = Form::Write {
    first: 0,
    count: 1,
    byte: 0xab,
};

const TRIM: Form = Form::Trim {
    first: u64::MAX,
    count: 0,
};

const LOWEST: Form = Form::Fetch { stripe: 0 };

const HIGHEST: Form = Form::Fetch { stripe: u32::MAX };

/// Texts with their lines.
pub const SCRIPTS: &[Question] = &[
    Question::Script(
        STEPS,
        b"# all forms\xff\x00\nread 4094 4\nwrite 0 1 aB\n\ntrim 18446744073709551615 0\nflush",
        &[(1, READ), (1, WRITE), (1, TRIM), (1, Form::Flush)],
    ),
    Question::Script(
        STEPS,
        b"fetch 0\nput\nfetch 4294967295\ncopy\nfinish\n",
        &[
            (1, LOWEST),
            (1, Form::Put),
            (1, HIGHEST),
            (1, Form::Copy),
            (1, Form::Finish),
        ],
    ),
    Question::Script(
        SERVE,
        b"1 write 0 1 ab\n64 flush\n",
        &[(1, WRITE), (64, Form::Flush)],
    ),
    Question::Script(SERVE, b"\n\n#", &[]),
    // a line of 80 bytes
    Question::Script(
        STEPS,
        b"#2345678901234567890123456789012345678901234567890123456789012345678901234567890\nflush",
        &[(1, Form::Flush)],
    ),
];

/// Whether this line is the text's first broken one.
pub fn is_broken(alloc: Global, kind: ScriptKind, text: &[u8], line: u64) -> bool {
    match read_script(alloc, text, kind) {
        Err(ScriptRefusal::Line { number }) => number == line,
        _ => false,
    }
}

/// Texts with their first broken line.
pub const BROKEN: &[Question] = &[
    Question::Broken(STEPS, b"flush\nwrite 0 1 g1\nread\n", 2),
    Question::Broken(STEPS, b"read 0 01", 1),
    Question::Broken(STEPS, b"read 0  1", 1),
    Question::Broken(STEPS, b"read 0 1 ", 1),
    Question::Broken(STEPS, b"read 0", 1),
    Question::Broken(STEPS, b" flush", 1),
    Question::Broken(STEPS, b"flush\r\n", 1),
    Question::Broken(STEPS, b"Flush", 1),
    Question::Broken(STEPS, b"#\n\nread 18446744073709551616 1\nnone", 3),
    Question::Broken(STEPS, b"write 0 1 0aa", 1),
    Question::Broken(STEPS, b"read -1 1", 1),
    Question::Broken(STEPS, b"1 flush", 1),
    Question::Broken(STEPS, b"\nfinished", 2),
    Question::Broken(STEPS, b"finish\nfinish 0", 2),
    Question::Broken(STEPS, b"copy\nput 1", 2),
    Question::Broken(STEPS, b"fetch", 1),
    Question::Broken(STEPS, b"fetch 0\nfetch 4294967296", 2),
    Question::Broken(STEPS, b"fetch 01", 1),
    Question::Broken(STEPS, b"fetch 0 1", 1),
    Question::Broken(STEPS, b"1 put", 1),
    Question::Broken(
        STEPS,
        b"\n#23456789012345678901234567890123456789012345678901234567890123456789012345678901",
        2,
    ),
    Question::Broken(SERVE, b"flush", 1),
    Question::Broken(SERVE, b"0 flush", 1),
    Question::Broken(SERVE, b"65 flush", 1),
    Question::Broken(SERVE, b"1  flush", 1),
    Question::Broken(SERVE, b"1 fetch 0", 1),
    Question::Broken(SERVE, b"1 put", 1),
    Question::Broken(SERVE, b"1 copy", 1),
    Question::Broken(SERVE, b"1 finish", 1),
];
