//! The text of a load.

ghost use Rattle.std.specs.Prelude.{◌≡◌, ◌++◌, IfOk, OnOk, length, string_bytes};
ghost use Rattle.guest_model.specs.History.{is_flush};
ghost use Rattle.load_calls.specs.Load.{call_of};
ghost use Rattle.load_calls.specs.Printed.{AreCounted, counts_line, is_read, is_trim, is_write, lines_text, lines_that};

use script::{Form, Line};
use std::alloc::{AllocError, Global};
use std::fmt::Write;

/// How many calls some lines are, and how many of them are of each kind.
#[derive(Clone, Copy)]
pub struct Counts {
    /// All of them.
    pub calls: u64,
    /// Those that write.
    pub writes: u64,
    /// Those that trim.
    pub trims: u64,
    /// Those that read.
    pub reads: u64,
    /// Those that flush.
    pub flushes: u64,
}

fn is_write(form: Form) -> bool
    ensures { result ≡ is_write (call_of form) }
{
    matches!(form, Form::Write { .. })
}

fn is_trim(form: Form) -> bool
    ensures { result ≡ is_trim (call_of form) }
{
    matches!(form, Form::Trim { .. })
}

fn is_read(form: Form) -> bool
    ensures { result ≡ is_read (call_of form) }
{
    matches!(form, Form::Read { .. })
}

// A line that is no call counts as one that asks for nothing to be read or changed, as a flush does.
fn is_flush(form: Form) -> bool
    ensures { result ≡ is_flush (call_of form) }
{
    !(is_write(form) || is_trim(form) || is_read(form))
}

fn writes_in(lines: &[Line]) -> usize
    ensures { result ≡ lines_that is_write lines.now }
{
    lines.iter().filter(|l| is_write(l.form)).count()
}

fn trims_in(lines: &[Line]) -> usize
    ensures { result ≡ lines_that is_trim lines.now }
{
    lines.iter().filter(|l| is_trim(l.form)).count()
}

fn reads_in(lines: &[Line]) -> usize
    ensures { result ≡ lines_that is_read lines.now }
{
    lines.iter().filter(|l| is_read(l.form)).count()
}

fn flushes_in(lines: &[Line]) -> usize
    ensures { result ≡ lines_that is_flush lines.now }
{
    lines.iter().filter(|l| is_flush(l.form)).count()
}

/// The counts of these lines.
pub fn counts_of(lines: &[Line]) -> Counts
    ensures { AreCounted lines.now result }
{
    Counts {
        calls: lines.len() as u64,
        writes: writes_in(lines) as u64,
        trims: trims_in(lines) as u64,
        reads: reads_in(lines) as u64,
        flushes: flushes_in(lines) as u64,
    }
}

fn push_counts(out: &mut String, counts: Counts) -> Result<(), AllocError>
    ensures { OnOk result (string_bytes out.new ≡ string_bytes out.old ++ counts_line counts.calls counts.writes counts.trims counts.reads counts.flushes) }
{
    let Counts {
        calls,
        writes,
        trims,
        reads,
        flushes,
    } = counts;
    write!(out, "calls {calls} writes {writes}")?;
    write!(out, " trims {trims} reads {reads} flushes {flushes}\n")
}

/// The three lines of a load with these counts, this sum over its disk and this sum of what was read. The `Err` is want of memory.
pub fn lines_text(alloc: Global, counts: Counts, disk: u64, seen: u64) -> Result<String, AllocError>
    ensures { IfOk result (λ text. string_bytes text ≡ lines_text counts.calls counts.writes counts.trims counts.reads counts.flushes disk seen) }
{
    let mut out = String::new(alloc);
    push_counts(&mut out, counts)?;
    write!(out, "disk {disk}\n")?;
    write!(out, "seen {seen}\n")?;
    Ok(out)
}
