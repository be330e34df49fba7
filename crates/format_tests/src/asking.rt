//! What tests ask. A question or a row is told by its number alone, and bytes are compared in one place: each text that stands in code,
//! and each such comparison, makes its function's proof longer.

ghost use Rattle.std.specs.Prelude.{◌≡◌, Ok, length};

use std::alloc::Global;
use std::fmt::Debug;
use std::process::Abort;
use vx_base::zeroed;

/// Asks that something holds: the test's question, or the table's row, of this number.
pub fn ask<R: Abort>(rt: &R, number: usize, holds: bool) {
    assert!(rt; holds, "question {number}");
}

/// What a call gives that doesn't fail.
pub fn done<R: Abort, T, E: Debug>(rt: &R, answer: Result<T, E>) -> T
    ensures { answer ≡ Ok result }
{
    answer.expect(rt, "it failed")
}

/// What a call gives that isn't refused.
pub fn given<R: Abort, T, E: Drop>(rt: &R, answer: Result<T, E>) -> T
    ensures { answer ≡ Ok result }
{
    match answer {
        Ok(value) => value,
        Err(_) => rt.panic("it is refused"),
    }
}

/// Whether bytes are the same.
pub fn are_bytes(found: &[u8], wanted: &[u8]) -> bool {
    found == wanted
}

/// So many zeros.
pub fn zeros<R: Abort>(rt: &R, alloc: Global, len: usize) -> Vec<u8>
    ensures { length result.items ≡ len }
{
    done(rt, zeroed(alloc, len))
}

/// The bytes at a place: none where they aren't there.
pub fn part(bytes: &[u8], at: usize, len: usize) -> &[u8] {
    match at.checked_add(len) {
        Some(end) if end <= bytes.len() => &bytes[at..end],
        _ => &[],
    }
}
