//! What tests ask. A question or a row is told by its number alone: each text that stands in code makes its function's proof longer.

ghost use Rattle.std.specs.Prelude.{◌≡◌, Ok};

use std::fmt::Debug;
use std::process::Abort;

/// Asks that something holds: the test's question, or the table's row, of this number.
pub fn ask<R: Abort>(rt: &R, number: usize, holds: bool) {
    assert!(rt; holds, "question {number}");
}

/// What a call gives that doesn't fail.
pub fn done<R: Abort, T, E: Debug>(rt: &R, answer: Result<T, E>) -> T
    ensures { answer ≡ Ok result }
{
    answer.expect(rt, "it failed")
}
