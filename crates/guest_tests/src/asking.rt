//! What tests ask. A question or a row is told by its number alone, and texts and bytes are compared in one place: each text that stands
//! in code, and each such comparison, makes its function's proof longer.

ghost use Rattle.std.specs.Prelude.{◌≡◌, Ok};

use std::alloc::Global;
use std::fmt::Debug;
use std::process::Abort;
use vx_base::Name;

/// Asks that something holds: the test's question, or the table's row, of this number.
pub fn ask<R: Abort>(rt: &R, number: usize, holds: bool) {
    assert!(rt; holds, "question {number}");
}

/// What a call gives that doesn't fail.
pub fn done<R: Abort, T, E: Debug>(rt: &R, answer: Result<T, E>) -> T
    ensures { answer ≡ Ok result }
{
    answer.expect(rt, "it failed")
}

/// Whether two texts are one.
pub fn is_text(found: &str, wanted: &str) -> bool {
    found == wanted
}

/// Whether bytes are the same.
pub fn are_bytes(found: &[u8], wanted: &[u8]) -> bool {
    found == wanted
}

/// The name of a file.
pub fn name_of<R: Abort>(rt: &R, alloc: Global, name: &str) -> Name {
    done(rt, Name::new(alloc, name))
}
