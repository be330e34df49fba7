//! Reading a script from a source.

ghost use Rattle.std.specs.Prelude.{◌≡◌, ◌≤◌, ◌<◌, ◌+◌, ◌++◌, ◌^◌, ℕ, List, false, true, length, IfErr, IfOk, IfSome, OnErr, OnOk};
ghost use Rattle.std.specs.Io.KnownBytes.{Consumes, IsAtEnd};
ghost use Rattle.script.specs.declared.form.Line.{Line};
ghost use Rattle.script.specs.Grammar.{IsScript, most_bytes};
ghost use Rattle.script.specs.Sources.{AnswersFrom, CountsFault, IsUnread, LeavesOf, ReadsScript};

use crate::form::ScriptKind;
use crate::reading::{MOST_BYTES, Script, read_script};
use crate::refusal::SourceRefusal;
use std::alloc::{AllocError, Global};
use store_model::Source;

/// So many bytes are asked for at once.
const PIECE_LEN: usize = 65_536;

// Room for a piece.
fn piece_room(alloc: Global) -> Result<Vec<u8>, AllocError>
    ensures { IfOk result (λ piece. length piece.items ≡ 65536) }
{
    vec![in alloc; 0u8; PIECE_LEN]
}

// Adds the source's next piece to the text, and tells whether there was one.
fn take_piece<S: Source>(
    source: &mut S,
    piece: &mut [u8],
    text: &mut Vec<u8>,
) -> Result<bool, SourceRefusal>
    requires room { length piece.old ≡ 65536 }
    requires few { length text.old.items ≤ most_bytes }
    ensures room { length piece.new ≡ 65536 }
    ensures taken { OnOk result ((bytes : List ℕ) × (text.new.items ≡ text.old.items ++ bytes) × Consumes (S.left source.old) (S.left source.new) bytes) }
    ensures most { OnOk result (length text.new.items ≤ most_bytes + 1) }
    ensures more { IfOk result (λ more. more ≡ true → length text.old.items < length text.new.items) }
    ensures end { IfOk result (λ more. more ≡ false → IsAtEnd (S.left source.new)) }
    ensures part { OnErr result ((bytes : List ℕ) × Consumes (S.left source.old) (S.left source.new) bytes) }
    ensures count { CountsFault (S.faults source.old) (S.faults source.new) result }
    ensures unread { IfErr result IsUnread }
{
    let room = PIECE_LEN.min(MOST_BYTES + 1 - text.len());
    let taken = source.read(&mut piece[..room])?;
    text.extend_from_slice(&piece[..taken])?;
    Ok(taken > 0)
}

// The source's bytes, to its end or to the first byte past the limit.
fn text_of<S: Source>(alloc: Global, source: &mut S) -> Result<Vec<u8>, SourceRefusal>
    ensures taken { IfOk result (λ text. Consumes (S.left source.old) (S.left source.new) text.items) }
    ensures most { IfOk result (λ text. length text.items ≤ most_bytes + 1) }
    ensures end { IfOk result (λ text. length text.items ≤ most_bytes → IsAtEnd (S.left source.new)) }
    ensures part { OnErr result ((bytes : List ℕ) × Consumes (S.left source.old) (S.left source.new) bytes) }
    ensures count { CountsFault (S.faults source.old) (S.faults source.new) result }
    ensures unread { IfErr result IsUnread }
{
    let mut piece = piece_room(alloc)?;
    let mut text = Vec::new(alloc);
    while text.len() <= MOST_BYTES {
        if !take_piece(source, piece.as_mut_slice(), &mut text)? {
            return Ok(text);
        }
    }
    Ok(text)
}

/// The script that a source's bytes are, or their first broken line. The source is read to its end, or to the first byte past
/// the limit of 16,777,216 bytes, by pieces of 65,536 bytes.
pub fn script_from<S: Source>(
    alloc: Global,
    source: &mut S,
    kind: ScriptKind,
) -> Result<Script, SourceRefusal>
    // What is read is the script that the bytes are, and a line that is named is their first broken one.
    ensures read { IfSome (S.left source.old) (λ bytes. ReadsScript kind bytes result) }
    // Bytes that are a script are read as it, unless the source fails or memory runs out.
    ensures only { IfSome (S.left source.old) (λ bytes. (script : List Line) → IsScript kind bytes script → AnswersFrom script result) }
    // Whatever the source tells, a script has at most so many lines.
    ensures few { IfOk result (λ script. length script ≤ 2 ^ 20) }
    ensures left { IfSome (S.left source.old) (λ bytes. LeavesOf bytes (S.left source.new) result) }
    ensures count { CountsFault (S.faults source.old) (S.faults source.new) result }
{
    let text = text_of(alloc, source)?;
    let script = read_script(alloc, text.as_slice(), kind)?;
    Ok(script)
}
