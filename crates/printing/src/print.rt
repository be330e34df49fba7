//! Printing to a sink.

ghost use Rattle.std.specs.Prelude.{◌≡◌, ℕ, codes, take, string_bytes, OnOk, OnErr, IfErr, MatchResult};
ghost use Rattle.std.specs.Io.KnownBytes.{Appends};
ghost use Rattle.store_model.specs.Cause.{Rose};
ghost use Rattle.printing.specs.Sent.{Sent};

use crate::status::Status;
use store_model::{Sink, SinkFault};
use vx_base::NoRoom;

/// Writes all of the text. After a fault a part from its beginning was written, and the sink's count rose.
pub fn send<K: Sink>(out: &mut K, text: &[u8]) -> Result<(), SinkFault>
    ensures ok { OnOk result (Appends (K.written out.old) (K.written out.new) text.now) }
    ensures cut { OnErr result ((n : ℕ) × Appends (K.written out.old) (K.written out.new) (take n text.now)) }
    ensures quiet { OnOk result (K.faults out.new ≡ K.faults out.old) }
    ensures told { IfErr result (λ fault. fault.count ≡ K.faults out.new) }
    ensures rose { OnErr result (Rose (K.faults out.old) (K.faults out.new)) }
{
    let mut at = 0;
    while at < text.len() {
        let taken = out.write(&text[at..])?;
        at += taken;
    }
    Ok(())
}

/// Prints the text of this status. A fault of the sink ends the run with its own.
pub fn deliver<K: Sink>(out: &mut K, status: Status, text: &[u8]) -> Status
    ensures { Sent (K.written out.old) (K.written out.new) (K.faults out.old) (K.faults out.new) status text.now result }
{
    match send(out, text) {
        Ok(()) => status,
        Err(_) => Status::Fault,
    }
}

/// Prints that memory ran out.
pub fn out_of_memory<K: Sink>(out: &mut K) -> Status
    ensures { Sent (K.written out.old) (K.written out.new) (K.faults out.old) (K.faults out.new) Status.NoMemory (codes "no memory\n") result }
{
    deliver(out, Status::NoMemory, b"no memory\n")
}

/// Prints a line with its status, or that memory ran out for it.
pub fn say<K: Sink>(out: &mut K, status: Status, line: Result<String, NoRoom>) -> Status
    ensures { MatchResult line (λ l. Sent (K.written out.old) (K.written out.new) (K.faults out.old) (K.faults out.new) status
        (string_bytes l) result) (λ _. Sent (K.written out.old) (K.written out.new) (K.faults out.old) (K.faults out.new) Status.NoMemory
        (codes "no memory\n") result) }
{
    match line {
        Ok(line) => deliver(out, status, line.as_bytes()),
        Err(NoRoom) => out_of_memory(out),
    }
}

/// Prints the line of a refusal, or that memory ran out for it.
pub fn refuse<K: Sink>(out: &mut K, line: Result<String, NoRoom>) -> Status
    ensures { MatchResult line (λ l. Sent (K.written out.old) (K.written out.new) (K.faults out.old) (K.faults out.new) Status.Refused
        (string_bytes l) result) (λ _. Sent (K.written out.old) (K.written out.new) (K.faults out.old) (K.faults out.new) Status.NoMemory
        (codes "no memory\n") result) }
{
    say(out, Status::Refused, line)
}
