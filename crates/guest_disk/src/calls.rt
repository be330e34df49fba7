//! The calls of a guest, as a disk's.

ghost use Rattle.std.specs.Prelude.{◌≡◌, ◌/◌, ◌%◌, Some, length, nat_lt};
ghost use Rattle.disk_calls.specs.Disks.{plain, through, told};
ghost use Rattle.guest_disk.specs.Hearing.{Tells, answer_of, held, with_lost};
ghost use Rattle.guest_io.specs.Guests.{HaveReaders};
ghost use Rattle.guest_model.specs.declared.call.Call.TheVariants as calls;
ghost use Rattle.guest_model.specs.declared.call.Reply.TheVariants.{Bytes, Done};
ghost use Rattle.read_plan.specs.Reading.{has_failed};
ghost use Rattle.shared_chain.specs.Seats.{IsFree};

use guest_io::{Guest, Placed};
use guest_model::ChainRefusal;
use shared_chain::SharedChain;
use std::sync::Wait;
use store_model::{Gate, Store};
use turn_lock::TurnLock;

// What a read is answered: its place, or, where a reader failed behind its turn, that.
fn answer_of(answer: Result<Placed, ChainRefusal>) -> Result<u64, ChainRefusal>
    ensures { result ≡ answer_of answer }
{
    let placed = answer?;
    match placed.read {
        Ok(()) => Ok(placed.place),
        Err(fault) => Err(ChainRefusal::ReadFault {
            file: fault.file,
            count: fault.count,
        }),
    }
}

// One more read that a reader failed for, if it did for this one.
fn with_lost(lost: u64, answer: Result<Placed, ChainRefusal>) -> u64
    ensures { result ≡ with_lost lost answer }
{
    match answer {
        Ok(placed) => match placed.read {
            Ok(()) => lost,
            Err(_) => lost.saturating_add(1),
        },
        Err(_) => lost,
    }
}

/// Reads whole sectors.
pub(crate) fn read_of<S: Store, T: Wait, G: Gate>(
    guest: &mut Guest<S>,
    lost: &mut u64,
    rt: &T,
    lock: &TurnLock<SharedChain<S>>,
    gate: &G,
    first: u64,
    buf: &mut [u8],
) -> Result<u64, ChainRefusal>
    requires own { IsFree lock.now guest.old.seat }
    requires whole { length buf.old % 512 ≡ 0 }
    requires readers { HaveReaders S.disk guest.old.seat.basis guest.old.readers }
    requires failed { has_failed guest.old.readers ≡ nat_lt 0 lost.old }
    ensures told { Tells S.disk (held guest.old lost.old) (plain (calls.Read first (length buf.new / 512))) (told (Bytes buf.new) result) (held guest.new lost.new) }
    ensures own { IsFree lock.now guest.new.seat }
    ensures readers { HaveReaders S.disk guest.new.seat.basis guest.new.readers }
    ensures failed { has_failed guest.new.readers ≡ nat_lt 0 lost.new }
{
    let answer = guest.read(rt, lock, gate, first, buf);
    *lost = with_lost(*lost, answer);
    answer_of(answer)
}

/// Writes whole sectors.
pub(crate) fn write_of<S: Store, T: Wait, G: Gate>(
    guest: &mut Guest<S>,
    lost: &u64,
    rt: &T,
    lock: &TurnLock<SharedChain<S>>,
    gate: &G,
    first: u64,
    bytes: &[u8],
) -> Result<u64, ChainRefusal>
    requires own { IsFree lock.now guest.old.seat }
    requires whole { length bytes.now % 512 ≡ 0 }
    requires readers { HaveReaders S.disk guest.old.seat.basis guest.old.readers }
    ensures told { Tells S.disk (held guest.old lost.now) (plain (calls.Write first bytes.now)) (told Done result) (held guest.new lost.now) }
    ensures own { IsFree lock.now guest.new.seat }
    ensures readers { HaveReaders S.disk guest.new.seat.basis guest.new.readers }
    ensures still { guest.new.readers ≡ guest.old.readers }
{
    guest.write(rt, lock, gate, first, bytes)
}

/// Makes sectors zeros.
pub(crate) fn trim_of<S: Store, T: Wait, G: Gate>(
    guest: &mut Guest<S>,
    lost: &u64,
    rt: &T,
    lock: &TurnLock<SharedChain<S>>,
    gate: &G,
    first: u64,
    count: u64,
) -> Result<u64, ChainRefusal>
    requires own { IsFree lock.now guest.old.seat }
    requires readers { HaveReaders S.disk guest.old.seat.basis guest.old.readers }
    ensures told { Tells S.disk (held guest.old lost.now) (plain (calls.Trim first count)) (told Done result) (held guest.new lost.now) }
    ensures own { IsFree lock.now guest.new.seat }
    ensures readers { HaveReaders S.disk guest.new.seat.basis guest.new.readers }
    ensures still { guest.new.readers ≡ guest.old.readers }
{
    guest.trim(rt, lock, gate, first, count)
}

/// Makes all that was written before outlast a crash.
pub(crate) fn flush_of<S: Store, T: Wait, G: Gate>(
    guest: &mut Guest<S>,
    lost: &u64,
    rt: &T,
    lock: &TurnLock<SharedChain<S>>,
    gate: &G,
) -> Result<u64, ChainRefusal>
    requires own { IsFree lock.now guest.old.seat }
    requires readers { HaveReaders S.disk guest.old.seat.basis guest.old.readers }
    ensures told { Tells S.disk (held guest.old lost.now) (plain calls.Flush) (told Done result) (held guest.new lost.now) }
    ensures own { IsFree lock.now guest.new.seat }
    ensures readers { HaveReaders S.disk guest.new.seat.basis guest.new.readers }
    ensures still { guest.new.readers ≡ guest.old.readers }
{
    guest.flush(rt, lock, gate)
}

/// Writes whole sectors, and flushes before it answers where the write stands.
pub(crate) fn write_through_of<S: Store, T: Wait, G: Gate>(
    guest: &mut Guest<S>,
    lost: &u64,
    rt: &T,
    lock: &TurnLock<SharedChain<S>>,
    gate: &G,
    first: u64,
    bytes: &[u8],
) -> Result<u64, ChainRefusal>
    requires own { IsFree lock.now guest.old.seat }
    requires whole { length bytes.now % 512 ≡ 0 }
    requires readers { HaveReaders S.disk guest.old.seat.basis guest.old.readers }
    ensures told { Tells S.disk (held guest.old lost.now) (through first bytes.now) (told Done result) (held guest.new lost.now) }
    ensures own { IsFree lock.now guest.new.seat }
    ensures readers { HaveReaders S.disk guest.new.seat.basis guest.new.readers }
    ensures still { guest.new.readers ≡ guest.old.readers }
{
    match write_of(guest, lost, rt, lock, gate, first, bytes) {
        Ok(place) => match flush_of(guest, lost, rt, lock, gate) {
            Ok(_) => Ok(place),
            Err(unflushed) => Err(unflushed),
        },
        Err(unwritten) => Err(unwritten),
    }
}
