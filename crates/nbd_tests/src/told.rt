//! A disk in memory that tells its history.

ghost use Rattle.std.specs.Prelude.{◌≡◌, ◌≤◌, ◌<◌, ◌+◌, ◌*◌, ◌/◌, ◌%◌, ◌^◌, ◌++◌, ◌∷◌, [], length, IfOk, OnErr, Some};
ghost use Rattle.guest_model.specs.declared.call.Call.TheVariants.{Flush, Read, Trim, Write};
ghost use Rattle.guest_model.specs.declared.call.Reply.TheVariants.{Bytes, Done};
ghost use Rattle.guest_model.specs.Calls.{call_of};
ghost use Rattle.disk_calls.specs.Disks.{IsTrueOf, IsWhole, plain, through, told};
ghost use Rattle.nbd_tests.specs.Told.{Holds, known_of, size_of};

use disk_calls::DiskCalls;
use guest_model::{CallRef, Caller, ChainRefusal, KeepAll, Recorder};
use mem_file::overwrite;
use std::alloc::{AllocError, Global};
use vx_base::zeroed;

/// A disk in memory, of sectors of 512 bytes, that serves guest 1 and notes each of its calls.
#[derive(Drop)]
pub struct ToldDisk {
    pub bytes: Vec<u8>,
    pub history: KeepAll,
    ghost some: { 512 ≤ length bytes.items },
    ghost few: { length bytes.items ≤ 2 ^ 46 },
    ghost holds: { Holds history bytes.items },
}

// Where sectors lie that are all on a disk of so many bytes.
fn place(len: usize, first: u64, count: u64) -> Result<usize, ChainRefusal>
    ensures at { IfOk result (λ at. at ≡ 512 * first) }
    ensures inside { IfOk result (λ at. first + count ≤ len / 512) }
{
    let sectors = len as u64 / 512;
    if first > sectors || count > sectors - first {
        return Err(ChainRefusal::OutOfRange {
            first,
            count,
            sectors,
        });
    }
    Ok(first as usize * 512)
}

// Notes a call of guest 1, and answers its place.
fn note(history: &mut KeepAll, call: CallRef<'_>) -> Result<u64, ChainRefusal>
    ensures noted { IfOk result (λ place. history.new ≡ history.old ++ record { guest = 1; no = 0; call = call_of call.entry } ∷ []) }
    ensures place { IfOk result (λ place. place ≡ length history.new) }
    ensures same { OnErr result (history.new ≡ history.old) }
{
    history.note(Caller { guest: 1, no: 0 }, call)?;
    Ok(history.len())
}

impl ToldDisk {
    /// A blank disk of so many sectors.
    pub fn new(alloc: Global, sectors: usize) -> Result<ToldDisk, AllocError>
        requires some { 0 < sectors }
        requires few { sectors ≤ 2 ^ 37 }
    {
        Ok(ToldDisk {
            bytes: zeroed(alloc, 512 * sectors)?,
            history: KeepAll::new(alloc),
        })
    }
}

// Reads whole sectors.
fn read_of(
    bytes: &[u8],
    history: &mut KeepAll,
    first: u64,
    buf: &mut [u8],
) -> Result<u64, ChainRefusal>
    requires whole { IsWhole 512 (length buf.old) }
    requires holds { Holds history.old bytes.now }
    ensures holds { Holds history.new bytes.now }
    ensures told { IsTrueOf 512 (known_of bytes.now history.old) (known_of bytes.now history.new) (plain (Read first (length buf.new / 512))) (told (Bytes buf.new) result) }
{
    let count = buf.len() as u64 / 512;
    let at = place(bytes.len(), first, count)?;
    buf.copy_from_slice(&bytes[at..at + buf.len()]);
    note(history, CallRef::Read { first, count })
}

// Writes whole sectors.
fn write_to(
    bytes: &mut [u8],
    history: &mut KeepAll,
    first: u64,
    with: &[u8],
) -> Result<u64, ChainRefusal>
    requires whole { IsWhole 512 (length with.now) }
    requires holds { Holds history.old bytes.old }
    ensures holds { Holds history.new bytes.new }
    ensures told { IsTrueOf 512 (known_of bytes.old history.old) (known_of bytes.new history.new) (plain (Write first with.now)) (told Done result) }
{
    let at = place(bytes.len(), first, with.len() as u64 / 512)?;
    let placed = note(history, CallRef::Write { first, bytes: with })?;
    overwrite(bytes, at, with);
    Ok(placed)
}

// Makes sectors zeros.
fn trim_of(
    bytes: &mut [u8],
    history: &mut KeepAll,
    first: u64,
    count: u64,
) -> Result<u64, ChainRefusal>
    requires holds { Holds history.old bytes.old }
    ensures holds { Holds history.new bytes.new }
    ensures told { IsTrueOf 512 (known_of bytes.old history.old) (known_of bytes.new history.new) (plain (Trim first count)) (told Done result) }
{
    let at = place(bytes.len(), first, count)?;
    let placed = note(history, CallRef::Trim { first, count })?;
    bytes[at..at + count as usize * 512].fill(0);
    Ok(placed)
}

// Notes a flush.
fn flush_of(bytes: &[u8], history: &mut KeepAll) -> Result<u64, ChainRefusal>
    requires holds { Holds history.old bytes.now }
    ensures holds { Holds history.new bytes.now }
    ensures told { IsTrueOf 512 (known_of bytes.now history.old) (known_of bytes.now history.new) (plain Flush) (told Done result) }
{
    note(history, CallRef::Flush)
}

// Writes whole sectors, and flushes before it answers.
fn write_through_to(
    bytes: &mut [u8],
    history: &mut KeepAll,
    first: u64,
    with: &[u8],
) -> Result<u64, ChainRefusal>
    requires whole { IsWhole 512 (length with.now) }
    requires holds { Holds history.old bytes.old }
    ensures holds { Holds history.new bytes.new }
    ensures told { IsTrueOf 512 (known_of bytes.old history.old) (known_of bytes.new history.new) (through first with.now) (told Done result) }
{
    let placed = write_to(bytes, history, first, with)?;
    flush_of(bytes, history)?;
    Ok(placed)
}

impl DiskCalls for ToldDisk {
    ghost use Rattle.disk_calls.specs.Disks.{IsTold};

    ghost size = { λ d. size_of d.bytes.items };

    ghost known = { λ d. Some (known_of d.bytes.items d.history) };

    ghost tells = { λ old asked said new. IsTold (size_of old.bytes.items) (size_of new.bytes.items) (Some (known_of old.bytes.items old.history)) asked said (Some (known_of new.bytes.items new.history)) };

    ghost lawful = { λ old new asked said h. h };

    fn sector(&self) -> u32 {
        512
    }

    fn sectors(&self) -> u64 {
        self.bytes.len() as u64 / 512
    }

    fn read(&mut self, first: u64, buf: &mut [u8]) -> Result<u64, ChainRefusal> {
        read_of(&self.bytes, &mut self.history, first, buf)
    }

    fn write(&mut self, first: u64, bytes: &[u8]) -> Result<u64, ChainRefusal> {
        write_to(&mut self.bytes, &mut self.history, first, bytes)
    }

    fn write_through(&mut self, first: u64, bytes: &[u8]) -> Result<u64, ChainRefusal> {
        write_through_to(&mut self.bytes, &mut self.history, first, bytes)
    }

    fn trim(&mut self, first: u64, count: u64) -> Result<u64, ChainRefusal> {
        trim_of(&mut self.bytes, &mut self.history, first, count)
    }

    fn flush(&mut self) -> Result<u64, ChainRefusal> {
        flush_of(&self.bytes, &mut self.history)
    }
}
