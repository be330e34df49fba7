//! The calls that a script's lines ask for.

ghost use Rattle.std.specs.Prelude.{◌≡◌, ◌≤◌, ◌<◌, ◌*◌, ℕ, IsErr, OnOk, length, replicate, take};
ghost use Rattle.guest_model.specs.declared.call.Reply.{Reply};
ghost use Rattle.guest_model.specs.declared.call.Call.TheVariants as calls;
ghost use Rattle.guest_model.specs.declared.call.Reply.TheVariants as replies;
ghost use Rattle.chain_core.specs.Sessions.{IsSound, seen};
ghost use Rattle.script_session.specs.Answers.{Answers, too_long};
ghost use Rattle.script_session.specs.Told as told;

use chain_core::Chain;
use guest_model::{Caller, ChainRefusal, Recorder};
use store_model::Store;

/// Bytes of a sector.
pub const SECTOR: usize = 512;

/// How many sectors a read or a write may name.
pub const MOST_MOVED: u64 = 2_048;

// Guest 1, with the number of its call.
fn caller(number: u64) -> Caller
    ensures { result ≡ told.caller number }
{
    Caller {
        guest: 1,
        no: number,
    }
}

// The answer of a call that was made with no sectors, where it asks for too many.
fn too_long(answer: Result<u64, ChainRefusal>, count: u64) -> Result<u64, ChainRefusal>
    ensures { result ≡ too_long count answer }
{
    match answer {
        Err(ChainRefusal::EmptyRange) => Err(ChainRefusal::TooLong {
            count,
            limit: MOST_MOVED,
        }),
        other => other,
    }
}

// Reads sectors into the front of the room.
fn read_some<S: Store, R: Recorder>(
    chain: &mut Chain<S, R>,
    number: u64,
    first: u64,
    count: u64,
    room: &mut [u8],
) -> Result<u64, ChainRefusal>
    requires sound { IsSound (seen S.disk R.noted R.told chain.old) }
    requires room { length room.old ≡ 1048576 }
    requires few { count ≤ 2048 }
    ensures sound { IsSound (seen S.disk R.noted R.told chain.new) }
    ensures answers { let before = seen S.disk R.noted R.told chain.old in
        let now = seen S.disk R.noted R.told chain.new in
        Answers (told.caller number) (calls.Read first count) result (replies.Bytes (take (512 * count) room.new)) before now }
{
    chain.read(caller(number), first, &mut room[..count as usize * SECTOR])
}

// Asks for more sectors than a read may.
fn read_many<S: Store, R: Recorder>(
    chain: &mut Chain<S, R>,
    number: u64,
    first: u64,
    count: u64,
) -> Result<u64, ChainRefusal>
    requires sound { IsSound (seen S.disk R.noted R.told chain.old) }
    requires many { 2048 < count }
    ensures sound { IsSound (seen S.disk R.noted R.told chain.new) }
    ensures answers { let before = seen S.disk R.noted R.told chain.old in
        let now = seen S.disk R.noted R.told chain.new in
        (reply : Reply) → Answers (told.caller number) (calls.Read first count) result reply before now }
    ensures refused { IsErr result }
{
    too_long(chain.read(caller(number), first, &mut []), count)
}

// Reads sectors into the front of the room.
pub(crate) fn read<S: Store, R: Recorder>(
    chain: &mut Chain<S, R>,
    number: u64,
    first: u64,
    count: u64,
    room: &mut [u8],
) -> Result<u64, ChainRefusal>
    requires sound { IsSound (seen S.disk R.noted R.told chain.old) }
    requires room { length room.old ≡ 1048576 }
    ensures sound { IsSound (seen S.disk R.noted R.told chain.new) }
    ensures answers { let before = seen S.disk R.noted R.told chain.old in
        let now = seen S.disk R.noted R.told chain.new in
        Answers (told.caller number) (calls.Read first count) result (replies.Bytes (take (512 * count) room.new)) before now }
    ensures few { OnOk result (count ≤ 2048) }
{
    if count > MOST_MOVED {
        read_many(chain, number, first, count)
    } else {
        read_some(chain, number, first, count, room)
    }
}

// Makes all bytes one.
fn fill_bytes(bytes: &mut [u8], byte: u8)
    ensures { bytes.new ≡ replicate (length bytes.old) byte }
{
    bytes.fill(byte);
}

// Writes sectors, all of whose bytes are one, from the front of the room.
fn write_some<S: Store, R: Recorder>(
    chain: &mut Chain<S, R>,
    number: u64,
    first: u64,
    count: u64,
    byte: u8,
    room: &mut [u8],
) -> Result<u64, ChainRefusal>
    requires sound { IsSound (seen S.disk R.noted R.told chain.old) }
    requires room { length room.old ≡ 1048576 }
    requires few { count ≤ 2048 }
    ensures sound { IsSound (seen S.disk R.noted R.told chain.new) }
    ensures answers { let before = seen S.disk R.noted R.told chain.old in
        let now = seen S.disk R.noted R.told chain.new in
        Answers (told.caller number) (calls.Write first (replicate (512 * count) byte)) result replies.Done before now }
{
    let bytes = &mut room[..count as usize * SECTOR];
    fill_bytes(bytes, byte);
    chain.write(caller(number), first, bytes)
}

// Gives more sectors than a write may.
fn write_many<S: Store, R: Recorder>(
    chain: &mut Chain<S, R>,
    number: u64,
    first: u64,
    count: u64,
) -> Result<u64, ChainRefusal>
    requires sound { IsSound (seen S.disk R.noted R.told chain.old) }
    requires many { 2048 < count }
    ensures sound { IsSound (seen S.disk R.noted R.told chain.new) }
    ensures answers { let before = seen S.disk R.noted R.told chain.old in
        let now = seen S.disk R.noted R.told chain.new in
        (byte : ℕ) → Answers (told.caller number) (calls.Write first (replicate (512 * count) byte)) result replies.Done before now }
{
    too_long(chain.write(caller(number), first, &[]), count)
}

// Writes sectors, all of whose bytes are one.
pub(crate) fn write<S: Store, R: Recorder>(
    chain: &mut Chain<S, R>,
    number: u64,
    first: u64,
    count: u64,
    byte: u8,
    room: &mut [u8],
) -> Result<u64, ChainRefusal>
    requires sound { IsSound (seen S.disk R.noted R.told chain.old) }
    requires room { length room.old ≡ 1048576 }
    ensures sound { IsSound (seen S.disk R.noted R.told chain.new) }
    ensures answers { let before = seen S.disk R.noted R.told chain.old in
        let now = seen S.disk R.noted R.told chain.new in
        Answers (told.caller number) (calls.Write first (replicate (512 * count) byte)) result replies.Done before now }
{
    if count > MOST_MOVED {
        write_many(chain, number, first, count)
    } else {
        write_some(chain, number, first, count, byte, room)
    }
}

// Makes sectors zeros.
pub(crate) fn trim<S: Store, R: Recorder>(
    chain: &mut Chain<S, R>,
    number: u64,
    first: u64,
    count: u64,
) -> Result<u64, ChainRefusal>
    requires { IsSound (seen S.disk R.noted R.told chain.old) }
    ensures sound { IsSound (seen S.disk R.noted R.told chain.new) }
    ensures answers { let before = seen S.disk R.noted R.told chain.old in
        let now = seen S.disk R.noted R.told chain.new in
        Answers (told.caller number) (calls.Trim first count) result replies.Done before now }
{
    chain.trim(caller(number), first, count)
}

// Makes all that was written before outlast a crash.
pub(crate) fn flush<S: Store, R: Recorder>(
    chain: &mut Chain<S, R>,
    number: u64,
) -> Result<u64, ChainRefusal>
    requires { IsSound (seen S.disk R.noted R.told chain.old) }
    ensures sound { IsSound (seen S.disk R.noted R.told chain.new) }
    ensures answers { let before = seen S.disk R.noted R.told chain.old in
        let now = seen S.disk R.noted R.told chain.new in
        Answers (told.caller number) calls.Flush result replies.Done before now }
{
    chain.flush(caller(number))
}
