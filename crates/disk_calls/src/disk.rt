//! A disk, with the calls of one guest.

ghost use Rattle.std.specs.Prelude.{◌≡◌, ◌<◌, ◌≤◌, ◌*◌, ◌/◌, ◌^◌, ◌⊎◌, ℕ, Option, length};
ghost use Rattle.vx_base.specs.declared.parts.Geometry.{Geometry};
ghost use Rattle.guest_model.specs.declared.call.Call.TheVariants as calls;
ghost use Rattle.guest_model.specs.declared.call.Reply.TheVariants as replies;
ghost use Rattle.disk_calls.specs.Disks.{Asked, IsTold, IsWhole, Known, Told, plain, through, told};

use guest_model::ChainRefusal;

/// A disk, with the calls of one guest. Places and counts are in sectors. Each call but the first two answers its place in the
/// history, counted from 1, or why it was refused (31 to 38, and want of memory).
pub trait DiskCalls {
    /// How large the disk is. No call changes it.
    ghost size: { Self → Geometry };

    /// What the guest knows, where the disk tells it.
    ghost known: { Self → Option Known };

    /// What the disk says of a call: how it is before, what it is asked, what it tells, and how it is behind that.
    ghost tells: { Self → Asked → Told → Self → Type 0 };

    /// That keeps the size, and is true of the history that the guest knows.
    ghost lawful: { (old new : Self) (asked : Asked) (said : Told) → tells old asked said new → IsTold (size old) (size new) (known old) asked said (known new) };

    /// The bytes of a sector, 512 or 4,096.
    fn sector(&self) -> u32
        ensures value { result ≡ (size self.now).sector }
        ensures either { (result ≡ 512) ⊎ (result ≡ 4096) };

    /// The count of sectors, at least one, and at most those of 64 TB.
    fn sectors(&self) -> u64
        ensures value { result ≡ (size self.now).sectors }
        ensures some { 0 < result }
        ensures most { result * (size self.now).sector ≤ 2 ^ 46 };

    /// Reads whole sectors from `first` on.
    fn read(&mut self, first: u64, buf: &mut [u8]) -> Result<u64, ChainRefusal>
        requires { IsWhole (size self.old).sector (length buf.old) }
        ensures told { tells self.old (plain (calls.Read first (length buf.new / (size self.old).sector))) (told (replies.Bytes buf.new) result) self.new };

    /// Writes whole sectors from `first` on.
    fn write(&mut self, first: u64, bytes: &[u8]) -> Result<u64, ChainRefusal>
        requires { IsWhole (size self.old).sector (length bytes.now) }
        ensures told { tells self.old (plain (calls.Write first bytes.now)) (told replies.Done result) self.new };

    /// Writes whole sectors from `first` on, which outlast a crash once it has answered its place: a Write there, and a Flush behind it.
    fn write_through(&mut self, first: u64, bytes: &[u8]) -> Result<u64, ChainRefusal>
        requires { IsWhole (size self.old).sector (length bytes.now) }
        ensures told { tells self.old (through first bytes.now) (told replies.Done result) self.new };

    /// Makes `count` sectors from `first` on zeros.
    fn trim(&mut self, first: u64, count: u64) -> Result<u64, ChainRefusal>
        ensures told { tells self.old (plain (calls.Trim first count)) (told replies.Done result) self.new };

    /// Makes all that was written before outlast a crash.
    fn flush(&mut self) -> Result<u64, ChainRefusal>
        ensures told { tells self.old (plain calls.Flush) (told replies.Done result) self.new };
}
