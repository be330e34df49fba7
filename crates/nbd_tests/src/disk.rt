//! A disk in memory.

ghost use Rattle.std.specs.Prelude.{◌≡◌, ◌≤◌, ◌<◌, ◌+◌, ◌^◌, IfSome};

use disk_calls::DiskCalls;
use guest_model::ChainRefusal;

/// A call that was made, with its first sector and its count.
#[derive(Clone, Copy, PartialEq, Eq)]
pub enum Made {
    Read(u64, u64),
    Write(u64, u64),
    Through(u64, u64),
    Trim(u64, u64),
    Flush,
}

/// A disk whose first bytes are kept; behind them it is zeros, and what is written there is lost. It keeps the calls that were
/// made, and refuses one of them.
#[derive(Drop)]
pub struct FakeDisk {
    pub bytes: Vec<u8>,
    pub is_large: bool,
    pub sectors: u64,
    pub made: Vec<Made>,
    pub refused: usize,
    pub refusal: ChainRefusal,
    ghost some: { 0 < sectors },
    ghost most: { sectors ≤ 4294967296 },
}

// The bytes of a sector.
fn sector_of(is_large: bool) -> u32
    ensures small { 512 ≤ result }
    ensures large { result ≤ 4096 }
{
    if is_large { 4096 } else { 512 }
}

// Where bytes lie, where they are kept.
fn place(kept: usize, sector: u32, first: u64, len: usize) -> Option<usize>
    ensures { IfSome result (λ at. at + len ≤ kept) }
{
    let at = first.checked_mul(sector as u64)?;
    if at > kept as u64 {
        return None;
    }
    let at = at as usize;
    if len > kept - at {
        return None;
    }
    Some(at)
}

impl FakeDisk {
    // Notes a call, and refuses it where it is the one.
    fn note(&mut self, made: Made) -> Result<u64, ChainRefusal>
        ensures large { self.new.is_large ≡ self.old.is_large }
        ensures sectors { self.new.sectors ≡ self.old.sectors }
    {
        let place = self.made.len();
        if self.made.push(made).is_err() {
            return Err(ChainRefusal::NoRoom);
        }
        if place == self.refused {
            return Err(self.refusal);
        }
        Ok(place as u64)
    }

    fn put(&mut self, first: u64, bytes: &[u8])
        ensures large { self.new.is_large ≡ self.old.is_large }
        ensures sectors { self.new.sectors ≡ self.old.sectors }
    {
        let sector = sector_of(self.is_large);
        if let Some(at) = place(self.bytes.len(), sector, first, bytes.len()) {
            self.bytes[at..at + bytes.len()].copy_from_slice(bytes);
        }
    }
}

impl DiskCalls for FakeDisk {
    ghost use Rattle.std.specs.Prelude.{None};
    ghost use Rattle.nbd_tests.specs.Told.{large_or_small};

    ghost size = { λ d. large_or_small d.is_large d.sectors };

    ghost known = { λ d. None };

    ghost tells = { λ old asked said new. large_or_small new.is_large new.sectors ≡ large_or_small old.is_large old.sectors };

    ghost lawful = { λ old new asked said h. record { size = h; answers = tt } };

    fn sector(&self) -> u32 {
        if self.is_large { 4096 } else { 512 }
    }

    fn sectors(&self) -> u64 {
        self.sectors
    }

    fn read(&mut self, first: u64, buf: &mut [u8]) -> Result<u64, ChainRefusal> {
        let sector = sector_of(self.is_large);
        buf.fill(0);
        if let Some(at) = place(self.bytes.len(), sector, first, buf.len()) {
            buf.copy_from_slice(&self.bytes[at..at + buf.len()]);
        }
        self.note(Made::Read(first, buf.len() as u64 / sector as u64))
    }

    fn write(&mut self, first: u64, bytes: &[u8]) -> Result<u64, ChainRefusal> {
        let sector = sector_of(self.is_large);
        self.put(first, bytes);
        self.note(Made::Write(first, bytes.len() as u64 / sector as u64))
    }

    fn write_through(&mut self, first: u64, bytes: &[u8]) -> Result<u64, ChainRefusal> {
        let sector = sector_of(self.is_large);
        self.put(first, bytes);
        self.note(Made::Through(first, bytes.len() as u64 / sector as u64))
    }

    fn trim(&mut self, first: u64, count: u64) -> Result<u64, ChainRefusal> {
        self.note(Made::Trim(first, count))
    }

    fn flush(&mut self) -> Result<u64, ChainRefusal> {
        self.note(Made::Flush)
    }
}
