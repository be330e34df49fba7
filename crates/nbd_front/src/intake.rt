//! Reading from a source.

ghost use Rattle.std.specs.Prelude.{◌≡◌, ◌≤◌, ◌<◌, ◌++◌, ◌-◌, ◌^◌, min, length, take, IfErr, IfOk, OnOk, OnErr};
ghost use Rattle.std.specs.Io.KnownBytes.{Consumes, IsAtEnd, ReadConsumes, Keeps};
ghost use Rattle.store_model.specs.Stream.{Counts};
ghost use Rattle.nbd_front.specs.Wire.{counted};

use crate::refusal::NbdRefusal;
use store_model::{Source, SourceFault};

/// So many bytes are read ahead at most.
pub const AHEAD: usize = 65_536;

/// Bytes that were read ahead, and how many were taken.
#[derive(Drop)]
pub struct Intake {
    pub room: Vec<u8>,
    pub start: usize,
    pub end: usize,
    pub at: u64,
    ghost fits: { at < 2 ^ 64 },
    ghost ordered: { start ≤ end },
    ghost inside: { end ≤ 65536 },
    ghost len: { length room.items ≡ 65536 },
}

impl Intake {
    ghost use Rattle.nbd_front.specs.Parts.{ahead, unread, IsShort, CountsSource};

    /// Nothing was read yet.
    pub fn new(room: Vec<u8>) -> Intake
        requires { length room.items ≡ 65536 }
        ensures empty { result.end ≡ result.start }
        ensures at { result.at ≡ 0 }
    {
        Intake {
            room,
            start: 0,
            end: 0,
            at: 0,
        }
    }

    // Hands out what was read ahead, as far as it goes.
    fn hand(&mut self, out: &mut [u8]) -> usize
        ensures handed { ahead self.old ≡ take result out.new ++ ahead self.new }
        ensures count { result ≡ min (length out.new) (self.old.end - self.old.start) }
        ensures at { self.new.at ≡ counted self.old.at result }
    {
        let n = out.len().min(self.end - self.start);
        let from = self.start;
        out[..n].copy_from_slice(&self.room[from..from + n]);
        self.start = from + n;
        self.at = self.at.saturating_add(n as u64);
        n
    }

    // Reads ahead, where nothing is.
    fn refill<S: Source>(&mut self, source: &mut S) -> Result<(), SourceFault>
        requires { self.old.start ≡ self.old.end }
        ensures kept { Keeps (unread self.old (S.left source.old)) (unread self.new (S.left source.new)) }
        ensures end { OnOk result (self.new.end - self.new.start ≡ 0 → IsAtEnd (S.left source.new)) }
        ensures at { self.new.at ≡ self.old.at }
        ensures count { Counts (λ fault. fault.count) (S.faults source.old) (S.faults source.new) result }
    {
        let n = source.read(self.room.as_mut_slice())?;
        self.start = 0;
        self.end = n;
        Ok(())
    }

    // Reads past the room, where nothing is ahead.
    fn pass<S: Source>(&mut self, source: &mut S, out: &mut [u8]) -> Result<usize, SourceFault>
        requires { self.old.start ≡ self.old.end }
        ensures bound { IfOk result (λ n. n ≤ length out.new) }
        ensures bytes { ReadConsumes (unread self.old (S.left source.old)) (unread self.new (S.left source.new)) result out.new }
        ensures at { IfOk result (λ n. self.new.at ≡ counted self.old.at n) }
        ensures count { Counts (λ fault. fault.count) (S.faults source.old) (S.faults source.new) result }
    {
        let n = source.read(out)?;
        self.at = self.at.saturating_add(n as u64);
        Ok(n)
    }

    // Some bytes, or none at the source's end.
    fn some<S: Source>(&mut self, source: &mut S, out: &mut [u8]) -> Result<usize, SourceFault>
        requires { 0 < length out.old }
        ensures bound { IfOk result (λ n. n ≤ length out.new) }
        ensures bytes { ReadConsumes (unread self.old (S.left source.old)) (unread self.new (S.left source.new)) result out.new }
        ensures at { IfOk result (λ n. self.new.at ≡ counted self.old.at n) }
        ensures count { Counts (λ fault. fault.count) (S.faults source.old) (S.faults source.new) result }
    {
        if self.start == self.end {
            if out.len() >= AHEAD {
                return self.pass(source, out);
            }
            self.refill(source)?;
        }
        Ok(self.hand(out))
    }

    /// Takes as many bytes as `out` has, however the source cuts them. It is read no further than these bytes ask for, but for
    /// what comes with them.
    pub fn need<S: Source>(&mut self, source: &mut S, out: &mut [u8]) -> Result<(), NbdRefusal>
        ensures taken { OnOk result (Consumes (unread self.old (S.left source.old)) (unread self.new (S.left source.new)) out.new) }
        ensures at { OnOk result (self.new.at ≡ counted self.old.at (length out.new)) }
        ensures short { IfErr result (IsShort (length out.new) self.old.at (unread self.old (S.left source.old)) (unread self.new (S.left source.new))) }
        ensures count { CountsSource result (S.faults source.old) (S.faults source.new) }
    {
        let mut done = 0;
        while done < out.len() {
            let n = self.some(source, &mut out[done..])?;
            if n == 0 {
                return Err(NbdRefusal::Cut { at: self.at });
            }
            done += n;
        }
        Ok(())
    }
}
