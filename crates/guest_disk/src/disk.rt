//! A disk as one guest calls it.

ghost use Rattle.std.specs.Prelude.{◌≡◌, ◌*◌, ◌<◌, ◌≤◌, ◌^◌, false, nat_lt};
ghost use Rattle.guest_disk.specs.Hearing.{held};
ghost use Rattle.guest_io.specs.Guests.{HaveReaders};
ghost use Rattle.read_plan.specs.Reading.{has_failed};
ghost use Rattle.shared_chain.specs.Seats.{IsFree};

use crate::calls::{flush_of, read_of, trim_of, write_of, write_through_of};
use disk_calls::DiskCalls;
use guest_io::Guest;
use guest_model::ChainRefusal;
use read_plan::ReaderSet;
use shared_chain::SharedChain;
use std::marker::Model;
use std::sync::Wait;
use store_model::{Gate, Store};
use turn_lock::{Seat, TurnLock};
use vx_base::Geometry;

/// A disk of a chain that threads share, which one guest calls: each call takes a turn of its own.
pub struct GuestDisk<'a, S: Store, T: Wait, G: Gate> {
    rt: &'a T,
    lock: &'a TurnLock<SharedChain<S>>,
    gate: &'a G,
    guest: Guest<S>,
    geometry: Geometry,
    // how many of its reads stand in the history and failed by a reader
    lost: u64,
}

impl<'a, S: Store, T: Wait, G: Gate> Model for GuestDisk<'a, S, T, G> {
    ghost use Rattle.std.specs.Prelude.{◌≡◌, ◌*◌, ◌<◌, ◌≤◌, ◌^◌, nat_lt};
    ghost use Rattle.guest_disk.specs.Hearing.{View, held};
    ghost use Rattle.guest_io.specs.Guests.{HaveReaders};
    ghost use Rattle.read_plan.specs.Reading.{has_failed};
    ghost use Rattle.shared_chain.specs.Seats.{IsFree};

    ghost Value = { View S S.R };

    ghost view = { λ d. record { lock = d.lock.now; held = held d.guest d.lost; geometry = d.geometry } };

    ghost invariant = { λ d. IsFree d.lock.now d.guest.seat × HaveReaders S.disk d.guest.seat.basis d.guest.readers × (has_failed d.guest.readers ≡ nat_lt 0 d.lost)
        × (d.geometry.sector ≡ 512) × (0 < d.geometry.sectors) × (d.geometry.sectors * d.geometry.sector ≤ 2 ^ 46) };
}

impl<'a, S: Store, T: Wait, G: Gate> GuestDisk<'a, S, T, G> {
    /// A disk of this size, as this guest calls it.
    pub fn new(
        rt: &'a T,
        lock: &'a TurnLock<SharedChain<S>>,
        gate: &'a G,
        guest: Guest<S>,
        geometry: Geometry,
    ) -> GuestDisk<'a, S, T, G>
        requires own { IsFree lock.now guest.seat }
        requires readers { HaveReaders S.disk guest.seat.basis guest.readers }
        requires none { has_failed guest.readers ≡ false }
        requires sector { geometry.sector ≡ 512 }
        requires some { 0 < geometry.sectors }
        requires most { geometry.sectors * geometry.sector ≤ 2 ^ 46 }
        ensures { result ≡ record { lock = lock.now; held = held guest 0; geometry = geometry } }
    {
        GuestDisk {
            rt,
            lock,
            gate,
            guest,
            geometry,
            lost: 0,
        }
    }

    /// Its seat and its readers, and how many of its reads stand in the history and failed by a reader.
    pub fn end(self) -> (Seat<SharedChain<S>>, ReaderSet<S::R>, u64)
        ensures seat { result.0 ≡ self.entry.held.guest.seat }
        ensures free { IsFree self.entry.lock result.0 }
        ensures readers { result.1 ≡ self.entry.held.guest.readers }
        ensures lost { result.2 ≡ self.entry.held.lost }
        ensures failed { has_failed result.1 ≡ nat_lt 0 result.2 }
    {
        let GuestDisk {
            rt: _,
            lock: _,
            gate: _,
            guest,
            geometry: _,
            lost,
        } = self;
        let (seat, readers) = guest.end();
        (seat, readers, lost)
    }
}

impl<S: Store, T: Wait, G: Gate> DiskCalls for GuestDisk<'_, S, T, G> {
    ghost use Rattle.std.specs.Prelude.{◌≡◌, None};
    ghost use Rattle.guest_disk.specs.Hearing.{Tells};

    ghost size = { λ d. d.geometry };

    ghost known = { λ d. None };

    ghost tells = { λ old asked said new. (new.geometry ≡ old.geometry) × (new.lock ≡ old.lock) × Tells S.disk old.held asked said new.held };

    ghost lawful = { λ old new asked said h. record { size = h.0; answers = tt } };

    fn sector(&self) -> u32 {
        self.geometry.sector
    }

    fn sectors(&self) -> u64 {
        self.geometry.sectors
    }

    fn read(&mut self, first: u64, buf: &mut [u8]) -> Result<u64, ChainRefusal> {
        read_of(
            &mut self.guest,
            &mut self.lost,
            self.rt,
            self.lock,
            self.gate,
            first,
            buf,
        )
    }

    fn write(&mut self, first: u64, bytes: &[u8]) -> Result<u64, ChainRefusal> {
        write_of(
            &mut self.guest,
            &self.lost,
            self.rt,
            self.lock,
            self.gate,
            first,
            bytes,
        )
    }

    fn write_through(&mut self, first: u64, bytes: &[u8]) -> Result<u64, ChainRefusal> {
        write_through_of(
            &mut self.guest,
            &self.lost,
            self.rt,
            self.lock,
            self.gate,
            first,
            bytes,
        )
    }

    fn trim(&mut self, first: u64, count: u64) -> Result<u64, ChainRefusal> {
        trim_of(
            &mut self.guest,
            &self.lost,
            self.rt,
            self.lock,
            self.gate,
            first,
            count,
        )
    }

    fn flush(&mut self) -> Result<u64, ChainRefusal> {
        flush_of(&mut self.guest, &self.lost, self.rt, self.lock, self.gate)
    }
}
