//! Sectors are put, and made zeros.

ghost use Rattle.std.specs.Prelude.{◌≡◌, ◌+◌, ◌-◌, ◌*◌, ◌/◌, ◌%◌, ◌^◌, ◌<◌, ◌≤◌, Bool, true, false, not, length, None, IfOk, IfErr, OnOk};
ghost use Rattle.vhdx_format.specs.Fields.{megabyte};
ghost use Rattle.store_model.specs.Disk.{WhereTold, WhereBothTold};
ghost use Rattle.table_pages.specs.Held.{shape_of};
ghost use Rattle.layer_session.specs.Calls as calls;
ghost use Rattle.layer_session.specs.Calls.{Fails, HasKept, KeepsOver, OnBroken, OnRefused, OnRoom, PutsInto};
ghost use Rattle.layer_session.specs.Keeping.{IsReady};
ghost use Rattle.layer_session.specs.Prepared.{IsPrepared};
ghost use Rattle.layer_session.specs.SectorRanges.{LieInBlock};
ghost use Rattle.layer_session.specs.Steps.{HasPages, HasRoomFor, IsToDo, StandFrom, Wants, has_room, held_by, is_full};
ghost use Rattle.layer_session.specs.Taking.{IsBroken, IsReadied, IsTrimming, KeepsEntries, KeepsOthers, LeavesRest, takes_of};
ghost use Rattle.layer_session.specs.ByTables.{WhereHeld};
ghost use Rattle.layer_session.specs.ByLayers.{HasPutBytes, HasPutZeros, HasWritten, HasZeroed, OnFull, ReadsOn};

use crate::file::{Layer, LayerFault};
use crate::geometry::{offset_in_block, place_in, run_in_block};
use crate::planning::{Plan, Step};
use bat_entry::FULLY_PRESENT;
use store_model::Store;
use vhdx_format::MEGABYTE;

impl Layer {
    /// Writes sectors from `first` on. The file has them then.
    pub fn put<S: Store>(
        &mut self,
        store: &mut S,
        first: u64,
        bytes: &[u8],
    ) -> Result<(), LayerFault>
        requires ready { IsReady self.old (S.disk store.old) }
        requires whole { length bytes.now % self.old.tables.parts.sector ≡ 0 }
        requires on_disk { first + calls.sectors_in self.old bytes.now ≤ self.old.tables.parts.sectors }
        requires few { length bytes.now ≤ 2 ^ 20 }
        requires numbers { self.old.log.number + 1 ≤ 2 ^ 64 - 2 ^ 32 }
        // At each moment, whatever it answers, in every image without a torn match.
        ensures moments { WhereBothTold (PutsInto self.old first (calls.sectors_in self.old bytes.now)) (S.disk store.old).told (S.disk store.new).told }
        ensures put { OnOk result (HasPutBytes self.old self.new first bytes.now (S.disk store.old) (S.disk store.new)) }
        ensures ready { OnOk result (IsReady self.new (S.disk store.new)) }
        ensures refused { OnRefused result (IsReady self.new (S.disk store.new)) }
        ensures kept { OnRefused result (WhereBothTold (HasKept self.old self.new) (S.disk store.old).told (S.disk store.new).told) }
        ensures quiet { OnRefused result (WhereBothTold (KeepsOver self.old) (S.disk store.old).told (S.disk store.new).told) }
        ensures broken { OnBroken result (ReadsOn self.old self.new first (calls.sectors_in self.old bytes.now) (S.disk store.old) (S.disk store.new)) }
        ensures parts { self.new.tables.parts ≡ self.old.tables.parts }
        // It commits once at most.
        ensures number { self.new.log.number ≤ self.old.log.number + 1 }
        ensures header { self.new.log.header ≡ self.old.log.header }
        ensures counts { OnOk result (S.disk store.new ≡ record (S.disk store.old) { told = (S.disk store.new).told }) }
        ensures err { IfErr result (Fails self.old.tables.parts.file (S.disk store.old) (S.disk store.new)) }
        // Refused for want of room exactly where there is none.
        ensures full { OnFull result (λ next. is_full false first (calls.sectors_in self.old bytes.now) next self.old (S.disk store.old)) }
        ensures room { OnRoom result (has_room false first (calls.sectors_in self.old bytes.now) self.old (S.disk store.old)) }
    {
        let sector = self.tables.parts.sector as usize;
        let count = (bytes.len() / sector) as u64;
        self.prepare(store, first, count, false)?;
        self.put_blocks(store, 0, first, count, bytes)
    }

    /// Makes sectors from `first` on zeros, which the file has then. Blocks of which that is all leave the file, but where
    /// it is to leave them allocated.
    pub fn zero<S: Store>(
        &mut self,
        store: &mut S,
        first: u64,
        count: u64,
    ) -> Result<(), LayerFault>
        requires ready { IsReady self.old (S.disk store.old) }
        requires on_disk { first + count ≤ self.old.tables.parts.sectors }
        requires few { self.old.tables.parts.sector * count ≤ 2 ^ 28 }
        requires numbers { self.old.log.number + 1 ≤ 2 ^ 64 - 2 ^ 32 }
        ensures moments { WhereBothTold (PutsInto self.old first count) (S.disk store.old).told (S.disk store.new).told }
        ensures put { OnOk result (HasPutZeros self.old self.new first count (S.disk store.old) (S.disk store.new)) }
        ensures ready { OnOk result (IsReady self.new (S.disk store.new)) }
        ensures refused { OnRefused result (IsReady self.new (S.disk store.new)) }
        ensures kept { OnRefused result (WhereBothTold (HasKept self.old self.new) (S.disk store.old).told (S.disk store.new).told) }
        ensures quiet { OnRefused result (WhereBothTold (KeepsOver self.old) (S.disk store.old).told (S.disk store.new).told) }
        ensures broken { OnBroken result (ReadsOn self.old self.new first count (S.disk store.old) (S.disk store.new)) }
        ensures parts { self.new.tables.parts ≡ self.old.tables.parts }
        // It commits once at most.
        ensures number { self.new.log.number ≤ self.old.log.number + 1 }
        ensures header { self.new.log.header ≡ self.old.log.header }
        ensures counts { OnOk result (S.disk store.new ≡ record (S.disk store.old) { told = (S.disk store.new).told }) }
        ensures err { IfErr result (Fails self.old.tables.parts.file (S.disk store.old) (S.disk store.new)) }
        // Refused for want of room exactly where there is none.
        ensures full { OnFull result (λ next. is_full (not self.old.leave) first count next self.old (S.disk store.old)) }
        ensures room { OnRoom result (has_room (not self.old.leave) first count self.old (S.disk store.old)) }
    {
        let trims = !self.leave;
        self.prepare(store, first, count, trims)?;
        self.zero_blocks(store, 0, first, count)
    }

    // Does what is planned for the block of these sectors, but for writing them. Answers where they are to be written, or
    // None where their block is zeros without a place.
    fn make_ready<S: Store>(
        &mut self,
        store: &mut S,
        plan: Plan,
        first: u64,
        count: u64,
    ) -> Result<Option<u64>, LayerFault>
        requires ready { IsReady self.old (S.disk store.old) }
        requires some { 0 < count }
        requires block { LieInBlock self.old.tables.parts first count }
        requires pages { HasPages self.old.tables first count plan }
        requires room { HasRoomFor (self.old.tables.parts.block / megabyte) (takes_of plan) 0 self.old.space }
        requires todo { WhereHeld self.old.tables (S.disk store.old) (λ p file. (trims : Bool) × IsToDo p file trims first count plan) }
        ensures moments { WhereBothTold (KeepsOver self.old) (S.disk store.old).told (S.disk store.new).told }
        ensures made { IfOk result (λ place. WhereBothTold (IsReadied self.old self.new first count place) (S.disk store.old).told (S.disk store.new).told) }
        ensures trimmed { IfOk result (λ place. place ≡ None → IsTrimming plan.step) }
        ensures others { OnOk result (WhereBothTold (KeepsOthers self.old self.new first) (S.disk store.old).told (S.disk store.new).told) }
        ensures ready { OnOk result (IsReady self.new (S.disk store.new)) }
        ensures leaves { OnOk result (LeavesRest self.old self.new (takes_of plan)) }
        ensures counts { OnOk result (S.disk store.new ≡ record (S.disk store.old) { told = (S.disk store.new).told }) }
        ensures broken { IfErr result (IsBroken self.old self.new first count (S.disk store.old) (S.disk store.new)) }
    {
        let parts = self.tables.parts;
        let place = place_in(plan.word >> 20, offset_in_block(&parts, first));
        match plan.step {
            Step::Leave => Ok(None),
            Step::Drop => {
                self.drop_block(store, plan.word, first, count);
                Ok(None)
            }
            Step::Write => Ok(Some(place)),
            Step::Mark => {
                self.mark(plan.bitmap, first, count, true);
                Ok(Some(place))
            }
            Step::Make => Ok(Some(self.make_block(store, first, FULLY_PRESENT)?)),
            Step::MakePart => Ok(Some(self.make_part(store, plan.bitmap, first, count)?)),
        }
    }

    // Does what is planned for one block, and writes the bytes of its sectors.
    fn put_run<S: Store>(
        &mut self,
        store: &mut S,
        plan: Plan,
        first: u64,
        count: u64,
        bytes: &[u8],
    ) -> Result<(), LayerFault>
        requires ready { IsReady self.old (S.disk store.old) }
        requires some { 0 < count }
        requires whole { length bytes.now ≡ self.old.tables.parts.sector * count }
        requires block { LieInBlock self.old.tables.parts first count }
        requires pages { HasPages self.old.tables first count plan }
        requires room { HasRoomFor (self.old.tables.parts.block / megabyte) (takes_of plan) 0 self.old.space }
        requires todo { WhereTold (S.disk store.old).told (λ trace. IsToDo (shape_of self.old.tables.parts) (held_by self.old trace) false first count plan) }
        ensures moments { WhereBothTold (PutsInto self.old first count) (S.disk store.old).told (S.disk store.new).told }
        ensures done { OnOk result (HasWritten self.old self.new first count bytes.now (S.disk store.old) (S.disk store.new)) }
        ensures others { OnOk result (WhereBothTold (KeepsOthers self.old self.new first) (S.disk store.old).told (S.disk store.new).told) }
        ensures leaves { OnOk result (LeavesRest self.old self.new (takes_of plan)) }
        ensures broken { IfErr result (IsBroken self.old self.new first count (S.disk store.old) (S.disk store.new)) }
    {
        match self.make_ready(store, plan, first, count)? {
            Some(place) => self.write(store, first, place, bytes),
            None => Ok(()),
        }
    }

    // Does what is planned for the blocks of these sectors, and writes their bytes.
    fn put_blocks<S: Store>(
        &mut self,
        store: &mut S,
        k: usize,
        first: u64,
        count: u64,
        bytes: &[u8],
    ) -> Result<(), LayerFault>
        requires ready { IsReady self.old (S.disk store.old) }
        requires whole { length bytes.now ≡ self.old.tables.parts.sector * count }
        requires on_disk { first + count ≤ self.old.tables.parts.sectors }
        requires prepared { IsPrepared self.old k first count }
        requires wants { WhereTold (S.disk store.old).told (Wants self.old k first count false) }
        ensures moments { WhereBothTold (PutsInto self.old first count) (S.disk store.old).told (S.disk store.new).told }
        ensures done { OnOk result (HasWritten self.old self.new first count bytes.now (S.disk store.old) (S.disk store.new)) }
        ensures broken { IfErr result (IsBroken self.old self.new first count (S.disk store.old) (S.disk store.new)) }
    {
        if count == 0 {
            return Ok(());
        }
        let len = run_in_block(&self.tables.parts, first, count);
        let (run, rest) = bytes.split_at((u64::from(self.tables.parts.sector) * len) as usize);
        let plan = self.plans[k];
        self.put_run(store, plan, first, len, run)?;
        self.put_blocks(store, k + 1, first + len, count - len, rest)
    }

    // Makes sectors zeros at their places in a block, as many at once as there are at hand.
    fn zero_run<S: Store>(
        &self,
        store: &mut S,
        first: u64,
        count: u64,
        place: u64,
    ) -> Result<(), LayerFault>
        requires ready { IsReady self.now (S.disk store.old) }
        requires on_disk { first + count ≤ self.now.tables.parts.sectors }
        requires stand { 0 < count → WhereTold (S.disk store.old).told (StandFrom self.now first count place) }
        ensures moments { WhereBothTold (PutsInto self.now first count) (S.disk store.old).told (S.disk store.new).told }
        ensures done { OnOk result (HasZeroed self.now self.now first count (S.disk store.old) (S.disk store.new)) }
        ensures same { OnOk result (WhereBothTold (KeepsEntries self.now self.now) (S.disk store.old).told (S.disk store.new).told) }
        ensures broken { IfErr result (IsBroken self.now self.now first count (S.disk store.old) (S.disk store.new)) }
    {
        if count == 0 {
            return Ok(());
        }
        let sector = u64::from(self.tables.parts.sector);
        let len = count.min(MEGABYTE / sector);
        let bytes = sector * len;
        self.write(store, first, place, &self.zeros[..bytes as usize])?;
        self.zero_run(store, first + len, count - len, place.saturating_add(bytes))
    }

    // Does what is planned for one block, and makes its sectors zeros.
    fn zero_block<S: Store>(
        &mut self,
        store: &mut S,
        plan: Plan,
        first: u64,
        count: u64,
    ) -> Result<(), LayerFault>
        requires ready { IsReady self.old (S.disk store.old) }
        requires some { 0 < count }
        requires block { LieInBlock self.old.tables.parts first count }
        requires pages { HasPages self.old.tables first count plan }
        requires room { HasRoomFor (self.old.tables.parts.block / megabyte) (takes_of plan) 0 self.old.space }
        requires todo { WhereHeld self.old.tables (S.disk store.old) (λ p file. (trims : Bool) × IsToDo p file trims first count plan) }
        ensures moments { WhereBothTold (PutsInto self.old first count) (S.disk store.old).told (S.disk store.new).told }
        ensures done { OnOk result (HasZeroed self.old self.new first count (S.disk store.old) (S.disk store.new)) }
        ensures others { OnOk result (WhereBothTold (KeepsOthers self.old self.new first) (S.disk store.old).told (S.disk store.new).told) }
        ensures leaves { OnOk result (LeavesRest self.old self.new (takes_of plan)) }
        ensures broken { IfErr result (IsBroken self.old self.new first count (S.disk store.old) (S.disk store.new)) }
    {
        if plan.step == Step::Make {
            // Its place is zeros, so that nothing is written.
            self.make_block(store, first, FULLY_PRESENT)?;
            return Ok(());
        }
        match self.make_ready(store, plan, first, count)? {
            Some(place) => self.zero_run(store, first, count, place),
            None => Ok(()),
        }
    }

    // Does what is planned for the blocks of these sectors, and makes them zeros.
    fn zero_blocks<S: Store>(
        &mut self,
        store: &mut S,
        k: usize,
        first: u64,
        count: u64,
    ) -> Result<(), LayerFault>
        requires ready { IsReady self.old (S.disk store.old) }
        requires on_disk { first + count ≤ self.old.tables.parts.sectors }
        requires prepared { IsPrepared self.old k first count }
        requires wants { WhereTold (S.disk store.old).told (Wants self.old k first count (not self.old.leave)) }
        ensures moments { WhereBothTold (PutsInto self.old first count) (S.disk store.old).told (S.disk store.new).told }
        ensures done { OnOk result (HasZeroed self.old self.new first count (S.disk store.old) (S.disk store.new)) }
        ensures broken { IfErr result (IsBroken self.old self.new first count (S.disk store.old) (S.disk store.new)) }
    {
        if count == 0 {
            return Ok(());
        }
        let len = run_in_block(&self.tables.parts, first, count);
        let plan = self.plans[k];
        self.zero_block(store, plan, first, len)?;
        self.zero_blocks(store, k + 1, first + len, count - len)
    }
}
