//! Sectors of one block are put that a mask names.

ghost use Rattle.std.specs.Prelude.{◌≡◌, ◌≢◌, ◌+◌, ◌-◌, ◌*◌, ◌/◌, ◌^◌, ◌<◌, ◌≤◌, ℕ, true, false, length, IfOk, IfErr, OnOk, Ok};
ghost use Rattle.vhdx_format.specs.Fields.{megabyte};
ghost use Rattle.vhdx_format.specs.SectorBitmaps.{bit_of};
ghost use Rattle.store_model.specs.Disk.{WhereTold, WhereBothTold};
ghost use Rattle.log_format.specs.PendingPages.{has_place};
ghost use Rattle.table_pages.specs.Held.{shape_of};
ghost use Rattle.layer_session.specs.Calls.{Fails, HasKept, KeepsOver, OnBroken, OnRefused, OnRoom, PutsInto};
ghost use Rattle.layer_session.specs.Keeping.{IsReady};
ghost use Rattle.layer_session.specs.Masked.{HasEmpty, HasMarkPages, IsBrokenNamed, KeepsSpots, PutsNamed, all_or_none, is_masked};
ghost use Rattle.layer_session.specs.SectorRanges.{LieInBlock};
ghost use Rattle.layer_session.specs.Steps.{HasPages, HasRoomFor, IsToDo, has_room, held_by, is_full};
ghost use Rattle.layer_session.specs.Taking.{HasPagesOfPart, IsAbsent, IsBroken, LeavesRest, takes_of};
ghost use Rattle.layer_session.specs.ByLayers.{HasPutMasked, HasWritten, HasWrittenMasked, OnFull, ReadsOnUnnamed, StandAtSpot};

use crate::file::{Layer, LayerFault};
use crate::geometry::{block_sectors, block_start, offset_in_block, place_in};
use crate::planning::{Plan, Step};
use bat_entry::{FULLY_PRESENT, PARTLY_PRESENT};
use sector_bits::first_run;
use store_model::Store;

/// Where sectors of one block are to be written; and where they are to be marked first, the entry of the sector bitmap block that
/// has their bits.
#[derive(Clone, Copy)]
pub struct Spot {
    pub place: u64,
    pub bitmap: u64,
    pub marks: bool,
}

// The spot of sectors at this place, by the plan for their block.
fn spot_of(plan: Plan, place: u64, marks: bool) -> Spot
    ensures { result ≡ record { place = place; bitmap = plan.bitmap; marks = marks } }
{
    Spot {
        place,
        bitmap: plan.bitmap,
        marks,
    }
}

// Whether the mask names some of so many sectors.
fn names_some(mask: &[u8], count: usize) -> bool
    requires within { count ≤ 8 * length mask.now }
    requires fits { count < 2 ^ 64 }
    ensures none { result ≡ false → (i : ℕ) → i < count → bit_of mask.now i ≢ 1 }
    ensures some { result ≡ true → (i : ℕ) × ((i < count) × (bit_of mask.now i ≡ 1)) }
{
    if count == 0 {
        return false;
    }
    let run = first_run(mask, 0, count);
    run.set || run.count < count
}

impl Layer {
    // A block that the file doesn't have gets a place, and has no sector yet. Answers where the sector is to stand.
    fn make_empty<S: Store>(
        &mut self,
        store: &mut S,
        bitmap: u64,
        first: u64,
    ) -> Result<u64, LayerFault>
        requires ready { IsReady self.old (S.disk store.old) }
        requires on_disk { first < self.old.tables.parts.sectors }
        requires pages { HasPagesOfPart self.old.tables first 1 bitmap }
        requires room { HasRoomFor (self.old.tables.parts.block / megabyte) 1 0 self.old.space }
        requires absent { WhereTold (S.disk store.old).told (λ trace. IsAbsent (shape_of self.old.tables.parts) (held_by self.old trace) first bitmap) }
        ensures moments { WhereBothTold (KeepsOver self.old) (S.disk store.old).told (S.disk store.new).told }
        ensures made { IfOk result (λ place. WhereBothTold (HasEmpty self.old self.new first place bitmap) (S.disk store.old).told (S.disk store.new).told) }
        ensures ready { OnOk result (IsReady self.new (S.disk store.new)) }
        ensures leaves { OnOk result (LeavesRest self.old self.new 1) }
        ensures counts { OnOk result (S.disk store.new ≡ record (S.disk store.old) { told = (S.disk store.new).told }) }
        ensures broken { IfErr result (IsBroken self.old self.new 0 0 (S.disk store.old) (S.disk store.new)) }
    {
        let start = block_start(&self.tables.parts, first);
        let sectors = block_sectors(&self.tables.parts);
        self.mark(bitmap, start, sectors, false);
        self.make_block(store, first, PARTLY_PRESENT)
    }

    // Gives the block of these sectors a place as planned, if it has none. Answers where they are to be written. No sector changes.
    fn ready_spot<S: Store>(
        &mut self,
        store: &mut S,
        plan: Plan,
        first: u64,
        count: u64,
    ) -> Result<Spot, LayerFault>
        requires ready { IsReady self.old (S.disk store.old) }
        requires some { 0 < count }
        requires block { LieInBlock self.old.tables.parts first count }
        requires pages { HasPages self.old.tables first count plan }
        requires room { HasRoomFor (self.old.tables.parts.block / megabyte) (takes_of plan) 0 self.old.space }
        requires todo { WhereTold (S.disk store.old).told (λ trace. IsToDo (shape_of self.old.tables.parts) (held_by self.old trace) false first count plan) }
        ensures moments { WhereBothTold (KeepsOver self.old) (S.disk store.old).told (S.disk store.new).told }
        ensures kept { OnOk result (WhereBothTold (HasKept self.old self.new) (S.disk store.old).told (S.disk store.new).told) }
        ensures spot { IfOk result (λ spot. StandAtSpot self.old self.new (S.disk store.new) first count spot) }
        ensures pages { IfOk result (HasMarkPages self.new.tables first count) }
        ensures ready { OnOk result (IsReady self.new (S.disk store.new)) }
        ensures leaves { OnOk result (LeavesRest self.old self.new (takes_of plan)) }
        ensures counts { OnOk result (S.disk store.new ≡ record (S.disk store.old) { told = (S.disk store.new).told }) }
        ensures broken { IfErr result (IsBroken self.old self.new 0 0 (S.disk store.old) (S.disk store.new)) }
    {
        let parts = self.tables.parts;
        let place = place_in(plan.word >> 20, offset_in_block(&parts, first));
        match plan.step {
            Step::Mark => Ok(spot_of(plan, place, true)),
            Step::Make => {
                let place = self.make_block(store, first, FULLY_PRESENT)?;
                Ok(spot_of(plan, place, false))
            }
            Step::MakePart => {
                let place = self.make_empty(store, plan.bitmap, first)?;
                Ok(spot_of(plan, place, true))
            }
            Step::Write | Step::Drop | Step::Leave => Ok(spot_of(plan, place, false)),
        }
    }

    // Writes sectors at their spot, marked first if they are to be.
    fn put_spot<S: Store>(
        &mut self,
        store: &mut S,
        spot: Spot,
        first: u64,
        count: u64,
        bytes: &[u8],
    ) -> Result<(), LayerFault>
        requires ready { IsReady self.old (S.disk store.old) }
        requires some { 0 < count }
        requires whole { length bytes.now ≡ self.old.tables.parts.sector * count }
        requires block { LieInBlock self.old.tables.parts first count }
        requires spot { StandAtSpot self.old self.old (S.disk store.old) first count spot }
        requires pages { HasMarkPages self.old.tables first count spot }
        ensures moments { WhereBothTold (PutsInto self.old first count) (S.disk store.old).told (S.disk store.new).told }
        ensures done { OnOk result (HasWritten self.old self.new first count bytes.now (S.disk store.old) (S.disk store.new)) }
        ensures spots { OnOk result (WhereBothTold (KeepsSpots self.old self.new spot.marks) (S.disk store.old).told (S.disk store.new).told) }
        ensures places { (at : ℕ) → has_place at self.old.tables.pending ≡ true → has_place at self.new.tables.pending ≡ true }
        ensures broken { IfErr result (IsBroken self.old self.new first count (S.disk store.old) (S.disk store.new)) }
    {
        if !spot.marks {
            return self.write(store, first, spot.place, bytes);
        }
        self.mark(spot.bitmap, first, count, true);
        self.write(store, first, spot.place, bytes)
    }

    // Writes sectors at their spot, marked first if they are to be, if they are named; else none of them.
    fn put_all_or_none<S: Store>(
        &mut self,
        store: &mut S,
        spot: Spot,
        first: u64,
        count: u64,
        bytes: &[u8],
        is_named: bool,
    ) -> Result<(), LayerFault>
        requires ready { IsReady self.old (S.disk store.old) }
        requires some { 0 < count }
        requires whole { length bytes.now ≡ self.old.tables.parts.sector * count }
        requires block { LieInBlock self.old.tables.parts first count }
        requires spot { StandAtSpot self.old self.old (S.disk store.old) first count spot }
        requires pages { HasMarkPages self.old.tables first count spot }
        ensures moments { WhereBothTold (PutsInto self.old first (all_or_none is_named count)) (S.disk store.old).told (S.disk store.new).told }
        ensures done { OnOk result (HasWritten self.old self.new first (all_or_none is_named count) bytes.now (S.disk store.old) (S.disk store.new)) }
        ensures spots { OnOk result (WhereBothTold (KeepsSpots self.old self.new spot.marks) (S.disk store.old).told (S.disk store.new).told) }
        ensures places { (at : ℕ) → has_place at self.old.tables.pending ≡ true → has_place at self.new.tables.pending ≡ true }
        ensures broken { IfErr result (IsBroken self.old self.new first (all_or_none is_named count) (S.disk store.old) (S.disk store.new)) }
    {
        if !is_named {
            return Ok(());
        }
        self.put_spot(store, spot, first, count, bytes)
    }

    // Writes those of the sectors at a spot that the mask names, by its bits from `at` on.
    fn put_spots<S: Store>(
        &mut self,
        store: &mut S,
        spot: Spot,
        first: u64,
        count: u64,
        bytes: &[u8],
        mask: &[u8],
        at: usize,
    ) -> Result<(), LayerFault>
        requires ready { IsReady self.old (S.disk store.old) }
        requires whole { length bytes.now ≡ self.old.tables.parts.sector * count }
        requires block { LieInBlock self.old.tables.parts first count }
        requires mask { at + count ≤ 8 * length mask.now }
        requires ends { at + count < 2 ^ 64 }
        requires spot { 0 < count → StandAtSpot self.old self.old (S.disk store.old) first count spot }
        requires pages { HasMarkPages self.old.tables first count spot }
        ensures moments { WhereBothTold (PutsNamed self.old (is_masked first count at mask.now)) (S.disk store.old).told (S.disk store.new).told }
        ensures done { OnOk result (HasWrittenMasked self.old self.new first count at mask.now bytes.now (S.disk store.old) (S.disk store.new)) }
        ensures broken { IfErr result (IsBrokenNamed self.old self.new (is_masked first count at mask.now) (S.disk store.old) (S.disk store.new)) }
    {
        if count == 0 {
            return Ok(());
        }
        let run = first_run(mask, at, count as usize);
        let len = run.count as u64;
        let long = u64::from(self.tables.parts.sector) * len;
        let (these, rest) = bytes.split_at(long as usize);
        self.put_all_or_none(store, spot, first, len, these, run.set)?;
        let place = spot.place.saturating_add(long);
        let next = Spot { place, ..spot };
        let behind = at + run.count;
        self.put_spots(store, next, first + len, count - len, rest, mask, behind)
    }

    /// Writes those of so many sectors from `first` on that the mask names, by its bits from the first one on; they lie in one
    /// block. The file has them then, and no other sector changes. Where the mask names none, nothing is done.
    pub fn put_masked<S: Store>(
        &mut self,
        store: &mut S,
        first: u64,
        count: u64,
        bytes: &[u8],
        mask: &[u8],
    ) -> Result<(), LayerFault>
        requires ready { IsReady self.old (S.disk store.old) }
        requires whole { length bytes.now ≡ self.old.tables.parts.sector * count }
        requires block { LieInBlock self.old.tables.parts first count }
        requires mask { count ≤ 8 * length mask.now }
        requires numbers { self.old.log.number + 1 ≤ 2 ^ 64 - 2 ^ 32 }
        // At each moment, whatever it answers, in every image without a torn match.
        ensures moments { WhereBothTold (PutsNamed self.old (is_masked first count 0 mask.now)) (S.disk store.old).told (S.disk store.new).told }
        ensures put { OnOk result (HasPutMasked self.old self.new first count mask.now bytes.now (S.disk store.old) (S.disk store.new)) }
        ensures ready { OnOk result (IsReady self.new (S.disk store.new)) }
        ensures refused { OnRefused result (IsReady self.new (S.disk store.new)) }
        ensures kept { OnRefused result (WhereBothTold (HasKept self.old self.new) (S.disk store.old).told (S.disk store.new).told) }
        ensures quiet { OnRefused result (WhereBothTold (KeepsOver self.old) (S.disk store.old).told (S.disk store.new).told) }
        ensures broken { OnBroken result (ReadsOnUnnamed self.old self.new (is_masked first count 0 mask.now) (S.disk store.old) (S.disk store.new)) }
        ensures parts { self.new.tables.parts ≡ self.old.tables.parts }
        // It commits once at most.
        ensures number { self.new.log.number ≤ self.old.log.number + 1 }
        ensures header { self.new.log.header ≡ self.old.log.header }
        ensures counts { OnOk result (S.disk store.new ≡ record (S.disk store.old) { told = (S.disk store.new).told }) }
        ensures err { IfErr result (Fails self.old.tables.parts.file (S.disk store.old) (S.disk store.new)) }
        ensures nothing { ((s : ℕ) → is_masked first count 0 mask.now s ≡ false) → (result ≡ Ok tt) × ((self.new ≡ self.old) × (store.new ≡ store.old)) }
        // Refused for want of room exactly where there is none.
        ensures full { OnFull result (λ next. is_full false first count next self.old (S.disk store.old)) }
        ensures room { (s : ℕ) → is_masked first count 0 mask.now s ≡ true → OnRoom result (has_room false first count self.old (S.disk store.old)) }
    {
        if !names_some(mask, count as usize) {
            return Ok(());
        }
        self.prepare(store, first, count, false)?;
        let plan = self.plans[0];
        let spot = self.ready_spot(store, plan, first, count)?;
        self.put_spots(store, spot, first, count, bytes, mask, 0)
    }
}
