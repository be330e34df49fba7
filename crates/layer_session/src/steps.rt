//! Single steps of a call: a block gets a place, leaves it, or has sectors marked.

ghost use Rattle.std.specs.Prelude.{◌≡◌, ◌⊎◌, ◌+◌, ◌*◌, ◌/◌, ◌%◌, ◌^◌, ◌<◌, ◌≤◌, true, length, IfOk, IfErr, OnOk, OnErr};
ghost use Rattle.vx_base.specs.Fields.{zeros};
ghost use Rattle.vhdx_format.specs.Fields.{megabyte};
ghost use Rattle.vhdx_format.specs.Layers.{entry_of, table_entry};
ghost use Rattle.store_model.specs.Disk.{WhereTold, WhereBothTold};
ghost use Rattle.store_model.specs.Plans.{FailsToChange};
ghost use Rattle.log_format.specs.PendingPages.{has_place};
ghost use Rattle.table_pages.specs.Held.{AreChanged, AreTablesIn, IsSet, KeepsWithin, PutsWithin, bit_pages, entry_place, shape_of};
ghost use Rattle.table_pages.specs.Pages.{page_place};
ghost use Rattle.block_alloc.specs.Spaces.{can_take, taken};
ghost use Rattle.layer_session.specs.Calls.{KeepsOver};
ghost use Rattle.layer_session.specs.Keeping.{IsReadable, IsReady};
ghost use Rattle.layer_session.specs.Planning.{is_whole};
ghost use Rattle.layer_session.specs.Steps.{DropsBlock, HasRoomFor, IsMade, held_by};
ghost use Rattle.layer_session.specs.Taking.{ClearsOver, HasCleared, HasMade, HasTaken, HasPagesOfPart, IsAbsent, IsBroken, KeepsOthers, LeavesRest, MayBeMade};
ghost use Rattle.layer_session.specs.ByTables.{IsEntryAtHand, KeepsInTable, SetsMarks, WhereHeld};
ghost use Rattle.layer_session.specs.ByLayers.{HasTakenBlock, LieUnused, ReadsOnBeside};

use crate::file::{Layer, LayerFault};
use crate::geometry::{
    CHUNK, block_sectors, block_start, block_units, entry_index, offset_in_block, pages_of_bits,
    place_in,
};
use bat_entry::{BatEntry, FULLY_PRESENT, PARTLY_PRESENT, pack};
use store_model::{Store, StoreFault};
use vhdx_format::MEGABYTE;

impl Layer {
    // A block of which these sectors are all becomes zeros without a place, and leaves its place.
    pub(crate) fn drop_block<S: Store>(&mut self, store: &mut S, word: u64, first: u64, count: u64)
        requires ready { IsReady self.old (S.disk store.old) }
        requires some { 0 < count }
        requires on_disk { first + count ≤ self.old.tables.parts.sectors }
        requires run { first * self.old.tables.parts.sector % self.old.tables.parts.block + count * self.old.tables.parts.sector ≤ self.old.tables.parts.block }
        requires whole { WhereTold (S.disk store.old).told (λ trace. is_whole (shape_of self.old.tables.parts) first count ≡ true) }
        requires at_hand { IsEntryAtHand self.old.tables.parts first self.old.tables.pending }
        requires found { WhereHeld self.old.tables (S.disk store.old) (λ p file. word ≡ table_entry p file (entry_of p first)) }
        ensures dropped { WhereTold (S.disk store.old).told (DropsBlock self.old self.new first count) }
        ensures ready { IsReady self.new (S.disk store.old) }
        ensures others { WhereTold (S.disk store.old).told (λ trace. KeepsOthers self.old self.new first trace trace) }
        ensures leaves { LeavesRest self.old self.new 0 }
        ensures stays { S.disk store.new ≡ S.disk store.old }
    {
        let parts = self.tables.parts;
        let (at, units) = (word >> 20, block_units(&parts));
        let held = (word % 8) as u32 >= FULLY_PRESENT;
        self.set_entry(store, entry_index(&parts, first), 2);
        if held && self.space.can_free(at, units) {
            self.space.free_after_commit(at, units);
        }
    }

    // Makes a part of a place that is nobody's zeros, as much at once as there is at hand.
    fn write_zeros<S: Store>(&self, store: &mut S, place: u64, count: u64) -> Result<(), StoreFault>
        requires readable { IsReadable self.now (S.disk store.old) }
        requires one_file { self.now.log.file ≡ self.now.tables.parts.file }
        requires clear { self.now.zeros.items ≡ zeros megabyte }
        requires unused { LieUnused self.now (S.disk store.old) place count }
        // At each moment, whatever it answers, in every image without a torn match.
        ensures moments { WhereBothTold (ClearsOver self.now place count) (S.disk store.old).told (S.disk store.new).told }
        ensures cleared { OnOk result (WhereBothTold (HasCleared self.now place count) (S.disk store.old).told (S.disk store.new).told) }
        ensures broken { OnErr result (ReadsOnBeside self.now place count (S.disk store.old) (S.disk store.new)) }
        ensures counts { OnOk result (S.disk store.new ≡ record (S.disk store.old) { told = (S.disk store.new).told }) }
        ensures err { IfErr result (FailsToChange self.now.tables.parts.file (S.disk store.old) (S.disk store.new)) }
    {
        if count == 0 {
            return Ok(());
        }
        let len = count.min(MEGABYTE);
        self.log.write(store, place, &self.zeros[..len as usize])?;
        self.write_zeros(store, place.saturating_add(len), count - len)
    }

    // Takes a place for a block, which is zeros: the file grows to it, or a place that was left is made zeros.
    fn take_block<S: Store>(&mut self, store: &mut S) -> Result<u64, LayerFault>
        requires ready { IsReady self.old (S.disk store.old) }
        requires room { can_take (self.old.tables.parts.block / megabyte) self.old.space ≡ true }
        ensures moments { WhereBothTold (KeepsOver self.old) (S.disk store.old).told (S.disk store.new).told }
        ensures taken { IfOk result (λ unit. WhereBothTold (HasTaken self.old self.new unit) (S.disk store.old).told (S.disk store.new).told) }
        ensures unit { IfOk result (λ unit. unit < 2 ^ 44) }
        ensures ready { OnOk result (IsReady self.new (S.disk store.new)) }
        ensures only { HasTakenBlock self.old self.new }
        ensures counts { OnOk result (S.disk store.new ≡ record (S.disk store.old) { told = (S.disk store.new).told }) }
        ensures broken { IfErr result (IsBroken self.old self.new 0 0 (S.disk store.old) (S.disk store.new)) }
    {
        let units = block_units(&self.tables.parts);
        let unit = match self.space.take(units) {
            Ok(unit) => unit,
            Err(full) => return Err(LayerFault::FileFull { next: full.next }),
        };
        let bytes = u64::from(self.tables.parts.block);
        let end = place_in(unit, bytes);
        if end > self.log.file_len() {
            return match self.log.grow(store, end) {
                Ok(()) => Ok(unit),
                Err(fault) => Err(LayerFault::Write(fault)),
            };
        }
        match self.write_zeros(store, place_in(unit, 0), bytes) {
            Ok(()) => Ok(unit),
            Err(fault) => Err(LayerFault::Write(fault)),
        }
    }

    // A sector's block gets a place, in this state. Answers where the sector stands.
    pub(crate) fn make_block<S: Store>(
        &mut self,
        store: &mut S,
        first: u64,
        state: u32,
    ) -> Result<u64, LayerFault>
        requires ready { IsReady self.old (S.disk store.old) }
        requires first { first < self.old.tables.parts.sectors }
        requires state { (state ≡ 6) ⊎ (state ≡ 7) }
        requires at_hand { IsEntryAtHand self.old.tables.parts first self.old.tables.pending }
        requires room { HasRoomFor (self.old.tables.parts.block / megabyte) 1 0 self.old.space }
        requires may { WhereTold (S.disk store.old).told (λ trace. MayBeMade (shape_of self.old.tables.parts) (held_by self.old trace) first state) }
        ensures moments { WhereBothTold (KeepsOver self.old) (S.disk store.old).told (S.disk store.new).told }
        ensures made { IfOk result (λ place. WhereBothTold (HasMade self.old self.new first state place) (S.disk store.old).told (S.disk store.new).told) }
        ensures ready { OnOk result (IsReady self.new (S.disk store.new)) }
        ensures leaves { OnOk result (LeavesRest self.old self.new 1) }
        ensures counts { OnOk result (S.disk store.new ≡ record (S.disk store.old) { told = (S.disk store.new).told }) }
        ensures broken { IfErr result (IsBroken self.old self.new 0 0 (S.disk store.old) (S.disk store.new)) }
    {
        let parts = self.tables.parts;
        let unit = self.take_block(store)?;
        let word = pack(BatEntry { state, unit });
        self.set_entry(store, entry_index(&parts, first), word);
        Ok(place_in(unit, offset_in_block(&parts, first)))
    }

    // A block that the file doesn't have gets a place, and has these sectors alone, whose bytes are whatever stands there.
    // Answers where they stand.
    pub(crate) fn make_part<S: Store>(
        &mut self,
        store: &mut S,
        bitmap: u64,
        first: u64,
        count: u64,
    ) -> Result<u64, LayerFault>
        requires ready { IsReady self.old (S.disk store.old) }
        requires some { 0 < count }
        requires on_disk { first + count ≤ self.old.tables.parts.sectors }
        requires run { first * self.old.tables.parts.sector % self.old.tables.parts.block + count * self.old.tables.parts.sector ≤ self.old.tables.parts.block }
        requires pages { HasPagesOfPart self.old.tables first count bitmap }
        requires room { HasRoomFor (self.old.tables.parts.block / megabyte) 1 0 self.old.space }
        requires absent { WhereTold (S.disk store.old).told (λ trace. IsAbsent (shape_of self.old.tables.parts) (held_by self.old trace) first bitmap) }
        ensures moments { WhereBothTold (KeepsOver self.old) (S.disk store.old).told (S.disk store.new).told }
        ensures made { IfOk result (λ place. WhereBothTold (IsMade self.old self.new first count place) (S.disk store.old).told (S.disk store.new).told) }
        ensures others { OnOk result (WhereBothTold (KeepsOthers self.old self.new first) (S.disk store.old).told (S.disk store.new).told) }
        ensures ready { OnOk result (IsReady self.new (S.disk store.new)) }
        ensures leaves { OnOk result (LeavesRest self.old self.new 1) }
        ensures counts { OnOk result (S.disk store.new ≡ record (S.disk store.old) { told = (S.disk store.new).told }) }
        ensures broken { IfErr result (IsBroken self.old self.new first count (S.disk store.old) (S.disk store.new)) }
    {
        let start = block_start(&self.tables.parts, first);
        let sectors = block_sectors(&self.tables.parts);
        self.mark(bitmap, start, sectors, false);
        let place = self.make_block(store, first, PARTLY_PRESENT)?;
        self.mark(bitmap, first, count, true);
        Ok(place)
    }

    // Marks sectors as in the file, or as not in it. The pages of their bits are changed ones.
    pub(crate) fn mark(&mut self, bitmap: u64, first: u64, count: u64, on: bool)
        requires chunk { first % 2 ^ 23 + count ≤ 2 ^ 23 }
        requires at_hand { AreChanged (bitmap / 2 ^ 20 * megabyte) (first % 2 ^ 23 / 32768) (bit_pages (first % 2 ^ 23) count) self.old.tables.pending }
        ensures only { self.new ≡ record (self.old) { tables = self.new.tables } }
        ensures parts { self.new.tables.parts ≡ self.old.tables.parts }
        ensures within { PutsWithin (bitmap / 2 ^ 20 * megabyte) self.old.tables.pending self.new.tables.pending }
        ensures set { SetsMarks bitmap first count on self.old.tables self.new.tables }
        ensures places { KeepsWithin 0 0 self.old.tables self.new.tables }
    {
        let place = (bitmap >> 20) * MEGABYTE;
        self.tables.set_block(place, first % CHUNK, count, on);
    }

    // Sets an entry whose page is among the changed ones: so nothing is read.
    pub(crate) fn set_entry<S: Store>(&mut self, store: &mut S, index: u64, word: u64)
        requires readable { IsReadable self.old (S.disk store.old) }
        requires inside { 8 * index + 8 ≤ self.old.tables.parts.bat_len }
        requires at_hand { has_place (page_place (entry_place self.old.tables.parts index)) self.old.tables.pending ≡ true }
        ensures only { self.new ≡ record (self.old) { tables = self.new.tables } }
        ensures parts { self.new.tables.parts ≡ self.old.tables.parts }
        ensures set { IsSet index word self.old.tables self.new.tables (S.disk store.old) }
        ensures few { length self.new.tables.pending ≤ length self.old.tables.pending + 1 }
        ensures tables { AreTablesIn self.new.tables (S.disk store.old) }
        ensures places { KeepsInTable self.old.tables self.new.tables }
        ensures stays { S.disk store.new ≡ S.disk store.old }
    {
        let _ = self.tables.set_entry(store, index, word);
    }
}
