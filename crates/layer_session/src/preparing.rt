//! What comes before the steps of a call: the steps are planned, their pages are put among the changed ones, and sector bitmap
//! blocks that are missing are made. Reads are done here alone, so a read that fails and a file that is full change nothing.

ghost use Rattle.std.specs.Prelude.{◌≡◌, ◌⊎◌, ◌+◌, ◌-◌, ◌*◌, ◌/◌, ◌%◌, ◌^◌, ◌<◌, ◌≤◌, ℕ, Bool, true, false, None, length, slice_get, IfOk, IfErr, IfSome, OnOk, Err, if◌then◌else◌};
ghost use Rattle.vhdx_format.specs.Fields.{megabyte};
ghost use Rattle.store_model.specs.Disk.{ReadFailed, WhereBothTold, WhereTold};
ghost use Rattle.log_format.specs.PendingPages.{has_place};
ghost use Rattle.block_alloc.specs.Spaces as spaces;
ghost use Rattle.table_pages.specs.Held.{HasTables, bit_pages, held, shape_of};
ghost use Rattle.layer_session.specs.Blocks as blocks;
ghost use Rattle.layer_session.specs.Bringing as spec;
ghost use Rattle.layer_session.specs.Bringing.{AreBitsOf, AreNamed, Brings, GoesOn, HasBrought, HasEntry, HasMade, InChunk, IsBitsOf, Leads, SetsEntry};
ghost use Rattle.layer_session.specs.ChunkBitmaps.{HasBitmap, LacksBitmap, LieInChunk};
ghost use Rattle.layer_session.specs.SectorRanges.{FitInCall};
ghost use Rattle.layer_session.specs.Calls.{Fails, KeepsOver, OnBroken, OnRefused, OnRoom};
ghost use Rattle.layer_session.specs.Keeping.{IsReady};
ghost use Rattle.layer_session.specs.Planning.{AreCounted, EachRun, is_marking};
ghost use Rattle.layer_session.specs.Prepared.{IsPrepared};
ghost use Rattle.layer_session.specs.Steps.{Begins, has_room, held_by, is_full};
ghost use Rattle.layer_session.specs.TablesRead.{AreReadable};
ghost use Rattle.layer_session.specs.ByTables.{AreBitsAtHand, HaveBits, IsBitmapEntryAtHand, IsLookedBy, NameFar, NameIn, NameNear, most_brought, most_made};
ghost use Rattle.layer_session.specs.ByLayers.{HasPlanned, KeepsRoom, OnFull, PlansNameFar, PlansNameNear, ReadsOn, ServesOn, TellsAllSame, TellsSameBut, WantsPlanned};

use crate::file::{Layer, LayerFault};
use crate::geometry::{
    CHUNK, bitmap_entry_index, block_sectors, block_start, block_units, entry_index, pages_of_bits,
    place_in, run_in_block,
};
use crate::planning::{Plan, Step, Wanted, look};
use bat_entry::{BITMAP_PRESENT, BatEntry, pack};
use store_model::{Store, StoreFault};
use table_pages::{TableParts, Tables};
use vhdx_format::MEGABYTE;

/// How many bits stand in a page.
const PAGE_BITS: u64 = 32_768;

/// The bits of one chunk that the steps of a call change: the entry of their sector bitmap block as it was planned, the
/// sector of the first bit, and the one behind the last.
#[derive(Clone, Copy)]
pub struct Bits {
    pub word: u64,
    pub first: u64,
    pub end: u64,
}

// Whether a step sets its block's entry.
fn sets_entry(plan: &Plan) -> bool
    ensures { result ≡ false → SetsEntry plan.now → ⊥ }
{
    matches!(plan.step, Step::Drop | Step::Make | Step::MakePart)
}

// Whether some of the planned steps sets its block's entry.
fn set_entries(parts: &TableParts, plans: &[Plan], k: usize, first: u64, count: u64) -> bool
    requires sizes { HasTables parts.now }
    requires on_disk { first + count ≤ parts.now.sectors }
    requires few { k + blocks.blocks_of (shape_of parts.now) first count ≤ length plans.now }
    ensures none { result ≡ false → EachRun (shape_of parts.now) plans.now (λ s n plan. SetsEntry plan → ⊥) k first count }
    ensures there { EachRun (shape_of parts.now) plans.now (λ s n plan. Unit {0}) k first count }
{
    if count == 0 {
        return false;
    }
    let len = run_in_block(parts, first, count);
    let rest = set_entries(parts, plans, k + 1, first + len, count - len);
    sets_entry(&plans[k]) || rest
}

// The bits of a chunk that the planned steps change.
fn bits_of(
    parts: &TableParts,
    plans: &[Plan],
    k: usize,
    first: u64,
    count: u64,
    chunk: u64,
) -> Option<Bits>
    requires sizes { HasTables parts.now }
    requires on_disk { first + count ≤ parts.now.sectors }
    requires few { k + blocks.blocks_of (shape_of parts.now) first count ≤ length plans.now }
    ensures { AreBitsOf (shape_of parts.now) plans.now chunk k first count result }
{
    if count == 0 {
        return None;
    }
    let len = run_in_block(parts, first, count);
    let run = run_bits(parts, &plans[k], first, len, chunk);
    let rest = bits_of(parts, plans, k + 1, first + len, count - len, chunk);
    joined(run, rest)
}

// The bits of a run and those of the rest.
fn joined(run: Option<Bits>, rest: Option<Bits>) -> Option<Bits>
    ensures { result ≡ spec.joined run rest }
{
    let Some(run) = run else {
        return rest;
    };
    let Some(rest) = rest else {
        return Some(run);
    };
    Some(Bits {
        word: run.word,
        first: run.first,
        end: rest.end,
    })
}

// The bits that one step changes, if it lies in the chunk.
fn run_bits(parts: &TableParts, plan: &Plan, first: u64, count: u64, chunk: u64) -> Option<Bits>
    requires sizes { HasTables parts.now }
    requires some { 0 < count }
    requires on_disk { first + count ≤ parts.now.sectors }
    requires run { first * parts.now.sector % parts.now.block + count * parts.now.sector ≤ parts.now.block }
    ensures none { result ≡ None → InChunk chunk (λ s n plan. is_marking plan.step ≡ true → ⊥) first count plan.now }
    ensures some { IfSome result (λ bits. IsBitsOf (shape_of parts.now) chunk first count plan.now bits) }
{
    if first / CHUNK != chunk {
        return None;
    }
    let (from, end) = match plan.step {
        Step::Mark => (first, first + count),
        Step::MakePart => {
            let start = block_start(parts, first);
            (start, start + block_sectors(parts))
        }
        _ => return None,
    };
    Some(Bits {
        word: plan.bitmap,
        first: from,
        end,
    })
}

// A plan with this entry of its sector bitmap block, if it is to have it.
fn named(plan: Plan, is_named: bool, word: u64) -> Plan
    ensures is { result ≡ record plan { bitmap = result.bitmap } }
    ensures named { is_named ≡ true → result.bitmap ≡ word }
    ensures other { is_named ≡ false → result.bitmap ≡ plan.bitmap }
{
    let bitmap = if is_named { word } else { plan.bitmap };
    Plan { bitmap, ..plan }
}

// Gives the plans of a chunk this entry of their sector bitmap block.
fn name_bitmap(
    parts: &TableParts,
    plans: &mut [Plan],
    k: usize,
    first: u64,
    count: u64,
    chunk: u64,
    word: u64,
)
    requires sizes { HasTables parts.now }
    requires on_disk { first + count ≤ parts.now.sectors }
    requires few { k + blocks.blocks_of (shape_of parts.now) first count ≤ length plans.old }
    ensures named { AreNamed (shape_of parts.now) chunk plans.old plans.new k first count }
    ensures word { EachRun (shape_of parts.now) plans.new (InChunk chunk (λ s n plan. plan.bitmap ≡ word)) k first count }
    ensures len { length plans.new ≡ length plans.old }
    ensures before { (i : ℕ) → i < k → slice_get plans.new i ≡ slice_get plans.old i }
{
    if count == 0 {
        return;
    }
    let len = run_in_block(parts, first, count);
    plans[k] = named(plans[k], first / CHUNK == chunk, word);
    name_bitmap(parts, plans, k + 1, first + len, count - len, chunk, word);
}

// How many pages of one chunk's bits a call on so many sectors changes at most.
fn most_bit_pages(parts: &TableParts, count: u64) -> u64
    requires sizes { HasTables parts.now }
    requires few { parts.now.sector * count ≤ 2 ^ 28 }
    ensures is { result ≡ spec.most_bit_pages (shape_of parts.now) count }
    ensures few { result ≤ 50 }
{
    (count + 2 * block_sectors(parts)) / PAGE_BITS + 2
}

// How many pages a call on so many sectors changes at most: two of its entries, and in two chunks those of the bits, or of the entry
// of a sector bitmap block that is made and then of its bits.
fn pages_for(parts: &TableParts, count: u64) -> u32
    requires sizes { HasTables parts.now }
    requires few { parts.now.sector * count ≤ 2 ^ 28 }
    ensures is { result ≡ 2 + 2 * (2 + spec.most_bit_pages (shape_of parts.now) count) }
    ensures few { result ≤ 120 }
{
    (2 + 2 * (2 + most_bit_pages(parts, count))) as u32
}

// Puts the pages of the entries of these sectors' blocks among the changed ones, if some step sets one: so few blocks have
// theirs in two pages.
fn bring_entries<S: Store>(
    tables: &mut Tables,
    plans: &[Plan],
    store: &mut S,
    first: u64,
    count: u64,
) -> Result<(), StoreFault>
    requires readable { AreReadable tables.old (S.disk store.old) }
    requires some { 0 < count }
    requires fit { FitInCall tables.old.parts (length plans.now) first count }
    requires room { length tables.old.pending + 2 ≤ 120 }
    ensures brought { HasBrought tables.old tables.new (S.disk store.old) }
    ensures few { length tables.new.pending ≤ length tables.old.pending + 2 }
    ensures at_hand { OnOk result (EachRun (shape_of tables.old.parts) plans.now (HasEntry tables.new) 0 first count) }
    ensures stays { OnOk result (S.disk store.new ≡ S.disk store.old) }
    ensures err { IfErr result (ReadFailed tables.old.parts.file (S.disk store.old) (S.disk store.new)) }
{
    let parts = tables.parts;
    if !set_entries(&parts, plans, 0, first, count) {
        return Ok(());
    }
    let last = first + count - 1;
    tables.bring_entry(store, entry_index(&parts, first))?;
    tables.bring_entry(store, entry_index(&parts, last))
}

// Puts the pages of a chunk's bits that the steps change among the changed ones, and gives its plans one entry of their sector
// bitmap block, which is there. Where it is missing, the page of that entry takes their place.
fn bring_chunk<S: Store>(
    tables: &mut Tables,
    plans: &mut [Plan],
    store: &mut S,
    first: u64,
    count: u64,
    sector: u64,
    missing: bool,
) -> Result<(), StoreFault>
    requires readable { AreReadable tables.old (S.disk store.old) }
    requires fit { FitInCall tables.old.parts (length plans.old) first count }
    requires sector { sector < tables.old.parts.sectors }
    requires parent { missing ≡ true → tables.old.parts.parent ≡ true }
    requires there { missing ≡ false → NameIn (sector / 2 ^ 23) tables.old.parts tables.old (S.disk store.old) plans.old first count }
    requires room { length tables.old.pending + spec.most_bit_pages (shape_of tables.old.parts) count ≤ 120 }
    ensures brought { HasBrought tables.old tables.new (S.disk store.old) }
    ensures few { length tables.new.pending ≤ length tables.old.pending + (if missing then 1 else spec.most_bit_pages (shape_of tables.old.parts) count) }
    ensures len { length plans.new ≡ length plans.old }
    ensures same { missing ≡ true → plans.new ≡ plans.old }
    ensures named { missing ≡ false → AreNamed (shape_of tables.old.parts) (sector / 2 ^ 23) plans.old plans.new 0 first count }
    ensures at_hand { missing ≡ false → OnOk result (HaveBits (sector / 2 ^ 23) (shape_of tables.old.parts) tables.new plans.new first count) }
    ensures there { missing ≡ false → NameIn (sector / 2 ^ 23) tables.old.parts tables.old (S.disk store.old) plans.new first count }
    ensures entry { missing ≡ true → OnOk result (IsBitmapEntryAtHand tables.old.parts sector tables.new.pending) }
    ensures stays { OnOk result (S.disk store.new ≡ S.disk store.old) }
    ensures err { IfErr result (ReadFailed tables.old.parts.file (S.disk store.old) (S.disk store.new)) }
{
    let parts = tables.parts;
    if missing {
        return tables.bring_entry(store, bitmap_entry_index(&parts, sector));
    }
    let Some(bits) = bits_of(&parts, plans, 0, first, count, sector / CHUNK) else {
        return Ok(());
    };
    let from = bits.first % CHUNK;
    let pages = pages_of_bits(from, bits.end - bits.first);
    let place = (bits.word >> 20) * MEGABYTE;
    tables.bring_pages(store, place, from / PAGE_BITS, pages)?;
    name_bitmap(&parts, plans, 0, first, count, sector / CHUNK, bits.word);
    Ok(())
}

/// Whether the sector bitmap blocks of a call's first and last chunk are to be made; of the last if it is another one.
#[derive(Clone, Copy)]
pub struct Missing {
    pub near: bool,
    pub far: bool,
}

// Which sector bitmap blocks are to be made.
fn find_missing(parts: &TableParts, wanted: &Wanted, first: u64, last: u64) -> Missing
    ensures { result ≡ spec.missing_of (shape_of parts.now) wanted.now first last }
{
    let is_near = match wanted.chunk {
        Some(chunk) => chunk == first / CHUNK,
        None => false,
    };
    let near = parts.parent && is_near;
    let is_far = last / CHUNK != first / CHUNK && wanted.bitmaps > u64::from(near);
    Missing {
        near,
        far: parts.parent && is_far,
    }
}

// Puts all pages that the planned steps change among the changed ones, but for those of sector bitmap blocks that are missing:
// of these the pages of their entries.
fn bring<S: Store>(
    tables: &mut Tables,
    plans: &mut [Plan],
    store: &mut S,
    first: u64,
    count: u64,
    missing: Missing,
) -> Result<(), StoreFault>
    requires readable { AreReadable tables.old (S.disk store.old) }
    requires some { 0 < count }
    requires fit { FitInCall tables.old.parts (length plans.old) first count }
    requires near { missing.near ≡ true → tables.old.parts.parent ≡ true }
    requires far { missing.far ≡ true → tables.old.parts.parent ≡ true }
    requires near_there { missing.near ≡ false → NameNear tables.old (S.disk store.old) plans.old first count }
    requires far_there { GoesOn first count → missing.far ≡ false → NameFar tables.old (S.disk store.old) plans.old first count }
    requires room { length tables.old.pending + 2 + 2 * spec.most_bit_pages (shape_of tables.old.parts) count ≤ 120 }
    ensures brought { HasBrought tables.old tables.new (S.disk store.old) }
    ensures few { length tables.new.pending ≤ length tables.old.pending + 2 + most_brought missing (shape_of tables.old.parts) count }
    ensures len { length plans.new ≡ length plans.old }
    ensures brings { OnOk result (Brings tables.old.parts missing first count tables.new plans.old plans.new) }
    ensures near_there { missing.near ≡ false → OnOk result (NameNear tables.old (S.disk store.old) plans.new first count) }
    ensures far_there { GoesOn first count → missing.far ≡ false → OnOk result (NameFar tables.old (S.disk store.old) plans.new first count) }
    ensures stays { OnOk result (S.disk store.new ≡ S.disk store.old) }
    ensures err { IfErr result (ReadFailed tables.old.parts.file (S.disk store.old) (S.disk store.new)) }
{
    let last = first + count - 1;
    bring_entries(tables, plans, store, first, count)?;
    bring_chunk(tables, plans, store, first, count, first, missing.near)?;
    if last / CHUNK == first / CHUNK {
        return Ok(());
    }
    bring_chunk(tables, plans, store, first, count, last, missing.far)
}

impl Layer {
    // Plans the steps of a call, and sees whether there is room for what they make.
    fn plan<S: Store>(
        &mut self,
        store: &mut S,
        first: u64,
        count: u64,
        trims: bool,
    ) -> Result<Wanted, LayerFault>
        requires ready { IsReady self.old (S.disk store.old) }
        requires on_disk { first + count ≤ self.old.tables.parts.sectors }
        requires few { self.old.tables.parts.sector * count ≤ 2 ^ 28 }
        ensures leads { Leads self.old self.new (S.disk store.old) (S.disk store.new) result }
        ensures quiet { OnBroken result ⊥ }
        ensures looked { IfOk result (λ all. IsLookedBy self.old.tables.parts self.new.tables (S.disk store.new) trims self.new.plans.items 0 first count all) }
        ensures counted { IfOk result (AreCounted (shape_of self.old.tables.parts) self.new.plans.items 0 first count) }
        ensures fits { IfOk result (λ all. spaces.fits_in all.blocks (self.old.tables.parts.block / megabyte) all.bitmaps self.new.space ≡ true) }
        ensures log { self.new.log ≡ self.old.log }
        ensures full { OnFull result (λ next. is_full trims first count next self.old (S.disk store.old)) }
        ensures room { IfOk result (λ all. has_room trims first count self.old (S.disk store.old)) }
    {
        let wanted = self.look(store, first, count, trims)?;
        let units = block_units(&self.tables.parts);
        match self.space.fits(wanted.blocks, units, wanted.bitmaps) {
            Ok(()) => Ok(wanted),
            Err(full) => Err(LayerFault::FileFull { next: full.next }),
        }
    }

    // Plans the steps of a call.
    fn look<S: Store>(
        &mut self,
        store: &mut S,
        first: u64,
        count: u64,
        trims: bool,
    ) -> Result<Wanted, LayerFault>
        requires ready { IsReady self.old (S.disk store.old) }
        requires on_disk { first + count ≤ self.old.tables.parts.sectors }
        requires few { self.old.tables.parts.sector * count ≤ 2 ^ 28 }
        ensures leads { Leads self.old self.new (S.disk store.old) (S.disk store.new) result }
        ensures quiet { OnBroken result ⊥ }
        ensures looked { IfOk result (λ all. IsLookedBy self.old.tables.parts self.old.tables (S.disk store.old) trims self.new.plans.items 0 first count all) }
        ensures counted { IfOk result (AreCounted (shape_of self.old.tables.parts) self.new.plans.items 0 first count) }
        ensures held { WhereTold (S.disk store.old).told (λ trace. held_by self.new trace ≡ held_by self.old trace) }
        ensures log { self.new.log ≡ self.old.log }
        ensures space { self.new.space ≡ self.old.space }
        ensures stays { OnOk result (S.disk store.new ≡ S.disk store.old) }
        ensures never { (next : ℕ) → result ≡ Err (LayerFault.FileFull next) → ⊥ }
    {
        let plans = self.plans.as_mut_slice();
        match look(&mut self.tables, plans, store, 0, first, count, trims) {
            Ok(wanted) => Ok(wanted),
            Err(fault) => Err(LayerFault::Read(fault)),
        }
    }

    // Commits if there is no room for so many further pages.
    fn make_room<S: Store>(&mut self, store: &mut S, pages: u32) -> Result<(), LayerFault>
        requires ready { IsReady self.old (S.disk store.old) }
        requires numbers { self.old.log.number ≤ 2 ^ 64 - 2 ^ 32 }
        requires few { pages ≤ 120 }
        ensures leads { Leads self.old self.new (S.disk store.old) (S.disk store.new) result }
        ensures refused { OnRefused result ⊥ }
        ensures room { OnOk result (length self.new.tables.pending + pages ≤ 120) }
        ensures plans { self.new.plans ≡ self.old.plans }
        ensures says { OnOk result (WhereBothTold (TellsAllSame self.old self.new) (S.disk store.old).told (S.disk store.new).told) }
        ensures fits { OnOk result (KeepsRoom self.old.space self.new.space) }
        ensures number { self.new.log.number ≤ self.old.log.number + 1 }
        ensures header { self.new.log.header ≡ self.old.log.header }
    {
        if self.tables.room_for(pages) {
            return Ok(());
        }
        match self.commit(store) {
            Ok(()) => Ok(()),
            Err(fault) => Err(LayerFault::Write(fault)),
        }
    }

    // Makes the sector bitmap block of a sector's chunk at the file's end, of zeros, with the pages of these bits of it among the
    // changed ones. Answers its entry.
    fn make_bitmap<S: Store>(
        &mut self,
        store: &mut S,
        sector: u64,
        bits: Bits,
    ) -> Result<u64, LayerFault>
        requires ready { IsReady self.old (S.disk store.old) }
        requires sector { sector < self.old.tables.parts.sectors }
        requires bits { LieInChunk (sector / 2 ^ 23) bits }
        requires lacks { LacksBitmap self.old (S.disk store.old) sector (bit_pages (bits.first % 2 ^ 23) (bits.end - bits.first)) }
        ensures leads { Leads self.old self.new (S.disk store.old) (S.disk store.new) result }
        ensures refused { OnRefused result ⊥ }
        ensures space { OnOk result (self.new.space ≡ spaces.grown 1 self.old.space) }
        ensures plans { self.new.plans ≡ self.old.plans }
        ensures log { self.new.log ≡ record (self.old.log) { len = self.new.log.len } }
        ensures keeps { (at : ℕ) → has_place at self.old.tables.pending ≡ true → has_place at self.new.tables.pending ≡ true }
        ensures few { length self.new.tables.pending ≤ length self.old.tables.pending + 1 + bit_pages (bits.first % 2 ^ 23) (bits.end - bits.first) }
        ensures at_hand { IfOk result (λ word. AreBitsAtHand word bits self.new.tables.pending) }
        ensures six { IfOk result (λ word. word % 8 ≡ 6) }
        ensures made { IfOk result (λ word. WhereBothTold (HasMade self.old self.new sector word) (S.disk store.old).told (S.disk store.new).told) }
    {
        let index = bitmap_entry_index(&self.tables.parts, sector);
        let unit = match self.space.take_end() {
            Ok(unit) => unit,
            Err(full) => return Err(LayerFault::FileFull { next: full.next }),
        };
        if let Err(fault) = self.log.grow(store, place_in(unit, MEGABYTE)) {
            return Err(LayerFault::Write(fault));
        }
        let word = pack(BatEntry {
            state: BITMAP_PRESENT,
            unit,
        });
        self.set_entry(store, index, word);
        let from = bits.first % CHUNK;
        let pages = pages_of_bits(from, bits.end - bits.first);
        self.tables
            .bring_zeros((word >> 20) * MEGABYTE, from / PAGE_BITS, pages);
        Ok(word)
    }

    // Makes the sector bitmap block of a sector's chunk, if it is missing, and gives its entry to the chunk's plans.
    fn make_chunk<S: Store>(
        &mut self,
        store: &mut S,
        first: u64,
        count: u64,
        sector: u64,
        missing: bool,
    ) -> Result<(), LayerFault>
        requires ready { IsReady self.old (S.disk store.old) }
        requires on_disk { first + count ≤ self.old.tables.parts.sectors }
        requires sector { sector < self.old.tables.parts.sectors }
        requires few { blocks.blocks_of (shape_of self.old.tables.parts) first count ≤ 257 }
        requires entries { EachRun (shape_of self.old.tables.parts) self.old.plans.items (HasEntry self.old.tables) 0 first count }
        requires lacks { missing ≡ true → LacksBitmap self.old (S.disk store.old) sector (spec.most_bit_pages (shape_of self.old.tables.parts) count) }
        requires bitmap { missing ≡ false → HasBitmap self.old.tables.parts self.old (S.disk store.old) (sector / 2 ^ 23) first count }
        ensures leads { Leads self.old self.new (S.disk store.old) (S.disk store.new) result }
        ensures refused { OnRefused result ⊥ }
        ensures log { self.new.log ≡ record (self.old.log) { len = self.new.log.len } }
        ensures space { OnOk result ((self.new.space ≡ self.old.space) ⊎ ((missing ≡ true) × (self.new.space ≡ spaces.grown 1 self.old.space))) }
        ensures keeps { (at : ℕ) → has_place at self.old.tables.pending ≡ true → has_place at self.new.tables.pending ≡ true }
        ensures pages { length self.new.tables.pending ≤ length self.old.tables.pending + most_made missing (shape_of self.old.tables.parts) count }
        ensures named { OnOk result (AreNamed (shape_of self.old.tables.parts) (sector / 2 ^ 23) self.old.plans.items self.new.plans.items 0 first count) }
        ensures bitmap { OnOk result (HasBitmap self.old.tables.parts self.new (S.disk store.new) (sector / 2 ^ 23) first count) }
        ensures says { OnOk result (WhereBothTold (TellsSameBut (sector / 2 ^ 23) self.old self.new) (S.disk store.old).told (S.disk store.new).told) }
    {
        if !missing {
            return Ok(());
        }
        let parts = self.tables.parts;
        let chunk = sector / CHUNK;
        let Some(bits) = bits_of(&parts, self.plans.as_slice(), 0, first, count, chunk) else {
            return Ok(());
        };
        let word = self.make_bitmap(store, sector, bits)?;
        let plans = self.plans.as_mut_slice();
        name_bitmap(&parts, plans, 0, first, count, chunk, word);
        Ok(())
    }

    // Puts the pages of the planned steps among the changed ones, but for those of sector bitmap blocks that are missing.
    fn bring_pages<S: Store>(
        &mut self,
        store: &mut S,
        first: u64,
        count: u64,
        missing: Missing,
    ) -> Result<(), LayerFault>
        requires ready { IsReady self.old (S.disk store.old) }
        requires some { 0 < count }
        requires fit { FitInCall self.old.tables.parts 257 first count }
        requires near { missing.near ≡ true → self.old.tables.parts.parent ≡ true }
        requires far { missing.far ≡ true → self.old.tables.parts.parent ≡ true }
        requires near_there { missing.near ≡ false → PlansNameNear self.old self.old (S.disk store.old) first count }
        requires far_there { GoesOn first count → missing.far ≡ false → PlansNameFar self.old self.old (S.disk store.old) first count }
        requires room { length self.old.tables.pending + 2 + 2 * (2 + spec.most_bit_pages (shape_of self.old.tables.parts) count) ≤ 120 }
        ensures leads { Leads self.old self.new (S.disk store.old) (S.disk store.new) result }
        ensures never { (next : ℕ) → result ≡ Err (LayerFault.FileFull next) → ⊥ }
        ensures log { self.new.log ≡ self.old.log }
        ensures space { self.new.space ≡ self.old.space }
        ensures few { length self.new.tables.pending ≤ length self.old.tables.pending + 2 + most_brought missing (shape_of self.old.tables.parts) count }
        ensures held { OnOk result (WhereTold (S.disk store.old).told (λ trace. held_by self.new trace ≡ held_by self.old trace)) }
        ensures brings { OnOk result (Brings self.old.tables.parts missing first count self.new.tables self.old.plans.items self.new.plans.items) }
        ensures near_there { missing.near ≡ false → OnOk result (PlansNameNear self.old self.new (S.disk store.old) first count) }
        ensures far_there { GoesOn first count → missing.far ≡ false → OnOk result (PlansNameFar self.old self.new (S.disk store.old) first count) }
        ensures stays { OnOk result (S.disk store.new ≡ S.disk store.old) }
    {
        let plans = self.plans.as_mut_slice();
        match bring(&mut self.tables, plans, store, first, count, missing) {
            Ok(()) => Ok(()),
            Err(fault) => Err(LayerFault::Read(fault)),
        }
    }

    // Puts at hand what the planned steps want: their pages, and the sector bitmap blocks that are missing.
    fn put_at_hand<S: Store>(
        &mut self,
        store: &mut S,
        first: u64,
        count: u64,
        wanted: &Wanted,
    ) -> Result<(), LayerFault>
        requires ready { IsReady self.old (S.disk store.old) }
        requires some { 0 < count }
        requires fit { FitInCall self.old.tables.parts 257 first count }
        requires numbers { self.old.log.number ≤ 2 ^ 64 - 2 ^ 32 }
        requires counted { AreCounted (shape_of self.old.tables.parts) self.old.plans.items 0 first count wanted.now }
        requires planned { HasPlanned self.old (S.disk store.old) first count }
        requires fits { spaces.fits_in wanted.now.blocks (self.old.tables.parts.block / megabyte) wanted.now.bitmaps self.old.space ≡ true }
        ensures leads { Leads self.old self.new (S.disk store.old) (S.disk store.new) result }
        ensures never { (next : ℕ) → result ≡ Err (LayerFault.FileFull next) → ⊥ }
        ensures number { self.new.log.number ≤ self.old.log.number + 1 }
        ensures header { self.new.log.header ≡ self.old.log.header }
        ensures prepared { OnOk result (IsPrepared self.new 0 first count) }
        ensures wants { (trims : Bool) → OnOk result (WantsPlanned self.old self.new first count trims (S.disk store.old) (S.disk store.new)) }
    {
        let parts = self.tables.parts;
        let last = first + count - 1;
        let missing = find_missing(&parts, wanted, first, last);
        self.make_room(store, pages_for(&parts, count))?;
        self.bring_pages(store, first, count, missing)?;
        self.make_chunk(store, first, count, first, missing.near)?;
        self.make_chunk(store, first, count, last, missing.far)
    }

    /// Prepares a call on so many sectors from `first` on: plans its steps, and puts at hand what they want, so that no step reads
    /// or asks for more room than there is. Nothing of the file is changed, though it may commit and make sector bitmap blocks.
    pub(crate) fn prepare<S: Store>(
        &mut self,
        store: &mut S,
        first: u64,
        count: u64,
        trims: bool,
    ) -> Result<(), LayerFault>
        requires ready { IsReady self.old (S.disk store.old) }
        requires on_disk { first + count ≤ self.old.tables.parts.sectors }
        requires few { self.old.tables.parts.sector * count ≤ 2 ^ 28 }
        requires numbers { self.old.log.number + 1 ≤ 2 ^ 64 - 2 ^ 32 }
        // At each moment, whatever it answers, in every image without a torn match.
        ensures moments { WhereBothTold (KeepsOver self.old) (S.disk store.old).told (S.disk store.new).told }
        ensures done { OnOk result (WhereBothTold (Begins self.old self.new first count trims) (S.disk store.old).told (S.disk store.new).told) }
        ensures prepared { OnOk result (IsPrepared self.new 0 first count) }
        ensures ready { OnOk result (IsReady self.new (S.disk store.new)) }
        ensures refused { OnRefused result (ServesOn self.old self.new (S.disk store.old) (S.disk store.new)) }
        ensures broken { OnBroken result (ReadsOn self.old self.new 0 0 (S.disk store.old) (S.disk store.new)) }
        ensures parts { self.new.tables.parts ≡ self.old.tables.parts }
        ensures leave { self.new.leave ≡ self.old.leave }
        // It commits once at most.
        ensures number { self.new.log.number ≤ self.old.log.number + 1 }
        ensures header { self.new.log.header ≡ self.old.log.header }
        ensures counts { OnOk result (S.disk store.new ≡ record (S.disk store.old) { told = (S.disk store.new).told }) }
        ensures err { IfErr result (Fails self.old.tables.parts.file (S.disk store.old) (S.disk store.new)) }
        // Refused for want of room exactly where there is none.
        ensures full { OnFull result (λ next. is_full trims first count next self.old (S.disk store.old)) }
        ensures room { OnRoom result (has_room trims first count self.old (S.disk store.old)) }
    {
        let wanted = self.plan(store, first, count, trims)?;
        if !wanted.tables {
            return Ok(());
        }
        self.put_at_hand(store, first, count, &wanted)
    }
}
