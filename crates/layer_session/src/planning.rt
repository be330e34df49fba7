//! What a call is to do with each block that its sectors lie in. The tables are read, and nothing is changed.

ghost use Rattle.std.specs.Prelude.{◌≡◌, ◌+◌, ◌*◌, ◌/◌, ◌%◌, ◌^◌, ◌<◌, ◌≤◌, ◌↔◌, true, false, ℕ, length, slice_get, IfOk, IfErr, OnOk, IsTrue};
ghost use Rattle.store_model.specs.Disk.{ReadFailed};
ghost use Rattle.vhdx_format.specs.Layers.{entry_of, table_entry};
ghost use Rattle.table_pages.specs.Held.{shape_of};
ghost use Rattle.layer_session.specs.Planning as spec;
ghost use Rattle.layer_session.specs.Planning.{AreCounted, IsPlanned};
ghost use Rattle.layer_session.specs.TablesRead.{AreReadable, HasRead};
ghost use Rattle.layer_session.specs.Runs.{HaveOneBitmap};
ghost use Rattle.layer_session.specs.SectorRanges.{LieInBlock};
ghost use Rattle.layer_session.specs.Blocks as blocks;
ghost use Rattle.layer_session.specs.ByTables.{IsLookedBy, WantsAtMost, WhereHeld};

use crate::geometry::{CHUNK, bitmap_entry_index, entry_index, is_whole_block, run_in_block};
use bat_entry::{BITMAP_PRESENT, FULLY_PRESENT, NOT_PRESENT, PARTLY_PRESENT};
use sector_bits::are_set;
use store_model::{Store, StoreFault};
use table_pages::Tables;

/// How many sectors' bits are read at once.
const PIECE: u64 = 2_048;

/// Bytes of that many bits.
const PIECE_BYTES: usize = 256;

/// What a call does to a block.
#[derive(Clone, Copy)]
pub enum Step {
    /// It becomes a block of zeros without a place.
    Drop,
    /// It stays one.
    Leave,
    /// Its sectors are written.
    Write,
    /// They are written, and marked in its sector bitmap.
    Mark,
    /// It gets a place.
    Make,
    /// It gets a place, and its sectors are marked.
    MakePart,
}

/// What is to be done with a block, its entry as it was found, and that of its sector bitmap block where that is looked at.
#[derive(Clone, Copy)]
pub struct Plan {
    pub step: Step,
    pub word: u64,
    pub bitmap: u64,
}

/// What the rest of a call wants: so many blocks and sector bitmap blocks are to be made.
#[derive(Clone, Copy)]
pub struct Wanted {
    pub blocks: u64,
    pub bitmaps: u64,
    /// Whether a table changes.
    pub tables: bool,
    /// The first chunk whose sector bitmap block is to be made.
    pub chunk: Option<u64>,
}

// Whether sectors of a partially present block are all in the file: so many that their bits are read at once.
fn are_few_marked<S: Store>(
    tables: &mut Tables,
    store: &mut S,
    first: u64,
    count: u64,
) -> Result<bool, StoreFault>
    requires readable { AreReadable tables.old (S.disk store.old) }
    requires some { 0 < count }
    requires few { first % 8 + count ≤ 2048 }
    requires bitmap { HaveOneBitmap tables.old (S.disk store.old) first count }
    ensures marked { IfOk result (λ marked. WhereHeld tables.old (S.disk store.old) (λ p file. IsTrue marked ↔ spec.AreMarked p file first count)) }
    ensures reads { HasRead tables.old tables.new (S.disk store.old) }
    ensures stays { OnOk result (S.disk store.new ≡ S.disk store.old) }
    ensures err { IfErr result (ReadFailed tables.old.parts.file (S.disk store.old) (S.disk store.new)) }
{
    let skip = first % 8;
    let mut bits = [0; PIECE_BYTES];
    let bytes = (skip + count).div_ceil(8) as usize;
    let piece = &mut bits[..bytes];
    tables.bits(store, first - skip, piece)?;
    Ok(are_set(piece, skip as usize, count as usize))
}

// Whether sectors of a partially present block are all in the file.
fn are_marked<S: Store>(
    tables: &mut Tables,
    store: &mut S,
    first: u64,
    count: u64,
) -> Result<bool, StoreFault>
    requires readable { AreReadable tables.old (S.disk store.old) }
    requires bitmap { HaveOneBitmap tables.old (S.disk store.old) first count }
    ensures marked { IfOk result (λ marked. WhereHeld tables.old (S.disk store.old) (λ p file. marked ≡ spec.are_marked p file first count)) }
    ensures reads { HasRead tables.old tables.new (S.disk store.old) }
    ensures stays { OnOk result (S.disk store.new ≡ S.disk store.old) }
    ensures err { IfErr result (ReadFailed tables.old.parts.file (S.disk store.old) (S.disk store.new)) }
{
    if count == 0 {
        return Ok(true);
    }
    let len = count.min(PIECE - first % 8);
    if !are_few_marked(tables, store, first, len)? {
        return Ok(false);
    }
    are_marked(tables, store, first + len, count - len)
}

// The plan of a step that marks no sectors: no entry of a sector bitmap block was looked at.
fn unmarked(step: Step, word: u64) -> Plan
    ensures { result ≡ record { step = step; word = word; bitmap = 0 } }
{
    Plan {
        step,
        word,
        bitmap: 0,
    }
}

// What is to be done with sectors that lie in one block.
fn plan_of<S: Store>(
    tables: &mut Tables,
    store: &mut S,
    first: u64,
    count: u64,
    trims: bool,
) -> Result<Plan, StoreFault>
    requires readable { AreReadable tables.old (S.disk store.old) }
    requires some { 0 < count }
    requires block { LieInBlock tables.old.parts first count }
    ensures planned { IfOk result (λ plan. WhereHeld tables.old (S.disk store.old) (λ p file. IsPlanned p file trims first count plan)) }
    ensures reads { HasRead tables.old tables.new (S.disk store.old) }
    ensures stays { OnOk result (S.disk store.new ≡ S.disk store.old) }
    ensures err { IfErr result (ReadFailed tables.old.parts.file (S.disk store.old) (S.disk store.new)) }
{
    let parts = tables.parts;
    let word = tables.entry(store, entry_index(&parts, first))?;
    if trims && is_whole_block(&parts, first, count) {
        let step = if word == 2 { Step::Leave } else { Step::Drop };
        return Ok(unmarked(step, word));
    }
    let state = (word % 8) as u32;
    if parts.parent && state == PARTLY_PRESENT {
        return plan_part(tables, store, word, first, count);
    }
    if parts.parent && state == NOT_PRESENT {
        let bitmap = tables.entry(store, bitmap_entry_index(&parts, first))?;
        return Ok(Plan {
            step: Step::MakePart,
            word,
            bitmap,
        });
    }
    let step = if state >= FULLY_PRESENT {
        Step::Write
    } else {
        Step::Make
    };
    Ok(unmarked(step, word))
}

// The same of a partially present block that isn't trimmed whole.
fn plan_part<S: Store>(
    tables: &mut Tables,
    store: &mut S,
    word: u64,
    first: u64,
    count: u64,
) -> Result<Plan, StoreFault>
    requires readable { AreReadable tables.old (S.disk store.old) }
    requires parent { tables.old.parts.parent ≡ true }
    requires some { 0 < count }
    requires block { LieInBlock tables.old.parts first count }
    requires state { word % 8 ≡ 7 }
    requires word { WhereHeld tables.old (S.disk store.old) (λ p file. word ≡ table_entry p file (entry_of p first)) }
    ensures planned { IfOk result (λ plan. WhereHeld tables.old (S.disk store.old) (λ p file. IsPlanned p file false first count plan)) }
    ensures reads { HasRead tables.old tables.new (S.disk store.old) }
    ensures stays { OnOk result (S.disk store.new ≡ S.disk store.old) }
    ensures err { IfErr result (ReadFailed tables.old.parts.file (S.disk store.old) (S.disk store.new)) }
{
    let index = bitmap_entry_index(&tables.parts, first);
    let bitmap = tables.entry(store, index)?;
    let step = if are_marked(tables, store, first, count)? {
        Step::Write
    } else {
        Step::Mark
    };
    Ok(Plan { step, word, bitmap })
}

// What is wanted with one block before the rest.
fn with_plan(plan: Plan, chunk: u64, rest: Wanted) -> Wanted
    requires few { rest.blocks + rest.bitmaps < 2 ^ 32 }
    ensures { result ≡ spec.with_plan plan chunk rest }
{
    let made = matches!(plan.step, Step::Make | Step::MakePart);
    let later = match rest.chunk {
        Some(found) => found == chunk,
        None => false,
    };
    let bitmap = plan.step == Step::MakePart
        && (plan.bitmap % 8) as u32 != BITMAP_PRESENT
        && !later;
    Wanted {
        blocks: rest.blocks + u64::from(made),
        bitmaps: rest.bitmaps + u64::from(bitmap),
        tables: !matches!(plan.step, Step::Leave | Step::Write) || rest.tables,
        chunk: if bitmap { Some(chunk) } else { rest.chunk },
    }
}

/// Plans what is to be done with each block of so many sectors from `first` on, in the plans from `k` on. Answers what they
/// want together.
pub fn look<S: Store>(
    tables: &mut Tables,
    plans: &mut [Plan],
    store: &mut S,
    k: usize,
    first: u64,
    count: u64,
    trims: bool,
) -> Result<Wanted, StoreFault>
    requires readable { AreReadable tables.old (S.disk store.old) }
    requires on_disk { first + count ≤ tables.old.parts.sectors }
    requires few { k + blocks.blocks_of (shape_of tables.old.parts) first count ≤ length plans.old }
    requires room { length plans.old < 2 ^ 16 }
    ensures looked { IfOk result (λ all. IsLookedBy tables.old.parts tables.old (S.disk store.old) trims plans.new k first count all) }
    ensures counted { IfOk result (AreCounted (shape_of tables.old.parts) plans.new k first count) }
    ensures few { IfOk result (λ all. WantsAtMost (blocks.blocks_of (shape_of tables.old.parts) first count) all) }
    ensures before { (i : ℕ) → i < k → slice_get plans.new i ≡ slice_get plans.old i }
    ensures reads { HasRead tables.old tables.new (S.disk store.old) }
    ensures stays { OnOk result (S.disk store.new ≡ S.disk store.old) }
    ensures err { IfErr result (ReadFailed tables.old.parts.file (S.disk store.old) (S.disk store.new)) }
{
    if count == 0 {
        return Ok(Wanted {
            blocks: 0,
            bitmaps: 0,
            tables: false,
            chunk: None,
        });
    }
    let len = run_in_block(&tables.parts, first, count);
    let plan = plan_of(tables, store, first, len, trims)?;
    plans[k] = plan;
    let rest = look(tables, plans, store, k + 1, first + len, count - len, trims)?;
    Ok(with_plan(plan, first / CHUNK, rest))
}
