//! Repairing a file, from its opening on.

ghost use Rattle.std.specs.Prelude.{◌≡◌, ◌≤◌, ◌<◌, ◌||◌, false, length, IfErr, IfOk};
ghost use Rattle.store_model.specs.Disk.{LeavesStore, WhereBothTold, WhereTold};
ghost use Rattle.store_model.specs.File.{is_sealed, seen};
ghost use Rattle.store_model.specs.Trace.{file_of};
ghost use Rattle.log_replay.specs.Replays.{OnlyChanges};
ghost use Rattle.vhdx_format.specs.FileParts.{HasNumbers, LieWithin};
ghost use Rattle.vx_base.specs.Fields as fields;
ghost use Rattle.make_file.specs.Identifiers as identifiers;
ghost use Rattle.file_repair.specs.Faults.{fault_of};
ghost use Rattle.file_repair.specs.Readying.{IsOfReady, JudgesHere};
ghost use Rattle.file_repair.specs.Repairing.{AnswersRepair, LeavesRepaired, RepairsMoments};

use crate::refusal::RepairRefusal;
use crate::rewriting::rewrite;
use file_open::open_file;
use make_file::{draw, is_among};
use shown_ids::collect;
use std::alloc::Global;
use store_model::{Ids, Store, read_bytes};
use vhdx_format::{REGION_TABLE_LEN, REGION_TABLES_AT};
use vx_base::{Guid, Parts};

// Whether an identifier is zero, or one of these.
fn is_unfit(id: Guid, known: &[Guid]) -> bool
    ensures { result ≡ identifiers.is_unfit known.now id }
{
    id.is_zero() || is_among(id, known)
}

// Judges the identifier, and reads the copies of the region table.
fn ready<S: Store>(
    alloc: Global,
    store: &mut S,
    file: u32,
    parts: &Parts,
    id: Guid,
) -> Result<Vec<u8>, RepairRefusal>
    requires there { file < (S.disk store.old).files }
    requires numbers { HasNumbers parts.now }
    requires within { WhereTold (S.disk store.old).told (λ trace. LieWithin parts.now (length (seen (file_of trace file)))) }
    requires long { WhereTold (S.disk store.old).told (λ trace. 327680 ≤ length (seen (file_of trace file))) }
    ensures len { IfOk result (λ copies. length copies.items ≡ 131072) }
    ensures copies { IfOk result (λ copies. WhereTold (S.disk store.old).told (λ trace. copies.items ≡ fields.bytes_at (seen (file_of trace file)) 196608 131072)) }
    ensures judged { WhereTold (S.disk store.old).told (λ trace. JudgesHere parts.now (seen (file_of trace file)) id result) }
    ensures err { IfErr result (IsOfReady id) }
    ensures store { LeavesStore fault_of file (S.disk store.old) (S.disk store.new) result }
{
    let known = collect(alloc, store, file, parts)?;
    if is_unfit(id, known.as_slice()) {
        return Err(RepairRefusal::IdUnfit { id });
    }
    Ok(read_bytes(
        alloc,
        store,
        file,
        REGION_TABLES_AT as u64,
        2 * REGION_TABLE_LEN,
    )?)
}

/// Repairs a file: opens it, which replays its log, gives its header a new identifier of the file's writes and no log, and writes
/// the copy of its region table that isn't valid. The new header goes to the copy that isn't the current one. One identifier is
/// drawn, and judged before anything of this is written.
pub fn repair<S: Store, I: Ids>(
    alloc: Global,
    store: &mut S,
    file: u32,
    ids: &mut I,
) -> Result<(), RepairRefusal>
    requires there { file < (S.disk store.old).files }
    requires unsealed { WhereTold (S.disk store.old).told (λ trace. is_sealed (file_of trace file) ≡ false) }
    ensures answer { AnswersRepair file (I.drawn ids.old) (I.drawn ids.new) (S.disk store.old).told (S.disk store.new).told result }
    // For every store.
    ensures store { LeavesRepaired file (S.disk store.old) (S.disk store.new) result }
    ensures only { WhereBothTold (OnlyChanges file) (S.disk store.old).told (S.disk store.new).told }
    // At each moment from the call's beginning on, whatever it answers.
    ensures moments { RepairsMoments file (S.disk store.old).told (S.disk store.new).told }
{
    let parts = open_file(alloc, store, file)?;
    let id = draw(ids);
    let copies = ready(alloc, store, file, &parts, id)?;
    Ok(rewrite(store, file, &parts, id, copies.as_slice())?)
}
