//! Repairing a file of a folder.

ghost use Rattle.link_rules.specs.Folders.{AllIdle};
ghost use Rattle.named_file.specs.Repairs.{AnswersRepair, LeavesRepair, OnlyRepairs, RepairsSafely};
ghost use Rattle.store_model.specs.Disk.{WhereTold};

use file_repair::{RepairRefusal, repair};
use link_rules::lend;
use std::alloc::Global;
use store_model::{Host, Ids};
use vx_base::Name;

/// Repairs the file of this name, with one identifier that is drawn for it. Its store is given back, whatever is answered.
pub fn repair_named<H: Host, I: Ids>(
    alloc: Global,
    host: &mut H,
    name: &Name,
    ids: &mut I,
) -> Result<(), RepairRefusal>
    requires idle { WhereTold (H.hosted host.old).folder AllIdle }
    ensures answer { AnswersRepair name.now (I.drawn ids.old) (I.drawn ids.new) (H.hosted host.old).folder (H.hosted host.new).folder result }
    ensures leaves { LeavesRepair name.now (H.hosted host.old) (H.hosted host.new) result }
    ensures only { OnlyRepairs name.now (H.hosted host.old).folder (H.hosted host.new).folder }
    // at each moment from the call's beginning on, whatever it answers
    ensures moments { RepairsSafely name.now (H.hosted host.old) (H.hosted host.new) }
{
    let mut store = lend(alloc, host, name)?;
    let repaired = repair(alloc, &mut store, 0, ids);
    host.give_back(store);
    repaired
}
