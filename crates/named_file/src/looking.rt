//! Looking for all that is wrong with a file of a folder.

ghost use Rattle.file_open.specs.Causes.{AnswersBy, cause_of};
ghost use Rattle.link_rules.specs.Folders.{AllIdle, contents};
ghost use Rattle.link_rules.specs.Touches.{TouchesSafely};
ghost use Rattle.named_file.specs.Looks.{LeavesLook, LooksIn};
ghost use Rattle.store_model.specs.Disk.{WhereTold};
ghost use Rattle.std.specs.Prelude.{◌≡◌, IfOk};
ghost use Rattle.check_repair.specs.Answers.{AreRules};

use check_repair::{Findings, check};
use file_open::OpenRefusal;
use link_rules::lend;
use std::alloc::Global;
use store_model::Host;
use vx_base::Name;

/// All that is found wrong with the file of this name, its log replayed first. Its store is given back, whatever is answered.
pub fn check_named<H: Host>(
    alloc: Global,
    host: &mut H,
    name: &Name,
) -> Result<Findings, OpenRefusal>
    requires idle { WhereTold (H.hosted host.old).folder AllIdle }
    ensures answer { WhereTold (H.hosted host.old).folder (λ folder. AnswersBy (LooksIn (contents folder) name.now) cause_of result) }
    // For every host.
    ensures means { IfOk result (λ found. AreRules found.rules.items) }
    ensures leaves { LeavesLook name.now (H.hosted host.old) (H.hosted host.new) result }
    // At each moment from the call's beginning on, whatever it answers: no other file is touched, and each image of this one opens as
    // the file did.
    ensures moments { TouchesSafely (λ folder other. other ≡ name.now) (H.hosted host.old) (H.hosted host.new) }
{
    let mut store = lend(alloc, host, name)?;
    let found = check(alloc, &mut store, 0);
    host.give_back(store);
    Ok(found?)
}
