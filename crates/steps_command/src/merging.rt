//! Why a session with a merge doesn't start, told by the names of the files.

ghost use Rattle.std.specs.Prelude.{◌≡◌, IfOk, OnErr, length};
ghost use Rattle.steps_command.specs.Sessions.{IsMergeRefusal, PlanHasFile, PlanNamesFile, StartHasFile, of_begin, of_plan};

use crate::refusal::StepsRefusal;
use chain_core::MergeStartRefusal;
use command_base::ChainRefusal;
use merge_plan::PrepareRefusal;
use std::alloc::Global;
use store_model::SealFault;
use vx_base::{Name, NoRoom};

// Why a session doesn't begin whose merge is planned.
fn begin_refused(fault: SealFault) -> StepsRefusal
    ensures { result ≡ of_begin fault }
{
    match fault {
        SealFault::Store(fault) => StepsRefusal::Chain(ChainRefusal::Store(fault)),
        SealFault::NoRoom => StepsRefusal::Chain(ChainRefusal::NoRoom),
    }
}

// Why a merge isn't planned of the source, a file of a chain whose files have these names. Memory may run out for a name that is told.
fn plan_refused(
    alloc: Global,
    names: &[Name],
    source: &Name,
    refusal: PrepareRefusal,
) -> Result<StepsRefusal, NoRoom>
    requires { PlanHasFile (length names.now) refusal }
    ensures told { IfOk result (λ told. told ≡ of_plan names.now source.now refusal) }
    ensures names { OnErr result (PlanNamesFile refusal) }
{
    match refusal {
        PrepareRefusal::NotInChain => Ok(StepsRefusal::NotInChain {
            name: source.try_clone(alloc)?,
        }),
        PrepareRefusal::IsBase => Ok(StepsRefusal::IsBase {
            name: source.try_clone(alloc)?,
        }),
        PrepareRefusal::LeafSource => unreachable!(),
        PrepareRefusal::LocatorTooLarge { len } => Ok(StepsRefusal::LocatorTooLarge { len }),
        PrepareRefusal::MetadataFull { file } => Ok(StepsRefusal::MetadataFull {
            file: names[file as usize].try_clone(alloc)?,
        }),
        PrepareRefusal::IdUnfit { id } => Ok(StepsRefusal::IdUnfit { id }),
        PrepareRefusal::Store(fault) => Ok(StepsRefusal::Chain(ChainRefusal::Store(fault))),
        PrepareRefusal::NoRoom => Ok(StepsRefusal::Chain(ChainRefusal::NoRoom)),
    }
}

/// Why no session starts with the merge of the source, a file of a chain whose files have these names, from the leaf on.
pub fn merge_refused(
    alloc: Global,
    names: &[Name],
    source: &Name,
    refusal: MergeStartRefusal,
) -> StepsRefusal
    requires { StartHasFile (length names.now) refusal }
    ensures { IsMergeRefusal names.now source.now refusal result }
{
    match refusal {
        MergeStartRefusal::Spent { number } => StepsRefusal::Spent { number },
        MergeStartRefusal::Plan(refusal) => match plan_refused(alloc, names, source, refusal) {
            Ok(told) => told,
            Err(NoRoom) => StepsRefusal::Chain(ChainRefusal::NoRoom),
        },
        MergeStartRefusal::Begin(fault) => begin_refused(fault),
    }
}
