//! Why a script isn't run.

use chain_core::StartRefusal;
use command_base::ChainRefusal;
use link_rules::LinkRefusal;
use std::alloc::AllocError;
use vx_base::{Guid, Name, NoRoom};

/// Why a script isn't run.
#[derive(Drop)]
pub enum StepsRefusal {
    /// The files of the chain aren't read.
    Chain(ChainRefusal),
    /// 34: a merge is asked for in a session in which files are only read.
    ReadOnly,
    /// 36: the number of a file's header leaves no room for those of a session.
    Spent { number: u64 },
    /// 40: the chain has no file of this name, which is to be merged.
    NotInChain { name: Name },
    /// 41: the file that is to be merged has no parent.
    IsBase { name: Name },
    /// 42: a locator that is to be written is above 65,536 bytes.
    LocatorTooLarge { len: u64 },
    /// 43: the metadata of the file of this name have no room for its new locator, or for its retired name.
    MetadataFull { file: Name },
    /// 44: an identifier that was drawn can't be a new one.
    IdUnfit { id: Guid },
}

impl From<ChainRefusal> for StepsRefusal {
    ghost use Rattle.std.specs.Prelude.{◌≡◌};
    ghost use Rattle.steps_command.specs.declared.refusal.StepsRefusal.TheVariants.{Chain};

    ghost from_gives = { λ refusal e. e ≡ Chain refusal };

    fn from(refusal: ChainRefusal) -> Self {
        StepsRefusal::Chain(refusal)
    }
}

impl From<LinkRefusal> for StepsRefusal {
    ghost use Rattle.std.specs.Prelude.{◌≡◌};
    ghost use Rattle.command_base.specs.declared.refusal.ChainRefusal.TheVariants.{Unlinked};
    ghost use Rattle.steps_command.specs.declared.refusal.StepsRefusal.TheVariants.{Chain};

    ghost from_gives = { λ refusal e. e ≡ Chain (Unlinked refusal) };

    fn from(refusal: LinkRefusal) -> Self {
        StepsRefusal::Chain(ChainRefusal::Unlinked(refusal))
    }
}

impl From<StartRefusal> for StepsRefusal {
    ghost use Rattle.std.specs.Prelude.{◌≡◌};
    ghost use Rattle.steps_command.specs.Sessions.{of_start};

    ghost from_gives = { λ refusal e. e ≡ of_start refusal };

    fn from(refusal: StartRefusal) -> Self {
        match refusal {
            StartRefusal::Spent { number } => StepsRefusal::Spent { number },
            StartRefusal::IdUnfit { id } => StepsRefusal::IdUnfit { id },
            StartRefusal::Store(fault) => StepsRefusal::Chain(ChainRefusal::Store(fault)),
            StartRefusal::NoRoom => StepsRefusal::Chain(ChainRefusal::NoRoom),
        }
    }
}

impl From<NoRoom> for StepsRefusal {
    ghost use Rattle.std.specs.Prelude.{◌≡◌};
    ghost use Rattle.command_base.specs.declared.refusal.ChainRefusal.TheVariants as chain;
    ghost use Rattle.steps_command.specs.declared.refusal.StepsRefusal.TheVariants.{Chain};

    ghost from_gives = { λ _ e. e ≡ Chain chain.NoRoom };

    fn from(_: NoRoom) -> Self {
        StepsRefusal::Chain(ChainRefusal::NoRoom)
    }
}

impl From<AllocError> for StepsRefusal {
    ghost use Rattle.std.specs.Prelude.{◌≡◌};
    ghost use Rattle.command_base.specs.declared.refusal.ChainRefusal.TheVariants as chain;
    ghost use Rattle.steps_command.specs.declared.refusal.StepsRefusal.TheVariants.{Chain};

    ghost from_gives = { λ _ e. e ≡ Chain chain.NoRoom };

    fn from(_: AllocError) -> Self {
        StepsRefusal::Chain(ChainRefusal::NoRoom)
    }
}
