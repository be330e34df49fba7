//! Why a command is refused.

use guest_model::ChainRefusal as CallRefusal;
use link_rules::LinkRefusal;
use std::alloc::AllocError;
use store_model::{HostFault, StoreFault};
use vx_base::NoRoom;

/// Why the files of a chain aren't read.
#[derive(Drop)]
pub enum ChainRefusal {
    /// The leaf's name leads to no chain.
    Unlinked(LinkRefusal),
    /// The host failed to lend them.
    Host(HostFault),
    /// A read of one of them failed.
    Store(StoreFault),
    /// Memory ran out.
    NoRoom,
}

impl From<LinkRefusal> for ChainRefusal {
    ghost use Rattle.std.specs.Prelude.{◌≡◌};
    ghost use Rattle.command_base.specs.declared.refusal.ChainRefusal.TheVariants.{Unlinked};

    ghost from_gives = { λ refusal e. e ≡ Unlinked refusal };

    fn from(refusal: LinkRefusal) -> Self {
        ChainRefusal::Unlinked(refusal)
    }
}

impl From<HostFault> for ChainRefusal {
    ghost use Rattle.std.specs.Prelude.{◌≡◌};
    ghost use Rattle.command_base.specs.declared.refusal.ChainRefusal.TheVariants.{Host};

    ghost from_gives = { λ fault e. e ≡ Host fault };

    fn from(fault: HostFault) -> Self {
        ChainRefusal::Host(fault)
    }
}

impl From<StoreFault> for ChainRefusal {
    ghost use Rattle.std.specs.Prelude.{◌≡◌};
    ghost use Rattle.command_base.specs.declared.refusal.ChainRefusal.TheVariants.{Store};

    ghost from_gives = { λ fault e. e ≡ Store fault };

    fn from(fault: StoreFault) -> Self {
        ChainRefusal::Store(fault)
    }
}

impl From<NoRoom> for ChainRefusal {
    ghost use Rattle.std.specs.Prelude.{◌≡◌};
    ghost use Rattle.command_base.specs.declared.refusal.ChainRefusal.TheVariants as chain;

    ghost from_gives = { λ _ e. e ≡ chain.NoRoom };

    fn from(_: NoRoom) -> Self {
        ChainRefusal::NoRoom
    }
}

impl From<AllocError> for ChainRefusal {
    ghost use Rattle.std.specs.Prelude.{◌≡◌};
    ghost use Rattle.command_base.specs.declared.refusal.ChainRefusal.TheVariants as chain;

    ghost from_gives = { λ _ e. e ≡ chain.NoRoom };

    fn from(_: AllocError) -> Self {
        ChainRefusal::NoRoom
    }
}

/// Why no sectors are shown.
#[derive(Drop)]
pub enum DumpRefusal {
    /// The files of the chain aren't read.
    Chain(ChainRefusal),
    /// 31 to 33: what would refuse a guest's read of these sectors.
    Range(CallRefusal),
}

impl From<ChainRefusal> for DumpRefusal {
    ghost use Rattle.std.specs.Prelude.{◌≡◌};
    ghost use Rattle.command_base.specs.declared.refusal.DumpRefusal.TheVariants.{Chain};

    ghost from_gives = { λ refusal e. e ≡ Chain refusal };

    fn from(refusal: ChainRefusal) -> Self {
        DumpRefusal::Chain(refusal)
    }
}

impl From<CallRefusal> for DumpRefusal {
    ghost use Rattle.std.specs.Prelude.{◌≡◌};
    ghost use Rattle.command_base.specs.declared.refusal.DumpRefusal.TheVariants.{Range};

    ghost from_gives = { λ refusal e. e ≡ Range refusal };

    fn from(refusal: CallRefusal) -> Self {
        DumpRefusal::Range(refusal)
    }
}

impl From<LinkRefusal> for DumpRefusal {
    ghost use Rattle.std.specs.Prelude.{◌≡◌};
    ghost use Rattle.command_base.specs.declared.refusal.DumpRefusal.TheVariants.{Chain};
    ghost use Rattle.command_base.specs.declared.refusal.ChainRefusal.TheVariants.{Unlinked};

    ghost from_gives = { λ refusal e. e ≡ Chain (Unlinked refusal) };

    fn from(refusal: LinkRefusal) -> Self {
        DumpRefusal::Chain(ChainRefusal::Unlinked(refusal))
    }
}
