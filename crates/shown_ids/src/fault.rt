//! Why nothing was collected.

use store_model::StoreFault;
use vx_base::NoRoom;

/// Why nothing was collected.
#[derive(Clone, Copy)]
pub enum CollectFault {
    /// A read of the file failed.
    Store(StoreFault),
    /// Memory ran out.
    NoRoom,
}

impl From<StoreFault> for CollectFault {
    ghost use Rattle.std.specs.Prelude.{◌≡◌};
    ghost use Rattle.shown_ids.specs.declared.fault.CollectFault.TheVariants.{Store};

    ghost from_gives = { λ fault e. e ≡ Store fault };

    fn from(fault: StoreFault) -> Self {
        CollectFault::Store(fault)
    }
}

impl From<NoRoom> for CollectFault {
    ghost use Rattle.std.specs.Prelude.{◌≡◌};
    ghost use Rattle.shown_ids.specs.declared.fault.CollectFault.TheVariants as variants;

    ghost from_gives = { λ _ e. e ≡ variants.NoRoom };

    fn from(_: NoRoom) -> Self {
        CollectFault::NoRoom
    }
}
