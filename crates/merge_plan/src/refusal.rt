//! Why no merge is planned.

use meta_edit::MetaRefusal;
use shown_ids::CollectFault;
use store_model::StoreFault;
use vx_base::{Guid, NoRoom};

/// Why no merge is planned. Nothing was changed. Identifiers were drawn unless the file of the name can't be merged.
#[derive(Clone, Copy)]
pub enum PrepareRefusal {
    /// 40: the chain has no file of this name.
    NotInChain,
    /// 41: the file has no parent.
    IsBase,
    /// 52: the file is the leaf.
    LeafSource,
    /// 42: a locator to be written is above 65,536 bytes.
    LocatorTooLarge { len: u64 },
    /// 43: the metadata of this file, by its number in the store, have no room for its new locator.
    MetadataFull { file: u32 },
    /// 44: a drawn identifier is zero, was drawn before in this call, or is shown by one of the files.
    IdUnfit { id: Guid },
    /// A read of a file failed.
    Store(StoreFault),
    /// Memory ran out.
    NoRoom,
}

impl From<NoRoom> for PrepareRefusal {
    ghost use Rattle.std.specs.Prelude.{◌≡◌};
    ghost use Rattle.merge_plan.specs.declared.refusal.PrepareRefusal.TheVariants as variants;

    ghost from_gives = { λ _ e. e ≡ variants.NoRoom };

    fn from(_: NoRoom) -> Self {
        PrepareRefusal::NoRoom
    }
}

impl From<CollectFault> for PrepareRefusal {
    ghost use Rattle.std.specs.Prelude.{◌≡◌};
    ghost use Rattle.merge_plan.specs.Converting.{of_collect};

    ghost from_gives = { λ fault e. e ≡ of_collect fault };

    fn from(fault: CollectFault) -> Self {
        match fault {
            CollectFault::Store(fault) => PrepareRefusal::Store(fault),
            CollectFault::NoRoom => PrepareRefusal::NoRoom,
        }
    }
}

impl From<MetaRefusal> for PrepareRefusal {
    ghost use Rattle.std.specs.Prelude.{◌≡◌};
    ghost use Rattle.merge_plan.specs.Converting.{of_meta};

    ghost from_gives = { λ refusal e. e ≡ of_meta refusal };

    fn from(refusal: MetaRefusal) -> Self {
        match refusal {
            MetaRefusal::LocatorTooLarge { len } => PrepareRefusal::LocatorTooLarge { len },
            MetaRefusal::MetadataFull { file } => PrepareRefusal::MetadataFull { file },
            MetaRefusal::Store(fault) => PrepareRefusal::Store(fault),
            MetaRefusal::NoRoom => PrepareRefusal::NoRoom,
        }
    }
}
