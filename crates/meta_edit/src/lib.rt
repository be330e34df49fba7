//! Changes of one item of a file's metadata, as the pages of one entry of its log.
#![tactic(auto)]

ghost use Rattle.std.specs.Prelude.{◌≡◌, ◌≤◌, ◌<◌, length, IfOk, IfErr, IsErr};
ghost use Rattle.vhdx_format.specs.Locators.{locator_bytes, locator_len, longest_locator};
ghost use Rattle.std.specs.Option.{option_copied};
ghost use Rattle.meta_edit.specs.Edits.{Answers, IsInside, IsNotTooLarge, IsSound, IsTooLarge, NamesFile, ReadsLocator, ReadsRetired, changed_item, fault_of, retired_value};
ghost use Rattle.meta_edit.specs.Pages.{ArePages, HasMetadata};
ghost use Rattle.store_model.specs.Disk.{LeavesStore};

mod change;
mod laying;
mod list;
mod table;
mod value;

use change::update;
use laying::LaidFile;
pub use list::Updates;
use parent_locator::{fits, len_of};
use std::alloc::{AllocError, AllocFailed, Global};
use store_model::{Store, StoreFault};
use vhdx_format::{Locator, Page};
use vx_base::{Name, NoRoom, Parts};

/// The items that change while a chain is merged.
#[derive(Clone, Copy)]
pub enum ItemKind {
    /// The item that names the parent.
    Locator,
    /// The item that names the file in a retired leaf's place.
    Retired,
}

/// Why an item isn't changed.
#[derive(Clone, Copy, PartialEq, Eq)]
pub enum MetaRefusal {
    /// A locator of more bytes than one may have.
    LocatorTooLarge { len: u64 },
    /// No room in the file's metadata region, or in its table.
    MetadataFull { file: u32 },
    /// A read failed.
    Store(StoreFault),
    /// Memory ran out.
    NoRoom,
}

impl From<AllocError> for MetaRefusal {
    ghost use Rattle.std.specs.Prelude.{◌≡◌};
    ghost use Rattle.meta_edit.specs.declared.MetaRefusal.TheVariants.{NoRoom};

    ghost from_gives = { λ _ e. e ≡ NoRoom };

    fn from(_: AllocError) -> Self {
        MetaRefusal::NoRoom
    }
}

impl From<AllocFailed<Page>> for MetaRefusal {
    ghost use Rattle.std.specs.Prelude.{◌≡◌};
    ghost use Rattle.meta_edit.specs.declared.MetaRefusal.TheVariants.{NoRoom};

    ghost from_gives = { λ _ e. e ≡ NoRoom };

    fn from(_: AllocFailed<Page>) -> Self {
        MetaRefusal::NoRoom
    }
}

impl From<NoRoom> for MetaRefusal {
    ghost use Rattle.std.specs.Prelude.{◌≡◌};
    ghost use Rattle.meta_edit.specs.declared.MetaRefusal.TheVariants.{NoRoom};

    ghost from_gives = { λ _ e. e ≡ NoRoom };

    fn from(_: NoRoom) -> Self {
        MetaRefusal::NoRoom
    }
}

impl From<StoreFault> for MetaRefusal {
    ghost use Rattle.std.specs.Prelude.{◌≡◌};
    ghost use Rattle.meta_edit.specs.declared.MetaRefusal.TheVariants.{Store};

    ghost from_gives = { λ fault e. e ≡ Store fault };

    fn from(fault: StoreFault) -> Self {
        MetaRefusal::Store(fault)
    }
}

/// The pages that give a file's metadata another parent locator. `over` are the pages of the file's earlier updates that
/// aren't written yet. The item keeps its place where the new value is no longer, and else goes behind all others.
pub fn locator_update<S: Store>(
    alloc: Global,
    store: &mut S,
    file: u32,
    parts: &Parts,
    over: &[Page],
    new: &Locator,
) -> Result<Updates, MetaRefusal>
    requires there { file < (S.disk store.old).files }
    requires parts { HasMetadata parts.now }
    requires over { ArePages parts.now over.now }
    requires inside { IsInside parts.now file (S.disk store.old) }
    requires sound { IsSound parts.now file over.now (S.disk store.old) }
    // Where the content is told: the pages turn the file, as the earlier ones left it, into the one with the item
    // changed, and no other byte; full the metadata are exactly where there is no room.
    ensures answer { Answers parts.now file over.now (S.disk store.old)
        (λ bytes. (changed_item ItemKind.Locator parts.now (locator_bytes new.now) bytes)) result }
    // The file is then read with the new locator, and with all else as before.
    ensures reads { IfOk result (ReadsLocator parts.now file over.now (S.disk store.old) (locator_bytes new.now)) }
    ensures large { longest_locator < locator_len new.now → IfErr result (IsTooLarge (locator_len new.now)) × IsErr result }
    ensures short { locator_len new.now ≤ longest_locator → IfErr result IsNotTooLarge }
    // For every store: the pages lie in the metadata's region, and a fault is a read of the file whose count rose.
    ensures pages { IfOk result (ArePages parts.now) }
    ensures few { IfOk result (λ pages. length pages ≤ 22) }
    ensures file { IfErr result (NamesFile file) }
    ensures store { LeavesStore fault_of file (S.disk store.old) (S.disk store.new) result }
{
    if !fits(new) {
        return Err(MetaRefusal::LocatorTooLarge { len: len_of(new) });
    }
    let value = value::locator_value(alloc, new)?;
    let laid = LaidFile { file, parts, over };
    update(alloc, store, &laid, ItemKind::Locator, value.as_slice())
}

/// The pages that give a file's metadata the name of the file in this leaf's place, or, for none, a value of no bytes.
pub fn retire_update<S: Store>(
    alloc: Global,
    store: &mut S,
    file: u32,
    parts: &Parts,
    over: &[Page],
    to: Option<&Name>,
) -> Result<Updates, MetaRefusal>
    requires there { file < (S.disk store.old).files }
    requires parts { HasMetadata parts.now }
    requires over { ArePages parts.now over.now }
    requires inside { IsInside parts.now file (S.disk store.old) }
    requires sound { IsSound parts.now file over.now (S.disk store.old) }
    ensures answer { Answers parts.now file over.now (S.disk store.old)
        (λ bytes. (changed_item ItemKind.Retired parts.now (retired_value (option_copied to.entry)) bytes)) result }
    // The file is then read with the new name, or with none, and with all else as before.
    ensures reads { IfOk result (ReadsRetired parts.now file over.now (S.disk store.old) (option_copied to.entry)) }
    ensures short { IfErr result IsNotTooLarge }
    // For every store: the pages lie in the metadata's region, and a fault is a read of the file whose count rose.
    ensures pages { IfOk result (ArePages parts.now) }
    ensures few { IfOk result (λ pages. length pages ≤ 22) }
    ensures file { IfErr result (NamesFile file) }
    ensures store { LeavesStore fault_of file (S.disk store.old) (S.disk store.new) result }
{
    let value = value::retired_value(alloc, to)?;
    let laid = LaidFile { file, parts, over };
    update(alloc, store, &laid, ItemKind::Retired, value.as_slice())
}
