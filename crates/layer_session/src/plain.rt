//! Pages that no entry of a log may name.

ghost use Rattle.std.specs.Prelude.{◌≡◌, ◌<◌, None, OnOk, IfErr};
ghost use Rattle.store_model.specs.Plans.{FailsToChange};

use log_format::Page;
use store_model::{Store, StoreFault};

/// Breaks the session of a file whose changed pages lie where its log may not write: over a store that tells nothing, whose bytes
/// changed behind the opening. It asks for a file of 2^64 - 1 bytes, which none can be, so that the store counts a fault; where even
/// that is granted the pages are written where they lie, so that none is left out.
pub(crate) fn write_plainly<S: Store>(
    store: &mut S,
    file: u32,
    pages: &[Page],
) -> Result<(), StoreFault>
    requires there { file < (S.disk store.old).files }
    requires untold { (S.disk store.old).told ≡ None }
    ensures done { OnOk result (S.disk store.new ≡ S.disk store.old) }
    ensures untold { (S.disk store.new).told ≡ None }
    ensures err { IfErr result (FailsToChange file (S.disk store.old) (S.disk store.new)) }
{
    store.grow(file, u64::MAX)?;
    for page in pages {
        store.write_at(file, page.at, &page.bytes)?;
    }
    store.sync(file)
}
