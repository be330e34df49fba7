//! A file that is only read, as its readers read it.

ghost use Rattle.std.specs.Prelude.{◌<◌, IfOk};
ghost use Rattle.sealed_layer.specs.Sealed.{IsForReaders};

use layer_session::{FileLayer, ReadLayer};
use std::alloc::Global;
use vx_base::NoRoom;

/// A layer for a reader of the file that this one only reads, with room of its own for so many pages of its tables in memory. To it a sealed
/// file is the one file of a store.
pub fn sealed_layer(alloc: Global, layer: &ReadLayer, pages: u32) -> Result<FileLayer, NoRoom>
    requires { 0 < pages }
    ensures { IfOk result (IsForReaders layer.now) }
{
    let layer = layer.another(alloc, 0, pages)?;
    Ok(FileLayer::Read(layer))
}
