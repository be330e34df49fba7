// Reads into new memory.
ghost use Rattle.std.specs.Prelude.{◌≡◌, ◌<◌, ◌≤◌, ◌+◌, length, IfOk};
ghost use Rattle.store_model.specs.Bytes.{bytes_at};
ghost use Rattle.store_model.specs.Disk.{LeavesStore, WhereTold, fault_in};
ghost use Rattle.store_model.specs.File.{seen};
ghost use Rattle.store_model.specs.Trace.{file_of};

use crate::{SealFault, Store};
use std::alloc::Global;

/// `len` bytes of the file from the byte `at` on, in one read into new memory. It fails with the store's fault of that read, or where
/// memory runs out.
pub fn read_bytes<S: Store>(
    alloc: Global,
    store: &mut S,
    file: u32,
    at: u64,
    len: usize,
) -> Result<Vec<u8>, SealFault>
    requires there { file < (S.disk store.old).files }
    requires inside { WhereTold (S.disk store.old).told (λ trace. at + len ≤ length (seen (file_of trace file))) }
    ensures len { IfOk result (λ bytes. length bytes.items ≡ len) }
    ensures bytes { IfOk result (λ bytes. WhereTold (S.disk store.old).told (λ trace. bytes.items ≡ bytes_at (seen (file_of trace file)) at len)) }
    ensures store { LeavesStore fault_in file (S.disk store.old) (S.disk store.new) result }
{
    let mut bytes = vec![in alloc; 0u8; len]?;
    store.read_at(file, at, bytes.as_mut_slice())?;
    Ok(bytes)
}
