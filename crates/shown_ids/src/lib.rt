//! The identifiers that a file shows, of which a new one may be none.
#![tactic(auto)]

ghost use Rattle.std.specs.Prelude.{◌≡◌, ◌<◌, ◌≤◌, ◌+◌, ◌*◌, ◌^◌, ◌++◌, length, IfOk, OnOk, IfErr};
ghost use Rattle.shown_ids.specs.Faults.{fault_of};
ghost use Rattle.shown_ids.specs.Shown.{header_ids, listed, locator_ids, place_ids, shown};
ghost use Rattle.shown_ids.specs.Shown as spec;
ghost use Rattle.store_model.specs.Disk.{LeavesStore, ReadFailed, WhereTold};
ghost use Rattle.store_model.specs.File.{seen};
ghost use Rattle.store_model.specs.Trace.{file_of};
ghost use Rattle.vhdx_format.specs.FileParts.{HasNumbers, LieWithin};
ghost use Rattle.vhdx_format.specs.Headers.{held_header};
ghost use Rattle.vhdx_format.specs.Locators.{read_locator};

mod fault;

pub use fault::CollectFault;
use header_pair::header_in;
use parent_locator::{LocatorRefusal, linkage, parse, second_linkage};
use std::alloc::Global;
use store_model::{Store, StoreFault};
use vhdx_format::{HEADER_LEN, HEADER_STEP, LOG_SECTOR};
use vx_base::{Bytes, Guid, Header, NoRoom, Parts, bytes_at, guid_at};

// Adds one, if there is one.
fn add(ids: &mut Vec<Guid>, id: Option<Guid>) -> Result<(), NoRoom>
    ensures { OnOk result (ids.new.items ≡ ids.old.items ++ listed id) }
{
    if let Some(id) = id {
        ids.push(id)?;
    }
    Ok(())
}

// Adds those of a header.
fn add_header(ids: &mut Vec<Guid>, header: Option<Header>) -> Result<(), NoRoom>
    ensures { OnOk result (ids.new.items ≡ ids.old.items ++ header_ids header) }
{
    if let Some(header) = header {
        ids.push(header.file_write)?;
        ids.push(header.data_write)?;
        ids.push(header.log)?;
    }
    Ok(())
}

// Adds those of a copy of the header, 1 or 2.
fn add_copy<S: Store>(
    store: &mut S,
    file: u32,
    copy: u32,
    ids: &mut Vec<Guid>,
) -> Result<(), CollectFault>
    requires there { file < (S.disk store.old).files }
    requires copy { copy ≤ 2 }
    requires inside { WhereTold (S.disk store.old).told (λ trace. 196608 ≤ length (seen (file_of trace file))) }
    ensures ids { OnOk result (WhereTold (S.disk store.old).told
        (λ trace. ids.new.items ≡ ids.old.items ++ header_ids (held_header (seen (file_of trace file)) copy))) }
    ensures store { LeavesStore fault_of file (S.disk store.old) (S.disk store.new) result }
{
    let mut bytes = [0; HEADER_LEN];
    store.read_at(file, HEADER_STEP as u64 * u64::from(copy), &mut bytes)?;
    add_header(ids, header_in(&bytes, copy))?;
    Ok(())
}

// The log's identifier in the first 48 bytes of a place, where they begin as an entry does.
#[tactic(auto, unfolding(crate::specs::Shown::place_id))]
fn id_in(head: &[u8]) -> Option<Guid>
    requires { length head.now ≡ 48 }
    ensures { result ≡ spec.place_id head.now 0 }
{
    if bytes_at(head, 0, 4) == b"loge".as_slice() {
        Some(guid_at(head, 32))
    } else {
        None
    }
}

// The log's identifier in a place that begins as an entry does.
fn place_id<S: Store>(store: &mut S, file: u32, at: u64) -> Result<Option<Guid>, StoreFault>
    requires there { file < (S.disk store.old).files }
    requires inside { WhereTold (S.disk store.old).told (λ trace. at + 48 ≤ length (seen (file_of trace file))) }
    ensures id { IfOk result (λ id. WhereTold (S.disk store.old).told (λ trace. id ≡ spec.place_id (seen (file_of trace file)) at)) }
    ensures stays { OnOk result (S.disk store.new ≡ S.disk store.old) }
    ensures err { IfErr result (ReadFailed file (S.disk store.old) (S.disk store.new)) }
{
    let mut head = [0; 48];
    store.read_at(file, at, &mut head)?;
    Ok(id_in(&head))
}

// Adds those of so many places of 4,096 bytes. Of each the first 48 bytes are read.
fn add_places<S: Store>(
    store: &mut S,
    file: u32,
    at: u64,
    count: u32,
    ids: &mut Vec<Guid>,
) -> Result<(), CollectFault>
    requires there { file < (S.disk store.old).files }
    requires end { at + 4096 * count < 2 ^ 64 }
    requires inside { WhereTold (S.disk store.old).told (λ trace. at + 4096 * count ≤ length (seen (file_of trace file))) }
    ensures ids { OnOk result (WhereTold (S.disk store.old).told (λ trace. ids.new.items ≡ ids.old.items ++ place_ids (seen (file_of trace file)) at count)) }
    ensures store { LeavesStore fault_of file (S.disk store.old) (S.disk store.new) result }
{
    for k in 0..count {
        let id = place_id(store, file, at + LOG_SECTOR as u64 * u64::from(k))?;
        add(ids, id)?;
    }
    Ok(())
}

// Adds those of a locator, where it keeps the rules.
fn add_linkages(alloc: Global, item: &[u8], ids: &mut Vec<Guid>) -> Result<(), NoRoom>
    ensures { OnOk result (ids.new.items ≡ ids.old.items ++ spec.pairs_ids (read_locator item.now)) }
{
    match parse(alloc, item) {
        Ok(locator) => {
            add(ids, linkage(alloc, locator.as_slice())?)?;
            add(ids, second_linkage(alloc, locator.as_slice())?)
        }
        Err(LocatorRefusal::NoRoom) => Err(NoRoom),
        Err(_) => Ok(()),
    }
}

// Adds those of a locator, if there is one.
fn add_locator(alloc: Global, locator: &Option<Bytes>, ids: &mut Vec<Guid>) -> Result<(), NoRoom>
    ensures { OnOk result (ids.new.items ≡ ids.old.items ++ locator_ids locator.now) }
{
    match locator {
        Some(item) => add_linkages(alloc, item.as_slice(), ids),
        None => Ok(()),
    }
}

/// The identifiers that the file with these numbers shows, in order: those of both copies of its header, of each place of its
/// log, and of its locator. One may be there more than once. It reads 256 times in each MB of the log, 48 bytes each.
pub fn collect<S: Store>(
    alloc: Global,
    store: &mut S,
    file: u32,
    parts: &Parts,
) -> Result<Vec<Guid>, CollectFault>
    requires there { file < (S.disk store.old).files }
    requires numbers { HasNumbers parts.now }
    requires within { WhereTold (S.disk store.old).told (λ trace. LieWithin parts.now (length (seen (file_of trace file)))) }
    // Where the content is told: exactly these.
    ensures ids { IfOk result (λ ids. WhereTold (S.disk store.old).told (λ trace. ids.items ≡ shown parts.now (seen (file_of trace file)))) }
    // For every store.
    ensures store { LeavesStore fault_of file (S.disk store.old) (S.disk store.new) result }
{
    let mut ids = Vec::new(alloc);
    add_copy(store, file, 1, &mut ids)?;
    add_copy(store, file, 2, &mut ids)?;
    let Header {
        log_at,
        log_len,
        ..
    } = parts.header;
    add_places(store, file, log_at, log_len / LOG_SECTOR as u32, &mut ids)?;
    add_locator(alloc, &parts.locator, &mut ids)?;
    Ok(ids)
}
