//! Rewriting the header and an invalid copy of the region table.

ghost use Rattle.std.specs.Prelude.{◌≡◌, ◌≤◌, ◌<◌, ◌+◌, ◌∷◌, [], false, length, OnOk, IfErr};
ghost use Rattle.store_model.specs.Disk.{WhereBothTold, WhereTold};
ghost use Rattle.store_model.specs.File.{Sync, Write, is_sealed, seen};
ghost use Rattle.store_model.specs.Plans.{StopsIn, changed_all};
ghost use Rattle.store_model.specs.Trace.{file_of};
ghost use Rattle.torn_match.specs.TornMatches.{ChangesUntorn};
ghost use Rattle.vhdx_format.specs.Headers as headers;
ghost use Rattle.vx_base.specs.Fields.{IsGuid};
ghost use Rattle.vx_base.specs.Fields as fields;
ghost use Rattle.log_write.specs.Writing as writing;
ghost use Rattle.file_repair.specs.Repaired as spec;
ghost use Rattle.file_repair.specs.Repaired.{CanRepair, IsRepaired, KeepsLayer, region_writes, repair_plan};

use check_repair::is_valid_table;
use header_pair::{fits, write_header};
use store_model::{Store, StoreFault};
use vhdx_format::{REGION_TABLE_LEN, REGION_TABLES_AT};
use vx_base::{Guid, Header, Parts, bytes_at};

// The other of the two copies.
fn beside(copy: u32) -> u32
    ensures is { result ≡ writing.beside copy }
    ensures first { 1 ≤ result }
    ensures second { result ≤ 2 }
{
    if copy == 1 { 2 } else { 1 }
}

// The next header: a new identifier of the file's writes, and no log.
fn repaired_header(header: &Header, id: Guid) -> Header
    ensures is { result ≡ spec.repaired_header header.now id }
    ensures first { 1 ≤ result.copy }
    ensures second { result.copy ≤ 2 }
{
    Header {
        copy: beside(header.copy),
        number: header.number.saturating_add(1),
        file_write: id,
        data_write: header.data_write,
        log: Guid::zero(),
        log_version: 0,
        version: header.version,
        log_len: header.log_len,
        log_at: header.log_at,
    }
}

// Writes a header to its copy, and syncs.
fn put_header<S: Store>(store: &mut S, file: u32, header: &Header) -> Result<(), StoreFault>
    requires there { file < (S.disk store.old).files }
    requires first { 1 ≤ header.now.copy }
    requires second { header.now.copy ≤ 2 }
    requires inside { WhereTold (S.disk store.old).told (λ trace. 196608 ≤ length (seen (file_of trace file))) }
    requires unsealed { WhereTold (S.disk store.old).told (λ trace. is_sealed (file_of trace file) ≡ false) }
    ensures ok { OnOk result (S.disk store.new ≡ changed_all file (writing.header_writes header.now) (S.disk store.old)) }
    ensures err { IfErr result (λ fault. StopsIn file (S.disk store.new) fault (writing.header_writes header.now) (S.disk store.old)) }
{
    write_header(store, file, header, header.copy)
}

// Writes bytes, and syncs.
fn put_bytes<S: Store>(store: &mut S, file: u32, at: u64, bytes: &[u8]) -> Result<(), StoreFault>
    requires there { file < (S.disk store.old).files }
    requires inside { WhereTold (S.disk store.old).told (λ trace. at + length bytes.now ≤ length (seen (file_of trace file))) }
    requires unsealed { WhereTold (S.disk store.old).told (λ trace. is_sealed (file_of trace file) ≡ false) }
    ensures ok { OnOk result (S.disk store.new ≡ changed_all file (Write at bytes.now ∷ Sync ∷ []) (S.disk store.old)) }
    ensures err { IfErr result (λ fault. StopsIn file (S.disk store.new) fault (Write at bytes.now ∷ Sync ∷ []) (S.disk store.old)) }
{
    store.write_at(file, at, bytes)?;
    store.sync(file)
}

// Writes the copy of the region table that isn't valid, of two of which one is.
fn put_regions<S: Store>(store: &mut S, file: u32, copies: &[u8]) -> Result<(), StoreFault>
    requires there { file < (S.disk store.old).files }
    requires copies { length copies.now ≡ 131072 }
    requires inside { WhereTold (S.disk store.old).told (λ trace. 327680 ≤ length (seen (file_of trace file))) }
    requires unsealed { WhereTold (S.disk store.old).told (λ trace. is_sealed (file_of trace file) ≡ false) }
    ensures ok { OnOk result (S.disk store.new ≡ changed_all file (region_writes copies.now) (S.disk store.old)) }
    ensures err { IfErr result (λ fault. StopsIn file (S.disk store.new) fault (region_writes copies.now) (S.disk store.old)) }
{
    let first = bytes_at(copies, 0, REGION_TABLE_LEN);
    let second = bytes_at(copies, REGION_TABLE_LEN, REGION_TABLE_LEN);
    if !is_valid_table(first) {
        return put_bytes(store, file, REGION_TABLES_AT as u64, second);
    }
    if !is_valid_table(second) {
        return put_bytes(
            store,
            file,
            REGION_TABLES_AT as u64 + REGION_TABLE_LEN as u64,
            first,
        );
    }
    Ok(())
}

// Both.
fn put_both<S: Store>(
    store: &mut S,
    file: u32,
    header: &Header,
    copies: &[u8],
) -> Result<(), StoreFault>
    requires there { file < (S.disk store.old).files }
    requires first { 1 ≤ header.now.copy }
    requires second { header.now.copy ≤ 2 }
    requires copies { length copies.now ≡ 131072 }
    requires inside { WhereTold (S.disk store.old).told (λ trace. 327680 ≤ length (seen (file_of trace file))) }
    requires unsealed { WhereTold (S.disk store.old).told (λ trace. is_sealed (file_of trace file) ≡ false) }
    ensures ok { OnOk result (S.disk store.new ≡ changed_all file (repair_plan header.now copies.now) (S.disk store.old)) }
    ensures err { IfErr result (λ fault. StopsIn file (S.disk store.new) fault (repair_plan header.now copies.now) (S.disk store.old)) }
    ensures writable { headers.IsWritable header.now }
{
    fits(header);
    put_header(store, file, header)?;
    put_regions(store, file, copies)
}

/// Rewrites an opened file's header, with this identifier of its writes and no log, and the copy of its region table that isn't
/// valid.
pub fn rewrite<S: Store>(
    store: &mut S,
    file: u32,
    parts: &Parts,
    id: Guid,
    copies: &[u8],
) -> Result<(), StoreFault>
    requires there { file < (S.disk store.old).files }
    requires id { IsGuid id }
    requires copies { length copies.now ≡ 131072 }
    requires read { WhereTold (S.disk store.old).told (λ trace. copies.now ≡ fields.bytes_at (seen (file_of trace file)) 196608 131072) }
    requires inside { WhereTold (S.disk store.old).told (λ trace. 327680 ≤ length (seen (file_of trace file))) }
    requires unsealed { WhereTold (S.disk store.old).told (λ trace. is_sealed (file_of trace file) ≡ false) }
    ensures ok { OnOk result (S.disk store.new ≡ changed_all file (repair_plan (spec.repaired_header parts.now.header id) copies.now) (S.disk store.old)) }
    ensures err { IfErr result (λ fault. StopsIn file (S.disk store.new) fault (repair_plan (spec.repaired_header parts.now.header id) copies.now) (S.disk store.old)) }
    ensures repaired { OnOk result (WhereBothTold (λ before after.
        CanRepair parts.now (file_of before file) → IsRepaired parts.now (seen (file_of before file)) id (file_of after file)) (S.disk store.old).told (S.disk store.new).told) }
    // At each moment from the call's beginning on, whatever it answers, in each image without a torn match.
    ensures moments { WhereTold (S.disk store.old).told (λ trace. CanRepair parts.now (file_of trace file)
        → WhereBothTold (ChangesUntorn file (KeepsLayer parts.now (seen (file_of trace file)))) (S.disk store.old).told (S.disk store.new).told) }
{
    put_both(store, file, &repaired_header(&parts.header, id), copies)
}
