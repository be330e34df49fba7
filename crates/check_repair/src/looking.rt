//! Looking for all that is wrong with a file.

ghost use Rattle.std.specs.Prelude.{◌≡◌, ◌≤◌, ◌<◌, ◌∷◌, ◌++◌, [], not, None, false, IfOk, IfErr, OnOk, length, map};
ghost use Rattle.store_model.specs.Disk.{LeavesStore, WhereBothTold, WhereTold, fault_in};
ghost use Rattle.store_model.specs.File.{is_sealed, seen};
ghost use Rattle.store_model.specs.Trace.{file_of};
ghost use Rattle.vhdx_format.specs.FileParts.{HasNumbers, LieWithin};
ghost use Rattle.vhdx_format.specs.Headers as headers;
ghost use Rattle.vhdx_format.specs.RegionTables as regions;
ghost use Rattle.file_open.specs.Causes.{AnswersReads, cause_of};
ghost use Rattle.parent_locator.specs.Listing.{fault_rule};
ghost use Rattle.file_open.specs.Effects.{KeepsFile, KeepsMoments, OpensAlike};
ghost use Rattle.check_repair.specs.Answers.{AreFound, AreRules, LeavesChecked, MeanRules, copy_finding};
ghost use Rattle.check_repair.specs.Findings as spec;
ghost use Rattle.check_repair.specs.Steps as steps;
ghost use Rattle.check_repair.specs.Steps.{FindsRules, NumbersRead, told_as, told_if, told_pair};

use crc32c::crc32c_without;
use file_open::{FileNumbers, OpenRefusal, read_file};
use header_pair::header_in;
use parent_locator::{LocatorFault, locator_faults};
use std::alloc::{AllocError, Global};
use store_model::{SealFault, Store, read_bytes};
use table_faults::{BlockPair, TableFaults, faults};
use vhdx_format::{HEADER_LEN, HEADER_STEP, MEGABYTE, REGION_TABLE_LEN, REGION_TABLES_AT};
use vx_base::{Header, Parts, bytes_at, u32_at};

/// What is wrong with the copies of a file's header and region table, and with its log.
#[derive(Clone, Copy, PartialEq, Eq)]
pub enum CopyFault {
    /// This copy of the header isn't valid.
    HeaderCopy { copy: u32 },
    /// This copy of the region table isn't valid.
    RegionCopy { copy: u32 },
    /// The header names a log.
    LogNamed,
}

/// What is found wrong with a file, in this order.
#[derive(Drop)]
pub struct Findings {
    /// The rules of opening that it breaks: the first alone, or all of its table.
    pub rules: Vec<OpenRefusal>,
    /// All that its locator breaks, if it has a parent.
    pub locator: Vec<LocatorFault>,
    /// All that is wrong with its copies and its log.
    pub copies: Vec<CopyFault>,
}

// Whether a file is one of this format, so long that it has its first sections.
fn is_known<S: Store>(store: &mut S, file: u32) -> Result<bool, SealFault>
    requires there { file < (S.disk store.old).files }
    ensures told { IfOk result (λ known. WhereTold (S.disk store.old).told (λ trace. steps.Knows (seen (file_of trace file)) known)) }
    ensures store { LeavesStore fault_in file (S.disk store.old) (S.disk store.new) result }
{
    if store.len(file)? < MEGABYTE {
        return Ok(false);
    }
    let mut signature = [0; 8];
    store.read_at(file, 0, &mut signature)?;
    Ok(signature.as_slice() == b"vhdxfile".as_slice())
}

// What stops the look at a file, of what opening answers.
fn stop_of(refusal: &OpenRefusal) -> Option<SealFault>
    ensures { result ≡ steps.stop_of refusal.now }
{
    match refusal {
        OpenRefusal::Store(fault) => Some(SealFault::Store(*fault)),
        OpenRefusal::FileMissing | OpenRefusal::Host(_) | OpenRefusal::NoRoom => {
            Some(SealFault::NoRoom)
        }
        _ => None,
    }
}

// The numbers of a file whose log is replayed, or the rule that it breaks before its blocks are looked at.
fn numbers_of<S: Store>(
    alloc: Global,
    store: &mut S,
    file: u32,
) -> Result<Result<FileNumbers, OpenRefusal>, SealFault>
    requires there { file < (S.disk store.old).files }
    requires unsealed { WhereTold (S.disk store.old).told (λ trace. is_sealed (file_of trace file) ≡ false) }
    ensures reads { IfOk result (λ read. WhereTold (S.disk store.old).told (λ trace. AnswersReads (seen (file_of trace file)) read)) }
    ensures numbers { IfOk result (λ read. IfOk read (λ numbers. HasNumbers numbers.parts)) }
    ensures refused { IfOk result (λ read. IfErr read (λ refusal. steps.stop_of refusal ≡ None)) }
    ensures within { IfOk result (λ read. IfOk read (λ numbers. LieWithin numbers.parts numbers.len)) }
    ensures len { IfOk result (λ read. IfOk read (λ numbers. WhereTold (S.disk store.new).told (λ trace. numbers.len ≡ length (seen (file_of trace file))))) }
    ensures store { LeavesChecked file (S.disk store.old) (S.disk store.new) result }
    ensures kept { WhereBothTold (KeepsFile file) (S.disk store.old).told (S.disk store.new).told }
    ensures moments { KeepsMoments OpensAlike file (S.disk store.old).told (S.disk store.new).told }
{
    let refusal = match read_file(alloc, store, file) {
        Ok(read) => return Ok(Ok(read)),
        Err(refusal) => refusal,
    };
    match stop_of(&refusal) {
        Some(fault) => Err(fault),
        None => Ok(Err(refusal)),
    }
}

// ---- rules

/// A list of indices.
#[derive(Clone, Copy)]
pub enum Kind {
    States,
    Places,
    Bitmaps,
}

// The rule that an entry of the table breaks.
fn entry_rule(kind: Kind, index: u64) -> OpenRefusal
    ensures { cause_of result ≡ told_as kind index }
{
    match kind {
        Kind::States => OpenRefusal::BadBatState { index },
        Kind::Places => OpenRefusal::BlockPlace { index },
        Kind::Bitmaps => OpenRefusal::BitmapMissing { index },
    }
}

// Adds the rules that entries break.
fn push_entries(rules: &mut Vec<OpenRefusal>, kind: Kind, indices: &[u64]) -> Result<(), AllocError>
    ensures { OnOk result (map cause_of rules.new.items ≡ map cause_of rules.old.items ++ map (told_as kind) indices.now) }
{
    for i in 0..indices.len() {
        rules.push(entry_rule(kind, indices[i]))?;
    }
    Ok(())
}

// Adds that of blocks that overlap.
fn push_overlaps(rules: &mut Vec<OpenRefusal>, pairs: &[BlockPair]) -> Result<(), AllocError>
    ensures { OnOk result (map cause_of rules.new.items ≡ map cause_of rules.old.items ++ map told_pair pairs.now) }
{
    for i in 0..pairs.len() {
        let BlockPair { first, second } = pairs[i];
        rules.push(OpenRefusal::BlockOverlap { first, second })?;
    }
    Ok(())
}

// The rules that a table breaks.
fn rules_of_table(alloc: Global, faults: &TableFaults) -> Result<Vec<OpenRefusal>, AllocError>
    ensures { IfOk result (λ rules. MeanRules rules.items
        (spec.table_rules faults.now.states.items faults.now.places.items faults.now.overlaps.items faults.now.bitmaps.items)) }
{
    let mut rules = Vec::new(alloc);
    push_entries(&mut rules, Kind::States, faults.states.as_slice())?;
    push_entries(&mut rules, Kind::Places, faults.places.as_slice())?;
    push_overlaps(&mut rules, faults.overlaps.as_slice())?;
    push_entries(&mut rules, Kind::Bitmaps, faults.bitmaps.as_slice())?;
    Ok(rules)
}

// What is wrong with the locator of a file with these numbers, if it has a parent.
fn faults_of_locator(alloc: Global, parts: &Parts) -> Result<Vec<LocatorFault>, AllocError>
    ensures { IfOk result (λ faults. map fault_rule faults.items ≡ spec.locator_rules parts.now) }
{
    if !parts.parent {
        return Ok(Vec::new(alloc));
    }
    match &parts.locator {
        Some(item) => locator_faults(alloc, item.as_slice()),
        None => Ok(Vec::new(alloc)),
    }
}

/// What is found by the rules of opening.
#[derive(Drop)]
pub struct Broken {
    pub rules: Vec<OpenRefusal>,
    pub locator: Vec<LocatorFault>,
}

// What table and locator break, of a file with these numbers.
fn all_rules<S: Store>(
    alloc: Global,
    store: &mut S,
    file: u32,
    read: &FileNumbers,
) -> Result<Broken, SealFault>
    requires there { file < (S.disk store.old).files }
    requires numbers { HasNumbers read.now.parts }
    requires within { LieWithin read.now.parts read.now.len }
    requires len { WhereTold (S.disk store.old).told (λ trace. read.now.len ≡ length (seen (file_of trace file))) }
    ensures told { IfOk result (λ broken. WhereTold (S.disk store.old).told (λ trace.
        NumbersRead read.now.parts (seen (file_of trace file)) broken.rules.items)) }
    ensures locator { IfOk result (λ broken. map fault_rule broken.locator.items ≡ spec.locator_rules read.now.parts) }
    ensures means { IfOk result (λ broken. AreRules broken.rules.items) }
    ensures store { LeavesStore fault_in file (S.disk store.old) (S.disk store.new) result }
{
    let faults = faults(alloc, store, file, &read.parts, read.len)?;
    Ok(Broken {
        rules: rules_of_table(alloc, &faults)?,
        locator: faults_of_locator(alloc, &read.parts)?,
    })
}

// That a file breaks this rule, alone.
fn one_rule(alloc: Global, refusal: OpenRefusal) -> Result<Broken, AllocError>
    ensures rule { IfOk result (λ broken. broken.rules.items ≡ refusal ∷ []) }
    ensures locator { IfOk result (λ broken. broken.locator.items ≡ []) }
{
    let mut rules = Vec::new(alloc);
    rules.push(refusal)?;
    Ok(Broken {
        rules,
        locator: Vec::new(alloc),
    })
}

// What is found by the rules.
fn rules_of<S: Store>(alloc: Global, store: &mut S, file: u32) -> Result<Broken, SealFault>
    requires there { file < (S.disk store.old).files }
    requires unsealed { WhereTold (S.disk store.old).told (λ trace. is_sealed (file_of trace file) ≡ false) }
    ensures told { IfOk result (λ broken. WhereTold (S.disk store.old).told (λ trace. FindsRules (seen (file_of trace file)) broken)) }
    ensures means { IfOk result (λ broken. AreRules broken.rules.items) }
    ensures store { LeavesChecked file (S.disk store.old) (S.disk store.new) result }
    ensures kept { WhereBothTold (KeepsFile file) (S.disk store.old).told (S.disk store.new).told }
    ensures moments { KeepsMoments OpensAlike file (S.disk store.old).told (S.disk store.new).told }
{
    match numbers_of(alloc, store, file)? {
        Ok(read) => all_rules(alloc, store, file, &read),
        Err(refusal) => Ok(one_rule(alloc, refusal)?),
    }
}

// ---- copies

// Adds a fault, where it is one.
fn push_if(found: &mut Vec<CopyFault>, is_found: bool, fault: CopyFault) -> Result<(), AllocError>
    ensures { OnOk result (found.new.items ≡ found.old.items ++ told_if is_found fault) }
{
    if is_found {
        found.push(fault)?;
    }
    Ok(())
}

/// Whether the 65,536 bytes of a copy of the region table are valid.
#[tactic(auto, unfolding(vhdx_format::specs::RegionTables::is_valid_region_table))]
pub fn is_valid_table(table: &[u8]) -> bool
    requires { length table.now ≡ 65536 }
    ensures { result ≡ regions.is_valid_region_table table.now }
{
    &table[..4] == b"regi".as_slice()
        && u32_at(table, 4) == crc32c_without(table, 4)
        && u32_at(table, 8) <= 2047
}

// Whether the newer of two headers names a log.
fn names_log(first: &Option<Header>, second: &Option<Header>) -> bool
    ensures { result ≡ spec.names_log (headers.newer first.now second.now) }
{
    match (first, second) {
        (Some(a), Some(b)) if a.number < b.number => !b.log.is_zero(),
        (Some(a), _) => !a.log.is_zero(),
        (None, Some(b)) => !b.log.is_zero(),
        (None, None) => false,
    }
}

// Adds what is found of the header's copies, and answers whether the current one names a log.
fn push_headers(found: &mut Vec<CopyFault>, zone: &[u8]) -> Result<bool, AllocError>
    requires { length zone.now ≡ 196608 }
    ensures found { OnOk result (found.new.items ≡ found.old.items ++ steps.header_findings zone.now) }
    ensures named { IfOk result (λ named. named ≡ spec.names_log (headers.current_header zone.now)) }
{
    let first = header_in(bytes_at(zone, HEADER_STEP, HEADER_LEN), 1);
    let second = header_in(bytes_at(zone, 2 * HEADER_STEP, HEADER_LEN), 2);
    push_if(found, first.is_none(), CopyFault::HeaderCopy { copy: 1 })?;
    push_if(found, second.is_none(), CopyFault::HeaderCopy { copy: 2 })?;
    Ok(names_log(&first, &second))
}

// Adds what is found of the region table's copies.
fn push_tables(found: &mut Vec<CopyFault>, copies: &[u8]) -> Result<(), AllocError>
    requires { length copies.now ≡ 131072 }
    ensures { OnOk result (found.new.items ≡ found.old.items ++ steps.table_findings copies.now) }
{
    let first = is_valid_table(bytes_at(copies, 0, REGION_TABLE_LEN));
    let second = is_valid_table(bytes_at(copies, REGION_TABLE_LEN, REGION_TABLE_LEN));
    push_if(found, !first, CopyFault::RegionCopy { copy: 1 })?;
    push_if(found, !second, CopyFault::RegionCopy { copy: 2 })
}

// Adds what is found of both, and of the log, in the first bytes of a file.
fn push_sections(found: &mut Vec<CopyFault>, bytes: &[u8]) -> Result<(), AllocError>
    requires { length bytes.now ≡ 327680 }
    ensures { OnOk result (found.new.items ≡ found.old.items ++ steps.section_findings bytes.now) }
{
    let named = push_headers(found, bytes_at(bytes, 0, REGION_TABLES_AT))?;
    push_tables(
        found,
        bytes_at(bytes, REGION_TABLES_AT, 2 * REGION_TABLE_LEN),
    )?;
    push_if(found, named, CopyFault::LogNamed)
}

// What is found of a file that has them.
fn copies_of<S: Store>(alloc: Global, store: &mut S, file: u32) -> Result<Vec<CopyFault>, SealFault>
    requires there { file < (S.disk store.old).files }
    requires long { WhereTold (S.disk store.old).told (λ trace. 327680 ≤ length (seen (file_of trace file))) }
    ensures told { IfOk result (λ found. WhereTold (S.disk store.old).told (λ trace. map copy_finding found.items ≡ spec.copy_findings (seen (file_of trace file)))) }
    ensures store { LeavesStore fault_in file (S.disk store.old) (S.disk store.new) result }
{
    let bytes = read_bytes(
        alloc,
        store,
        file,
        0,
        REGION_TABLES_AT + 2 * REGION_TABLE_LEN,
    )?;
    let mut found = Vec::new(alloc);
    push_sections(&mut found, bytes.as_slice())?;
    Ok(found)
}

/// All that is found wrong with a file, its log replayed first. Its parent isn't looked at. Whatever it answers, the file is opened
/// as before, and no other file is changed.
pub fn check<S: Store>(alloc: Global, store: &mut S, file: u32) -> Result<Findings, SealFault>
    requires there { file < (S.disk store.old).files }
    requires unsealed { WhereTold (S.disk store.old).told (λ trace. is_sealed (file_of trace file) ≡ false) }
    ensures found { IfOk result (λ found. WhereTold (S.disk store.old).told (λ trace. AreFound (seen (file_of trace file)) found)) }
    // For every store.
    ensures means { IfOk result (λ found. AreRules found.rules.items) }
    ensures store { LeavesChecked file (S.disk store.old) (S.disk store.new) result }
    ensures kept { WhereBothTold (KeepsFile file) (S.disk store.old).told (S.disk store.new).told }
    // at each moment from the call's beginning on, whatever it answers
    ensures moments { KeepsMoments OpensAlike file (S.disk store.old).told (S.disk store.new).told }
{
    let known = is_known(store, file)?;
    let Broken { rules, locator } = rules_of(alloc, store, file)?;
    if !known {
        return Ok(Findings {
            rules,
            locator,
            copies: Vec::new(alloc),
        });
    }
    let copies = copies_of(alloc, store, file)?;
    Ok(Findings {
        rules,
        locator,
        copies,
    })
}
