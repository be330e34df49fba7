//! The lines of refusals.

ghost use Rattle.std.specs.Prelude.{◌≡◌, ◌++◌, IfOk, IfSome, OnOk, codes, string_bytes};
ghost use Rattle.uuid.specs.Text.{braced_text, lower};
ghost use Rattle.file_open.specs.Causes.{cause_of};
ghost use Rattle.link_rules.specs.Chains.{BadLink, ChainLoop, ChainTooLong, GeometryMismatch, LinkageMismatch, Unopened};
ghost use Rattle.vhdx_format.specs.Rules.{BadLocator, NoParentName};
ghost use Rattle.command_base.specs.Refusals.{IdUnfit, IsBase, LocatorTooLarge, MetadataFull, NameTaken, NotInChain, OfCall, OfChain, file_refusal_said, geometry_field, id_field, id_or_none, number_field, refusal_line, region_field};

use file_open::OpenRefusal;
use guest_model::ChainRefusal as CallRefusal;
use script::push_refusal;
use std::alloc::Global;
use std::fmt::Write;
use vhdx_format::Region;
use vx_base::{Geometry, Guid, NoRoom};

/// The number and the name of what refuses a file.
pub fn name_of(refusal: &OpenRefusal) -> &'static str
    ensures { IfSome (cause_of refusal.now) (λ cause. result.now ≡ (file_refusal_said cause).0) }
{
    match refusal {
        OpenRefusal::NotVhdx => "1 NotVhdx",
        OpenRefusal::TooShort { .. } => "2 TooShort",
        OpenRefusal::NoHeader => "3 NoHeader",
        OpenRefusal::BadVersion { .. } => "4 BadVersion",
        OpenRefusal::BadLogPlace { .. } => "5 BadLogPlace",
        OpenRefusal::TruncatedBelowLog { .. } => "14 TruncatedBelowLog",
        OpenRefusal::NoRegionTable => "6 NoRegionTable",
        OpenRefusal::UnknownRegion { .. } => "7 UnknownRegion",
        OpenRefusal::MissingRegion { .. } => "8 MissingRegion",
        OpenRefusal::RegionPlace { .. } => "9 RegionPlace",
        OpenRefusal::BadMetadataTable { .. } => "10 BadMetadataTable",
        OpenRefusal::UnknownItem { .. } => "11 UnknownItem",
        OpenRefusal::MissingItem { .. } => "12 MissingItem",
        OpenRefusal::BadItem { .. } => "13 BadItem",
        OpenRefusal::SectorSize { .. } => "26 SectorSize",
        OpenRefusal::BadBatState { .. } => "15 BadBatState",
        OpenRefusal::BlockPlace { .. } => "16 BlockPlace",
        OpenRefusal::BlockOverlap { .. } => "17 BlockOverlap",
        OpenRefusal::BitmapMissing { .. } => "18 BitmapMissing",
        OpenRefusal::FileMissing => "21 FileMissing",
        OpenRefusal::Host(_) | OpenRefusal::Store(_) | OpenRefusal::NoRoom => "",
    }
}

/// A value behind its name.
pub fn push_number(text: &mut String, name: &str, value: u64) -> Result<(), NoRoom>
    ensures { OnOk result (string_bytes text.new ≡ string_bytes text.old ++ number_field name.now value) }
{
    write!(text, " {name} {value}")?;
    Ok(())
}

fn push_id(text: &mut String, id: Guid) -> Result<(), NoRoom>
    ensures { OnOk result (string_bytes text.new ≡ string_bytes text.old ++ id_field id) }
{
    write!(text, " id {id}")?;
    Ok(())
}

fn push_region(text: &mut String, region: Region) -> Result<(), NoRoom>
    ensures { OnOk result (string_bytes text.new ≡ string_bytes text.old ++ region_field region) }
{
    match region {
        Region::Bat => text.push_str(" bat")?,
        Region::Metadata => text.push_str(" metadata")?,
    }
    Ok(())
}

/// The values of what refuses a file.
pub fn push_values(text: &mut String, refusal: &OpenRefusal) -> Result<(), NoRoom>
    ensures { OnOk result (IfSome (cause_of refusal.now) (λ cause. string_bytes text.new ≡ string_bytes text.old ++ (file_refusal_said cause).1)) }
{
    match *refusal {
        OpenRefusal::TooShort { length } => push_number(text, "length", length),
        OpenRefusal::BadVersion { version, log } => {
            push_number(text, "version", u64::from(version))?;
            push_number(text, "log", u64::from(log))
        }
        OpenRefusal::BadLogPlace { offset, length } => {
            push_number(text, "offset", offset)?;
            push_number(text, "length", u64::from(length))
        }
        OpenRefusal::TruncatedBelowLog { wanted, found } => {
            push_number(text, "wanted", wanted)?;
            push_number(text, "found", found)
        }
        OpenRefusal::UnknownRegion { id }
        | OpenRefusal::UnknownItem { id }
        | OpenRefusal::MissingItem { id }
        | OpenRefusal::BadItem { id } => push_id(text, id),
        OpenRefusal::MissingRegion { region } | OpenRefusal::RegionPlace { region } => {
            push_region(text, region)
        }
        OpenRefusal::BadMetadataTable { entry } => push_number(text, "entry", u64::from(entry)),
        OpenRefusal::SectorSize { sector } => push_number(text, "sector", u64::from(sector)),
        OpenRefusal::BadBatState { index }
        | OpenRefusal::BlockPlace { index }
        | OpenRefusal::BitmapMissing { index } => push_number(text, "index", index),
        OpenRefusal::BlockOverlap { first, second } => {
            push_number(text, "index", first)?;
            push_number(text, "and", second)
        }
        _ => Ok(()),
    }
}

/// The line of a file that isn't opened; of faults and of want of memory nothing is known.
pub fn unopened_line(alloc: Global, file: &str, refusal: &OpenRefusal) -> Result<String, NoRoom>
    ensures { IfOk result (λ text. IfSome (cause_of refusal.now) (λ cause. string_bytes text ≡ refusal_line (OfChain (Unopened file.now cause)))) }
{
    let mut text = String::new(alloc);
    let name = name_of(refusal);
    write!(text, "refused {name} {file}")?;
    push_values(&mut text, refusal)?;
    text.push_str("\n")?;
    Ok(text)
}

/// The line of a file whose locator has an entry that breaks a rule.
pub fn bad_locator_line(alloc: Global, file: &str, entry: u32) -> Result<String, NoRoom>
    ensures { IfOk result (λ text. string_bytes text ≡ refusal_line (OfChain (BadLink file.now (BadLocator entry)))) }
{
    let mut text = String::new(alloc);
    write!(text, "refused 19 BadLocator {file}")?;
    push_number(&mut text, "entry", u64::from(entry))?;
    text.push_str("\n")?;
    Ok(text)
}

/// The line of a file whose locator names no file.
pub fn no_parent_name_line(alloc: Global, file: &str) -> Result<String, NoRoom>
    ensures { IfOk result (λ text. string_bytes text ≡ refusal_line (OfChain (BadLink file.now NoParentName))) }
{
    let mut text = String::new(alloc);
    write!(text, "refused 20 NoParentName {file}\n")?;
    Ok(text)
}

/// The line of a file that names one that was there before.
pub fn loop_line(alloc: Global, file: &str, name: &str) -> Result<String, NoRoom>
    ensures { IfOk result (λ text. string_bytes text ≡ refusal_line (OfChain (ChainLoop file.now name.now))) }
{
    let mut text = String::new(alloc);
    write!(text, "refused 25 ChainLoop {file} name {name}\n")?;
    Ok(text)
}

/// The line of a file that would be the 65th.
pub fn chain_too_long_line(alloc: Global, file: &str) -> Result<String, NoRoom>
    ensures { IfOk result (λ text. string_bytes text ≡ refusal_line (OfChain (ChainTooLong file.now))) }
{
    let mut text = String::new(alloc);
    write!(text, "refused 24 ChainTooLong {file}\n")?;
    Ok(text)
}

// An identifier, if it is there.
fn push_id_or_none(text: &mut String, id: &Option<Guid>) -> Result<(), NoRoom>
    ensures { OnOk result (string_bytes text.new ≡ string_bytes text.old ++ id_or_none id.now) }
{
    match id {
        Some(id) => write!(text, "{id}")?,
        None => text.push_str("none")?,
    }
    Ok(())
}

/// The line of a file whose locator has other identifiers of its parent than that has.
pub fn linkage_line(
    alloc: Global,
    file: &str,
    wanted: &Option<Guid>,
    second: &Option<Guid>,
    found: Guid,
) -> Result<String, NoRoom>
    ensures { IfOk result (λ text. string_bytes text ≡ refusal_line (OfChain (LinkageMismatch file.now wanted.now second.now found))) }
{
    let mut text = String::new(alloc);
    write!(text, "refused 22 LinkageMismatch {file} wanted ")?;
    push_id_or_none(&mut text, wanted)?;
    text.push_str(" wanted2 ")?;
    push_id_or_none(&mut text, second)?;
    write!(text, " found {found}\n")?;
    Ok(text)
}

// A disk's sectors, and the bytes of each.
fn push_geometry(text: &mut String, name: &str, geometry: &Geometry) -> Result<(), NoRoom>
    ensures { OnOk result (string_bytes text.new ≡ string_bytes text.old ++ geometry_field name.now geometry.now) }
{
    let (sectors, sector) = (geometry.sectors, geometry.sector);
    write!(text, " {name} {sectors} {sector}")?;
    Ok(())
}

/// The line of a file whose disk isn't of its parent's geometry.
pub fn geometry_line(
    alloc: Global,
    file: &str,
    child: &Geometry,
    parent: &Geometry,
) -> Result<String, NoRoom>
    ensures { IfOk result (λ text. string_bytes text ≡ refusal_line (OfChain (GeometryMismatch file.now child.now parent.now))) }
{
    let mut text = String::new(alloc);
    write!(text, "refused 23 GeometryMismatch {file}")?;
    push_geometry(&mut text, "child", child)?;
    push_geometry(&mut text, "parent", parent)?;
    text.push_str("\n")?;
    Ok(text)
}

/// The line of what refuses a guest's call, and a command as that.
pub fn call_line(alloc: Global, refusal: CallRefusal) -> Result<String, NoRoom>
    ensures { IfOk result (λ text. string_bytes text ≡ refusal_line (OfCall refusal)) }
{
    let mut text = String::new(alloc);
    let no_files: &[&str] = &[];
    push_refusal(&mut text, no_files, refusal)?;
    text.push_str("\n")?;
    Ok(text)
}

/// The line of an identifier that was drawn and can't be a new one.
pub fn unfit_line(alloc: Global, id: Guid) -> Result<String, NoRoom>
    ensures { IfOk result (λ text. string_bytes text ≡ refusal_line (IdUnfit id)) }
{
    let mut text = String::new(alloc);
    write!(text, "refused 44 IdUnfit {id}\n")?;
    Ok(text)
}

/// The line of a new file whose name another has.
pub fn taken_line(alloc: Global, name: &str) -> Result<String, NoRoom>
    ensures { IfOk result (λ text. string_bytes text ≡ refusal_line (NameTaken name.now)) }
{
    let mut text = String::new(alloc);
    write!(text, "refused 27 NameTaken {name}\n")?;
    Ok(text)
}

/// The line of a file that is to be merged and isn't in the chain.
pub fn not_in_chain_line(alloc: Global, name: &str) -> Result<String, NoRoom>
    ensures { IfOk result (λ text. string_bytes text ≡ refusal_line (NotInChain name.now)) }
{
    let mut text = String::new(alloc);
    write!(text, "refused 40 NotInChain {name}\n")?;
    Ok(text)
}

/// The line of a file that is to be merged and has no parent.
pub fn is_base_line(alloc: Global, name: &str) -> Result<String, NoRoom>
    ensures { IfOk result (λ text. string_bytes text ≡ refusal_line (IsBase name.now)) }
{
    let mut text = String::new(alloc);
    write!(text, "refused 41 IsBase {name}\n")?;
    Ok(text)
}

/// The line of a locator that is too long to be written.
pub fn locator_too_large_line(alloc: Global, len: u64) -> Result<String, NoRoom>
    ensures { IfOk result (λ text. string_bytes text ≡ refusal_line (LocatorTooLarge len)) }
{
    let mut text = String::from_str(alloc, "refused 42 LocatorTooLarge")?;
    push_number(&mut text, "length", len)?;
    text.push_str("\n")?;
    Ok(text)
}

/// The line of a file whose metadata have no room for its new locator.
pub fn metadata_full_line(alloc: Global, file: &str) -> Result<String, NoRoom>
    ensures { IfOk result (λ text. string_bytes text ≡ refusal_line (MetadataFull file.now)) }
{
    let mut text = String::new(alloc);
    write!(text, "refused 43 MetadataFull {file}\n")?;
    Ok(text)
}
