//! What `info` prints of a chain.

ghost use Rattle.std.specs.Prelude.{◌≡◌, ◌++◌, IfOk, OnOk, string_bytes};
ghost use Rattle.command_base.specs.Info as spec;

use link_rules::{Linked, LinkedFile};
use std::alloc::Global;
use std::fmt::Write;
use vhdx_format::MEGABYTE;
use vx_base::{Name, NoRoom, Parts};

// What kind of file it is.
fn kind_of(parts: &Parts) -> &'static str
    ensures { result.now ≡ spec.kind_name parts.now }
{
    if parts.parent {
        "child"
    } else if parts.leave {
        "fixed"
    } else {
        "dynamic"
    }
}

// The name of the first of some files.
fn name_or_none(files: &[LinkedFile]) -> &str
    ensures { result.now ≡ spec.name_or_none files.now }
{
    match files {
        [file, ..] => file.name.as_str(),
        [] => "none",
    }
}

// The first of some names, or the leaf's behind them.
fn next_name<'a>(names: &'a [Name], leaf: &'a str) -> &'a str
    ensures { result.now ≡ spec.next_name names.now leaf.now }
{
    match names {
        [name, ..] => name.as_str(),
        [] => leaf,
    }
}

// Adds a file's name and kind, sectors of its disk, and bytes of a sector.
fn push_disk(text: &mut String, name: &str, parts: &Parts) -> Result<(), NoRoom>
    ensures { OnOk result (string_bytes text.new ≡ string_bytes text.old ++ spec.disk_text name.now parts.now) }
{
    let kind = kind_of(parts);
    let sectors = parts.geometry.sectors;
    let sector = parts.geometry.sector;
    write!(text, "{name} {kind} sectors {sectors} sector {sector}")?;
    Ok(())
}

// Adds MB of a block, the identifier of a file's data, and its parent.
fn push_data(text: &mut String, parts: &Parts, parent: &str) -> Result<(), NoRoom>
    ensures { OnOk result (string_bytes text.new ≡ string_bytes text.old ++ spec.data_text parts.now parent.now) }
{
    let block = u64::from(parts.block) / MEGABYTE;
    let id = parts.header.data_write;
    write!(text, " block {block} id {id} parent {parent}")?;
    Ok(())
}

// Adds the line of a file.
fn push_file(text: &mut String, name: &str, parts: &Parts, parent: &str) -> Result<(), NoRoom>
    ensures { OnOk result (string_bytes text.new ≡ string_bytes text.old ++ spec.file_line name.now parts.now parent.now) }
{
    push_disk(text, name, parts)?;
    push_data(text, parts, parent)?;
    text.push_str("\n")?;
    Ok(())
}

// Adds the lines of files, each followed by its parent.
fn push_files(text: &mut String, files: &[LinkedFile]) -> Result<(), NoRoom>
    ensures { OnOk result (string_bytes text.new ≡ string_bytes text.old ++ spec.file_lines files.now) }
{
    let mut rest = files;
    while let [file, parents @ ..] = rest {
        push_file(text, file.name.as_str(), &file.parts, name_or_none(parents))?;
        rest = parents;
    }
    Ok(())
}

// Adds the line of a retired leaf, which stands for another file.
fn push_retired(text: &mut String, name: &str, next: &str) -> Result<(), NoRoom>
    ensures { OnOk result (string_bytes text.new ≡ string_bytes text.old ++ spec.retired_line name.now next.now) }
{
    write!(text, "retired {name} to {next}\n")?;
    Ok(())
}

// Adds the lines of retired leaves, the last of which stands for the leaf.
fn push_all_retired(text: &mut String, retired: &[Name], leaf: &str) -> Result<(), NoRoom>
    ensures { OnOk result (string_bytes text.new ≡ string_bytes text.old ++ spec.retired_lines retired.now leaf.now) }
{
    let mut rest = retired;
    while let [name, others @ ..] = rest {
        push_retired(text, name.as_str(), next_name(others, leaf))?;
        rest = others;
    }
    Ok(())
}

/// The lines of a chain: of the retired leaves that were followed, and then of the files from the leaf to the base.
pub fn info_text(alloc: Global, linked: &Linked) -> Result<String, NoRoom>
    ensures { IfOk result (λ text. string_bytes text ≡ spec.info_lines linked.now) }
{
    let mut text = String::new(alloc);
    let files = linked.files.as_slice();
    push_all_retired(&mut text, linked.retired.as_slice(), name_or_none(files))?;
    push_files(&mut text, files)?;
    Ok(text)
}
