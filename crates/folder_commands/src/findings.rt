//! The lines of what is found wrong with a file.

ghost use Rattle.std.specs.Prelude.{◌≡◌, ◌++◌, IfOk, IfSome, List, OnOk, codes, map, string_bytes};
ghost use Rattle.check_repair.specs.Answers.{MeanRules, copy_finding};
ghost use Rattle.check_repair.specs.Findings.{Breaks};
ghost use Rattle.file_open.specs.Causes.{cause_of};
ghost use Rattle.parent_locator.specs.Listing.{fault_rule};
ghost use Rattle.command_base.specs.Checks.{finding_line, finding_lines, finding_said};
ghost use Rattle.command_base.specs.Commands.{adds};
ghost use Rattle.command_base.specs.Refusals.{rule_said};
ghost use Rattle.vhdx_format.specs.Rules.{BrokenRule};

use check_repair::{CopyFault, Findings};
use command_base::{name_of, push_number, push_values};
use file_open::OpenRefusal;
use parent_locator::LocatorFault;
use std::alloc::Global;
use std::fmt::Write;
use vx_base::NoRoom;

// Adds the beginning of a line: its first word, number and name, and the file.
fn push_head(text: &mut String, said: &str, file: &str) -> Result<(), NoRoom>
    ensures { OnOk result (string_bytes text.new ≡ string_bytes text.old ++ (codes "finding " ++ said.now ++ codes " " ++ file.now)) }
{
    write!(text, "finding {said} {file}")?;
    Ok(())
}

// Adds the line of a rule that the file breaks; of faults and of want of memory nothing is known.
fn push_rule(text: &mut String, file: &str, refusal: &OpenRefusal) -> Result<(), NoRoom>
    ensures { OnOk result (IfSome (cause_of refusal.now) (adds file.now (string_bytes text.old) (string_bytes text.new))) }
{
    push_head(text, name_of(refusal), file)?;
    push_values(text, refusal)?;
    text.push_str("\n")?;
    Ok(())
}

// Adds those of rules.
fn push_rules(text: &mut String, file: &str, refusals: &[OpenRefusal]) -> Result<(), NoRoom>
    ensures { OnOk result ((rules : List BrokenRule) → MeanRules refusals.now rules
        → string_bytes text.new ≡ string_bytes text.old ++ finding_lines file.now (map Breaks rules)) }
{
    for refusal in refusals {
        push_rule(text, file, refusal)?;
    }
    Ok(())
}

// The number and the name of what is wrong with a locator.
fn locator_name(fault: &LocatorFault) -> &'static str
    ensures { result.now ≡ (rule_said (fault_rule fault.now)).0 }
{
    match fault {
        LocatorFault::BadEntry { .. } => "19 BadLocator",
        LocatorFault::NoParentName => "20 NoParentName",
    }
}

// Its value.
fn push_locator_value(text: &mut String, fault: &LocatorFault) -> Result<(), NoRoom>
    ensures { OnOk result (string_bytes text.new ≡ string_bytes text.old ++ (rule_said (fault_rule fault.now)).1) }
{
    match *fault {
        LocatorFault::BadEntry { entry } => push_number(text, "entry", u64::from(entry)),
        LocatorFault::NoParentName => Ok(()),
    }
}

// Adds the line of what is wrong with its locator.
fn push_locator_fault(text: &mut String, file: &str, fault: &LocatorFault) -> Result<(), NoRoom>
    ensures { OnOk result (string_bytes text.new ≡ string_bytes text.old ++ finding_line file.now (Breaks (fault_rule fault.now))) }
{
    push_head(text, locator_name(fault), file)?;
    push_locator_value(text, fault)?;
    text.push_str("\n")?;
    Ok(())
}

// Adds those of all that is.
fn push_locator(text: &mut String, file: &str, faults: &[LocatorFault]) -> Result<(), NoRoom>
    ensures { OnOk result (string_bytes text.new ≡ string_bytes text.old ++ finding_lines file.now (map Breaks (map fault_rule faults.now))) }
{
    let mut rest = faults;
    while let [fault, others @ ..] = rest {
        push_locator_fault(text, file, fault)?;
        rest = others;
    }
    Ok(())
}

// The number and the name of what is wrong with its copies or its log.
fn copy_name(fault: &CopyFault) -> &'static str
    ensures { result.now ≡ (finding_said (copy_finding fault.now)).0 }
{
    match fault {
        CopyFault::HeaderCopy { .. } => "28 HeaderCopy",
        CopyFault::RegionCopy { .. } => "29 RegionCopy",
        CopyFault::LogNamed => "30 LogNamed",
    }
}

// Its value.
fn push_copy_value(text: &mut String, fault: &CopyFault) -> Result<(), NoRoom>
    ensures { OnOk result (string_bytes text.new ≡ string_bytes text.old ++ (finding_said (copy_finding fault.now)).1) }
{
    match *fault {
        CopyFault::HeaderCopy { copy } | CopyFault::RegionCopy { copy } => {
            push_number(text, "copy", u64::from(copy))
        }
        CopyFault::LogNamed => Ok(()),
    }
}

// Adds the line of what is wrong with them.
fn push_copy(text: &mut String, file: &str, fault: &CopyFault) -> Result<(), NoRoom>
    ensures { OnOk result (string_bytes text.new ≡ string_bytes text.old ++ finding_line file.now (copy_finding fault.now)) }
{
    push_head(text, copy_name(fault), file)?;
    push_copy_value(text, fault)?;
    text.push_str("\n")?;
    Ok(())
}

// Adds those of all that is.
fn push_copies(text: &mut String, file: &str, faults: &[CopyFault]) -> Result<(), NoRoom>
    ensures { OnOk result (string_bytes text.new ≡ string_bytes text.old ++ finding_lines file.now (map copy_finding faults.now)) }
{
    let mut rest = faults;
    while let [fault, others @ ..] = rest {
        push_copy(text, file, fault)?;
        rest = others;
    }
    Ok(())
}

/// The lines of what was found wrong with a file.
pub fn findings_text(alloc: Global, file: &str, found: &Findings) -> Result<String, NoRoom>
    ensures { IfOk result (λ text. (rules : List BrokenRule) → MeanRules found.now.rules.items rules
        → string_bytes text ≡ finding_lines file.now (map Breaks (rules ++ map fault_rule found.now.locator.items) ++ map copy_finding found.now.copies.items)) }
{
    let mut text = String::new(alloc);
    push_rules(&mut text, file, found.rules.as_slice())?;
    push_locator(&mut text, file, found.locator.as_slice())?;
    push_copies(&mut text, file, found.copies.as_slice())?;
    Ok(text)
}
