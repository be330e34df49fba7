//! Values as they are written.

ghost use Rattle.std.specs.Prelude.{◌≡◌, ◌≤◌, false, length, IfOk};
ghost use Rattle.std.specs.Option.{option_copied};
ghost use Rattle.vhdx_format.specs.MetadataTables as metadata;
ghost use Rattle.vhdx_format.specs.Locators as spec;
ghost use Rattle.vhdx_format.specs.Locators.{locator_bytes, longest_locator};
ghost use Rattle.vhdx_format.specs.Texts.{text_units, units_bytes};
ghost use Rattle.meta_edit.specs.Edits as edits;

use parent_locator::build;
use std::alloc::{AllocError, Global};
use vhdx_format::{Locator, put_units, units_len};
use vx_base::{Bytes, Name, NoRoom};

/// The bytes of a locator.
pub fn locator_value(alloc: Global, locator: &Locator) -> Result<Bytes, NoRoom>
    requires { spec.locator_len locator.now ≤ longest_locator }
    ensures value { IfOk result (λ value. value ≡ locator_bytes locator.now) }
    ensures short { IfOk result (λ value. length value ≤ 65536) }
{
    build(alloc, locator)
}

// The bytes of a name.
#[tactic(auto, using(parent_locator::proofs::Paths::name_short, crate::proofs::ByteLaws::front_written))]
fn name_units(alloc: Global, name: &Name) -> Result<Bytes, AllocError>
    ensures value { IfOk result (λ value. value ≡ units_bytes (text_units name.now)) }
    ensures short { IfOk result (λ value. length value ≤ 65536) }
{
    let is_short = name.as_bytes().len() <= 255;
    prove!(is_short);
    let len = units_len(name.as_str());
    let mut units = [0; 510];
    put_units(&mut units, name.as_str());
    Bytes::from_slice(alloc, &units[..len])
}

// The same: they are read as the name.
fn name_value(alloc: Global, name: &Name) -> Result<Bytes, AllocError>
    ensures value { IfOk result (λ value. value ≡ units_bytes (text_units name.now)) }
    ensures read { IfOk result (λ value. metadata.retired_in value ≡ Some name.now) }
    ensures short { IfOk result (λ value. length value ≤ 65536) }
{
    let units = name_units(alloc, name)?;
    let _bytes = name.as_bytes();
    let _text = name.as_str();
    Ok(units)
}

/// The bytes of the name that a retired leaf gives, none where it gives none.
#[tactic(auto, using(crate::proofs::NamesRead::empty_read, crate::proofs::NamesRead::named_good))]
pub fn retired_value(alloc: Global, to: Option<&Name>) -> Result<Bytes, AllocError>
    ensures value { IfOk result (λ value. value ≡ edits.retired_value (option_copied to.entry)) }
    ensures read { IfOk result (λ value. metadata.retired_in value ≡ option_copied to.entry) }
    ensures good { IfOk result (λ value. metadata.is_bad_name value ≡ false) }
    ensures short { IfOk result (λ value. length value ≤ 65536) }
{
    match to {
        Some(name) => name_value(alloc, name),
        None => Ok(Bytes::new(alloc)),
    }
}
