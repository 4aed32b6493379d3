//! The paths of written classes.

ghost use Rattle.std.specs.Prelude.{◌≡◌, ◌++◌, false, All, IfOk, OnOk, string_bytes};
ghost use Rattle.std.proofs.Math.Utf8.{encode};
ghost use Rattle.instrument_set.specs.WrittenSet as spec;

use class_model::ClassDef;
use lists::{Name, Path};
use std::alloc::{AllocError, Global};

/// Puts the letter of a unit behind a text.
fn push_unit(text: &mut String, unit: u16) -> Result<(), AllocError>
    requires { spec.is_surrogate unit ≡ false }
    ensures { OnOk result (string_bytes text.new ≡ string_bytes text.old ++ encode unit) }
{
    match char::from_u32(u32::from(unit)) {
        Some(letter) => text.push(letter),
        None => unreachable!(),
    }
}

/// The path of a class of this name, none of whose units is a surrogate.
#[tactic(auto, using(crate::proofs::PathText::letter_more, crate::proofs::PathText::all_letters))]
pub(crate) fn path_of_class(alloc: Global, name: &Name) -> Result<Path, AllocError>
    requires { spec.IsPlain name.now }
    ensures { IfOk result (λ path. path ≡ spec.path_of name.now) }
{
    let mut text = String::new(alloc);
    for unit in name.as_units() {
        push_unit(&mut text, *unit)?;
    }
    text.push_str(".class")?;
    Ok(Path::from_string(text))
}

/// Whether a class comes before another by its path.
pub(crate) fn comes_before(
    alloc: Global,
    class: &ClassDef,
    other: &ClassDef,
) -> Result<bool, AllocError>
    requires plain { spec.IsPlain class.now.name }
    requires other_plain { spec.IsPlain other.now.name }
    ensures { IfOk result (λ before. before ≡ spec.comes_before class.now other.now) }
{
    let path = path_of_class(alloc, &class.name)?;
    let other_path = path_of_class(alloc, &other.name)?;
    Ok(
        path.as_str()
            .as_bytes()
            .cmp(other_path.as_str().as_bytes())
            .is_lt(),
    )
}
