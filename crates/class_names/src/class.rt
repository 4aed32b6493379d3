//! Classes, and types by their descriptors.

ghost use Rattle.std.specs.Prelude.{◌≡◌};
ghost use Rattle.std.specs.List.{list_any};
ghost use Rattle.class_input.specs.declared.bad_class.BadKind.TheVariants as kinds;
ghost use Rattle.class_input.specs.Reading.{Answers, Gives, seen};
ghost use Rattle.class_model.specs.Reading.{field_of, method_of};
ghost use Rattle.class_names.specs.Names.{is_array_name};
ghost use Rattle.class_names.specs.Steps.{fit, at_index};
ghost use Rattle.class_names.specs.NameReading as reading;
ghost use Rattle.class_names.specs.Spelled.{IsSpelled};

use crate::named_pool::{NamedPool, Spelled};
use crate::text::name_at;
use class_input::{BadClass, BadKind, Input};
use class_model::{BaseType, JType, MethodDesc};
use lists::Name;

/// The name of the class that an index names, which stands at a place (JVMS 4.4.1). Its text may be any.
#[tactic(auto, unfolding(crate::specs::NameReading::class_name_at))]
pub fn class_name_at(pool: &NamedPool, place: usize, index: u16) -> Result<Name, BadClass>
    ensures { Answers (λ name. name) result (reading.class_name_at pool.now place index) }
{
    let text = pool.class_at(place, index)?;
    name_at(pool, place, text)
}

/// The name of the class that the next index names.
#[tactic(auto, unfolding(crate::specs::Steps::at_index))]
pub fn next_class_name(pool: &NamedPool, input: &mut Input) -> Result<Name, BadClass>
    ensures { Gives result input.new (at_index (reading.class_name_at pool.now) (seen input.old)) }
{
    let place = input.at;
    let index = input.u16()?;
    class_name_at(pool, place, index)
}

/// The name of the class that the next index names, or nothing where it is 0.
#[tactic(auto, unfolding(crate::specs::Steps::at_index, crate::specs::NameReading::optional))]
pub fn next_optional_class_name(
    pool: &NamedPool,
    input: &mut Input,
) -> Result<Option<Name>, BadClass>
    ensures { Gives result input.new (at_index (reading.optional (reading.class_name_at pool.now)) (seen input.old)) }
{
    let place = input.at;
    let index = input.u16()?;
    if index == 0 {
        return Ok(None);
    }
    let name = class_name_at(pool, place, index)?;
    Ok(Some(name))
}

fn bad_descriptor(place: usize) -> BadClass
    ensures { result ≡ BadClass.Bad place BadKind.Descriptor }
{
    BadClass::Bad {
        place,
        kind: BadKind::Descriptor,
    }
}

/// The type that a text spells, whose index stands at a place.
fn field_type(place: usize, text: &Spelled) -> Result<JType, BadClass>
    requires { IsSpelled text.now }
    ensures { Answers (λ ty. ty) result (fit place kinds.Descriptor (field_of text.now.name)) }
{
    match &text.field {
        Some(ty) => Ok(ty.clone()?),
        None => Err(bad_descriptor(place)),
    }
}

/// The types that the descriptor of a method spells, whose index stands at a place.
fn method_desc(place: usize, text: &Spelled) -> Result<MethodDesc, BadClass>
    requires { IsSpelled text.now }
    ensures { Answers (λ desc. desc) result (fit place kinds.Descriptor (method_of text.now.name)) }
{
    match &text.method {
        Some(desc) => Ok(desc.clone()?),
        None => Err(bad_descriptor(place)),
    }
}

fn is_separator(unit: u16) -> bool
    ensures { result ≡ reading.is_separator unit }
{
    unit == 59 || unit == 91
}

fn has_separator(name: &[u16]) -> bool
    ensures { result ≡ list_any reading.is_separator name.now }
{
    name.iter().any(|unit| is_separator(*unit))
}

fn is_plain_class(name: &[u16]) -> bool
    ensures { result ≡ reading.is_plain_class name.now }
{
    !name.is_empty() && !has_separator(name)
}

fn is_array(name: &[u16]) -> bool
    ensures { result ≡ is_array_name name.now }
{
    name.first() == Some(&91)
}

/// The type that the name of a class is, whose index stands at a place.
#[tactic(auto, unfolding(crate::specs::NameReading::class_type_of))]
fn class_type(place: usize, text: &Spelled) -> Result<JType, BadClass>
    requires { IsSpelled text.now }
    ensures { Answers (λ ty. ty) result (fit place kinds.Descriptor (reading.class_type_of text.now.name)) }
{
    if is_array(text.name.as_units()) {
        return field_type(place, text);
    }
    if !is_plain_class(text.name.as_units()) {
        return Err(bad_descriptor(place));
    }
    Ok(JType {
        depth: 0,
        base: BaseType::Class(text.name.clone()?),
    })
}

/// The class, interface or array that an index names, which stands at a place, as a type: an array descriptor
/// where its name begins with `[`, and else a class name of one or more units other than `;` and `[`.
/// `Descriptor` for all else.
#[tactic(auto, unfolding(crate::specs::NameReading::class_type_at, crate::specs::NameReading::class_name_at))]
pub fn class_type_at(pool: &NamedPool, place: usize, index: u16) -> Result<JType, BadClass>
    ensures { Answers (λ ty. ty) result (reading.class_type_at pool.now place index) }
{
    let text = pool.class_at(place, index)?;
    let name = pool.text_at(place, text)?;
    class_type(place, name)
}

/// The class, interface or array that the next index names, as a type.
#[tactic(auto, unfolding(crate::specs::Steps::at_index))]
pub fn next_class_type(pool: &NamedPool, input: &mut Input) -> Result<JType, BadClass>
    ensures { Gives result input.new (at_index (reading.class_type_at pool.now) (seen input.old)) }
{
    let place = input.at;
    let index = input.u16()?;
    class_type_at(pool, place, index)
}

/// The type of the field descriptor that an index names, which stands at a place (JVMS 4.3.2).
#[tactic(auto, unfolding(crate::specs::NameReading::field_type_at))]
pub fn field_type_at(pool: &NamedPool, place: usize, index: u16) -> Result<JType, BadClass>
    ensures { Answers (λ ty. ty) result (reading.field_type_at pool.now place index) }
{
    let text = pool.text_at(place, index)?;
    field_type(place, text)
}

/// The type of the field descriptor that the next index names.
#[tactic(auto, unfolding(crate::specs::Steps::at_index))]
pub fn next_field_type(pool: &NamedPool, input: &mut Input) -> Result<JType, BadClass>
    ensures { Gives result input.new (at_index (reading.field_type_at pool.now) (seen input.old)) }
{
    let place = input.at;
    let index = input.u16()?;
    field_type_at(pool, place, index)
}

/// The types of the method descriptor that an index names, which stands at a place (JVMS 4.3.3).
#[tactic(auto, unfolding(crate::specs::NameReading::method_desc_at))]
pub fn method_desc_at(pool: &NamedPool, place: usize, index: u16) -> Result<MethodDesc, BadClass>
    ensures { Answers (λ desc. desc) result (reading.method_desc_at pool.now place index) }
{
    let text = pool.text_at(place, index)?;
    method_desc(place, text)
}

/// The types of the method descriptor that the next index names.
#[tactic(auto, unfolding(crate::specs::Steps::at_index))]
pub fn next_method_desc(pool: &NamedPool, input: &mut Input) -> Result<MethodDesc, BadClass>
    ensures { Gives result input.new (at_index (reading.method_desc_at pool.now) (seen input.old)) }
{
    let place = input.at;
    let index = input.u16()?;
    method_desc_at(pool, place, index)
}
