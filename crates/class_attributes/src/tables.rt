//! The attributes of a field and of a class.

ghost use Rattle.std.specs.Prelude.{◌≡◌};
ghost use Rattle.class_input.specs.Reading.{Gives, GivesBy, seen};
ghost use Rattle.class_attributes.specs.Attributes as grammar;
ghost use Rattle.class_attributes.specs.AttributeReading as reading;

use crate::contents::{constant_value, inner_classes, source_file};
use crate::named::{drop_content, twice};
use class_input::{BadClass, Input};
use class_model::{Constant, InnerRow};
use class_names::NamedPool;
use lists::{Bytes, Seq};
use std::alloc::Global;

/// A ConstantValue whose name stands at a place, behind attributes that gave `found`.
#[tactic(auto, unfolding(crate::specs::AttributeReading::once))]
fn one_constant(
    alloc: Global,
    pool: &NamedPool,
    place: usize,
    found: Option<Constant>,
    input: &mut Input,
) -> Result<Option<Constant>, BadClass>
    ensures { Gives result input.new (reading.once place (reading.constant_content pool.now) found (seen input.old)) }
{
    if found.is_some() {
        return Err(twice(place));
    }
    Ok(Some(constant_value(alloc, pool, input)?))
}

/// One attribute of a field more, behind those that gave `found`.
#[tactic(auto, unfolding(crate::specs::AttributeReading::one_attribute, class_names::specs::Steps::at_index, const_pool::specs::PoolReading::indexed))]
fn field_attribute(
    alloc: Global,
    pool: &NamedPool,
    found: Option<Constant>,
    input: &mut Input,
) -> Result<Option<Constant>, BadClass>
    ensures { Gives result input.new (reading.one_attribute pool.now grammar.constant_value (reading.constant_content pool.now) found (seen input.old)) }
{
    let place = input.at;
    let name = pool.next_text(input)?;
    if name.as_slice() == b"ConstantValue".as_slice() {
        return one_constant(alloc, pool, place, found, input);
    }
    drop_content(input)?;
    Ok(found)
}

/// The attributes of a field (JVMS 4.5): its constant, if it has one.
#[tactic(auto, unfolding(crate::specs::AttributeReading::one_read), using(class_input::proofs::Loops::each_goes_on, class_input::proofs::Loops::each_ends, class_input::proofs::Loops::each_is_done))]
pub fn field_attributes(
    alloc: Global,
    pool: &NamedPool,
    input: &mut Input,
) -> Result<Option<Constant>, BadClass>
    ensures { Gives result input.new (reading.one_read pool.now grammar.constant_value (reading.constant_content pool.now) (seen input.old)) }
{
    let count = input.u16()?;
    let mut found = None;
    for _ in 0..count {
        found = field_attribute(alloc, pool, found, input)?;
    }
    Ok(found)
}

/// What the attributes of a class say (JVMS 4.1): the name of its source file, and its rows of InnerClasses.
pub type ClassAttributes = (Option<Bytes>, Option<Seq<InnerRow>>);

/// A SourceFile whose name stands at a place, behind attributes that gave `found`.
#[tactic(auto, unfolding(crate::specs::AttributeReading::once))]
fn one_source(
    pool: &NamedPool,
    place: usize,
    found: ClassAttributes,
    input: &mut Input,
) -> Result<ClassAttributes, BadClass>
    ensures { Gives result input.new (reading.once_first place (reading.source_content pool.now) found (seen input.old)) }
{
    let (source, rows) = found;
    if source.is_some() {
        return Err(twice(place));
    }
    Ok((Some(source_file(pool, input)?), rows))
}

/// An InnerClasses whose name stands at a place, behind attributes that gave `found`.
#[tactic(auto, unfolding(crate::specs::AttributeReading::once))]
fn one_inner(
    alloc: Global,
    pool: &NamedPool,
    place: usize,
    found: ClassAttributes,
    input: &mut Input,
) -> Result<ClassAttributes, BadClass>
    ensures { Gives result input.new (reading.once_second place (reading.inner_content pool.now) found (seen input.old)) }
{
    let (source, rows) = found;
    if rows.is_some() {
        return Err(twice(place));
    }
    Ok((source, Some(inner_classes(alloc, pool, input)?)))
}

/// One attribute of a class more, behind those that gave `found`.
#[tactic(auto, unfolding(crate::specs::AttributeReading::two_attribute, class_names::specs::Steps::at_index, const_pool::specs::PoolReading::indexed))]
fn class_attribute(
    alloc: Global,
    pool: &NamedPool,
    found: ClassAttributes,
    input: &mut Input,
) -> Result<ClassAttributes, BadClass>
    ensures { Gives result input.new (reading.two_attribute pool.now grammar.source_file (reading.source_content pool.now) grammar.inner_classes (reading.inner_content pool.now) found (seen input.old)) }
{
    let place = input.at;
    let name = pool.next_text(input)?;
    if name.as_slice() == b"SourceFile".as_slice() {
        return one_source(pool, place, found, input);
    }
    if name.as_slice() == b"InnerClasses".as_slice() {
        return one_inner(alloc, pool, place, found, input);
    }
    drop_content(input)?;
    Ok(found)
}

/// The attributes of a class (JVMS 4.1): the name of its source file, and its rows of InnerClasses, each where
/// that attribute stands.
#[tactic(auto, unfolding(crate::specs::AttributeReading::two_read), using(class_input::proofs::Loops::each_goes_on, class_input::proofs::Loops::each_ends, class_input::proofs::Loops::each_is_done))]
pub fn class_attributes(
    alloc: Global,
    pool: &NamedPool,
    input: &mut Input,
) -> Result<ClassAttributes, BadClass>
    ensures { Gives result input.new (reading.two_read pool.now grammar.source_file (reading.source_content pool.now) grammar.inner_classes (reading.inner_content pool.now) (seen input.old)) }
{
    let count = input.u16()?;
    let mut found = (None, None);
    for _ in 0..count {
        found = class_attribute(alloc, pool, found, input)?;
    }
    Ok(found)
}
