//! The contents of the attributes that are read, each behind the index of its name.

ghost use Rattle.std.specs.Prelude.{◌≡◌};
ghost use Rattle.class_input.specs.Reading.{Gives, seen};
ghost use Rattle.class_names.specs.Steps.{table, at_index};
ghost use Rattle.class_names.specs.NameReading.{class_name_at};
ghost use Rattle.class_attributes.specs.AttributeReading as reading;

use class_input::{BadClass, Input};
use class_model::{Constant, InnerRow};
use class_names::{
    NamedPool, next_bytes, next_class_name, next_constant, next_optional_class_name,
    next_optional_name,
};
use lists::{Bytes, Name, Seq};
use std::alloc::Global;

/// The constant of a ConstantValue attribute (JVMS 4.7.2).
#[tactic(auto, unfolding(crate::specs::AttributeReading::content, class_input::specs::Reading::within))]
pub fn constant_value(
    alloc: Global,
    pool: &NamedPool,
    input: &mut Input,
) -> Result<Constant, BadClass>
    ensures { Gives result input.new (reading.content (reading.constant_content pool.now) (seen input.old)) }
{
    let len = input.u32()? as usize;
    let mut inner = input.part(len);
    let constant = next_constant(alloc, pool, &mut inner)?;
    input.close(len, inner)?;
    Ok(constant)
}

/// The name of the source file of a SourceFile attribute, as its bytes stand (JVMS 4.7.10).
#[tactic(auto, unfolding(crate::specs::AttributeReading::content, class_input::specs::Reading::within))]
pub fn source_file(pool: &NamedPool, input: &mut Input) -> Result<Bytes, BadClass>
    ensures { Gives result input.new (reading.content (reading.source_content pool.now) (seen input.old)) }
{
    let len = input.u32()? as usize;
    let mut inner = input.part(len);
    let source = next_bytes(pool, &mut inner)?;
    input.close(len, inner)?;
    Ok(source)
}

/// A table of class names.
#[tactic(auto, unfolding(class_names::specs::Steps::table), using(class_input::proofs::Loops::many_goes_on, class_input::proofs::Loops::many_ends, class_input::proofs::Loops::each_is_done))]
pub fn named_classes(
    alloc: Global,
    pool: &NamedPool,
    input: &mut Input,
) -> Result<Seq<Name>, BadClass>
    ensures { Gives result input.new (table (at_index (class_name_at pool.now)) (seen input.old)) }
{
    let count = input.u16()?;
    let mut names = Seq::new(alloc);
    for _ in 0..count {
        let name = next_class_name(pool, input)?;
        names.push(name)?;
    }
    Ok(names)
}

/// The class names of an Exceptions attribute (JVMS 4.7.5).
#[tactic(auto, unfolding(crate::specs::AttributeReading::content, class_input::specs::Reading::within))]
pub fn exceptions(alloc: Global, pool: &NamedPool, input: &mut Input) -> Result<Seq<Name>, BadClass>
    ensures { Gives result input.new (reading.content (reading.exceptions_content pool.now) (seen input.old)) }
{
    let len = input.u32()? as usize;
    let mut inner = input.part(len);
    let names = named_classes(alloc, pool, &mut inner)?;
    input.close(len, inner)?;
    Ok(names)
}

#[tactic(auto, unfolding(crate::specs::AttributeReading::inner_row))]
fn inner_row(pool: &NamedPool, input: &mut Input) -> Result<InnerRow, BadClass>
    ensures { Gives result input.new (reading.inner_row pool.now (seen input.old)) }
{
    let inner = next_class_name(pool, input)?;
    let outer = next_optional_class_name(pool, input)?;
    let name = next_optional_name(pool, input)?;
    let flags = input.u16()?;
    Ok(InnerRow {
        inner,
        outer,
        name,
        flags,
    })
}

#[tactic(auto, unfolding(class_names::specs::Steps::table), using(class_input::proofs::Loops::many_goes_on, class_input::proofs::Loops::many_ends, class_input::proofs::Loops::each_is_done))]
fn inner_rows(alloc: Global, pool: &NamedPool, input: &mut Input) -> Result<Seq<InnerRow>, BadClass>
    ensures { Gives result input.new (reading.inner_content pool.now (seen input.old)) }
{
    let count = input.u16()?;
    let mut rows = Seq::new(alloc);
    for _ in 0..count {
        let row = inner_row(pool, input)?;
        rows.push(row)?;
    }
    Ok(rows)
}

/// The rows of an InnerClasses attribute (JVMS 4.7.6).
#[tactic(auto, unfolding(crate::specs::AttributeReading::content, class_input::specs::Reading::within))]
pub fn inner_classes(
    alloc: Global,
    pool: &NamedPool,
    input: &mut Input,
) -> Result<Seq<InnerRow>, BadClass>
    ensures { Gives result input.new (reading.content (reading.inner_content pool.now) (seen input.old)) }
{
    let len = input.u32()? as usize;
    let mut inner = input.part(len);
    let rows = inner_rows(alloc, pool, &mut inner)?;
    input.close(len, inner)?;
    Ok(rows)
}
