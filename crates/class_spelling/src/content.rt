//! The attributes of a class and of its members, all but Code, each only where it has content.

ghost use Rattle.std.specs.Prelude.{◌≡◌, ◌<◌, ◌^◌, length, All, IfOk, IfSome};
ghost use Rattle.class_attributes.specs.Attributes as names;
ghost use Rattle.pool_names.specs.Adding.{PutsBy, Writes};
ghost use Rattle.pool_names.specs.Fits.{FitsText, FitsConstant};
ghost use Rattle.class_spelling.specs.AttributeSpelling as spelling;
ghost use Rattle.class_spelling.specs.Forms.{spell_attribute, spell_when_some, spell_when_any};
ghost use Rattle.class_spelling.specs.Writable.{EachFits, FitsCount, FitsBytes, WritableRow};

use crate::attribute::{count_any, count_some, put_attribute};
use crate::inner::put_rows;
use crate::table::put_classes;
use class_model::{Constant, InnerRow};
use const_pool::PoolStop;
use lists::{Bytes, Name, Seq};
use pool_names::{PoolWriter, put_ascii, put_bytes, put_constant, put_u16};
use std::alloc::Global;

/// Puts a ConstantValue (JVMS 4.7.2) behind other bytes.
#[tactic(auto, unfolding(crate::specs::Forms::spell_attribute, crate::specs::Forms::spell_index))]
fn put_constant_value(
    alloc: Global,
    pool: &mut PoolWriter,
    out: &mut Vec<u8>,
    constant: &Constant,
) -> Result<(), PoolStop>
    requires { FitsConstant constant.now }
    ensures { Writes result pool.new out.old.items out.new.items (spell_attribute names.constant_value (spelling.spell_constant_value constant.now) pool.old) }
{
    let name = put_ascii(alloc, pool, b"ConstantValue")?;
    let value = put_constant(alloc, pool, constant)?;
    let mut content = Vec::new(alloc);
    put_u16(&mut content, value)?;
    put_attribute(out, name, content.as_slice())?;
    Ok(())
}

#[tactic(auto, unfolding(crate::specs::Forms::spell_when_some))]
fn put_constant_if_any(
    alloc: Global,
    pool: &mut PoolWriter,
    out: &mut Vec<u8>,
    constant: &Option<Constant>,
) -> Result<(), PoolStop>
    requires { IfSome constant.now FitsConstant }
    ensures { Writes result pool.new out.old.items out.new.items (spell_when_some names.constant_value spelling.spell_constant_value constant.now pool.old) }
{
    match constant {
        None => Ok(()),
        Some(constant) => put_constant_value(alloc, pool, out, constant),
    }
}

/// Puts the attributes of a field (JVMS 4.5) behind other bytes: its constant, if it has one.
#[tactic(auto, unfolding(crate::specs::AttributeSpelling::spell_field_attributes))]
pub fn put_field_attributes(
    alloc: Global,
    pool: &mut PoolWriter,
    out: &mut Vec<u8>,
    constant: &Option<Constant>,
) -> Result<(), PoolStop>
    requires { IfSome constant.now FitsConstant }
    ensures { Writes result pool.new out.old.items out.new.items (spelling.spell_field_attributes constant.now pool.old) }
{
    put_u16(out, count_some(constant))?;
    put_constant_if_any(alloc, pool, out, constant)
}

/// The content of an Exceptions (JVMS 4.7.5).
fn exceptions_content(
    alloc: Global,
    pool: &mut PoolWriter,
    throws: &[Name],
) -> Result<Vec<u8>, PoolStop>
    requires count { FitsCount throws.now }
    requires texts { EachFits throws.now }
    ensures put { PutsBy (λ content. content.items) result pool.new (spelling.spell_classes throws.now pool.old) }
    ensures short { IfOk result (λ content. length content.items < 2 ^ 32) }
{
    let mut content = Vec::new(alloc);
    put_classes(alloc, pool, &mut content, throws)?;
    Ok(content)
}

/// Puts an Exceptions (JVMS 4.7.5) behind other bytes.
#[tactic(auto, unfolding(crate::specs::Forms::spell_attribute))]
fn put_exceptions(
    alloc: Global,
    pool: &mut PoolWriter,
    out: &mut Vec<u8>,
    throws: &[Name],
) -> Result<(), PoolStop>
    requires count { FitsCount throws.now }
    requires texts { EachFits throws.now }
    ensures { Writes result pool.new out.old.items out.new.items (spell_attribute names.exceptions (spelling.spell_classes throws.now) pool.old) }
{
    let name = put_ascii(alloc, pool, b"Exceptions")?;
    let content = exceptions_content(alloc, pool, throws)?;
    put_attribute(out, name, content.as_slice())?;
    Ok(())
}

/// Puts an Exceptions behind other bytes where there is something in it.
#[tactic(auto, unfolding(crate::specs::Forms::spell_when_any))]
pub fn put_exceptions_if_any(
    alloc: Global,
    pool: &mut PoolWriter,
    out: &mut Vec<u8>,
    throws: &[Name],
) -> Result<(), PoolStop>
    requires count { FitsCount throws.now }
    requires texts { EachFits throws.now }
    ensures { Writes result pool.new out.old.items out.new.items (spell_when_any names.exceptions spelling.spell_classes throws.now pool.old) }
{
    match throws {
        [] => Ok(()),
        [..] => put_exceptions(alloc, pool, out, throws),
    }
}

/// Puts a SourceFile (JVMS 4.7.10) behind other bytes.
#[tactic(auto, unfolding(crate::specs::Forms::spell_attribute, crate::specs::Forms::spell_index))]
fn put_source_file(
    alloc: Global,
    pool: &mut PoolWriter,
    out: &mut Vec<u8>,
    source: &Bytes,
) -> Result<(), PoolStop>
    requires { FitsBytes source.now }
    ensures { Writes result pool.new out.old.items out.new.items (spell_attribute names.source_file (spelling.spell_source_file source.now) pool.old) }
{
    let name = put_ascii(alloc, pool, b"SourceFile")?;
    let source = put_bytes(pool, source)?;
    let mut content = Vec::new(alloc);
    put_u16(&mut content, source)?;
    put_attribute(out, name, content.as_slice())?;
    Ok(())
}

#[tactic(auto, unfolding(crate::specs::Forms::spell_when_some))]
fn put_source_if_any(
    alloc: Global,
    pool: &mut PoolWriter,
    out: &mut Vec<u8>,
    source: &Option<Bytes>,
) -> Result<(), PoolStop>
    requires { IfSome source.now FitsBytes }
    ensures { Writes result pool.new out.old.items out.new.items (spell_when_some names.source_file spelling.spell_source_file source.now pool.old) }
{
    match source {
        None => Ok(()),
        Some(source) => put_source_file(alloc, pool, out, source),
    }
}

/// The content of an InnerClasses (JVMS 4.7.6).
fn inner_content(
    alloc: Global,
    pool: &mut PoolWriter,
    rows: &[InnerRow],
) -> Result<Vec<u8>, PoolStop>
    requires count { FitsCount rows.now }
    requires each { All WritableRow rows.now }
    ensures put { PutsBy (λ content. content.items) result pool.new (spelling.spell_inner_classes rows.now pool.old) }
    ensures short { IfOk result (λ content. length content.items < 2 ^ 32) }
{
    let mut content = Vec::new(alloc);
    put_rows(alloc, pool, &mut content, rows)?;
    Ok(content)
}

/// Puts an InnerClasses (JVMS 4.7.6) behind other bytes.
#[tactic(auto, unfolding(crate::specs::Forms::spell_attribute))]
fn put_inner_classes(
    alloc: Global,
    pool: &mut PoolWriter,
    out: &mut Vec<u8>,
    rows: &[InnerRow],
) -> Result<(), PoolStop>
    requires count { FitsCount rows.now }
    requires each { All WritableRow rows.now }
    ensures { Writes result pool.new out.old.items out.new.items (spell_attribute names.inner_classes (spelling.spell_inner_classes rows.now) pool.old) }
{
    let name = put_ascii(alloc, pool, b"InnerClasses")?;
    let content = inner_content(alloc, pool, rows)?;
    put_attribute(out, name, content.as_slice())?;
    Ok(())
}

#[tactic(auto, unfolding(crate::specs::Forms::spell_when_any))]
fn put_inner_if_any(
    alloc: Global,
    pool: &mut PoolWriter,
    out: &mut Vec<u8>,
    rows: &[InnerRow],
) -> Result<(), PoolStop>
    requires count { FitsCount rows.now }
    requires each { All WritableRow rows.now }
    ensures { Writes result pool.new out.old.items out.new.items (spell_when_any names.inner_classes spelling.spell_inner_classes rows.now pool.old) }
{
    match rows {
        [] => Ok(()),
        [..] => put_inner_classes(alloc, pool, out, rows),
    }
}

/// Puts the attributes of a class (JVMS 4.1) behind other bytes: its source file, if it has one, and its inner
/// classes, if it has any.
#[tactic(auto, unfolding(crate::specs::AttributeSpelling::spell_class_attributes))]
pub fn put_class_attributes(
    alloc: Global,
    pool: &mut PoolWriter,
    out: &mut Vec<u8>,
    source: &Option<Bytes>,
    rows: &Seq<InnerRow>,
) -> Result<(), PoolStop>
    requires source { IfSome source.now FitsBytes }
    requires count { FitsCount rows.now }
    requires each { All WritableRow rows.now }
    ensures { Writes result pool.new out.old.items out.new.items (spelling.spell_class_attributes source.now rows.now pool.old) }
{
    put_u16(out, count_some(source) + count_any(rows))?;
    put_source_if_any(alloc, pool, out, source)?;
    put_inner_if_any(alloc, pool, out, rows.as_slice())
}
