//! Rows of InnerClasses (JVMS 4.7.6).

ghost use Rattle.std.specs.Prelude.{◌≡◌, All, IfSome};
ghost use Rattle.pool_names.specs.Adding.{Puts, Writes, spell_each};
ghost use Rattle.pool_names.specs.Fits.{FitsText};
ghost use Rattle.pool_names.specs.Spelling.{spell_class, spell_text};
ghost use Rattle.class_spelling.specs.AttributeSpelling.{spell_inner_row, spell_inner_classes};
ghost use Rattle.class_spelling.specs.Forms.{spell_optional};
ghost use Rattle.class_spelling.specs.Writable.{FitsCount, WritableRow};

use crate::table::{put_class_index, put_count};
use class_model::InnerRow;
use const_pool::PoolStop;
use lists::Name;
use pool_names::{PoolWriter, put_class, put_text, put_u16};
use std::alloc::Global;

/// The index of a class by its name, 0 where there is none.
pub fn put_optional_class(
    alloc: Global,
    pool: &mut PoolWriter,
    name: &Option<Name>,
) -> Result<u16, PoolStop>
    requires { IfSome name.now FitsText }
    ensures { Puts result pool.new (spell_optional spell_class name.now pool.old) }
{
    match name {
        None => Ok(0),
        Some(name) => put_class(alloc, pool, name),
    }
}

/// The index of a text, 0 where there is none.
fn put_optional_text(
    alloc: Global,
    pool: &mut PoolWriter,
    text: &Option<Name>,
) -> Result<u16, PoolStop>
    requires { IfSome text.now FitsText }
    ensures { Puts result pool.new (spell_optional spell_text text.now pool.old) }
{
    match text {
        None => Ok(0),
        Some(text) => put_text(alloc, pool, text.as_units()),
    }
}

/// Puts a row behind other bytes.
#[tactic(auto, unfolding(crate::specs::AttributeSpelling::spell_inner_row, crate::specs::Forms::spell_index))]
fn put_row(
    alloc: Global,
    pool: &mut PoolWriter,
    out: &mut Vec<u8>,
    row: &InnerRow,
) -> Result<(), PoolStop>
    requires { WritableRow row.now }
    ensures { Writes result pool.new out.old.items out.new.items (spell_inner_row row.now pool.old) }
{
    put_class_index(alloc, pool, out, &row.inner)?;
    let outer = put_optional_class(alloc, pool, &row.outer)?;
    put_u16(out, outer)?;
    let name = put_optional_text(alloc, pool, &row.name)?;
    put_u16(out, name)?;
    put_u16(out, row.flags)?;
    Ok(())
}

fn put_each_row(
    alloc: Global,
    pool: &mut PoolWriter,
    out: &mut Vec<u8>,
    rows: &[InnerRow],
) -> Result<(), PoolStop>
    requires { All WritableRow rows.now }
    ensures { Writes result pool.new out.old.items out.new.items (spell_each spell_inner_row rows.now pool.old) }
{
    for row in rows {
        put_row(alloc, pool, out, row)?;
    }
    Ok(())
}

/// Puts a table of rows behind other bytes.
#[tactic(auto, unfolding(crate::specs::Forms::spell_table))]
pub fn put_rows(
    alloc: Global,
    pool: &mut PoolWriter,
    out: &mut Vec<u8>,
    rows: &[InnerRow],
) -> Result<(), PoolStop>
    requires count { FitsCount rows.now }
    requires each { All WritableRow rows.now }
    ensures { Writes result pool.new out.old.items out.new.items (spell_inner_classes rows.now pool.old) }
{
    put_count(out, rows.len())?;
    put_each_row(alloc, pool, out, rows)
}
