//! Fields (JVMS 4.5).

ghost use Rattle.std.specs.Prelude.{◌≡◌, All};
ghost use Rattle.pool_names.specs.Adding.{Writes, spell_each};
ghost use Rattle.class_spelling.specs.ClassSpelling.{spell_field};
ghost use Rattle.class_spelling.specs.Forms.{spell_table};
ghost use Rattle.class_spelling.specs.Writable.{FitsCount, WritableField};

use crate::content::put_field_attributes;
use crate::table::put_count;
use class_model::FieldDef;
use const_pool::PoolStop;
use pool_names::{PoolWriter, put_field_type, put_text, put_u16};
use std::alloc::Global;

/// Puts a field behind other bytes.
#[tactic(auto, unfolding(crate::specs::ClassSpelling::spell_field, crate::specs::Forms::spell_index))]
fn put_field(
    alloc: Global,
    pool: &mut PoolWriter,
    out: &mut Vec<u8>,
    field: &FieldDef,
) -> Result<(), PoolStop>
    requires { WritableField field.now }
    ensures { Writes result pool.new out.old.items out.new.items (spell_field field.now pool.old) }
{
    put_u16(out, field.flags)?;
    let name = put_text(alloc, pool, field.name.as_units())?;
    put_u16(out, name)?;
    let ty = put_field_type(alloc, pool, &field.ty)?;
    put_u16(out, ty)?;
    put_field_attributes(alloc, pool, out, &field.constant)
}

fn put_each_field(
    alloc: Global,
    pool: &mut PoolWriter,
    out: &mut Vec<u8>,
    fields: &[FieldDef],
) -> Result<(), PoolStop>
    requires { All WritableField fields.now }
    ensures { Writes result pool.new out.old.items out.new.items (spell_each spell_field fields.now pool.old) }
{
    for field in fields {
        put_field(alloc, pool, out, field)?;
    }
    Ok(())
}

/// Puts the table of fields behind other bytes.
#[tactic(auto, unfolding(crate::specs::Forms::spell_table))]
pub fn put_fields(
    alloc: Global,
    pool: &mut PoolWriter,
    out: &mut Vec<u8>,
    fields: &[FieldDef],
) -> Result<(), PoolStop>
    requires count { FitsCount fields.now }
    requires each { All WritableField fields.now }
    ensures { Writes result pool.new out.old.items out.new.items (spell_table spell_field fields.now pool.old) }
{
    put_count(out, fields.len())?;
    put_each_field(alloc, pool, out, fields)
}
