//! Tables (JVMS 4): a count, and so many things.

ghost use Rattle.std.specs.Prelude.{◌≡◌, ◌++◌, ◌<◌, ◌^◌, List, length, All, OnOk, Ok};
ghost use Rattle.std.specs.Int.{w16, to_be_bytes};
ghost use Rattle.const_pool.specs.Pool.{Pool};
ghost use Rattle.pool_names.specs.Adding.{Writes, spell_u16, spell_each};
ghost use Rattle.pool_names.specs.Fits.{FitsText};
ghost use Rattle.class_spelling.specs.AttributeSpelling.{spell_class_index, spell_classes};
ghost use Rattle.class_spelling.specs.Writable.{EachFits, FitsCount};

use const_pool::PoolStop;
use lists::Name;
use pool_names::{PoolWriter, put_class, put_u16};
use std::alloc::{AllocError, Global};

/// Puts the count of a table behind other bytes.
pub fn put_count(out: &mut Vec<u8>, count: usize) -> Result<(), AllocError>
    requires { count < 2 ^ 16 }
    ensures put { OnOk result (out.new.items ≡ out.old.items ++ to_be_bytes w16 count) }
    ensures spelled { (pool : Pool) → spell_u16 count pool ≡ Ok (pool, to_be_bytes w16 count) }
{
    put_u16(out, count as u16)
}

/// Puts the index of a class, by its name, behind other bytes.
#[tactic(auto, unfolding(crate::specs::Forms::spell_index))]
pub fn put_class_index(
    alloc: Global,
    pool: &mut PoolWriter,
    out: &mut Vec<u8>,
    name: &Name,
) -> Result<(), PoolStop>
    requires { FitsText name.now }
    ensures { Writes result pool.new out.old.items out.new.items (spell_class_index name.now pool.old) }
{
    let class = put_class(alloc, pool, name)?;
    put_u16(out, class)?;
    Ok(())
}

/// Puts the indices of classes, by their names, behind other bytes.
#[tactic(auto, unfolding(crate::specs::Writable::EachFits))]
fn put_class_indices(
    alloc: Global,
    pool: &mut PoolWriter,
    out: &mut Vec<u8>,
    names: &[Name],
) -> Result<(), PoolStop>
    requires { EachFits names.now }
    ensures { Writes result pool.new out.old.items out.new.items (spell_each spell_class_index names.now pool.old) }
{
    for name in names {
        put_class_index(alloc, pool, out, name)?;
    }
    Ok(())
}

/// Puts a table of classes, by their names, behind other bytes.
#[tactic(auto, unfolding(crate::specs::AttributeSpelling::spell_classes, crate::specs::Forms::spell_table))]
pub fn put_classes(
    alloc: Global,
    pool: &mut PoolWriter,
    out: &mut Vec<u8>,
    names: &[Name],
) -> Result<(), PoolStop>
    requires count { FitsCount names.now }
    requires texts { EachFits names.now }
    ensures { Writes result pool.new out.old.items out.new.items (spell_classes names.now pool.old) }
{
    put_count(out, names.len())?;
    put_class_indices(alloc, pool, out, names)
}
