//! Constants (JVMS 4.4.3 to 4.4.5).

ghost use Rattle.pool_names.specs.Adding.{Puts};
ghost use Rattle.pool_names.specs.Fits.{FitsText, FitsConstant};
ghost use Rattle.pool_names.specs.Spelling as spelling;

use crate::text::put_text;
use crate::writer::PoolWriter;
use class_model::Constant;
use const_pool::{Entry, PoolStop};
use std::alloc::Global;

/// The index of an Integer.
pub fn put_int(pool: &mut PoolWriter, n: i32) -> Result<u16, PoolStop>
    ensures { Puts result pool.new (spelling.spell_int n pool.old) }
{
    pool.add(Entry::Integer(n))
}

/// The index of a Long.
pub fn put_long(pool: &mut PoolWriter, n: i64) -> Result<u16, PoolStop>
    ensures { Puts result pool.new (spelling.spell_long n pool.old) }
{
    pool.add(Entry::Long(n))
}

/// The index of a String, by its UTF-16 units.
#[tactic(auto, unfolding(crate::specs::Spelling::spell_string))]
pub fn put_string(alloc: Global, pool: &mut PoolWriter, units: &[u16]) -> Result<u16, PoolStop>
    requires { FitsText units.now }
    ensures { Puts result pool.new (spelling.spell_string units.now pool.old) }
{
    let text = put_text(alloc, pool, units)?;
    pool.add(Entry::Text(text))
}

/// The index of the value of a ConstantValue attribute (JVMS 4.7.2).
pub fn put_constant(
    alloc: Global,
    pool: &mut PoolWriter,
    constant: &Constant,
) -> Result<u16, PoolStop>
    requires { FitsConstant constant.now }
    ensures { Puts result pool.new (spelling.spell_constant constant.now pool.old) }
{
    match constant {
        Constant::Int(n) => put_int(pool, *n),
        Constant::Long(n) => put_long(pool, *n),
        Constant::Text(units) => put_string(alloc, pool, units.as_slice()),
    }
}
