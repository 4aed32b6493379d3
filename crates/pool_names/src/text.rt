//! Texts (JVMS 4.4.7).

ghost use Rattle.std.specs.Prelude.{◌≡◌, IsTrue};
ghost use Rattle.const_pool.specs.Pool.{HasText};
ghost use Rattle.const_pool.specs.declared.entry.Entry.TheVariants as entries;
ghost use Rattle.pool_names.specs.Adding.{Puts};
ghost use Rattle.pool_names.specs.Fits.{FitsText, is_short_ascii};
ghost use Rattle.pool_names.specs.Spelling as spelling;

use crate::writer::PoolWriter;
use const_pool::{Entry, PoolStop, units_text};
use lists::{Bytes, Seq};
use std::alloc::Global;

/// The index of a Utf8 entry that holds these bytes.
pub fn put_bytes(pool: &mut PoolWriter, bytes: &Bytes) -> Result<u16, PoolStop>
    requires { HasText (entries.Utf8 bytes.now) }
    ensures { Puts result pool.new (spelling.spell_bytes bytes.now pool.old) }
{
    pool.add(Entry::Utf8(bytes.clone()?))
}

/// The index of a text of the characters 1 to 127, such as the name of an attribute.
pub fn put_ascii(alloc: Global, pool: &mut PoolWriter, text: &[u8]) -> Result<u16, PoolStop>
    requires { IsTrue (is_short_ascii text.now) }
    ensures { Puts result pool.new (spelling.spell_bytes text.now pool.old) }
{
    let bytes = Vec::from_slice(alloc, text)?;
    pool.add(Entry::Utf8(Seq::from_vec(bytes)))
}

/// The index of a text of at most 65,535 bytes, which is given by its UTF-16 units.
#[tactic(auto, unfolding(crate::specs::Spelling::spell_text))]
pub fn put_text(alloc: Global, pool: &mut PoolWriter, units: &[u16]) -> Result<u16, PoolStop>
    requires { FitsText units.now }
    ensures { Puts result pool.new (spelling.spell_text units.now pool.old) }
{
    let bytes = units_text(alloc, units)?;
    pool.add(Entry::Utf8(bytes))
}
