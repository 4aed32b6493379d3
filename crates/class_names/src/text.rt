//! Texts that indices name.

ghost use Rattle.std.specs.Prelude.{◌≡◌};
ghost use Rattle.class_input.specs.Reading.{Answers, Gives, seen};
ghost use Rattle.class_names.specs.Steps.{at_index};
ghost use Rattle.class_names.specs.NameReading as reading;

use crate::named_pool::NamedPool;
use class_input::{BadClass, Input};
use lists::{Bytes, Name, Seq, Units};
use std::alloc::Global;

/// The text of the Utf8 entry that an index names, which stands at a place (JVMS 4.4.7). `PoolIndex` where it
/// names no entry, `PoolKind` where that is of another kind.
pub fn name_at(pool: &NamedPool, place: usize, index: u16) -> Result<Name, BadClass>
    ensures { Answers (λ name. name) result (reading.text_at pool.now place index) }
{
    let text = pool.text_at(place, index)?;
    Ok(text.name.clone()?)
}

/// The same text as units of its own.
pub fn text_at(alloc: Global, pool: &NamedPool, place: usize, index: u16) -> Result<Units, BadClass>
    ensures { Answers (λ units. units) result (reading.text_at pool.now place index) }
{
    let text = pool.text_at(place, index)?;
    let units = Vec::from_slice(alloc, text.name.as_units())?;
    Ok(Seq::from_vec(units))
}

/// The text that the next index names.
#[tactic(auto, unfolding(crate::specs::Steps::at_index))]
pub fn next_name(pool: &NamedPool, input: &mut Input) -> Result<Name, BadClass>
    ensures { Gives result input.new (at_index (reading.text_at pool.now) (seen input.old)) }
{
    let place = input.at;
    let index = input.u16()?;
    name_at(pool, place, index)
}

/// The text that the next index names, or nothing where it is 0.
#[tactic(auto, unfolding(crate::specs::Steps::at_index, crate::specs::NameReading::optional))]
pub fn next_optional_name(pool: &NamedPool, input: &mut Input) -> Result<Option<Name>, BadClass>
    ensures { Gives result input.new (at_index (reading.optional (reading.text_at pool.now)) (seen input.old)) }
{
    let place = input.at;
    let index = input.u16()?;
    if index == 0 {
        return Ok(None);
    }
    let name = name_at(pool, place, index)?;
    Ok(Some(name))
}

/// The bytes of the Utf8 entry that the next index names.
#[tactic(auto, unfolding(crate::specs::Steps::at_index))]
pub fn next_bytes(pool: &NamedPool, input: &mut Input) -> Result<Bytes, BadClass>
    ensures { Gives result input.new (at_index (reading.bytes_at pool.now) (seen input.old)) }
{
    let place = input.at;
    let index = input.u16()?;
    let bytes = pool.bytes_at(place, index)?;
    Ok(bytes.clone()?)
}
