//! Constants that indices name.

ghost use Rattle.std.specs.Prelude.{◌≡◌};
ghost use Rattle.class_input.specs.Reading.{Answers, Gives, seen};
ghost use Rattle.const_pool.specs.PoolReading.{named};
ghost use Rattle.class_names.specs.Names.{as_string};
ghost use Rattle.class_names.specs.Steps.{at_index};
ghost use Rattle.class_names.specs.NameReading as reading;

use crate::member::{no_entry, wrong_kind};
use crate::named_pool::NamedPool;
use crate::text::text_at;
use class_input::{BadClass, Input};
use class_model::{Constant, Insn};
use const_pool::Entry;
use lists::Units;
use std::alloc::Global;

/// The index of the text of a String.
#[tactic(auto, unfolding(const_pool::specs::PoolReading::named))]
fn string_text(pool: &NamedPool, place: usize, index: u16) -> Result<u16, BadClass>
    ensures { Answers (λ text. text) result (named as_string pool.now place index) }
{
    match pool.get(index) {
        None => Err(no_entry(place, index)),
        Some(Entry::Text(text)) => Ok(*text),
        Some(_) => Err(wrong_kind(place, index)),
    }
}

/// The text of the String that an index names, which stands at a place (JVMS 4.4.3).
#[tactic(auto, unfolding(crate::specs::NameReading::string_at))]
pub fn string_at(
    alloc: Global,
    pool: &NamedPool,
    place: usize,
    index: u16,
) -> Result<Units, BadClass>
    ensures { Answers (λ units. units) result (reading.string_at pool.now place index) }
{
    let text = string_text(pool, place, index)?;
    text_at(alloc, pool, place, text)
}

/// The number of the Long that an index names, which stands at a place (JVMS 4.4.5), as `ldc2_w` pushes it.
#[tactic(auto, unfolding(const_pool::specs::PoolReading::named))]
pub fn long_at(pool: &NamedPool, place: usize, index: u16) -> Result<i64, BadClass>
    ensures { Answers (λ n. n) result (reading.long_at pool.now place index) }
{
    match pool.get(index) {
        None => Err(no_entry(place, index)),
        Some(Entry::Long(n)) => Ok(*n),
        Some(_) => Err(wrong_kind(place, index)),
    }
}

/// What `ldc` and `ldc_w` of an index push, which stands at a place: an Integer or a String.
#[tactic(auto, unfolding(crate::specs::NameReading::pushed_at, crate::specs::NameReading::pushed, const_pool::specs::PoolReading::named))]
pub fn pushed_at(
    alloc: Global,
    pool: &NamedPool,
    place: usize,
    index: u16,
) -> Result<Insn, BadClass>
    ensures { Answers (λ insn. insn) result (reading.pushed_at pool.now place index) }
{
    match pool.get(index) {
        None => Err(no_entry(place, index)),
        Some(Entry::Integer(n)) => Ok(Insn::PushInt(*n)),
        Some(Entry::Text(text)) => Ok(Insn::PushString(text_at(alloc, pool, place, *text)?)),
        Some(_) => Err(wrong_kind(place, index)),
    }
}

/// The constant that an index names, which stands at a place: an Integer, a Long or a String (JVMS 4.7.2).
#[tactic(auto, unfolding(crate::specs::NameReading::constant_at, crate::specs::NameReading::constant, const_pool::specs::PoolReading::named))]
pub fn constant_at(
    alloc: Global,
    pool: &NamedPool,
    place: usize,
    index: u16,
) -> Result<Constant, BadClass>
    ensures { Answers (λ constant. constant) result (reading.constant_at pool.now place index) }
{
    match pool.get(index) {
        None => Err(no_entry(place, index)),
        Some(Entry::Integer(n)) => Ok(Constant::Int(*n)),
        Some(Entry::Long(n)) => Ok(Constant::Long(*n)),
        Some(Entry::Text(text)) => Ok(Constant::Text(text_at(alloc, pool, place, *text)?)),
        Some(_) => Err(wrong_kind(place, index)),
    }
}

/// The constant that the next index names.
#[tactic(auto, unfolding(crate::specs::Steps::at_index))]
pub fn next_constant(
    alloc: Global,
    pool: &NamedPool,
    input: &mut Input,
) -> Result<Constant, BadClass>
    ensures { Gives result input.new (at_index (reading.constant_at pool.now) (seen input.old)) }
{
    let place = input.at;
    let index = input.u16()?;
    constant_at(alloc, pool, place, index)
}
