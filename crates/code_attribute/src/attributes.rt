//! The attributes of code: frames, and line numbers.

ghost use Rattle.std.specs.Prelude.{◌≡◌};
ghost use Rattle.class_input.specs.Reading.{Gives, each, seen};
ghost use Rattle.class_attributes.specs.AttributeReading.{content};
ghost use Rattle.frame_tables.specs.FrameReading.{frames};
ghost use Rattle.code_attribute.specs.CodeContentReading as reading;

use crate::lines::{Lines, line_content};
use class_attributes::{drop_content, twice};
use class_input::{BadClass, Input};
use class_model::{Frame, VType};
use class_names::NamedPool;
use frame_tables::{Code, read_frames};
use lists::Seq;
use std::alloc::Global;

/// What the attributes of code say: its frames, where there is a StackMapTable, and its line numbers.
pub type Found = (Option<Seq<(u32, Frame)>>, Lines);

/// The frames of a StackMapTable, behind the index of its name.
#[tactic(auto, unfolding(class_attributes::specs::AttributeReading::content, class_input::specs::Reading::within))]
fn frame_content(
    alloc: Global,
    pool: &NamedPool,
    code: &Code,
    first: &Seq<VType>,
    input: &mut Input,
) -> Result<Seq<(u32, Frame)>, BadClass>
    ensures { Gives result input.new (content (frames pool.now code.now first.now) (seen input.old)) }
{
    let len = input.u32()? as usize;
    let mut inner = input.part(len);
    let frames = read_frames(alloc, pool, code, first, &mut inner)?;
    input.close(len, inner)?;
    Ok(frames)
}

/// A StackMapTable whose name stands at a place, behind attributes that gave `found`.
#[tactic(auto, unfolding(class_attributes::specs::AttributeReading::once))]
fn one_frames(
    alloc: Global,
    pool: &NamedPool,
    code: &Code,
    first: &Seq<VType>,
    place: usize,
    found: Found,
    input: &mut Input,
) -> Result<Found, BadClass>
    ensures { Gives result input.new (reading.with_frames pool.now code.now first.now place found (seen input.old)) }
{
    let (frames, lines) = found;
    if frames.is_some() {
        return Err(twice(place));
    }
    let frames = frame_content(alloc, pool, code, first, input)?;
    Ok((Some(frames), lines))
}

/// A LineNumberTable, behind attributes that gave `found`.
fn one_lines(alloc: Global, code: &Code, found: Found, input: &mut Input) -> Result<Found, BadClass>
    ensures { Gives result input.new (reading.with_rows code.now found (seen input.old)) }
{
    let (frames, lines) = found;
    let lines = line_content(alloc, &code.1, lines, input)?;
    Ok((frames, lines))
}

/// One attribute of code more, behind those that gave `found`.
#[tactic(auto, unfolding(crate::specs::CodeContentReading::code_attribute, class_names::specs::Steps::at_index, const_pool::specs::PoolReading::indexed))]
fn code_attribute(
    alloc: Global,
    pool: &NamedPool,
    code: &Code,
    first: &Seq<VType>,
    found: Found,
    input: &mut Input,
) -> Result<Found, BadClass>
    ensures { Gives result input.new (reading.code_attribute pool.now code.now first.now found (seen input.old)) }
{
    let place = input.at;
    let name = pool.next_text(input)?;
    if name.as_slice() == b"StackMapTable".as_slice() {
        return one_frames(alloc, pool, code, first, place, found, input);
    }
    if name.as_slice() == b"LineNumberTable".as_slice() {
        return one_lines(alloc, code, found, input);
    }
    drop_content(input)?;
    Ok(found)
}

/// So many attributes of code.
#[tactic(auto, using(class_input::proofs::Loops::each_goes_on, class_input::proofs::Loops::each_ends, class_input::proofs::Loops::each_is_done))]
fn attributes(
    alloc: Global,
    pool: &NamedPool,
    code: &Code,
    first: &Seq<VType>,
    count: u16,
    input: &mut Input,
) -> Result<Found, BadClass>
    ensures { Gives result input.new (each count (reading.code_attribute pool.now code.now first.now) reading.nothing_found (seen input.old)) }
{
    let mut found = (None, Seq::new(alloc));
    for _ in 0..count {
        found = code_attribute(alloc, pool, code, first, found, input)?;
    }
    Ok(found)
}

/// The attributes of code (JVMS 4.7.3), by the first frame of its method.
#[tactic(auto, unfolding(crate::specs::CodeContentReading::code_attributes))]
pub fn code_attributes(
    alloc: Global,
    pool: &NamedPool,
    code: &Code,
    first: &Seq<VType>,
    input: &mut Input,
) -> Result<Found, BadClass>
    ensures { Gives result input.new (reading.code_attributes pool.now code.now first.now (seen input.old)) }
{
    let count = input.u16()?;
    attributes(alloc, pool, code, first, count, input)
}
