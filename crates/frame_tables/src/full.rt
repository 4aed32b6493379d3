//! Frames in full, by what they name.

ghost use Rattle.std.specs.Prelude.{◌≡◌, IfOk};
ghost use Rattle.class_input.specs.Reading.{Answers};
ghost use Rattle.frame_tables.specs.FrameTable.{first_entry};
ghost use Rattle.frame_tables.specs.FrameReading as reading;

use crate::names::{Code, frame_start, new_at};
use class_input::BadClass;
use class_model::{Frame, VType};
use class_names::{NamedPool, class_type_at};
use lists::Seq;
use stack_maps::{RawFrame, RawType};
use std::alloc::{AllocError, Global};

/// The entry of a number of the first frame, `Top` behind its end.
fn entry(first: &[VType], number: u16) -> Result<VType, AllocError>
    ensures { IfOk result (λ ty. ty ≡ first_entry first.now number) }
{
    match first.get(usize::from(number)) {
        Some(ty) => Ok(ty.clone()?),
        None => Ok(VType::Top),
    }
}

/// A type of a table at a place.
#[tactic(auto, unfolding(crate::specs::FrameReading::vtype))]
fn vtype(
    pool: &NamedPool,
    code: &Code,
    first: &[VType],
    place: usize,
    raw: &RawType,
) -> Result<VType, BadClass>
    ensures { Answers (λ ty. ty) result (reading.vtype pool.now code.now first.now place raw.now) }
{
    match *raw {
        RawType::Top => Ok(VType::Top),
        RawType::Int => Ok(VType::Int),
        RawType::Long => Ok(VType::Long),
        RawType::Null => Ok(VType::Null),
        RawType::UninitThis => Ok(VType::UninitThis),
        RawType::Object(index) => Ok(VType::Ref(class_type_at(pool, place, index)?)),
        RawType::Uninit(offset) => Ok(VType::Uninit(new_at(code, place, offset)?)),
        RawType::First(number) => Ok(entry(first, number)?),
    }
}

#[tactic(auto, using(crate::proofs::Loops::each_goes_on, crate::proofs::Loops::each_ends, crate::proofs::Loops::each_is_done))]
fn vtypes(
    alloc: Global,
    pool: &NamedPool,
    code: &Code,
    first: &[VType],
    place: usize,
    raw: &[RawType],
) -> Result<Seq<VType>, BadClass>
    ensures { Answers (λ types. types) result (reading.vtypes pool.now code.now first.now place raw.now) }
{
    let mut types = Seq::new(alloc);
    for one in raw {
        let ty = vtype(pool, code, first, place, one)?;
        types.push(ty)?;
    }
    Ok(types)
}

/// A frame of a table at a place, with the number of its instruction.
#[tactic(auto, unfolding(crate::specs::FrameReading::frame))]
fn frame(
    alloc: Global,
    pool: &NamedPool,
    code: &Code,
    first: &[VType],
    place: usize,
    raw: &RawFrame,
) -> Result<(u32, Frame), BadClass>
    ensures { Answers (λ frame. frame) result (reading.frame pool.now code.now first.now place raw.now) }
{
    let number = frame_start(code, place, u32::from(raw.offset))?;
    let locals = vtypes(alloc, pool, code, first, place, raw.locals.as_slice())?;
    let stack = vtypes(alloc, pool, code, first, place, raw.stack.as_slice())?;
    Ok((number, Frame { locals, stack }))
}

/// The frames of a table at a place.
#[tactic(auto, using(crate::proofs::Loops::each_goes_on, crate::proofs::Loops::each_ends, crate::proofs::Loops::each_is_done))]
pub fn frames(
    alloc: Global,
    pool: &NamedPool,
    code: &Code,
    first: &[VType],
    place: usize,
    raw: &[RawFrame],
) -> Result<Seq<(u32, Frame)>, BadClass>
    ensures { Answers (λ frames. frames) result (reading.each_of (reading.frame pool.now code.now first.now place) raw.now) }
{
    let mut frames = Seq::new(alloc);
    for one in raw {
        let frame = frame(alloc, pool, code, first, place, one)?;
        frames.push(frame)?;
    }
    Ok(frames)
}
