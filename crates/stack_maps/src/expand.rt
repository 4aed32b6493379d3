//! Expanding frames.

ghost use Rattle.std.specs.Prelude.{◌≡◌, ◌++◌, ◌≤◌, IfOk};
ghost use Rattle.stack_maps.specs.Expand as expand;
ghost use Rattle.stack_maps.specs.Reading.{Answers};

use crate::frame::{RawFrame, RawType};
use crate::frame_stop::FrameStop;
use crate::written::{Locals, Written};
use lists::Seq;
use std::alloc::{AllocError, Global};

/// The types of a front and then of a back.
fn joined(alloc: Global, front: &[RawType], back: &[RawType]) -> Result<Seq<RawType>, AllocError>
    ensures { IfOk result (λ types. types ≡ front.now ++ back.now) }
{
    let mut types = Vec::new(alloc);
    types.extend_from_slice(front)?;
    types.extend_from_slice(back)?;
    Ok(Seq::from_vec(types))
}

fn copied(alloc: Global, from: &[RawType]) -> Result<Seq<RawType>, AllocError>
    ensures { IfOk result (λ types. types ≡ from.now) }
{
    let mut types = Vec::new(alloc);
    types.extend_from_slice(from)?;
    Ok(Seq::from_vec(types))
}

fn locals_after(
    alloc: Global,
    before: &[RawType],
    locals: &Locals,
) -> Result<Seq<RawType>, AllocError>
    ensures { IfOk result (λ types. types ≡ expand.locals_after before.now locals.now) }
{
    match locals {
        Locals::Kept => copied(alloc, before),
        Locals::Chop(gone) => {
            let kept = before.len().saturating_sub(usize::from(*gone));
            copied(alloc, &before[..kept])
        }
        Locals::Append(more) => joined(alloc, before, more.types.as_slice()),
        Locals::Full(all) => copied(alloc, all.types.as_slice()),
    }
}

fn offset_of(next: u32, frame: &Written) -> Result<u16, FrameStop>
    requires { next ≤ 65536 }
    ensures { Answers result (expand.offset_of next frame.now) }
{
    let offset = next + u32::from(frame.delta);
    if offset > 65535 {
        return Err(FrameStop::Offset(frame.delta_at));
    }
    Ok(offset as u16)
}

/// A frame in full, behind a frame with these locals. Its offset is its delta and `next`.
#[tactic(auto, unfolding(crate::specs::Expand::in_full))]
fn in_full(
    alloc: Global,
    next: u32,
    before: &[RawType],
    frame: &Written,
) -> Result<RawFrame, FrameStop>
    requires { next ≤ 65536 }
    ensures { Answers result (expand.in_full next before.now frame.now) }
{
    let offset = offset_of(next, frame)?;
    let locals = locals_after(alloc, before, &frame.locals)?;
    let stack = copied(alloc, frame.stack.types.as_slice())?;
    Ok(RawFrame {
        offset,
        locals,
        stack,
    })
}

/// The locals of the last frame, or those of the first frame where there is none yet.
fn last_locals<'a>(first: &'a [RawType], frames: &'a [RawFrame]) -> &'a [RawType]
    ensures { result.now ≡ expand.last_locals first.now frames.now }
{
    match frames.last() {
        Some(frame) => frame.locals.as_slice(),
        None => first,
    }
}

/// All frames in full, from the locals of the first frame on.
#[tactic(auto, using(crate::proofs::ExpandLoops::expand_begins, crate::proofs::ExpandLoops::expand_goes_on, crate::proofs::ExpandLoops::expand_ends, crate::proofs::ExpandLoops::expand_is_done))]
pub fn expand(
    alloc: Global,
    first: &[RawType],
    written: &[Written],
) -> Result<Seq<RawFrame>, FrameStop>
    ensures { Answers result (expand.expanded 0 first.now written.now) }
{
    let mut frames = Vec::new(alloc);
    let mut next: u32 = 0;
    for frame in written {
        let full = in_full(alloc, next, last_locals(first, &frames), frame)?;
        next = u32::from(full.offset) + 1;
        frames.push(full)?;
    }
    Ok(Seq::from_vec(frames))
}
