//! Reading the frames of a table as they are written.

ghost use Rattle.std.specs.Prelude.{◌≡◌, ◌+◌, ◌<◌, ◌≤◌, ◌^◌, All, IfOk, length};
ghost use Rattle.std.specs.Int.{w8, w16};
ghost use Rattle.class_input.specs.Reading.{seen};
ghost use Rattle.stack_maps.specs.Reading as reading;
ghost use Rattle.stack_maps.specs.Reading.{Gives, GivesBy};
ghost use Rattle.stack_maps.specs.Bounds.{AreSmall, SmallLocals, IsSmall};
ghost use Rattle.stack_maps.specs.Grammar as grammar;

use crate::frame::RawType;
use crate::frame_stop::FrameStop;
use class_input::{BadClass, Input};
use lists::Seq;
use std::alloc::Global;

/// Types one after the other, and the place of the first.
#[derive(Drop)]
pub struct Entries {
    pub at: usize,
    pub types: Seq<RawType>,
}

/// How the locals of a frame follow from those of the frame before it.
#[derive(Drop)]
pub enum Locals {
    Kept,
    Chop(u8),
    Append(Entries),
    Full(Entries),
}

/// A frame as it is written. The offset delta stands at `delta_at`, which is the type byte where that holds it.
#[derive(Drop)]
pub struct Written {
    pub delta_at: usize,
    pub delta: u16,
    pub locals: Locals,
    pub stack: Entries,
}

/// A byte. Where a number can't be read, bytes of it are missing.
#[tactic(auto, unfolding(crate::specs::Reading::number))]
fn byte(input: &mut Input) -> Result<u8, FrameStop>
    ensures { Gives result input.new (reading.number w8 (seen input.old)) }
{
    match input.u8() {
        Ok(n) => Ok(n),
        Err(BadClass::Bad { place, .. }) => Err(FrameStop::Short(place)),
        Err(BadClass::Memory) => Err(FrameStop::Memory),
    }
}

#[tactic(auto, unfolding(crate::specs::Reading::number))]
fn two_bytes(input: &mut Input) -> Result<u16, FrameStop>
    ensures { Gives result input.new (reading.number w16 (seen input.old)) }
{
    match input.u16() {
        Ok(n) => Ok(n),
        Err(BadClass::Bad { place, .. }) => Err(FrameStop::Short(place)),
        Err(BadClass::Memory) => Err(FrameStop::Memory),
    }
}

#[tactic(auto, unfolding(crate::specs::Reading::type_info))]
fn type_info(input: &mut Input) -> Result<RawType, FrameStop>
    ensures { Gives result input.new (reading.type_info (seen input.old)) }
{
    let place = input.at;
    match byte(input)? {
        0 => Ok(RawType::Top),
        1 => Ok(RawType::Int),
        4 => Ok(RawType::Long),
        5 => Ok(RawType::Null),
        6 => Ok(RawType::UninitThis),
        7 => Ok(RawType::Object(two_bytes(input)?)),
        8 => Ok(RawType::Uninit(two_bytes(input)?)),
        tag => Err(FrameStop::BadTag(place, tag)),
    }
}

/// So many types, one after the other.
#[tactic(auto, using(crate::proofs::Loops::each_begins, crate::proofs::Loops::each_goes_on, crate::proofs::Loops::each_ends, crate::proofs::Loops::each_is_done))]
fn types(alloc: Global, count: u16, input: &mut Input) -> Result<Seq<RawType>, FrameStop>
    ensures reads { Gives result input.new (reading.types count (seen input.old)) }
    ensures counted { IfOk result (λ types. length types ≡ count) }
{
    let mut types = Seq::new(alloc);
    for _ in 0..count {
        let one = type_info(input)?;
        types.push(one)?;
    }
    Ok(types)
}

#[tactic(auto, unfolding(crate::specs::Reading::entries))]
fn entry_list(alloc: Global, count: u16, input: &mut Input) -> Result<Entries, FrameStop>
    ensures reads { Gives result input.new (reading.entries count (seen input.old)) }
    ensures small { IfOk result AreSmall }
{
    let at = input.at;
    let types = types(alloc, count, input)?;
    Ok(Entries { at, types })
}

/// Types with their count before them.
#[tactic(auto, unfolding(crate::specs::Reading::counted))]
fn counted(alloc: Global, input: &mut Input) -> Result<Entries, FrameStop>
    ensures reads { Gives result input.new (reading.counted (seen input.old)) }
    ensures small { IfOk result AreSmall }
{
    let count = two_bytes(input)?;
    entry_list(alloc, count, input)
}

/// A frame whose type byte holds the delta.
#[tactic(auto, unfolding(crate::specs::Reading::short))]
fn short(
    alloc: Global,
    delta_at: usize,
    delta: u8,
    items: u16,
    input: &mut Input,
) -> Result<Written, FrameStop>
    ensures reads { Gives result input.new (reading.short delta_at delta items (seen input.old)) }
    ensures small { IfOk result IsSmall }
{
    let stack = entry_list(alloc, items, input)?;
    Ok(Written {
        delta_at,
        delta: u16::from(delta),
        locals: Locals::Kept,
        stack,
    })
}

#[tactic(auto, unfolding(crate::specs::Reading::extended))]
fn extended(alloc: Global, items: u16, input: &mut Input) -> Result<Written, FrameStop>
    ensures reads { Gives result input.new (reading.extended items (seen input.old)) }
    ensures small { IfOk result IsSmall }
{
    let delta_at = input.at;
    let delta = two_bytes(input)?;
    let stack = entry_list(alloc, items, input)?;
    Ok(Written {
        delta_at,
        delta,
        locals: Locals::Kept,
        stack,
    })
}

/// A frame that chops locals, of which so many are known. Its type byte stands at a place.
#[tactic(auto, unfolding(crate::specs::Reading::chop))]
fn chop(
    alloc: Global,
    known: usize,
    place: usize,
    gone: u8,
    input: &mut Input,
) -> Result<Written, FrameStop>
    ensures reads { Gives result input.new (reading.chop known place gone (seen input.old)) }
    ensures small { IfOk result IsSmall }
{
    if known < usize::from(gone) {
        return Err(FrameStop::Underflow(place));
    }
    let delta_at = input.at;
    let delta = two_bytes(input)?;
    let stack = entry_list(alloc, 0, input)?;
    Ok(Written {
        delta_at,
        delta,
        locals: Locals::Chop(gone),
        stack,
    })
}

#[tactic(auto, unfolding(crate::specs::Reading::append))]
fn append(alloc: Global, more: u16, input: &mut Input) -> Result<Written, FrameStop>
    ensures reads { Gives result input.new (reading.append more (seen input.old)) }
    ensures small { IfOk result IsSmall }
{
    let delta_at = input.at;
    let delta = two_bytes(input)?;
    let locals = entry_list(alloc, more, input)?;
    let stack = entry_list(alloc, 0, input)?;
    Ok(Written {
        delta_at,
        delta,
        locals: Locals::Append(locals),
        stack,
    })
}

#[tactic(auto, unfolding(crate::specs::Reading::full))]
fn full(alloc: Global, input: &mut Input) -> Result<Written, FrameStop>
    ensures reads { Gives result input.new (reading.full (seen input.old)) }
    ensures small { IfOk result IsSmall }
{
    let delta_at = input.at;
    let delta = two_bytes(input)?;
    let locals = counted(alloc, input)?;
    let stack = counted(alloc, input)?;
    Ok(Written {
        delta_at,
        delta,
        locals: Locals::Full(locals),
        stack,
    })
}

/// A frame, where so many locals are known before it.
#[tactic(auto, unfolding(crate::specs::Reading::frame, crate::specs::Reading::form))]
fn frame(alloc: Global, known: usize, input: &mut Input) -> Result<Written, FrameStop>
    ensures reads { Gives result input.new (reading.frame known (seen input.old)) }
    ensures small { IfOk result IsSmall }
{
    let place = input.at;
    let tag = byte(input)?;
    match tag {
        0..=63 => short(alloc, place, tag, 0, input),
        64..=127 => short(alloc, place, tag - 64, 1, input),
        128..=246 => Err(FrameStop::Reserved(place, tag)),
        247 => extended(alloc, 1, input),
        248..=250 => chop(alloc, known, place, 251 - tag, input),
        251 => extended(alloc, 0, input),
        252..=254 => append(alloc, u16::from(tag) - 251, input),
        255 => full(alloc, input),
    }
}

/// How many locals are known after a frame, where so many are known before it.
fn known_after(known: usize, locals: &Locals) -> usize
    requires small { SmallLocals locals.now }
    requires room { known + 65535 < 2 ^ 64 }
    ensures value { result ≡ grammar.known_after known locals.now }
    ensures grows { result ≤ known + 65535 }
{
    match locals {
        Locals::Kept => known,
        Locals::Chop(gone) => known.saturating_sub(usize::from(*gone)),
        Locals::Append(more) => known + more.types.len(),
        Locals::Full(all) => all.types.len(),
    }
}

/// So many frames, one after the other.
#[tactic(auto, using(crate::proofs::Loops::each_begins, crate::proofs::Loops::each_goes_on, crate::proofs::Loops::each_ends, crate::proofs::Loops::each_is_done))]
fn frames(
    alloc: Global,
    count: u16,
    first: usize,
    input: &mut Input,
) -> Result<Vec<Written>, FrameStop>
    requires { first < 2 ^ 63 }
    ensures reads { GivesBy (λ frames. frames.items) result input.new (reading.frames count first (seen input.old)) }
    ensures small { IfOk result (λ frames. All IsSmall frames.items) }
    ensures few { IfOk result (λ frames. length frames.items ≡ count) }
{
    let mut frames = Vec::new(alloc);
    let mut known = first;
    for _ in 0..count {
        let one = frame(alloc, known, input)?;
        known = known_after(known, &one.locals);
        frames.push(one)?;
    }
    Ok(frames)
}

/// A table, from its count on, where the first frame has so many locals.
#[tactic(auto, unfolding(crate::specs::Reading::table))]
pub fn table(alloc: Global, first: usize, input: &mut Input) -> Result<Vec<Written>, FrameStop>
    requires { first < 2 ^ 63 }
    ensures reads { GivesBy (λ frames. frames.items) result input.new (reading.table first (seen input.old)) }
    ensures small { IfOk result (λ frames. All IsSmall frames.items) }
    ensures few { IfOk result (λ frames. length frames.items ≤ 65535) }
{
    let count = two_bytes(input)?;
    frames(alloc, count, first, input)
}
