//! Writing the bytes of a table.

ghost use Rattle.std.specs.Prelude.{◌≡◌, ◌+◌, ◌++◌, ◌∷◌, [], ◌≤◌, List, Ok, All, IfOk, OnOk, length};
ghost use Rattle.std.specs.Int.{w16, to_be_bytes};
ghost use Rattle.std.specs.List.{flat_map};
ghost use Rattle.stack_maps.specs.declared.frame.RawType as raw;
ghost use Rattle.stack_maps.specs.Bounds.{TypeFits, FrameFits};
ghost use Rattle.stack_maps.specs.Spelling.{HasBytes, IsWritable, Ascending, type_text, types_text, frame_text, frames_text, table_text};
ghost use Rattle.stack_maps.specs.Reading.{decoded};
ghost use Rattle.stack_maps.specs.Table.{StandsFor};

use crate::frame::{RawFrame, RawType};
use lists::{Bytes, Seq};
use std::alloc::{AllocError, Global};

/// Puts a number of two bytes behind other bytes.
fn put_number(bytes: &mut Vec<u8>, n: u16) -> Result<(), AllocError>
    ensures { OnOk result (bytes.new.items ≡ bytes.old.items ++ to_be_bytes w16 n) }
{
    bytes.extend_from_slice(&n.to_be_bytes())?;
    Ok(())
}

/// Puts a tag and a number of two bytes behind other bytes.
fn put_tagged(bytes: &mut Vec<u8>, tag: u8, n: u16) -> Result<(), AllocError>
    ensures { OnOk result (bytes.new.items ≡ bytes.old.items ++ (tag ∷ to_be_bytes w16 n)) }
{
    bytes.push(tag)?;
    put_number(bytes, n)
}

/// Puts a byte behind others.
fn put_byte(bytes: &mut Vec<u8>, byte: u8) -> Result<(), AllocError>
    ensures { OnOk result (bytes.new.items ≡ bytes.old.items ++ byte ∷ []) }
{
    bytes.push(byte)?;
    Ok(())
}

fn put_type(bytes: &mut Vec<u8>, t: RawType) -> Result<(), AllocError>
    requires { HasBytes t }
    ensures spelled { OnOk result (bytes.new.items ≡ bytes.old.items ++ type_text t) }
    ensures fits { TypeFits t }
{
    match t {
        RawType::Top => put_byte(bytes, 0),
        RawType::Int => put_byte(bytes, 1),
        RawType::Long => put_byte(bytes, 4),
        RawType::Null => put_byte(bytes, 5),
        RawType::UninitThis => put_byte(bytes, 6),
        RawType::Object(index) => put_tagged(bytes, 7, index),
        RawType::Uninit(offset) => put_tagged(bytes, 8, offset),
        RawType::First(_) => unreachable!(),
    }
}

/// Puts types behind other bytes, one after the other.
#[tactic(auto, using(std::proofs::lemmas::List::flat_map_more, std::proofs::lemmas::List::take_more_same))]
fn put_all(bytes: &mut Vec<u8>, types: &[RawType]) -> Result<(), AllocError>
    requires { All HasBytes types.now }
    ensures spelled { OnOk result (bytes.new.items ≡ bytes.old.items ++ flat_map type_text types.now) }
    ensures fits { OnOk result (All TypeFits types.now) }
{
    for t in types {
        put_type(bytes, *t)?;
    }
    Ok(())
}

/// Puts types behind other bytes, with their count before them.
fn put_types(bytes: &mut Vec<u8>, types: &Seq<RawType>) -> Result<(), AllocError>
    requires few { length types.now ≤ 65535 }
    requires have { All HasBytes types.now }
    ensures spelled { OnOk result (bytes.new.items ≡ bytes.old.items ++ types_text types.now) }
    ensures fits { OnOk result (All TypeFits types.now) }
{
    put_number(bytes, types.len() as u16)?;
    put_all(bytes, types.as_slice())
}

/// Puts a frame behind other bytes, whose offset is at least `next`.
fn put_frame(bytes: &mut Vec<u8>, next: u32, frame: &RawFrame) -> Result<(), AllocError>
    requires ascends { next ≤ frame.now.offset }
    requires writable { IsWritable frame.now }
    ensures spelled { OnOk result (bytes.new.items ≡ bytes.old.items ++ frame_text next frame.now) }
    ensures fits { OnOk result (FrameFits frame.now) }
{
    put_tagged(bytes, 255, frame.offset - next as u16)?;
    put_types(bytes, &frame.locals)?;
    put_types(bytes, &frame.stack)
}

/// Puts frames behind other bytes.
fn put_frames(bytes: &mut Vec<u8>, frames: &[RawFrame]) -> Result<(), AllocError>
    requires ascending { Ascending 0 frames.now }
    requires writable { All IsWritable frames.now }
    ensures spelled { OnOk result (bytes.new.items ≡ bytes.old.items ++ frames_text 0 frames.now) }
    ensures fit { OnOk result (All FrameFits frames.now) }
{
    let mut next: u32 = 0;
    for frame in frames {
        put_frame(bytes, next, frame)?;
        next = u32::from(frame.offset) + 1;
    }
    Ok(())
}

/// Puts a table behind other bytes.
fn put_table(bytes: &mut Vec<u8>, frames: &[RawFrame]) -> Result<(), AllocError>
    requires ascending { Ascending 0 frames.now }
    requires few { length frames.now ≤ 65535 }
    requires writable { All IsWritable frames.now }
    ensures spelled { OnOk result (bytes.new.items ≡ bytes.old.items ++ table_text frames.now) }
    ensures fit { OnOk result (All FrameFits frames.now) }
{
    put_number(bytes, frames.len() as u16)?;
    put_frames(bytes, frames)
}

/// The bytes of the table of these frames, from number_of_entries on. Every frame is written as a full frame, of type 255.
///
/// Offsets ascend strictly; there are at most 65,535 frames, and in each at most 65,535 locals and entries of the stack;
/// none of these is `First`.
pub fn encode_frames(alloc: Global, frames: &[RawFrame]) -> Result<Bytes, AllocError>
    requires ascending { Ascending 0 frames.now }
    requires few { length frames.now ≤ 65535 }
    requires writable { All IsWritable frames.now }
    ensures spelled { IfOk result (λ bytes. bytes ≡ table_text frames.now) }
    ensures stands { IfOk result (λ bytes. (first : List raw.RawType) → StandsFor first bytes frames.now) }
    ensures reads_back { IfOk result (λ bytes. (first : List raw.RawType) → decoded first bytes ≡ Ok frames.now) }
{
    let mut bytes = Vec::new(alloc);
    put_table(&mut bytes, frames)?;
    Ok(Bytes::from_vec(bytes))
}
