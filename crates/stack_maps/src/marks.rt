//! The places of a table that are judged by what they name.

ghost use Rattle.std.specs.Prelude.{◌≡◌, ◌+◌, ◌++◌, ◌<◌, ◌≤◌, ◌^◌, All, IfOk, OnOk, length};
ghost use Rattle.stack_maps.specs.Bounds.{AreSmall, SmallLocals, IsSmall};
ghost use Rattle.stack_maps.specs.Marks as marking;

use crate::frame::RawType;
use crate::written::{Entries, Locals, Written};
use lists::Seq;
use std::alloc::{AllocError, Global};

/// A number of a frame that is judged by what it names.
#[derive(Clone, Copy, Debug, PartialEq, Eq)]
pub enum Mark {
    /// The offset delta of the frame.
    Delta(u16),
    /// The index of a class in the constant pool.
    Object(u16),
    /// The offset of a `new` instruction, in bytes from the start of the code.
    Uninit(u16),
}

/// A number of a frame, by the frame's number from 0, and its place as an offset in the bytes of the table. The place of a
/// delta that the type byte holds is that byte.
#[derive(Clone, Copy, Debug, PartialEq, Eq)]
pub struct FrameMark {
    pub frame: u32,
    pub place: usize,
    pub mark: Mark,
}

fn size_of(t: RawType) -> usize
    ensures value { result ≡ marking.size_of t }
    ensures small { result ≤ 3 }
{
    match t {
        RawType::Object(_) | RawType::Uninit(_) => 3,
        _ => 1,
    }
}

fn mark_of(t: RawType) -> Option<Mark>
    ensures { result ≡ marking.mark_of t }
{
    match t {
        RawType::Object(index) => Some(Mark::Object(index)),
        RawType::Uninit(offset) => Some(Mark::Uninit(offset)),
        _ => None,
    }
}

/// Puts a mark at the end, where there is one.
fn put_mark(
    marks: &mut Seq<FrameMark>,
    frame: u32,
    place: usize,
    mark: Option<Mark>,
) -> Result<(), AllocError>
    ensures { OnOk result (marks.new ≡ marks.old ++ marking.marks_at frame place mark) }
{
    match mark {
        Some(mark) => marks.push(FrameMark { frame, place, mark }),
        None => Ok(()),
    }
}

/// Puts the marks of types at the end.
#[tactic(auto, using(crate::proofs::MarkLoops::types_go_on, crate::proofs::MarkLoops::types_are_done))]
fn put_types(marks: &mut Seq<FrameMark>, frame: u32, entries: &Entries) -> Result<(), AllocError>
    requires { AreSmall entries.now }
    ensures { OnOk result (marks.new ≡ marks.old ++ marking.type_marks frame entries.now.at entries.now.types) }
{
    let mut place = entries.at;
    for t in entries.types.as_slice() {
        put_mark(marks, frame, place + 1, mark_of(*t))?;
        place += size_of(*t);
    }
    Ok(())
}

fn put_locals(marks: &mut Seq<FrameMark>, frame: u32, locals: &Locals) -> Result<(), AllocError>
    requires { SmallLocals locals.now }
    ensures { OnOk result (marks.new ≡ marks.old ++ marking.locals_marks frame locals.now) }
{
    match locals {
        Locals::Kept | Locals::Chop(_) => Ok(()),
        Locals::Append(entries) | Locals::Full(entries) => put_types(marks, frame, entries),
    }
}

/// Puts the marks of a frame of a number at the end.
fn put_frame(marks: &mut Seq<FrameMark>, number: u32, frame: &Written) -> Result<(), AllocError>
    requires { IsSmall frame.now }
    ensures { OnOk result (marks.new ≡ marks.old ++ marking.frame_marks number frame.now) }
{
    put_mark(
        marks,
        number,
        frame.delta_at,
        Some(Mark::Delta(frame.delta)),
    )?;
    put_locals(marks, number, &frame.locals)?;
    put_types(marks, number, &frame.stack)
}

/// The marks of frames, in the order of the bytes.
#[tactic(auto, using(crate::proofs::MarkLoops::frames_go_on, crate::proofs::MarkLoops::frames_are_done))]
pub fn marks_of(alloc: Global, written: &[Written]) -> Result<Seq<FrameMark>, AllocError>
    requires small { All IsSmall written.now }
    requires few { length written.now ≤ 65535 }
    ensures { IfOk result (λ marks. marks ≡ marking.table_marks 0 written.now) }
{
    let mut marks = Seq::new(alloc);
    for (number, frame) in written.iter().enumerate() {
        put_frame(&mut marks, number as u32, frame)?;
    }
    Ok(marks)
}
