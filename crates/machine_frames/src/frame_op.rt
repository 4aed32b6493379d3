//! The instructions that concern the top frame alone.

ghost use Rattle.std.specs.Prelude.{◌≡◌, ◌<◌, OnErr, IfOk};
ghost use Rattle.machine_frames.specs.Acts.{Does};
ghost use Rattle.machine_frames.specs.FrameOps.{IsBranch, IsMove, frame_insn};

use crate::arithmetic::{binary, increment, lcmp, negate, shift};
use crate::branches::{goto, if_int, if_null, if_ref, if_zero};
use crate::constants::{nop, push_int, push_long, push_null};
use crate::conversions::convert;
use crate::flow::Flow;
use crate::frame::Frame;
use crate::moves::{load, store};
use crate::shuffles::shuffle;
use class_model::{BinOp, Cond, Conv, Kind, ShiftOp, StackOp, Width};
use machine_words::Tag;
use std::alloc::AllocError;

/// An instruction of one of these shapes, as it stands in the class file.
#[derive(Clone, Copy, Debug)]
pub enum FrameOp {
    Nop,
    PushNull,
    PushInt(i32),
    PushLong(i64),
    Load(Kind, u16),
    Store(Kind, u16),
    Stack(StackOp),
    Bin(Width, BinOp),
    Shift(Width, ShiftOp),
    Neg(Width),
    Iinc(u16, i16),
    Convert(Conv),
    Lcmp,
    If(Cond, u32),
    IfInt(Cond, u32),
    IfRef(bool, u32),
    IfNull(bool, u32),
    Goto(u32),
}

/// One instruction of the top frame, by the definition's row. A refusal comes only of a stack without room, or of tags that
/// cannot be joined, and leaves the frame as it was.
pub fn advance<T: Tag>(frame: &mut Frame<T>, op: FrameOp) -> Result<Flow, AllocError>
    requires { frame.old.next < usize.MAX }
    ensures ok { IfOk result (λ flow. Does T.none_of T.join_of (frame_insn op) frame.old frame.new flow) }
    ensures err { OnErr result (frame.new ≡ frame.old) }
{
    match op {
        FrameOp::If(..)
        | FrameOp::IfInt(..)
        | FrameOp::IfRef(..)
        | FrameOp::IfNull(..)
        | FrameOp::Goto(_) => Ok(branch(frame, op)),
        FrameOp::Bin(width, op) => binary(frame, width, op),
        FrameOp::Shift(width, op) => shift(frame, width, op),
        FrameOp::Neg(width) => Ok(negate(frame, width)),
        FrameOp::Iinc(local, step) => Ok(increment(frame, local, step)),
        FrameOp::Convert(conv) => convert(frame, conv),
        FrameOp::Lcmp => lcmp(frame),
        _ => move_words(frame, op),
    }
}

fn move_words<T: Tag>(frame: &mut Frame<T>, op: FrameOp) -> Result<Flow, AllocError>
    requires room { frame.old.next < usize.MAX }
    requires family { IsMove op }
    ensures ok { IfOk result (λ flow. Does T.none_of T.join_of (frame_insn op) frame.old frame.new flow) }
    ensures err { OnErr result (frame.new ≡ frame.old) }
{
    match op {
        FrameOp::Nop => Ok(nop(frame)),
        FrameOp::PushNull => push_null(frame),
        FrameOp::PushInt(v) => push_int(frame, v),
        FrameOp::PushLong(v) => push_long(frame, v),
        FrameOp::Load(kind, local) => load(frame, kind, local),
        FrameOp::Store(kind, local) => Ok(store(frame, kind, local)),
        FrameOp::Stack(op) => shuffle(frame, op),
        _ => unreachable!(),
    }
}

fn branch<T: Tag>(frame: &mut Frame<T>, op: FrameOp) -> Flow
    requires room { frame.old.next < usize.MAX }
    requires family { IsBranch op }
    ensures { Does T.none_of T.join_of (frame_insn op) frame.old frame.new result }
{
    match op {
        FrameOp::If(cond, target) => if_zero(frame, cond, target),
        FrameOp::IfInt(cond, target) => if_int(frame, cond, target),
        FrameOp::IfRef(same, target) => if_ref(frame, same, target),
        FrameOp::IfNull(null, target) => if_null(frame, null, target),
        FrameOp::Goto(target) => goto(frame, target),
        _ => unreachable!(),
    }
}
