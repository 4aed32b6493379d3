//! Arithmetic (JVMS 6.5, iadd to i2s, lcmp). What comes of two numbers has the join of their tags.

ghost use Rattle.std.specs.Prelude.{◌≡◌, ◌<◌, OnErr, IfOk};
ghost use Rattle.class_model.specs.declared.insn.Insn.TheVariants as insn;
ghost use Rattle.machine_frames.specs.Acts.{Does};

use crate::flow::{Fault, Flow};
use crate::frame::Frame;
use class_model::{BinOp, ShiftOp, Width};
use machine_words::{Shape, Tag, Word, compare, int_of, long_of, shift_int, shift_long};
use std::alloc::AllocError;

pub fn binary<T: Tag>(frame: &mut Frame<T>, width: Width, op: BinOp) -> Result<Flow, AllocError>
    requires { frame.old.next < usize.MAX }
    ensures ok { IfOk result (λ flow. Does T.none_of T.join_of (insn.Bin width op) frame.old frame.new flow) }
    ensures err { OnErr result (frame.new ≡ frame.old) }
{
    match width {
        Width::Int => binary_ints(frame, op),
        Width::Long => binary_longs(frame, op),
    }
}

fn binary_ints<T: Tag>(frame: &mut Frame<T>, op: BinOp) -> Result<Flow, AllocError>
    requires { frame.old.next < usize.MAX }
    ensures ok { IfOk result (λ flow. Does T.none_of T.join_of (insn.Bin Width.Int op) frame.old frame.new flow) }
    ensures err { OnErr result (frame.new ≡ frame.old) }
{
    let (Some((a, t)), Some((b, u))) = (frame.stack.int_at(1), frame.stack.int_at(0)) else {
        return Ok(Flow::Stuck);
    };
    if b == 0 && (op == BinOp::Div || op == BinOp::Rem) {
        return Ok(Flow::Throws(Fault::Arithmetic));
    }
    let tag = t.join(u)?;
    frame.stack.replace(2, Word::num(int_of(op, a, b), tag));
    frame.next += 1;
    Ok(Flow::Next)
}

fn binary_longs<T: Tag>(frame: &mut Frame<T>, op: BinOp) -> Result<Flow, AllocError>
    requires { frame.old.next < usize.MAX }
    ensures ok { IfOk result (λ flow. Does T.none_of T.join_of (insn.Bin Width.Long op) frame.old frame.new flow) }
    ensures err { OnErr result (frame.new ≡ frame.old) }
{
    let (Some((a, t)), Some((b, u))) = (frame.stack.long_at(2), frame.stack.long_at(0)) else {
        return Ok(Flow::Stuck);
    };
    if b == 0 && (op == BinOp::Div || op == BinOp::Rem) {
        return Ok(Flow::Throws(Fault::Arithmetic));
    }
    let tag = t.join(u)?;
    frame
        .stack
        .replace_long(4, Word::long(long_of(op, a, b), tag));
    frame.next += 1;
    Ok(Flow::Next)
}

pub fn shift<T: Tag>(frame: &mut Frame<T>, width: Width, op: ShiftOp) -> Result<Flow, AllocError>
    requires { frame.old.next < usize.MAX }
    ensures ok { IfOk result (λ flow. Does T.none_of T.join_of (insn.Shift width op) frame.old frame.new flow) }
    ensures err { OnErr result (frame.new ≡ frame.old) }
{
    let Some((count, u)) = frame.stack.int_at(0) else {
        return Ok(Flow::Stuck);
    };
    match width {
        Width::Int => {
            let Some((v, t)) = frame.stack.int_at(1) else {
                return Ok(Flow::Stuck);
            };
            let tag = t.join(u)?;
            frame
                .stack
                .replace(2, Word::num(shift_int(op, v, count), tag));
        }
        Width::Long => {
            let Some((v, t)) = frame.stack.long_at(1) else {
                return Ok(Flow::Stuck);
            };
            let tag = t.join(u)?;
            frame
                .stack
                .replace_long(3, Word::long(shift_long(op, v, count), tag));
        }
    }
    frame.next += 1;
    Ok(Flow::Next)
}

pub fn negate<T: Tag>(frame: &mut Frame<T>, width: Width) -> Flow
    requires { frame.old.next < usize.MAX }
    ensures { Does T.none_of T.join_of (insn.Neg width) frame.old frame.new result }
{
    match width {
        Width::Int => {
            let Some((v, t)) = frame.stack.int_at(0) else {
                return Flow::Stuck;
            };
            frame.stack.replace(1, Word::num(v.wrapping_neg(), t));
        }
        Width::Long => {
            let Some((v, t)) = frame.stack.long_at(0) else {
                return Flow::Stuck;
            };
            frame.stack.replace_long(2, Word::long(v.wrapping_neg(), t));
        }
    }
    frame.next += 1;
    Flow::Next
}

/// Adds a constant to an int local, which keeps its tag.
pub fn increment<T: Tag>(frame: &mut Frame<T>, local: u16, step: i16) -> Flow
    requires { frame.old.next < usize.MAX }
    ensures { Does T.none_of T.join_of (insn.Iinc local step) frame.old frame.new result }
{
    let Some(word) = frame.locals.get(usize::from(local)) else {
        return Flow::Stuck;
    };
    match word.shape {
        Shape::Num(v, t) => {
            let sum = Word::num(v.wrapping_add(i32::from(step)), t);
            frame.locals.set(usize::from(local), sum);
            frame.next += 1;
            Flow::Next
        }
        _ => Flow::Stuck,
    }
}

pub fn lcmp<T: Tag>(frame: &mut Frame<T>) -> Result<Flow, AllocError>
    requires { frame.old.next < usize.MAX }
    ensures ok { IfOk result (λ flow. Does T.none_of T.join_of insn.Lcmp frame.old frame.new flow) }
    ensures err { OnErr result (frame.new ≡ frame.old) }
{
    let (Some((a, t)), Some((b, u))) = (frame.stack.long_at(2), frame.stack.long_at(0)) else {
        return Ok(Flow::Stuck);
    };
    let tag = t.join(u)?;
    frame.stack.replace(4, Word::num(compare(a, b), tag));
    frame.next += 1;
    Ok(Flow::Next)
}
