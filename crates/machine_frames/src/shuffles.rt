//! The stack operations (JVMS 6.5, pop to swap): words change their places, whatever they hold.

ghost use Rattle.std.specs.Prelude.{◌≡◌, ◌<◌, OnErr, IfOk};
ghost use Rattle.class_model.specs.declared.insn.Insn.TheVariants as insn;
ghost use Rattle.machine_frames.specs.Acts.{Does};

use crate::flow::Flow;
use crate::frame::Frame;
use class_model::StackOp;
use machine_words::Tag;
use std::alloc::AllocError;

pub fn shuffle<T: Tag>(frame: &mut Frame<T>, op: StackOp) -> Result<Flow, AllocError>
    requires { frame.old.next < usize.MAX }
    ensures ok { IfOk result (λ flow. Does T.none_of T.join_of (insn.Stack op) frame.old frame.new flow) }
    ensures err { OnErr result (frame.new ≡ frame.old) }
{
    match op {
        StackOp::Pop => Ok(pop(frame)),
        StackOp::Pop2 => Ok(pop2(frame)),
        StackOp::Dup => dup(frame),
        StackOp::DupX1 => dup_x1(frame),
        StackOp::DupX2 => dup_x2(frame),
        StackOp::Dup2 => dup2(frame),
        StackOp::Dup2X1 => dup2_x1(frame),
        StackOp::Dup2X2 => dup2_x2(frame),
        StackOp::Swap => Ok(swap(frame)),
    }
}

fn pop<T: Tag>(frame: &mut Frame<T>) -> Flow
    requires { frame.old.next < usize.MAX }
    ensures { Does T.none_of T.join_of (insn.Stack StackOp.Pop) frame.old frame.new result }
{
    let Some(_) = frame.stack.pop() else {
        return Flow::Stuck;
    };
    frame.next += 1;
    Flow::Next
}

fn pop2<T: Tag>(frame: &mut Frame<T>) -> Flow
    requires { frame.old.next < usize.MAX }
    ensures { Does T.none_of T.join_of (insn.Stack StackOp.Pop2) frame.old frame.new result }
{
    let (Some(_), Some(_)) = (frame.stack.pop(), frame.stack.pop()) else {
        return Flow::Stuck;
    };
    frame.next += 1;
    Flow::Next
}

fn dup<T: Tag>(frame: &mut Frame<T>) -> Result<Flow, AllocError>
    requires { frame.old.next < usize.MAX }
    ensures ok { IfOk result (λ flow. Does T.none_of T.join_of (insn.Stack StackOp.Dup) frame.old frame.new flow) }
    ensures err { OnErr result (frame.new ≡ frame.old) }
{
    let Some(a) = frame.stack.peek(0) else {
        return Ok(Flow::Stuck);
    };
    frame.stack.push(a)?;
    frame.next += 1;
    Ok(Flow::Next)
}

fn dup_x1<T: Tag>(frame: &mut Frame<T>) -> Result<Flow, AllocError>
    requires { frame.old.next < usize.MAX }
    ensures ok { IfOk result (λ flow. Does T.none_of T.join_of (insn.Stack StackOp.DupX1) frame.old frame.new flow) }
    ensures err { OnErr result (frame.new ≡ frame.old) }
{
    let (Some(a), Some(b)) = (frame.stack.peek(0), frame.stack.peek(1)) else {
        return Ok(Flow::Stuck);
    };
    frame.stack.push(a)?;
    frame.stack.set(1, b);
    frame.stack.set(2, a);
    frame.next += 1;
    Ok(Flow::Next)
}

fn dup_x2<T: Tag>(frame: &mut Frame<T>) -> Result<Flow, AllocError>
    requires { frame.old.next < usize.MAX }
    ensures ok { IfOk result (λ flow. Does T.none_of T.join_of (insn.Stack StackOp.DupX2) frame.old frame.new flow) }
    ensures err { OnErr result (frame.new ≡ frame.old) }
{
    let (Some(a), Some(b), Some(c)) = (
        frame.stack.peek(0),
        frame.stack.peek(1),
        frame.stack.peek(2),
    ) else {
        return Ok(Flow::Stuck);
    };
    frame.stack.push(a)?;
    frame.stack.set(1, b);
    frame.stack.set(2, c);
    frame.stack.set(3, a);
    frame.next += 1;
    Ok(Flow::Next)
}

fn dup2<T: Tag>(frame: &mut Frame<T>) -> Result<Flow, AllocError>
    requires { frame.old.next < usize.MAX }
    ensures ok { IfOk result (λ flow. Does T.none_of T.join_of (insn.Stack StackOp.Dup2) frame.old frame.new flow) }
    ensures err { OnErr result (frame.new ≡ frame.old) }
{
    let (Some(a), Some(b)) = (frame.stack.peek(0), frame.stack.peek(1)) else {
        return Ok(Flow::Stuck);
    };
    frame.stack.push_two(b, a)?;
    frame.next += 1;
    Ok(Flow::Next)
}

fn dup2_x1<T: Tag>(frame: &mut Frame<T>) -> Result<Flow, AllocError>
    requires { frame.old.next < usize.MAX }
    ensures ok { IfOk result (λ flow. Does T.none_of T.join_of (insn.Stack StackOp.Dup2X1) frame.old frame.new flow) }
    ensures err { OnErr result (frame.new ≡ frame.old) }
{
    let (Some(a), Some(b), Some(c)) = (
        frame.stack.peek(0),
        frame.stack.peek(1),
        frame.stack.peek(2),
    ) else {
        return Ok(Flow::Stuck);
    };
    frame.stack.push_two(b, a)?;
    frame.stack.set(2, c);
    frame.stack.set(3, a);
    frame.stack.set(4, b);
    frame.next += 1;
    Ok(Flow::Next)
}

fn dup2_x2<T: Tag>(frame: &mut Frame<T>) -> Result<Flow, AllocError>
    requires { frame.old.next < usize.MAX }
    ensures ok { IfOk result (λ flow. Does T.none_of T.join_of (insn.Stack StackOp.Dup2X2) frame.old frame.new flow) }
    ensures err { OnErr result (frame.new ≡ frame.old) }
{
    let (Some(a), Some(b)) = (frame.stack.peek(0), frame.stack.peek(1)) else {
        return Ok(Flow::Stuck);
    };
    let (Some(c), Some(d)) = (frame.stack.peek(2), frame.stack.peek(3)) else {
        return Ok(Flow::Stuck);
    };
    frame.stack.push_two(b, a)?;
    frame.stack.set(2, c);
    frame.stack.set(3, d);
    frame.stack.set(4, a);
    frame.stack.set(5, b);
    frame.next += 1;
    Ok(Flow::Next)
}

fn swap<T: Tag>(frame: &mut Frame<T>) -> Flow
    requires { frame.old.next < usize.MAX }
    ensures { Does T.none_of T.join_of (insn.Stack StackOp.Swap) frame.old frame.new result }
{
    let (Some(a), Some(b)) = (frame.stack.peek(0), frame.stack.peek(1)) else {
        return Flow::Stuck;
    };
    frame.stack.set(0, b);
    frame.stack.set(1, a);
    frame.next += 1;
    Flow::Next
}
