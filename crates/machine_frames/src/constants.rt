//! Constants (JVMS 6.5, nop and aconst_null to ldc2_w).

ghost use Rattle.std.specs.Prelude.{◌≡◌, ◌<◌, OnErr, IfOk};
ghost use Rattle.class_model.specs.declared.insn.Insn.TheVariants as insn;
ghost use Rattle.machine_frames.specs.Acts.{Does};

use crate::flow::Flow;
use crate::frame::Frame;
use machine_words::{Tag, Word};
use std::alloc::AllocError;

pub fn nop<T: Tag>(frame: &mut Frame<T>) -> Flow
    requires { frame.old.next < usize.MAX }
    ensures { Does T.none_of T.join_of insn.Nop frame.old frame.new result }
{
    frame.next += 1;
    Flow::Next
}

pub fn push_null<T: Tag>(frame: &mut Frame<T>) -> Result<Flow, AllocError>
    requires { frame.old.next < usize.MAX }
    ensures ok { IfOk result (λ flow. Does T.none_of T.join_of insn.PushNull frame.old frame.new flow) }
    ensures err { OnErr result (frame.new ≡ frame.old) }
{
    frame.stack.push(Word::null())?;
    frame.next += 1;
    Ok(Flow::Next)
}

pub fn push_int<T: Tag>(frame: &mut Frame<T>, v: i32) -> Result<Flow, AllocError>
    requires { frame.old.next < usize.MAX }
    ensures ok { IfOk result (λ flow. Does T.none_of T.join_of (insn.PushInt v) frame.old frame.new flow) }
    ensures err { OnErr result (frame.new ≡ frame.old) }
{
    frame.stack.push(Word::num(v, T::none()))?;
    frame.next += 1;
    Ok(Flow::Next)
}

pub fn push_long<T: Tag>(frame: &mut Frame<T>, v: i64) -> Result<Flow, AllocError>
    requires { frame.old.next < usize.MAX }
    ensures ok { IfOk result (λ flow. Does T.none_of T.join_of (insn.PushLong v) frame.old frame.new flow) }
    ensures err { OnErr result (frame.new ≡ frame.old) }
{
    frame.stack.push_long(Word::long(v, T::none()))?;
    frame.next += 1;
    Ok(Flow::Next)
}
