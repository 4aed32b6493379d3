//! Conversions (JVMS 6.5, i2l to i2s). The tag is kept.

ghost use Rattle.std.specs.Prelude.{◌≡◌, ◌<◌, OnErr, IfOk};
ghost use Rattle.class_model.specs.declared.insn.Insn.TheVariants as insn;
ghost use Rattle.machine_frames.specs.Acts.{Does};

use crate::flow::Flow;
use crate::frame::Frame;
use class_model::Conv;
use machine_words::{Tag, Word, int_to_byte, int_to_char, int_to_short, long_to_int};
use std::alloc::AllocError;

pub fn convert<T: Tag>(frame: &mut Frame<T>, conv: Conv) -> Result<Flow, AllocError>
    requires { frame.old.next < usize.MAX }
    ensures ok { IfOk result (λ flow. Does T.none_of T.join_of (insn.Convert conv) frame.old frame.new flow) }
    ensures err { OnErr result (frame.new ≡ frame.old) }
{
    match conv {
        Conv::IntLong => lengthen(frame),
        Conv::LongInt => Ok(shorten(frame)),
        Conv::IntByte => Ok(narrow_byte(frame)),
        Conv::IntChar => Ok(narrow_char(frame)),
        Conv::IntShort => Ok(narrow_short(frame)),
    }
}

fn lengthen<T: Tag>(frame: &mut Frame<T>) -> Result<Flow, AllocError>
    requires { frame.old.next < usize.MAX }
    ensures ok { IfOk result (λ flow. Does T.none_of T.join_of (insn.Convert Conv.IntLong) frame.old frame.new flow) }
    ensures err { OnErr result (frame.new ≡ frame.old) }
{
    let Some((v, t)) = frame.stack.int_at(0) else {
        return Ok(Flow::Stuck);
    };
    frame.stack.push(Word::half())?;
    frame.stack.set(1, Word::long(i64::from(v), t));
    frame.next += 1;
    Ok(Flow::Next)
}

fn shorten<T: Tag>(frame: &mut Frame<T>) -> Flow
    requires { frame.old.next < usize.MAX }
    ensures { Does T.none_of T.join_of (insn.Convert Conv.LongInt) frame.old frame.new result }
{
    let Some((v, t)) = frame.stack.long_at(0) else {
        return Flow::Stuck;
    };
    frame.stack.replace(2, Word::num(long_to_int(v), t));
    frame.next += 1;
    Flow::Next
}

fn narrow_byte<T: Tag>(frame: &mut Frame<T>) -> Flow
    requires { frame.old.next < usize.MAX }
    ensures { Does T.none_of T.join_of (insn.Convert Conv.IntByte) frame.old frame.new result }
{
    let Some((v, t)) = frame.stack.int_at(0) else {
        return Flow::Stuck;
    };
    frame.stack.replace(1, Word::num(int_to_byte(v), t));
    frame.next += 1;
    Flow::Next
}

fn narrow_char<T: Tag>(frame: &mut Frame<T>) -> Flow
    requires { frame.old.next < usize.MAX }
    ensures { Does T.none_of T.join_of (insn.Convert Conv.IntChar) frame.old frame.new result }
{
    let Some((v, t)) = frame.stack.int_at(0) else {
        return Flow::Stuck;
    };
    frame.stack.replace(1, Word::num(int_to_char(v), t));
    frame.next += 1;
    Flow::Next
}

fn narrow_short<T: Tag>(frame: &mut Frame<T>) -> Flow
    requires { frame.old.next < usize.MAX }
    ensures { Does T.none_of T.join_of (insn.Convert Conv.IntShort) frame.old frame.new result }
{
    let Some((v, t)) = frame.stack.int_at(0) else {
        return Flow::Stuck;
    };
    frame.stack.replace(1, Word::num(int_to_short(v), t));
    frame.next += 1;
    Flow::Next
}
