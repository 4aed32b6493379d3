//! Loads and stores (JVMS 6.5, iload to astore).

ghost use Rattle.std.specs.Prelude.{◌≡◌, ◌<◌, OnErr, IfOk};
ghost use Rattle.class_model.specs.declared.insn.Insn.TheVariants as insn;
ghost use Rattle.machine_frames.specs.Acts.{Does};

use crate::flow::Flow;
use crate::frame::Frame;
use crate::kinds::pop_kind;
use class_model::Kind;
use machine_words::{Shape, Tag};
use std::alloc::AllocError;

pub fn load<T: Tag>(frame: &mut Frame<T>, kind: Kind, local: u16) -> Result<Flow, AllocError>
    requires { frame.old.next < usize.MAX }
    ensures ok { IfOk result (λ flow. Does T.none_of T.join_of (insn.Load kind local) frame.old frame.new flow) }
    ensures err { OnErr result (frame.new ≡ frame.old) }
{
    let Some(word) = frame.locals.get(usize::from(local)) else {
        return Ok(Flow::Stuck);
    };
    match (kind, word.shape) {
        (Kind::Int, Shape::Num(..)) => frame.stack.push(word)?,
        (Kind::Long, Shape::Long(..)) => frame.stack.push_long(word)?,
        (Kind::Ref, Shape::Null) => frame.stack.push(word)?,
        (Kind::Ref, Shape::Ref(_)) => frame.stack.push(word)?,
        _ => return Ok(Flow::Stuck),
    }
    frame.next += 1;
    Ok(Flow::Next)
}

pub fn store<T: Tag>(frame: &mut Frame<T>, kind: Kind, local: u16) -> Flow
    requires { frame.old.next < usize.MAX }
    ensures { Does T.none_of T.join_of (insn.Store kind local) frame.old frame.new result }
{
    let Some(word) = pop_kind(&mut frame.stack, kind) else {
        return Flow::Stuck;
    };
    frame.locals.store(usize::from(local), word);
    frame.next += 1;
    Flow::Next
}
