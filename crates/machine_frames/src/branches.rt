//! Branches (JVMS 6.5, ifeq to goto). No tag is followed through a condition.

ghost use Rattle.std.specs.Prelude.{◌≡◌, ◌<◌};
ghost use Rattle.class_model.specs.declared.insn.Insn.TheVariants as insn;
ghost use Rattle.run_state.specs.Operands.{same_place};
ghost use Rattle.machine_frames.specs.Acts.{Does};

use crate::flow::Flow;
use crate::frame::Frame;
use crate::kinds::pop_place;
use class_model::Cond;
use machine_words::{Tag, holds};

pub fn goto<T: Tag>(frame: &mut Frame<T>, target: u32) -> Flow
    requires { frame.old.next < usize.MAX }
    ensures { Does T.none_of T.join_of (insn.Goto target) frame.old frame.new result }
{
    frame.next = target as usize;
    Flow::Next
}

pub fn if_zero<T: Tag>(frame: &mut Frame<T>, cond: Cond, target: u32) -> Flow
    requires { frame.old.next < usize.MAX }
    ensures { Does T.none_of T.join_of (insn.If cond target) frame.old frame.new result }
{
    let Some((v, _)) = frame.stack.int_at(0) else {
        return Flow::Stuck;
    };
    frame.stack.drop_top();
    if holds(cond, v, 0) {
        frame.next = target as usize;
    } else {
        frame.next += 1;
    }
    Flow::Next
}

pub fn if_int<T: Tag>(frame: &mut Frame<T>, cond: Cond, target: u32) -> Flow
    requires { frame.old.next < usize.MAX }
    ensures { Does T.none_of T.join_of (insn.IfInt cond target) frame.old frame.new result }
{
    let (Some((a, _)), Some((b, _))) = (frame.stack.int_at(1), frame.stack.int_at(0)) else {
        return Flow::Stuck;
    };
    frame.stack.drop_tops(2);
    if holds(cond, a, b) {
        frame.next = target as usize;
    } else {
        frame.next += 1;
    }
    Flow::Next
}

pub fn if_null<T: Tag>(frame: &mut Frame<T>, null: bool, target: u32) -> Flow
    requires { frame.old.next < usize.MAX }
    ensures { Does T.none_of T.join_of (insn.IfNull null target) frame.old frame.new result }
{
    let Some(place) = pop_place(&mut frame.stack) else {
        return Flow::Stuck;
    };
    if place.is_none() == null {
        frame.next = target as usize;
    } else {
        frame.next += 1;
    }
    Flow::Next
}

pub fn if_ref<T: Tag>(frame: &mut Frame<T>, same: bool, target: u32) -> Flow
    requires { frame.old.next < usize.MAX }
    ensures { Does T.none_of T.join_of (insn.IfRef same target) frame.old frame.new result }
{
    let Some(above) = pop_place(&mut frame.stack) else {
        return Flow::Stuck;
    };
    let Some(below) = pop_place(&mut frame.stack) else {
        return Flow::Stuck;
    };
    if are_same(below, above) == same {
        frame.next = target as usize;
    } else {
        frame.next += 1;
    }
    Flow::Next
}

/// Whether two places are one, none among them.
fn are_same(a: Option<u64>, b: Option<u64>) -> bool
    ensures { result ≡ same_place a b }
{
    match (a, b) {
        (None, None) => true,
        (Some(a), Some(b)) => a == b,
        _ => false,
    }
}
