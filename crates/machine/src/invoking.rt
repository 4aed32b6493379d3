//! What calls come to (JVMS 6.5, invokestatic, invokespecial, invokevirtual, invokeinterface).

ghost use Rattle.std.specs.Prelude.{◌≡◌, List, ℕ};
ghost use Rattle.linked_code.specs.Linked as linked;
ghost use Rattle.machine.specs.Aimed.{Aims, IsCallOp, entering, selected_by, special_by};
ghost use Rattle.machine.specs.Called.{receiver_in};

use crate::catching::is_among;
use crate::operands::{Held, holding};
use crate::state::Areas;
use linked_code::{Call, Op, Program, Selection};
use machine_frames::{Fault, Frame};
use machine_words::{Stack, Tag};

/// What a call comes to: it enters the method of a number with so many words, it throws, or it has no operand.
#[derive(Clone, Copy, Debug)]
pub enum Aim {
    Enters(u32, u32),
    Throws(Fault),
    Nowhere,
}

/// What the receiver of a call is: the lowest of its words.
fn receiver<T: Tag>(stack: &Stack<T>, words: u32) -> Held
    ensures { result ≡ receiver_in words stack.now }
{
    if words == 0 {
        return Held::Nothing;
    }
    holding(stack.peek(words as usize - 1))
}

/// The method of the first selection of a number.
fn selection(selections: &[Selection], selector: u32) -> Option<u32>
    ensures { result ≡ linked.selection selections.now selector }
{
    for one in selections {
        if one.selector == selector {
            return Some(one.method);
        }
    }
    None
}

/// The method that a call enters for an object of a class.
fn selected<T: Tag>(program: &Program<T>, class: u32, call: &Call) -> Option<u32>
    ensures { result ≡ selected_by program.now class call.now }
{
    selection(program.class(class).selects.as_slice(), call.selector)
}

/// The method that a special call enters from a method of a class: the one that it resolves to, where that is a constructor or
/// a method of this class; else the one that the direct superclass selects.
fn special<T: Tag>(program: &Program<T>, class: u32, call: &Call) -> Option<u32>
    ensures { result ≡ special_by program.now class call.now call.now.resolved }
{
    let Some(found) = call.resolved else {
        return None;
    };
    if call.is_constructor || program.method(found).class == class {
        return Some(found);
    }
    match program.class(class).above {
        Some(above) => selected(program, above, call),
        None => None,
    }
}

/// A method that is entered with so many words, where there is one.
fn entering(method: Option<u32>, words: u32) -> Aim
    ensures { result ≡ entering method words }
{
    match method {
        Some(method) => Aim::Enters(method, words),
        None => Aim::Nowhere,
    }
}

/// What a call on an object comes to, where the method is selected by the object's class.
fn aim_virtual<T: Tag>(program: &Program<T>, frame: &Frame<T>, areas: &Areas<T>, number: u32) -> Aim
    ensures { Aims T.none_of T.join_of program.now (Op.InvokeVirtual number) frame.now areas.now result }
{
    let Some(call) = program.calls.get(number as usize) else {
        return Aim::Nowhere;
    };
    let at = match receiver(&frame.stack, call.words) {
        Held::Item(at) => at,
        Held::Null => return Aim::Throws(Fault::NullPointer),
        Held::Nothing => return Aim::Nowhere,
    };
    let Some(item) = areas.heap.item(at) else {
        return Aim::Nowhere;
    };
    let class = program.ty(item.ty).receiver;
    entering(selected(program, class, call), call.words)
}

/// The same on an object whose type is to be that of an interface.
fn aim_interface<T: Tag>(
    program: &Program<T>,
    frame: &Frame<T>,
    areas: &Areas<T>,
    number: u32,
) -> Aim
    ensures { Aims T.none_of T.join_of program.now (Op.InvokeInterface number) frame.now areas.now result }
{
    let Some(call) = program.calls.get(number as usize) else {
        return Aim::Nowhere;
    };
    let at = match receiver(&frame.stack, call.words) {
        Held::Item(at) => at,
        Held::Null => return Aim::Throws(Fault::NullPointer),
        Held::Nothing => return Aim::Nowhere,
    };
    let Some(item) = areas.heap.item(at) else {
        return Aim::Nowhere;
    };
    let ty = program.ty(item.ty);
    if !is_among(ty.fits.as_slice(), call.ty) {
        return Aim::Throws(Fault::IncompatibleChange);
    }
    entering(selected(program, ty.receiver, call), call.words)
}

/// The same where the method is told by the call, not by the object.
fn aim_special<T: Tag>(program: &Program<T>, frame: &Frame<T>, areas: &Areas<T>, number: u32) -> Aim
    ensures { Aims T.none_of T.join_of program.now (Op.InvokeSpecial number) frame.now areas.now result }
{
    let Some(call) = program.calls.get(number as usize) else {
        return Aim::Nowhere;
    };
    let at = match receiver(&frame.stack, call.words) {
        Held::Item(at) => at,
        Held::Null => return Aim::Throws(Fault::NullPointer),
        Held::Nothing => return Aim::Nowhere,
    };
    let class = program.method(frame.method).class;
    match areas.heap.item(at) {
        Some(_) => entering(special(program, class, call), call.words),
        None => Aim::Nowhere,
    }
}

/// What a call comes to.
pub fn aim_of<T: Tag>(program: &Program<T>, frame: &Frame<T>, areas: &Areas<T>, op: Op) -> Aim
    requires { IsCallOp op }
    ensures { Aims T.none_of T.join_of program.now op frame.now areas.now result }
{
    match op {
        Op::InvokeStatic(number) => Aim::Enters(number, program.method(number).params),
        Op::InvokeSpecial(number) => aim_special(program, frame, areas, number),
        Op::InvokeVirtual(number) => aim_virtual(program, frame, areas, number),
        Op::InvokeInterface(number) => aim_interface(program, frame, areas, number),
        _ => unreachable!(),
    }
}
