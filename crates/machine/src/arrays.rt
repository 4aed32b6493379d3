//! Arrays (JVMS 6.5, arraylength, iaload to saload, iastore to sastore).

ghost use Rattle.std.specs.Prelude.{◌≡◌, ◌<◌, OnErr, IfOk};
ghost use Rattle.machine.specs.Acted.{Acts, Stays};
ghost use Rattle.run_state.specs.Objects as objects;
ghost use Rattle.linked_code.specs.declared.program.Program.{Program as AProgram};

use crate::operands::{Held, holding, put_value_for_two};
use crate::state::Areas;
use crate::types::refers;
use crate::values::{kind_at, narrowed, words_of};
use class_model::{Elem, Kind};
use linked_code::{Op, Program};
use lists::Seq;
use machine_frames::{Fault, Flow, Frame};
use machine_words::{Tag, Word};
use std::alloc::AllocError;

/// The kind of an element.
fn kind_of(element: Elem) -> Kind
    ensures { result ≡ objects.kind_of_elem element }
{
    match element {
        Elem::Int | Elem::Byte | Elem::Char | Elem::Short => Kind::Int,
        Elem::Long => Kind::Long,
        Elem::Ref => Kind::Ref,
    }
}

/// The element of an index, where there is one.
fn element_at<T: Tag>(cells: &Seq<Word<T>>, index: i32) -> Option<Word<T>>
    ensures { result ≡ objects.element cells.now index }
{
    if index < 0 {
        return None;
    }
    cells.get(index as usize).copied()
}

/// The place of an element of an index that is there.
fn place_of(index: i32) -> usize
    ensures { result ≡ objects.index_of index }
{
    if index < 0 {
        return 0;
    }
    index as usize
}

/// Puts the length of an array in its place. An item of more cells than an int can tell is never made, since the count of an
/// array's elements is an int.
pub fn array_length<T: Tag>(frame: &mut Frame<T>, areas: &Areas<T>) -> Result<Flow, AllocError>
    requires { frame.old.next < usize.MAX }
    ensures ok { IfOk result (λ flow. (p : AProgram T) → Acts T.none_of T.join_of p Op.ArrayLength frame.old areas.now flow frame.new areas.now) }
    ensures kept { IfOk result (λ flow. Stays flow frame.old areas.now frame.new areas.now) }
    ensures err { OnErr result (frame.new ≡ frame.old) }
{
    let at = match holding(frame.stack.peek(0)) {
        Held::Item(at) => at,
        Held::Null => return Ok(Flow::Throws(Fault::NullPointer)),
        Held::Nothing => return Ok(Flow::Stuck),
    };
    let Some(item) = areas.heap.item(at) else {
        return Ok(Flow::Stuck);
    };
    let Ok(length) = i32::try_from(item.cells.len()) else {
        return Err(AllocError);
    };
    frame.stack.replace(1, Word::num(length, T::none()));
    frame.next += 1;
    Ok(Flow::Next)
}

/// Puts an element in the place of its array and its index.
pub fn array_load<T: Tag>(frame: &mut Frame<T>, areas: &Areas<T>, element: Elem) -> Flow
    requires { frame.old.next < usize.MAX }
    ensures ok { (p : AProgram T) → Acts T.none_of T.join_of p (Op.ArrayLoad element) frame.old areas.now result frame.new areas.now }
    ensures kept { Stays result frame.old areas.now frame.new areas.now }
{
    let Some((index, _)) = frame.stack.int_at(0) else {
        return Flow::Stuck;
    };
    let at = match holding(frame.stack.peek(1)) {
        Held::Item(at) => at,
        Held::Null => return Flow::Throws(Fault::NullPointer),
        Held::Nothing => return Flow::Stuck,
    };
    let Some(item) = areas.heap.item(at) else {
        return Flow::Stuck;
    };
    let Some(cell) = element_at(&item.cells, index) else {
        return Flow::Throws(Fault::ArrayIndex);
    };
    put_value_for_two(&mut frame.stack, cell);
    frame.next += 1;
    Flow::Next
}

/// Writes the topmost value into an array, at the index below it, where the array's elements take it.
pub fn array_store<T: Tag>(
    program: &Program<T>,
    frame: &mut Frame<T>,
    areas: &mut Areas<T>,
    element: Elem,
) -> Flow
    requires { frame.old.next < usize.MAX }
    ensures ok { Acts T.none_of T.join_of program.now (Op.ArrayStore element) frame.old areas.old result frame.new areas.new }
    ensures kept { Stays result frame.old areas.old frame.new areas.new }
{
    let kind = kind_of(element);
    let Some(value) = kind_at(&frame.stack, kind) else {
        return Flow::Stuck;
    };
    let words = words_of(kind);
    let Some((index, _)) = frame.stack.int_at(words) else {
        return Flow::Stuck;
    };
    let at = match holding(frame.stack.peek(words + 1)) {
        Held::Item(at) => at,
        Held::Null => return Flow::Throws(Fault::NullPointer),
        Held::Nothing => return Flow::Stuck,
    };
    let Some(item) = areas.heap.item(at) else {
        return Flow::Stuck;
    };
    let Some(_) = element_at(&item.cells, index) else {
        return Flow::Throws(Fault::ArrayIndex);
    };
    let ty = program.ty(item.ty).element;
    if !refers(program, &areas.heap, ty, true, holding(Some(value))) {
        return Flow::Throws(Fault::ArrayStore);
    }
    let kept = narrowed(program.ty(ty).narrowing, value);
    areas.heap.set_cell(at, place_of(index), kept);
    frame.stack.drop_tops(words + 2);
    frame.next += 1;
    Flow::Next
}
