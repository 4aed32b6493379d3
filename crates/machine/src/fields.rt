//! Fields of objects (JVMS 6.5, getfield and putfield).

ghost use Rattle.std.specs.Prelude.{◌≡◌, ◌<◌, OnErr, IfOk};
ghost use Rattle.machine.specs.Acted.{Acts, Stays};

use crate::operands::{Held, holding, put_value};
use crate::state::Areas;
use crate::values::{kind_at, narrowed, words_of};
use class_model::Kind;
use linked_code::{Narrowing, Op, Program};
use machine_frames::{Fault, Flow, Frame};
use machine_words::Tag;
use std::alloc::AllocError;

/// Puts the value of an object's field in the place of the object.
#[tactic(auto, using(crate::proofs::FieldRows::read_of_nothing, crate::proofs::FieldRows::read_of_null, crate::proofs::FieldRows::read_nowhere, crate::proofs::FieldRows::read_of_array, crate::proofs::FieldRows::read_of_none, crate::proofs::FieldRows::read))]
pub fn get_field<T: Tag>(
    program: &Program<T>,
    frame: &mut Frame<T>,
    areas: &Areas<T>,
    place: u32,
) -> Result<Flow, AllocError>
    requires { frame.old.next < usize.MAX }
    ensures ok { IfOk result (λ flow. Acts T.none_of T.join_of program.now (Op.GetField place) frame.old areas.now flow frame.new areas.now) }
    ensures kept { IfOk result (λ flow. Stays flow frame.old areas.now frame.new areas.now) }
    ensures err { OnErr result (frame.new ≡ frame.old) }
{
    let at = match holding(frame.stack.peek(0)) {
        Held::Item(at) => at,
        Held::Null => return Ok(Flow::Throws(Fault::NullPointer)),
        Held::Nothing => return Ok(Flow::Stuck),
    };
    let Some(item) = areas.heap.item(at) else {
        return Ok(Flow::Stuck);
    };
    if program.ty(item.ty).is_array {
        return Ok(Flow::Throws(Fault::IncompatibleChange));
    }
    let Some(cell) = item.cells.get(place as usize) else {
        return Ok(Flow::Stuck);
    };
    put_value(&mut frame.stack, *cell)?;
    frame.next += 1;
    Ok(Flow::Next)
}

/// Writes the topmost value, which is of a kind, into a field of the object below it.
pub fn put_field<T: Tag>(
    program: &Program<T>,
    frame: &mut Frame<T>,
    areas: &mut Areas<T>,
    place: u32,
    kind: Kind,
    narrowing: Narrowing,
) -> Flow
    requires { frame.old.next < usize.MAX }
    ensures ok { Acts T.none_of T.join_of program.now (Op.PutField place kind narrowing) frame.old areas.old result frame.new areas.new }
    ensures kept { Stays result frame.old areas.old frame.new areas.new }
{
    let Some(value) = kind_at(&frame.stack, kind) else {
        return Flow::Stuck;
    };
    let words = words_of(kind);
    let at = match holding(frame.stack.peek(words)) {
        Held::Item(at) => at,
        Held::Null => return Flow::Throws(Fault::NullPointer),
        Held::Nothing => return Flow::Stuck,
    };
    let Some(item) = areas.heap.item(at) else {
        return Flow::Stuck;
    };
    if program.ty(item.ty).is_array {
        return Flow::Throws(Fault::IncompatibleChange);
    }
    areas
        .heap
        .set_cell(at, place as usize, narrowed(narrowing, value));
    frame.stack.drop_tops(words + 1);
    frame.next += 1;
    Flow::Next
}
