//! New objects and arrays (JVMS 6.5, new, newarray and anewarray), once their class has begun.

ghost use Rattle.std.specs.Prelude.{◌≡◌, ◌<◌, replicate, OnErr, IfOk};
ghost use Rattle.run_state.specs.Copying.{as_place};
ghost use Rattle.machine.specs.Acted.{Acts, Stays};

use crate::faults::copied;
use crate::state::Areas;
use linked_code::{Op, Program};
use lists::Seq;
use machine_frames::{Fault, Flow, Frame};
use machine_heap::Item;
use machine_words::{Tag, Word};
use std::alloc::{AllocError, Global};

/// An int as a size or an index, where it is not negative.
pub fn size_of(count: i32) -> Option<u32>
    ensures { result ≡ as_place count }
{
    if count < 0 {
        return None;
    }
    Some(count as u32)
}

/// So many words, all of them this.
fn filled<T: Tag>(alloc: Global, word: Word<T>, size: usize) -> Result<Seq<Word<T>>, AllocError>
    ensures { IfOk result (λ s. s ≡ replicate size word) }
{
    let mut cells = Vec::with_capacity(alloc, size)?;
    for k in 0..size {
        cells.push(word)?;
    }
    Ok(Seq::from_vec(cells))
}

/// Pushes a fresh object of a class, whose fields are default. A refusal leaves frame and areas as they were.
pub fn new_object<T: Tag>(
    alloc: Global,
    program: &Program<T>,
    frame: &mut Frame<T>,
    areas: &mut Areas<T>,
    class: u32,
) -> Result<Flow, AllocError>
    requires { frame.old.next < usize.MAX }
    ensures ok { IfOk result (λ flow. Acts T.none_of T.join_of program.now (Op.New class) frame.old areas.old flow frame.new areas.new) }
    ensures kept { IfOk result (λ flow. Stays flow frame.old areas.old frame.new areas.new) }
    ensures err { OnErr result ((frame.new ≡ frame.old) × (areas.new ≡ areas.old)) }
{
    let class = program.class(class);
    let item = Item {
        ty: class.ty,
        own: T::none(),
        cells: copied(alloc, class.fresh.as_slice())?,
    };
    frame.stack.push(Word::reference(areas.heap.len()))?;
    if let Err(refused) = areas.heap.add(item) {
        frame.stack.drop_top();
        return Err(refused);
    }
    frame.next += 1;
    Ok(Flow::Next)
}

/// Puts a fresh array of a type, whose elements are default, in the place of their count. A refusal leaves frame and areas as
/// they were.
pub fn new_array<T: Tag>(
    alloc: Global,
    program: &Program<T>,
    frame: &mut Frame<T>,
    areas: &mut Areas<T>,
    ty: u32,
) -> Result<Flow, AllocError>
    requires { frame.old.next < usize.MAX }
    ensures ok { IfOk result (λ flow. Acts T.none_of T.join_of program.now (Op.NewArray ty) frame.old areas.old flow frame.new areas.new) }
    ensures kept { IfOk result (λ flow. Stays flow frame.old areas.old frame.new areas.new) }
    ensures err { OnErr result ((frame.new ≡ frame.old) × (areas.new ≡ areas.old)) }
{
    let Some((count, _)) = frame.stack.int_at(0) else {
        return Ok(Flow::Stuck);
    };
    let Some(size) = size_of(count) else {
        return Ok(Flow::Throws(Fault::NegativeSize));
    };
    let default = program.ty(program.ty(ty).element).default;
    let cells = filled(alloc, default, size as usize)?;
    let item = Item {
        ty,
        own: T::none(),
        cells,
    };
    let place = areas.heap.add(item)?;
    frame.stack.replace(1, Word::reference(place));
    frame.next += 1;
    Ok(Flow::Next)
}
