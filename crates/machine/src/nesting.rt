//! Arrays of arrays (JVMS 6.5, multianewarray).

ghost use Rattle.std.specs.Prelude.{◌≡◌, ◌<◌, ◌≤◌, drop, length, reverse, take, OnErr, IfOk};
ghost use Rattle.run_state.specs.Objects as objects;
ghost use Rattle.linked_code.specs.World.{World};
ghost use Rattle.linked_code.specs.Links.{Links};
ghost use Rattle.machine.specs.Acted.{Acts, Stays};
ghost use Rattle.machine.specs.Nested.{Grows, Nests};

use crate::natives::put_for;
use crate::state::Areas;
use linked_code::{Op, Program};
use lists::Seq;
use machine_frames::{Fault, Flow, Frame};
use machine_heap::{Heap, Item};
use machine_words::{Stack, Tag, Word};
use std::alloc::{AllocError, Global};

/// The counts that the topmost words are, the lowest of them first, where they are ints.
fn counts<T: Tag>(
    alloc: Global,
    stack: &Stack<T>,
    words: usize,
) -> Result<Option<Seq<i32>>, AllocError>
    requires { words ≤ length stack.now }
    ensures { IfOk result (λ counts. counts ≡ objects.counts_of (reverse (take words stack.now))) }
{
    let mut counts = Seq::new(alloc);
    for k in 0..words {
        let Some((count, _)) = stack.int_at(words - 1 - k) else {
            return Ok(None);
        };
        counts.push(count)?;
    }
    Ok(Some(counts))
}

/// Counts as sizes, where none is negative.
fn sizes_of(alloc: Global, counts: &[i32]) -> Result<Option<Seq<usize>>, AllocError>
    ensures { IfOk result (λ sizes. sizes ≡ objects.sizes_of counts.now) }
{
    let mut sizes = Seq::new(alloc);
    for count in counts {
        if *count < 0 {
            return Ok(None);
        }
        sizes.push(*count as usize)?;
    }
    Ok(Some(sizes))
}

/// An array of a type, of the size at a place, whose elements are arrays of the sizes behind it, or default behind the last.
fn nested<T: Tag>(
    alloc: Global,
    program: &Program<T>,
    heap: &mut Heap<T>,
    sizes: &[usize],
    at: usize,
    ty: u32,
) -> Result<Word<T>, AllocError>
    ensures ok { IfOk result (λ word. (w : World T) → Links T.none_of w program.now → Nests T.none_of T.join_of w heap.old heap.new (drop at sizes.now) ty word) }
    ensures grown { Grows heap.old heap.new }
{
    if at >= sizes.len() {
        return Ok(program.ty(ty).default);
    }
    let element = program.ty(ty).element;
    let mut cells = Seq::new(alloc);
    let size = sizes[at];
    for k in 0..size {
        let word = nested(alloc, program, heap, sizes, at + 1, element)?;
        cells.push(word)?;
    }
    let item = Item {
        ty,
        own: T::none(),
        cells,
    };
    let place = heap.add(item)?;
    Ok(Word::reference(place))
}

/// The same from the first size on. A refusal leaves the heap as it was.
fn nested_all<T: Tag>(
    alloc: Global,
    program: &Program<T>,
    heap: &mut Heap<T>,
    sizes: &[usize],
    ty: u32,
) -> Result<Word<T>, AllocError>
    ensures ok { IfOk result (λ word. (w : World T) → Links T.none_of w program.now → Nests T.none_of T.join_of w heap.old heap.new sizes.now ty word) }
    ensures grown { Grows heap.old heap.new }
    ensures err { OnErr result (heap.new ≡ heap.old) }
{
    let before = heap.len();
    match nested(alloc, program, heap, sizes, 0, ty) {
        Ok(word) => Ok(word),
        Err(refused) => {
            heap.shorten(before);
            Err(refused)
        }
    }
}

/// Makes the arrays of so many sizes, which are the topmost ints, and puts the outermost in their place. A refusal leaves frame
/// and areas as they were.
pub fn nest<T: Tag>(
    alloc: Global,
    program: &Program<T>,
    frame: &mut Frame<T>,
    areas: &mut Areas<T>,
    ty: u32,
    dimensions: u8,
) -> Result<Flow, AllocError>
    requires { frame.old.next < usize.MAX }
    ensures ok { IfOk result (λ flow. Acts T.none_of T.join_of program.now (Op.MultiNewArray ty dimensions) frame.old areas.old flow frame.new areas.new) }
    ensures kept { IfOk result (λ flow. Stays flow frame.old areas.old frame.new areas.new) }
    ensures err { OnErr result ((frame.new ≡ frame.old) × (areas.new ≡ areas.old)) }
{
    let words = dimensions as usize;
    if words > frame.stack.len() {
        return Ok(Flow::Stuck);
    }
    let Some(counts) = counts(alloc, &frame.stack, words)? else {
        return Ok(Flow::Stuck);
    };
    let Some(sizes) = sizes_of(alloc, counts.as_slice())? else {
        return Ok(Flow::Throws(Fault::NegativeSize));
    };
    let before = areas.heap.len();
    let word = nested_all(alloc, program, &mut areas.heap, sizes.as_slice(), ty)?;
    if let Err(refused) = put_for(&mut frame.stack, words, word) {
        areas.heap.shorten(before);
        return Err(refused);
    }
    frame.next += 1;
    Ok(Flow::Next)
}
