//! The native `java/lang/System.arraycopy` (this project's own, after the Java library).

ghost use Rattle.std.specs.Prelude.{◌≡◌, ◌<◌, ◌≤◌, ◌^◌, List, ℕ, drop, length, take, true, IfOk, OnOk, OnErr};
ghost use Rattle.run_state.specs.Natives as natives;
ghost use Rattle.linked_code.specs.World.{World};
ghost use Rattle.linked_code.specs.Links.{Links};
ghost use Rattle.machine.specs.Called.{native_at};
ghost use Rattle.machine.specs.Copied.{copied_at, fitting_by, laid_in, misfit_at};
ghost use Rattle.machine.specs.Shown.{shown};

use crate::faults::{raise, ready_fault};
use crate::operands::holding;
use crate::requests::{Plan, Span, planned};
use crate::state::{Ending, Machine};
use crate::stepping::stop;
use crate::types::refers;
use crate::unwinding::unwind;
use linked_code::Program;
use machine_frames::Fault;
use machine_heap::Heap;
use machine_words::{Tag, Word};
use std::alloc::{AllocError, Global};

/// At most so many elements from a place on, as many as are there.
fn part<T>(cells: &[Word<T>], from: usize, count: usize) -> &[Word<T>]
    ensures { result.now ≡ take count (drop from cells.now) }
{
    if from >= cells.len() {
        return &[];
    }
    let rest = &cells[from..];
    if count >= rest.len() {
        return rest;
    }
    &rest[..count]
}

/// A copy of those in front of the first that does not fit a type.
fn fitting<T: Tag>(
    alloc: Global,
    program: &Program<T>,
    heap: &Heap<T>,
    ty: u32,
    cells: &[Word<T>],
) -> Result<Vec<Word<T>>, AllocError>
    ensures { IfOk result (λ taken. taken.items ≡ fitting_by program.now heap.now ty cells.now) }
{
    let mut taken = Vec::with_capacity(alloc, cells.len())?;
    for word in cells {
        if !refers(program, heap, ty, true, holding(Some(*word))) {
            return Ok(taken);
        }
        taken.push(*word)?;
    }
    Ok(taken)
}

/// Writes elements of an item, from a place on.
fn lay<T: Tag>(heap: &mut Heap<T>, target: u64, to: u32, words: &[Word<T>])
    requires there { target < length heap.old }
    requires few { length words.now < 2 ^ 32 }
    ensures { heap.new ≡ laid_in heap.old target to words.now }
{
    for (k, word) in words.iter().enumerate() {
        heap.set_cell(target, to as usize + k, *word);
    }
}

/// Writes the elements that fit, and throws what says that the next does not. A refusal leaves the machine as it was.
fn lay_and_throw<T: Tag>(
    machine: &mut Machine<T>,
    program: &Program<T>,
    span: Span,
    fit: &[Word<T>],
) -> Result<(), AllocError>
    requires framed { machine.old.framed ≡ true }
    requires running { machine.old.ending ≡ Ending.Running }
    requires there { span.target < length machine.old.areas.heap }
    requires few { length fit.now < 2 ^ 32 }
    ensures ok { OnOk result ((w : World T) (more : List ℕ) → Links T.none_of w program.now → shown w machine.new more ≡ misfit_at T.none_of T.join_of w span.target span.to fit.now machine.old more) }
    ensures err { OnErr result (machine.new ≡ machine.old) }
    ensures fed { machine.new.fed ≡ machine.old.fed }
{
    let ready = ready_fault(machine, program, Fault::ArrayStore)?;
    lay(&mut machine.areas.heap, span.target, span.to, fit);
    unwind(machine, program, ready.class, ready.place, ready.landing);
    Ok(())
}

/// Copies elements, as far as they fit. A refusal leaves the machine as it was.
fn carry<T: Tag>(
    machine: &mut Machine<T>,
    program: &Program<T>,
    span: Span,
    words: usize,
) -> Result<(), AllocError>
    requires framed { machine.old.framed ≡ true }
    requires running { machine.old.ending ≡ Ending.Running }
    requires room { machine.old.top.next < usize.MAX }
    requires there { words ≤ length machine.old.top.stack }
    ensures ok { OnOk result ((w : World T) (more : List ℕ) → Links T.none_of w program.now → shown w machine.new more ≡ copied_at T.none_of T.join_of w span words machine.old more) }
    ensures err { OnErr result (machine.new ≡ machine.old) }
    ensures fed { machine.new.fed ≡ machine.old.fed }
{
    let Some(source) = machine.areas.heap.item(span.source) else {
        stop(machine);
        return Ok(());
    };
    let Some(target) = machine.areas.heap.item(span.target) else {
        stop(machine);
        return Ok(());
    };
    let ty = program.ty(target.ty).element;
    let asked = part(
        source.cells.as_slice(),
        span.from as usize,
        span.count as usize,
    );
    let fit = fitting(machine.alloc, program, &machine.areas.heap, ty, asked)?;
    if fit.len() != span.count as usize {
        return lay_and_throw(machine, program, span, fit.as_slice());
    }
    lay(
        &mut machine.areas.heap,
        span.target,
        span.to,
        fit.as_slice(),
    );
    machine.top.stack.drop_tops(words);
    machine.top.next += 1;
    Ok(())
}

/// `arraycopy`: elements go from one array to another, in order, as if by a temporary, in time proportional to their number. A
/// refusal leaves the machine as it was.
pub fn copy<T: Tag>(
    machine: &mut Machine<T>,
    program: &Program<T>,
    words: usize,
) -> Result<(), AllocError>
    requires framed { machine.old.framed ≡ true }
    requires running { machine.old.ending ≡ Ending.Running }
    requires room { machine.old.top.next < usize.MAX }
    requires there { words ≤ length machine.old.top.stack }
    ensures ok { OnOk result ((w : World T) (more : List ℕ) (n : ℕ) → Links T.none_of w program.now → shown w machine.new more ≡ native_at T.none_of T.join_of w machine.old more natives.ArrayCopy n words) }
    ensures err { OnErr result (machine.new ≡ machine.old) }
    ensures fed { machine.new.fed ≡ machine.old.fed }
{
    match planned(&machine.top.stack, words, program, &machine.areas.heap) {
        Plan::Copies(span) => carry(machine, program, span, words),
        Plan::Throws(fault) => raise(machine, program, fault),
        Plan::Nowhere => {
            stop(machine);
            Ok(())
        }
    }
}
