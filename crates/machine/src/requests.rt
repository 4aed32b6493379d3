//! What a call of `arraycopy` asks for, and what that comes to.

ghost use Rattle.std.specs.Prelude.{◌≡◌, ◌≤◌, ◌<◌, ◌^◌, length, reverse, take};
ghost use Rattle.machine.specs.Copied as copied;
ghost use Rattle.machine.specs.Copied.{alike_by, judged_by, planned_by, requested_by, spot_by, within_by};
ghost use Rattle.machine.specs.Called.{argument};
ghost use Rattle.machine.specs.Held.{held_by};

use crate::making::size_of;
use crate::natives::int_argument;
use crate::operands::{Held, holding};
use class_model::Primitive;
use linked_code::Program;
use machine_frames::Fault;
use machine_heap::{Heap, Item};
use machine_words::{Stack, Tag};

/// An array and an index into it, or null in the place of the array, or not both of them.
#[derive(Clone, Copy, Debug)]
pub enum Spot {
    Nothing,
    Null,
    At(u64, i32),
}

/// So many elements of one array, from an index on, are to go to another, from an index on.
#[derive(Clone, Copy, Debug)]
pub struct Request {
    pub source: u64,
    pub from: i32,
    pub target: u64,
    pub to: i32,
    pub count: i32,
}

/// What the arguments of a call ask for.
#[derive(Clone, Copy, Debug)]
pub enum Asked {
    Nothing,
    Null,
    Copy(Request),
}

/// Elements that are there, and places for them.
#[derive(Clone, Copy, Debug)]
pub struct Span {
    pub source: u64,
    pub from: u32,
    pub target: u64,
    pub to: u32,
    pub count: u32,
}

/// What a request comes to: these elements are copied, as far as they fit, or it throws, or there is no such item.
#[derive(Clone, Copy, Debug)]
pub enum Plan {
    Nowhere,
    Throws(Fault),
    Copies(Span),
}

/// The argument of a number, where a reference is wanted.
fn held_argument<T: Tag>(stack: &Stack<T>, words: usize, number: usize) -> Held
    requires { words ≤ length stack.now }
    ensures { result ≡ held_by (argument stack.now words number) }
{
    if number >= words {
        return Held::Nothing;
    }
    holding(stack.peek(words - 1 - number))
}

/// The arguments of a number and of the next.
fn spot_at<T: Tag>(stack: &Stack<T>, words: usize, number: usize) -> Spot
    requires there { words ≤ length stack.now }
    requires low { number < 2 ^ 32 }
    ensures { result ≡ spot_by (reverse (take words stack.now)) number }
{
    match held_argument(stack, words, number) {
        Held::Nothing => Spot::Nothing,
        Held::Null => Spot::Null,
        Held::Item(place) => match int_argument(stack, words, number + 1) {
            Some((index, _)) => Spot::At(place, index),
            None => Spot::Nothing,
        },
    }
}

/// What the topmost words ask for, as arguments: an array and an index, an array and an index, and how many elements.
fn requested<T: Tag>(stack: &Stack<T>, words: usize) -> Asked
    requires { words ≤ length stack.now }
    ensures { result ≡ requested_by (reverse (take words stack.now)) }
{
    let (source, from) = match spot_at(stack, words, 0) {
        Spot::At(place, index) => (place, index),
        Spot::Null => return Asked::Null,
        Spot::Nothing => return Asked::Nothing,
    };
    let (target, to) = match spot_at(stack, words, 2) {
        Spot::At(place, index) => (place, index),
        Spot::Null => return Asked::Null,
        Spot::Nothing => return Asked::Nothing,
    };
    match int_argument(stack, words, 4) {
        Some((count, _)) => Asked::Copy(Request {
            source,
            from,
            target,
            to,
            count,
        }),
        None => Asked::Nothing,
    }
}

/// Whether arrays are of the same numbers, or both of references.
fn same_numbers(one: Option<Primitive>, other: Option<Primitive>) -> bool
    ensures { result ≡ copied.same_numbers one other }
{
    match (one, other) {
        (Some(one), Some(other)) => one == other,
        (None, None) => true,
        _ => false,
    }
}

/// Whether types are arrays whose elements may go from one to the other.
fn alike<T: Tag>(program: &Program<T>, one: u32, other: u32) -> bool
    ensures { result ≡ alike_by program.now one other }
{
    let one = program.ty(one);
    let other = program.ty(other);
    one.is_array && other.is_array && same_numbers(one.numbers, other.numbers)
}

/// The elements that are asked for, where they and the places for them are there.
fn within<T: Tag>(source: &Item<T>, target: &Item<T>, request: Request) -> Option<Span>
    ensures { result ≡ within_by source.now target.now request }
{
    let from = size_of(request.from)?;
    let to = size_of(request.to)?;
    let count = size_of(request.count)?;
    let end = from as usize + count as usize;
    let end_there = to as usize + count as usize;
    if end > source.cells.len() || end_there > target.cells.len() {
        return None;
    }
    Some(Span {
        source: request.source,
        from,
        target: request.target,
        to,
        count,
    })
}

/// What a request comes to: first both arrays are judged, then the range.
fn judged<T: Tag>(program: &Program<T>, heap: &Heap<T>, request: Request) -> Plan
    ensures { result ≡ judged_by program.now heap.now request }
{
    let Some(source) = heap.item(request.source) else {
        return Plan::Nowhere;
    };
    let Some(target) = heap.item(request.target) else {
        return Plan::Nowhere;
    };
    if !alike(program, source.ty, target.ty) {
        return Plan::Throws(Fault::ArrayStore);
    }
    match within(source, target, request) {
        Some(span) => Plan::Copies(span),
        None => Plan::Throws(Fault::ArrayIndex),
    }
}

/// What a copy of these arguments comes to.
pub fn planned<T: Tag>(stack: &Stack<T>, words: usize, program: &Program<T>, heap: &Heap<T>) -> Plan
    requires { words ≤ length stack.now }
    ensures { result ≡ planned_by program.now heap.now (reverse (take words stack.now)) }
{
    match requested(stack, words) {
        Asked::Copy(request) => judged(program, heap, request),
        Asked::Null => Plan::Throws(Fault::NullPointer),
        Asked::Nothing => Plan::Nowhere,
    }
}
