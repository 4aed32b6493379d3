//! Classes that are above themselves.

ghost use Rattle.std.specs.Prelude.{◌≡◌, ◌==◌, ◌≤◌, ℕ, None, MatchResult, IfOk, option_map, length};
ghost use Rattle.std.specs.List.{list_any};
ghost use Rattle.class_model.specs.declared.class.ClassDef.{ClassDef as ClassValue};
ghost use Rattle.set_lookups.specs.Above.{above};
ghost use Rattle.set_lookups.specs.Levels.{any_levels, edge};
ghost use Rattle.set_lookups.specs.Rows.{AreRows, Ranked};
ghost use Rattle.set_lookups.specs.Cycle.{cycle, is_in_cycle};
ghost use Rattle.set_lookups.specs.declared.fault.HierarchyFault.TheVariants.{Cycle};
ghost use Rattle.set_lookups.specs.Answer.{IsFault};

use crate::fault::HierarchyFault;
use crate::level_build::{distinct, level_above, list_of};
use crate::links::above_lists;
use crate::row::Row;
use class_model::ClassDef;
use lists::Seq;
use std::alloc::{AllocError, Global};

/// Whether a number is among some.
fn contains(numbers: &[u32], number: u32) -> bool
    ensures { result ≡ list_any (λ other. other == number) numbers.now }
{
    numbers.iter().any(|other| *other == number)
}

/// Whether a class is met above itself, level by level, in at most so many steps.
fn meets_itself(
    alloc: Global,
    edges: &[Seq<u32>],
    steps: u32,
    number: u32,
) -> Result<bool, AllocError>
    ensures { IfOk result (λ met. met ≡ any_levels steps (edge edges.now) (λ other. other == number) (edge edges.now number)) }
{
    let mut list = distinct(alloc, list_of(edges, number))?;
    for _ in 0..steps {
        if contains(list.as_slice(), number) {
            return Ok(true);
        }
        if list.is_empty() {
            return Ok(false);
        }
        list = level_above(alloc, edges, list.as_slice())?;
    }
    Ok(contains(list.as_slice(), number))
}

/// Whether a class is above itself, directly or through others.
fn is_above_itself(
    alloc: Global,
    classes: &[ClassDef],
    edges: &[Seq<u32>],
    number: u32,
) -> Result<bool, AllocError>
    requires few { length classes.now ≤ 1001000 }
    requires above { edge edges.now ≡ above classes.now }
    ensures { IfOk result (λ yes. (class : ClassValue) → yes ≡ is_in_cycle classes.now number class) }
{
    let met = meets_itself(alloc, edges, classes.len() as u32, number)?;
    Ok(met)
}

/// The first class that is above itself, where ranks could not be given.
fn find_first(
    alloc: Global,
    classes: &[ClassDef],
    edges: &[Seq<u32>],
) -> Result<Seq<u32>, HierarchyFault>
    requires few { length classes.now ≤ 1001000 }
    requires above { edge edges.now ≡ above classes.now }
    ensures { MatchResult result
        (λ ranks. (cycle classes.now ≡ None) × Ranked classes.now ranks)
        (IsFault (option_map Cycle (cycle classes.now))) }
{
    for at in 0..classes.len() {
        let class = &classes[at];
        let is_above = is_above_itself(alloc, classes, edges, at as u32)?;
        if is_above {
            return Err(HierarchyFault::Cycle(class.name.clone()?));
        }
    }
    Err(HierarchyFault::Memory)
}

/// The same, with the rows of the classes.
pub fn find_cycle(
    alloc: Global,
    classes: &[ClassDef],
    rows: &Seq<Row>,
) -> Result<Seq<u32>, HierarchyFault>
    requires few { length classes.now ≤ 1001000 }
    requires rows { AreRows classes.now rows.now }
    ensures { MatchResult result
        (λ ranks. (cycle classes.now ≡ None) × Ranked classes.now ranks)
        (IsFault (option_map Cycle (cycle classes.now))) }
{
    let edges = above_lists(alloc, rows.as_slice())?;
    find_first(alloc, classes, edges.as_slice())
}
