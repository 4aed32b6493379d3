//! Ranks of classes: each class has a higher one than those above it, so that none is above itself.

ghost use Rattle.std.specs.Prelude.{◌≡◌, ◌<◌, ◌≤◌, None, IsTrue, MatchResult, option_map, length};
ghost use Rattle.std.specs.List.{list_all};
ghost use Rattle.set_lookups.specs.Ranking.{is_lower, is_super_lower, is_row_ranked, PlaceRanked, RowsRanked};
ghost use Rattle.set_lookups.specs.Rows.{AreRows, Ranked};
ghost use Rattle.set_lookups.specs.Cycle.{cycle};
ghost use Rattle.set_lookups.specs.declared.fault.HierarchyFault.TheVariants.{Cycle};
ghost use Rattle.set_lookups.specs.Answer.{IsFault};

use crate::cycles::find_cycle;
use crate::fault::HierarchyFault;
use crate::row::Row;
use class_model::ClassDef;
use lists::Seq;
use std::alloc::{AllocError, Global};

/// The class directly above of a place: the superclass, then the interfaces.
fn above_at(row: &Row, place: u32) -> Option<u32> {
    match row.superclass {
        Some(number) if place == 0 => Some(number),
        Some(_) => row.interfaces.get(place as usize - 1).copied(),
        None => row.interfaces.get(place as usize).copied(),
    }
}

/// Ranks by a walk up from each class: a class gets the next rank when all above it have theirs. Where a class is
/// above itself, the walk would go on and is given up, so that some ranks are missing.
fn propose_ranks(alloc: Global, rows: &[Row]) -> Result<Seq<u32>, AllocError>
    requires { length rows.now ≤ 1001000 }
{
    let mut ranks = Seq::new(alloc);
    for _ in rows {
        ranks.push(0)?;
    }
    let mut next = 1u32;
    for start in 0..rows.len() {
        next = rank_above(alloc, rows, &mut ranks, start as u32, next)?;
    }
    Ok(ranks)
}

/// Gives ranks to a class and to all above it, and answers the next rank.
fn rank_above(
    alloc: Global,
    rows: &[Row],
    ranks: &mut Seq<u32>,
    start: u32,
    first: u32,
) -> Result<u32, AllocError> {
    let mut next = first;
    let mut path = Vec::new(alloc);
    path.push((start, 0u32))?;
    for _ in 0..u64::MAX {
        if path.len() > rows.len() {
            break;
        }
        let Some((at, place)) = path.pop() else {
            break;
        };
        next = step_up(rows, ranks, &mut path, at, place, next)?;
    }
    Ok(next)
}

/// One step of the walk: on to the next class above that has no rank yet, or a rank for this class.
fn step_up(
    rows: &[Row],
    ranks: &mut Seq<u32>,
    path: &mut Vec<(u32, u32)>,
    at: u32,
    place: u32,
    next: u32,
) -> Result<u32, AllocError> {
    if ranks.get(at as usize).copied() != Some(0) {
        return Ok(next);
    }
    let Some(row) = rows.get(at as usize) else {
        return Ok(next);
    };
    match above_at(row, place) {
        Some(number) => {
            path.push((at, place.wrapping_add(1)))?;
            path.push((number, 0))?;
            Ok(next)
        }
        None => {
            ranks.set(at as usize, next);
            Ok(next.wrapping_add(1))
        }
    }
}

fn has_lower_rank(ranks: &[u32], rank: u32, number: u32) -> bool
    ensures { result ≡ is_lower ranks.now rank number }
{
    match ranks.get(number as usize) {
        Some(other) => *other < rank,
        None => 0 < rank,
    }
}

fn is_super_ranked(superclass: Option<u32>, ranks: &[u32], rank: u32) -> bool
    ensures { result ≡ is_super_lower ranks.now rank superclass }
{
    match superclass {
        Some(number) => has_lower_rank(ranks, rank, number),
        None => true,
    }
}

fn are_interfaces_ranked(numbers: &[u32], ranks: &[u32], rank: u32) -> bool
    ensures { result ≡ list_all (is_lower ranks.now rank) numbers.now }
{
    numbers
        .iter()
        .all(|number| has_lower_rank(ranks, rank, *number))
}

fn is_ranked(row: &Row, ranks: &[u32], rank: u32) -> bool
    ensures { result ≡ is_row_ranked ranks.now rank row.now }
{
    is_super_ranked(row.superclass, ranks, rank)
        && are_interfaces_ranked(row.interfaces.as_slice(), ranks, rank)
}

fn is_place_ranked(rows: &[Row], ranks: &[u32], at: usize) -> bool
    requires rows { at < length rows.now }
    requires ranks { at < length ranks.now }
    ensures { IsTrue result → PlaceRanked rows.now ranks.now at }
{
    ranks[at] as usize <= rows.len() && is_ranked(&rows[at], ranks, ranks[at])
}

/// Whether ranks are as they have to be.
fn are_ranks(rows: &[Row], ranks: &[u32]) -> bool
    ensures { IsTrue result → RowsRanked rows.now ranks.now }
{
    if ranks.len() != rows.len() {
        return false;
    }
    for at in 0..rows.len() {
        if !is_place_ranked(rows, ranks, at) {
            return false;
        }
    }
    true
}

/// Ranks of the classes. Else the first class that is above itself.
pub fn rank_classes(
    alloc: Global,
    classes: &[ClassDef],
    rows: &Seq<Row>,
) -> Result<Seq<u32>, HierarchyFault>
    requires few { length classes.now ≤ 1001000 }
    requires rows { AreRows classes.now rows.now }
    ensures { MatchResult result
        (λ ranks. (cycle classes.now ≡ None) × Ranked classes.now ranks)
        (IsFault (option_map Cycle (cycle classes.now))) }
{
    let ranks = propose_ranks(alloc, rows.as_slice())?;
    if are_ranks(rows.as_slice(), ranks.as_slice()) {
        Ok(ranks)
    } else {
        find_cycle(alloc, classes, rows)
    }
}
