//! Making lists of classes, level by level upwards.

ghost use Rattle.std.specs.Prelude.{◌≡◌, ◌<◌, ℕ, List, [], IfOk, OnOk, flat_map, length, slice_index};
ghost use Rattle.set_lookups.specs.Levels.{once, edge, list_at, IsLevels, IsAbove, AreFalling, Climbs, IsPlaced};

use crate::levels::Levels;
use indexmap::IndexSet;
use lists::Seq;
use std::alloc::{AllocError, Global};

/// The levels above classes, and for each class the number of its first list.
#[derive(Drop)]
pub struct Above {
    pub levels: Levels,
    pub starts: Seq<usize>,
}

impl Above {
    /// The number of the first list of a class.
    pub fn start(&self, at: u32) -> usize
        ensures { result ≡ slice_index self.now.starts at }
    {
        match self.starts.get(at as usize) {
            Some(start) => *start,
            None => 0,
        }
    }
}

/// Puts numbers behind others, each once.
fn add_all(numbers: &mut IndexSet<u32>, more: &[u32]) -> Result<(), AllocError>
    ensures { OnOk result (numbers.new.keys ≡ once numbers.old.keys more.now) }
{
    for number in more {
        numbers.insert(*number)?;
    }
    Ok(())
}

/// The list of a number.
pub fn list_of(edges: &[Seq<u32>], at: u32) -> &[u32]
    ensures { result.now ≡ edge edges.now at }
{
    match edges.get(at as usize) {
        Some(list) => list.as_slice(),
        None => &[],
    }
}

/// Puts what is directly above some classes behind others, each once.
fn add_above(
    numbers: &mut IndexSet<u32>,
    edges: &[Seq<u32>],
    list: &[u32],
) -> Result<(), AllocError>
    ensures { OnOk result (numbers.new.keys ≡ once numbers.old.keys (flat_map (edge edges.now) list.now)) }
{
    for number in list {
        add_all(numbers, list_of(edges, *number))?;
    }
    Ok(())
}

/// Some numbers, each once.
pub fn distinct(alloc: Global, list: &[u32]) -> Result<Seq<u32>, AllocError>
    ensures { IfOk result (λ numbers. numbers ≡ once [] list.now) }
{
    let mut numbers = IndexSet::new(alloc);
    add_all(&mut numbers, list)?;
    Ok(Seq::from_vec(Vec::from_slice(alloc, numbers.as_slice())?))
}

/// What is directly above some classes, each once.
pub fn level_above(alloc: Global, edges: &[Seq<u32>], list: &[u32]) -> Result<Seq<u32>, AllocError>
    ensures { IfOk result (λ numbers. numbers ≡ once [] (flat_map (edge edges.now) list.now)) }
{
    let mut numbers = IndexSet::new(alloc);
    add_above(&mut numbers, edges, list)?;
    Ok(Seq::from_vec(Vec::from_slice(alloc, numbers.as_slice())?))
}

/// Lists that are not there yet, each above the one before it, and the number of the list where they end.
#[derive(Drop)]
struct Way {
    lists: Vec<Seq<u32>>,
    end: usize,
}

/// The way up from a list to the first that is there. It ends, since ranks fall.
fn climb(
    alloc: Global,
    levels: &Levels,
    edges: &[Seq<u32>],
    ranks: &[u32],
    start: Seq<u32>,
) -> Result<Way, AllocError>
    requires levels { IsLevels (edge edges.now) levels.now }
    requires falls { AreFalling edges.now ranks.now }
    ensures { IfOk result (λ way. (way.end < length levels.now) × Climbs (edge edges.now) start way.lists.items (list_at levels.now way.end)) }
{
    let mut lists = Vec::new(alloc);
    let mut list = start;
    loop {
        if let Some(end) = levels.number(&list) {
            return Ok(Way { lists, end });
        }
        let above = level_above(alloc, edges, list.as_slice())?;
        lists.push(list)?;
        list = above;
    }
}

/// Puts the lists of a way up behind those that are there, from its end on, and answers the number of the first.
fn add_lists(
    levels: &mut Levels,
    _edges: &[Seq<u32>],
    lists: Vec<Seq<u32>>,
    end: usize,
) -> Result<usize, AllocError>
    requires levels { IsLevels (edge _edges.now) levels.old }
    requires within { end < length levels.old }
    ensures { IfOk result (λ at. (start : List ℕ) → Climbs (edge _edges.now) start lists.items (list_at levels.old end) → IsPlaced (edge _edges.now) levels.old levels.new start at) }
{
    let mut left = lists;
    let mut at = end;
    while let Some(list) = left.pop() {
        at = levels.add(list, at)?;
    }
    Ok(at)
}

/// The number of a list, which is put there with those above it where it is not there yet.
fn place(
    alloc: Global,
    levels: &mut Levels,
    edges: &[Seq<u32>],
    ranks: &[u32],
    start: Seq<u32>,
) -> Result<usize, AllocError>
    requires levels { IsLevels (edge edges.now) levels.old }
    requires falls { AreFalling edges.now ranks.now }
    ensures { IfOk result (IsPlaced (edge edges.now) levels.old levels.new start) }
{
    let Way { lists, end } = climb(alloc, levels, edges, ranks, start)?;
    add_lists(levels, edges, lists, end)
}

/// The levels above classes: for each its list of first ones, then what is directly above those, and so on.
pub fn link_levels(
    alloc: Global,
    firsts: &[Seq<u32>],
    edges: &[Seq<u32>],
    ranks: &[u32],
) -> Result<Above, AllocError>
    requires { AreFalling edges.now ranks.now }
    ensures { IfOk result (λ above. IsAbove (edge firsts.now) (edge edges.now) above.levels above.starts) }
{
    let mut levels = Levels::new(alloc)?;
    let mut starts = Seq::new(alloc);
    for first in firsts {
        let list = distinct(alloc, first.as_slice())?;
        let start = place(alloc, &mut levels, edges, ranks, list)?;
        starts.push(start)?;
    }
    Ok(Above { levels, starts })
}
