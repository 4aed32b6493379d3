//! Making the index over a list of classes.

ghost use Rattle.std.specs.Prelude.{◌≡◌, None, MatchResult, IfOk};
ghost use Rattle.set_lookups.specs.Above.{above};
ghost use Rattle.set_lookups.specs.Answer.{IsFault, link_fault};
ghost use Rattle.set_lookups.specs.Counts.{AreCounted};
ghost use Rattle.set_lookups.specs.Levels.{IsAbove};
ghost use Rattle.set_lookups.specs.Lookups.{interfaces_at};
ghost use Rattle.set_lookups.specs.Rows.{AreRows, Ranked};

use crate::duplicates::index_names;
use crate::fault::HierarchyFault;
use crate::hierarchy::{Hierarchy, Parts};
use crate::level_build::{Above, link_levels};
use crate::links::{above_lists, interface_lists, link_all};
use crate::member_table::link_members;
use crate::missing::check_missing;
use crate::ranks::rank_classes;
use crate::row::Row;
use class_model::ClassDef;
use lists::Seq;
use std::alloc::{AllocError, Global};

/// The superinterfaces of each class, and what is above its interfaces.
fn levels_above(
    alloc: Global,
    _classes: &[ClassDef],
    rows: &Seq<Row>,
    ranks: &[u32],
) -> Result<(Above, Above), AllocError>
    requires rows { AreRows _classes.now rows.now }
    requires ranked { Ranked _classes.now ranks.now }
    ensures { IfOk result (λ both.
        IsAbove (interfaces_at _classes.now) (interfaces_at _classes.now) both.0.levels both.0.starts
        × IsAbove (interfaces_at _classes.now) (above _classes.now) both.1.levels both.1.starts) }
{
    let interfaces = interface_lists(alloc, rows.as_slice())?;
    let edges = above_lists(alloc, rows.as_slice())?;
    let breadth = link_levels(alloc, interfaces.as_slice(), interfaces.as_slice(), ranks)?;
    let reached = link_levels(alloc, interfaces.as_slice(), edges.as_slice(), ranks)?;
    Ok((breadth, reached))
}

/// The index over classes whose names differ, that name one another, and none of which is above itself. Else the first
/// kind of fault by the order of `HierarchyFault`, with the name of the first class that has it, or, for `Missing`, the
/// first name by the order of the classes and of their files.
pub fn link_classes(alloc: Global, classes: Seq<ClassDef>) -> Result<Hierarchy, HierarchyFault>
    requires { AreCounted classes }
    ensures { MatchResult result
        (λ linked. (linked ≡ classes) × (link_fault classes ≡ None))
        (IsFault (link_fault classes)) }
{
    let names = index_names(alloc, classes.as_slice())?;
    check_missing(&names, &classes)?;
    let rows = link_all(alloc, &names, classes.as_slice())?;
    let ranks = rank_classes(alloc, classes.as_slice(), &rows)?;
    let (breadth, reached) = levels_above(alloc, classes.as_slice(), &rows, ranks.as_slice())?;
    let members = link_members(alloc, classes.as_slice())?;
    let parts = Parts {
        classes,
        names,
        rows,
        ranks,
        breadth,
        reached,
        members,
    };
    Ok(Hierarchy::from_parts(alloc, parts)?)
}
