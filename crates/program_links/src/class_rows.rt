//! Rows of classes.

ghost use Rattle.std.specs.Prelude.{◌≡◌, ◌<◌, OnOk, IfOk, length};
ghost use Rattle.set_lookups.specs.Lookups.{supers};
ghost use Rattle.class_set.specs.Closed.{Closed};
ghost use Rattle.class_model.specs.declared.types.BaseType.TheVariants as base;
ghost use Rattle.program_links.specs.Before.{AreBefore};
ghost use Rattle.program_links.specs.Each.{Numbered};
ghost use Rattle.program_links.specs.PartsTo.{AreParts};
ghost use Rattle.program_links.specs.Numbers.{Grows};
ghost use Rattle.program_links.specs.RowTo.{IsClassType, ClassTo, ClassRow};
ghost use Rattle.program_links.specs.Upwards.{AreClasses};
ghost use Rattle.program_links.specs.WorldOf.{no_name};

use crate::before::Before;
use crate::cells::fresh_cells;
use crate::fields::number;
use crate::picked::{class_above, nothing_above};
use crate::selects::{all_own_selects, selects_along};
use crate::starts::{all_initializers, starts_along};
use crate::tables::Tables;
use crate::upwards::{superclass, upwards};
use class_model::BaseType;
use class_set::{ClassId, ClassSet};
use linked_code::{LinkedClass, Selection};
use lists::{Name, Seq};
use machine_words::Tag;
use std::alloc::{AllocError, Global};

/// What the rows of classes are made of, class by class: the number of its type, its initializer, and the methods that it itself
/// has for the selectors.
#[derive(Drop)]
pub struct Parts {
    pub types: Seq<u32>,
    pub starts: Seq<Option<u32>>,
    pub owns: Seq<Seq<Selection>>,
}

fn base_of_class(name: &Name) -> Result<BaseType, AllocError>
    ensures { IfOk result (λ of. of ≡ base.Class name.now) }
{
    Ok(BaseType::Class(name.clone()?))
}

/// The number of the type of a class.
#[tactic(auto, using(crate::proofs::Classed::type_is))]
fn class_type(set: &ClassSet, tables: &mut Tables, class: u32) -> Result<u32, AllocError>
    requires { class < length set.now }
    ensures grows { OnOk result (Grows tables.old tables.new) }
    ensures is { IfOk result (IsClassType tables.new set.now class) }
{
    let of = base_of_class(&set.class(ClassId(class)).name)?;
    tables.ty(0, &of)
}

/// The numbers of the types of all classes.
#[tactic(auto, using(crate::proofs::EachMore::numbered_more, crate::proofs::EachMore::none_numbered, crate::proofs::Growing::grown_further, crate::proofs::Classed::types_grow))]
pub fn class_types(
    alloc: Global,
    set: &ClassSet,
    tables: &mut Tables,
) -> Result<Seq<u32>, AllocError>
    ensures grows { OnOk result (Grows tables.old tables.new) }
    ensures are { IfOk result (λ types. Numbered (IsClassType tables.new set.now) types (length set.now)) }
{
    let mut types = Seq::new(alloc);
    for class in 0..set.len() {
        let ty = class_type(set, tables, class)?;
        types.push(ty)?;
    }
    Ok(types)
}

/// The parts that the rows are made of.
pub fn class_parts(
    alloc: Global,
    set: &ClassSet,
    before: &Seq<Before>,
    tables: &Tables,
    types: &Seq<u32>,
) -> Result<Parts, AllocError>
    requires rows { AreBefore set.now before.now (length set.now) }
    requires types { Numbered (IsClassType tables.now set.now) types.now (length set.now) }
    ensures { IfOk result (AreParts set.now tables.now) }
{
    let types = types.clone()?;
    let starts = all_initializers(alloc, set, before)?;
    let owns = all_own_selects(alloc, set, before, tables)?;
    Ok(Parts {
        types,
        starts,
        owns,
    })
}

#[tactic(auto, using(crate::proofs::Classed::row_is))]
fn row_along<T: Tag>(
    alloc: Global,
    set: &ClassSet,
    tables: &Tables,
    parts: &Parts,
    class: u32,
    classes: &Seq<u32>,
) -> Result<LinkedClass<T>, AllocError>
    requires closed { Closed set.now }
    requires there { class < length set.now }
    requires parts { AreParts set.now tables.now parts.now }
    requires up { classes.now ≡ supers set.now class }
    requires within { AreClasses set.now classes.now }
    ensures { IfOk result (ClassRow T.none_of set.now tables.now class) }
{
    let fits = class_above(alloc, set, class)?;
    let fresh = fresh_cells(alloc, set, classes)?;
    let starts = starts_along(alloc, &parts.starts, classes)?;
    let selects = selects_along(alloc, &parts.owns, classes)?;
    Ok(LinkedClass {
        ty: *parts.types.at(class as usize),
        fits,
        above: superclass(set, set.class(ClassId(class))),
        fresh,
        starts,
        selects,
    })
}

/// The row of a class.
fn class_row<T: Tag>(
    alloc: Global,
    set: &ClassSet,
    tables: &Tables,
    parts: &Parts,
    class: u32,
) -> Result<LinkedClass<T>, AllocError>
    requires closed { Closed set.now }
    requires there { class < length set.now }
    requires parts { AreParts set.now tables.now parts.now }
    ensures { IfOk result (ClassRow T.none_of set.now tables.now class) }
{
    let classes = upwards(alloc, set, class)?;
    row_along(alloc, set, tables, parts, class, &classes)
}

/// The rows of all classes.
#[tactic(auto, using(crate::proofs::EachMore::numbered_more, crate::proofs::EachMore::none_numbered))]
pub fn class_rows<T: Tag>(
    alloc: Global,
    set: &ClassSet,
    tables: &Tables,
    parts: &Parts,
) -> Result<Seq<LinkedClass<T>>, AllocError>
    requires closed { Closed set.now }
    requires parts { AreParts set.now tables.now parts.now }
    ensures { IfOk result (λ rows. Numbered (ClassRow T.none_of set.now tables.now) rows (length set.now)) }
{
    let mut rows = Seq::new(alloc);
    for class in 0..set.len() {
        rows.push(class_row(alloc, set, tables, parts, class)?)?;
    }
    Ok(rows)
}

/// The row of a class that is not there.
#[tactic(auto, using(crate::proofs::Classed::no_row))]
pub fn no_class<T: Tag>(
    alloc: Global,
    set: &ClassSet,
    tables: &Tables,
) -> Result<LinkedClass<T>, AllocError>
    requires { Closed set.now }
    ensures { IfOk result (ClassTo T.none_of set.now tables.now (no_name set.now)) }
{
    let ty = number(tables.count_types())?;
    let fits = nothing_above(alloc, set)?;
    Ok(LinkedClass {
        ty,
        fits,
        above: None,
        fresh: Seq::new(alloc),
        starts: Seq::new(alloc),
        selects: Seq::new(alloc),
    })
}
