//! The methods that objects of a class have, by the number of a name and a descriptor.

ghost use Rattle.std.specs.Prelude.{◌≡◌, ◌<◌, ◌++◌, IfOk, OnOk, length, flat_map};
ghost use Rattle.set_lookups.specs.Flags as table;
ghost use Rattle.program_links.specs.Before.{AreBefore};
ghost use Rattle.program_links.specs.Each.{Numbered};
ghost use Rattle.program_links.specs.RowTo.{OwnSelects};
ghost use Rattle.program_links.specs.Selects.{SelectorOf, selection_of, own_of};
ghost use Rattle.program_links.specs.Upwards.{AreClasses};

use crate::before::{Before, methods_in_front, sum};
use crate::fields::number;
use crate::tables::Tables;
use class_model::MethodDef;
use class_set::{ClassId, ClassSet};
use linked_code::Selection;
use lists::Seq;
use std::alloc::{AllocError, Global};

/// Whether a method can be selected: it is neither private nor static.
fn is_inherited(method: &MethodDef) -> bool
    ensures { result ≡ table.is_inherited method.now }
{
    method.flags & 2 == 0 && method.flags & 8 == 0
}

/// The selector of a method that can be selected, where code calls it.
#[tactic(auto, using(crate::proofs::Apart::selector_is, crate::proofs::Apart::selector_none))]
fn selector_of(tables: &Tables, method: &MethodDef) -> Result<Option<u32>, AllocError>
    ensures { IfOk result (SelectorOf tables.now method.now) }
{
    if !is_inherited(method) {
        return Ok(None);
    }
    tables.find_selector(&method.name, &method.desc)
}

/// Puts a method of a selector behind the others, where it has one.
fn push_selection(
    selects: &mut Seq<Selection>,
    selector: Option<u32>,
    method: u32,
) -> Result<(), AllocError>
    ensures { OnOk result (selects.new ≡ selects.old ++ selection_of selector method) }
{
    match selector {
        Some(selector) => selects.push(Selection { selector, method }),
        None => Ok(()),
    }
}

/// The methods that a class itself has for the selectors.
#[tactic(auto, using(crate::proofs::Selected::none_yet, crate::proofs::Selected::own_more, crate::proofs::Selected::own_all))]
fn own_selects(
    alloc: Global,
    set: &ClassSet,
    before: &Seq<Before>,
    tables: &Tables,
    class: u32,
) -> Result<Seq<Selection>, AllocError>
    requires rows { AreBefore set.now before.now (length set.now) }
    requires there { class < length set.now }
    ensures { IfOk result (OwnSelects set.now tables.now class) }
{
    let mut selects = Seq::new(alloc);
    let of = set.class(ClassId(class));
    let front = methods_in_front(set, before, class);
    for index in 0..of.methods.len() {
        let method = number(sum(front, index)?)?;
        let selector = selector_of(tables, of.methods.at(index))?;
        push_selection(&mut selects, selector, method)?;
    }
    Ok(selects)
}

/// The methods that each class itself has for the selectors.
#[tactic(auto, using(crate::proofs::EachMore::numbered_more, crate::proofs::EachMore::none_numbered))]
pub fn all_own_selects(
    alloc: Global,
    set: &ClassSet,
    before: &Seq<Before>,
    tables: &Tables,
) -> Result<Seq<Seq<Selection>>, AllocError>
    requires rows { AreBefore set.now before.now (length set.now) }
    ensures { IfOk result (λ owns. Numbered (OwnSelects set.now tables.now) owns (length set.now)) }
{
    let mut owns = Seq::new(alloc);
    for class in 0..set.len() {
        owns.push(own_selects(alloc, set, before, tables, class)?)?;
    }
    Ok(owns)
}

fn push_all(selects: &mut Seq<Selection>, own: &Seq<Selection>) -> Result<(), AllocError>
    ensures { OnOk result (selects.new ≡ selects.old ++ own.now) }
{
    for selection in own.as_slice() {
        selects.push(*selection)?;
    }
    Ok(())
}

/// Puts those of a class behind the others.
fn push_own(
    selects: &mut Seq<Selection>,
    owns: &Seq<Seq<Selection>>,
    class: u32,
) -> Result<(), AllocError>
    ensures { OnOk result (selects.new ≡ selects.old ++ own_of owns.now class) }
{
    match owns.get(class as usize) {
        Some(own) => push_all(selects, own),
        None => Ok(()),
    }
}

/// The methods of the selectors in a class and those above it, the lowest ones first.
#[tactic(auto, using(crate::proofs::Gathered::gathered_more, crate::proofs::Gathered::gathered_none, crate::proofs::Gathered::all_gathered))]
pub fn selects_along(
    alloc: Global,
    owns: &Seq<Seq<Selection>>,
    numbers: &Seq<u32>,
) -> Result<Seq<Selection>, AllocError>
    ensures { IfOk result (λ selects. selects ≡ flat_map (own_of owns.now) numbers.now) }
{
    let mut selects = Seq::new(alloc);
    for at in 0..numbers.len() {
        push_own(&mut selects, owns, *numbers.at(at))?;
    }
    Ok(selects)
}
