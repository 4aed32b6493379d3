//! The numbers of the superclass and the interfaces of each class.

ghost use Rattle.std.specs.Prelude.{◌≡◌, ◌≤◌, ◌++◌, [], map, IfOk, OnOk, length, filter_map, option_to_list};
ghost use Rattle.std.specs.List.{cons_option};
ghost use Rattle.set_lookups.specs.Links.{place_of, row_of};

use crate::members::number_of;
use crate::row::Row;
use class_model::ClassDef;
use indexmap::IndexSet;
use lists::{Name, Seq};
use std::alloc::{AllocError, Global};

/// The place of a name.
fn place(names: &IndexSet<Name>, name: &Name) -> Option<u32>
    requires { length names.now.keys ≤ 1001000 }
    ensures { result ≡ place_of names.now.keys name.now }
{
    number_of(names.get_index_of(name))
}

/// Puts the place of a name behind the others, where it is there.
fn add_place(names: &IndexSet<Name>, name: &Name, numbers: &mut Seq<u32>) -> Result<(), AllocError>
    requires { length names.now.keys ≤ 1001000 }
    ensures { OnOk result (numbers.new ≡ numbers.old ++ cons_option (place_of names.now.keys name.now) []) }
{
    match place(names, name) {
        Some(number) => numbers.push(number),
        None => Ok(()),
    }
}

/// The places of those names that are there.
fn places(alloc: Global, names: &IndexSet<Name>, given: &[Name]) -> Result<Seq<u32>, AllocError>
    requires { length names.now.keys ≤ 1001000 }
    ensures { IfOk result (λ numbers. numbers ≡ filter_map (place_of names.now.keys) given.now) }
{
    let mut numbers = Seq::new(alloc);
    for name in given {
        add_place(names, name, &mut numbers)?;
    }
    Ok(numbers)
}

fn link(alloc: Global, names: &IndexSet<Name>, class: &ClassDef) -> Result<Row, AllocError>
    requires { length names.now.keys ≤ 1001000 }
    ensures { IfOk result (λ row. row ≡ row_of names.now.keys class.now) }
{
    let superclass = match &class.super_name {
        Some(name) => place(names, name),
        None => None,
    };
    Ok(Row {
        superclass,
        interfaces: places(alloc, names, class.interfaces.as_slice())?,
    })
}

/// The rows of classes, where these are their names.
pub fn link_all(
    alloc: Global,
    names: &IndexSet<Name>,
    classes: &[ClassDef],
) -> Result<Seq<Row>, AllocError>
    requires { length names.now.keys ≤ 1001000 }
    ensures { IfOk result (λ rows. rows ≡ map (row_of names.now.keys) classes.now) }
{
    let mut rows = Seq::new(alloc);
    for class in classes {
        rows.push(link(alloc, names, class)?)?;
    }
    Ok(rows)
}

/// The interfaces of each class.
pub fn interface_lists(alloc: Global, rows: &[Row]) -> Result<Seq<Seq<u32>>, AllocError>
    ensures { IfOk result (λ lists. lists ≡ map (λ row. row.interfaces) rows.now) }
{
    let mut lists = Seq::new(alloc);
    for row in rows {
        lists.push(row.interfaces.clone()?)?;
    }
    Ok(lists)
}

/// A class's superclass, if any.
fn super_list(alloc: Global, superclass: Option<u32>) -> Result<Seq<u32>, AllocError>
    ensures { IfOk result (λ list. list ≡ option_to_list superclass) }
{
    let mut list = Seq::new(alloc);
    match superclass {
        Some(number) => {
            list.push(number)?;
            Ok(list)
        }
        None => Ok(list),
    }
}

/// A class's superclass and its interfaces.
fn above_row(alloc: Global, row: &Row) -> Result<Seq<u32>, AllocError>
    ensures { IfOk result (λ list. list ≡ option_to_list row.now.superclass ++ row.now.interfaces) }
{
    let mut list = super_list(alloc, row.superclass)?;
    for number in row.interfaces.as_slice() {
        list.push(*number)?;
    }
    Ok(list)
}

/// The classes directly above each class.
pub fn above_lists(alloc: Global, rows: &[Row]) -> Result<Seq<Seq<u32>>, AllocError>
    ensures { IfOk result (λ lists. lists ≡ map (λ row. option_to_list row.superclass ++ row.interfaces) rows.now) }
{
    let mut lists = Seq::new(alloc);
    for row in rows {
        lists.push(above_row(alloc, row)?)?;
    }
    Ok(lists)
}
