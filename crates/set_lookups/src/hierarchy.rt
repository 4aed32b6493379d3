//! The index over a list of classes.

ghost use Rattle.std.specs.Prelude.{◌≡◌, ◌<◌, IfOk, length, slice_get, option_map, option_to_list, Some};
ghost use Rattle.std.specs.Option.{option_copied};
ghost use Rattle.lists.specs.Texts.{units_of};
ghost use Rattle.set_lookups.specs.Above.{same_name, find_class};
ghost use Rattle.set_lookups.specs.Lookups.{interfaces_at, super_at};
ghost use Rattle.set_lookups.specs.Rows.{IsIndex, Shows};

mod fields;
mod interfaces;
mod methods;
mod reached;
mod subtype;

use crate::ids::ClassId;
use crate::level_build::Above;
use crate::member_table::Members;
use crate::members::number_of;
use crate::row::Row;
use class_model::ClassDef;
use indexmap::IndexSet;
use lists::{Name, Seq};
pub use reached::ClassTest;
use std::alloc::{AllocError, Global};
use std::marker::Model;

/// What is known of classes that name one another by superclass and interface without a cycle.
#[derive(Drop)]
pub(crate) struct Parts {
    pub classes: Seq<ClassDef>,
    pub names: IndexSet<Name>,
    pub rows: Seq<Row>,
    /// For each class a number above those of the classes that it names as superclass and interfaces.
    pub ranks: Seq<u32>,
    /// The superinterfaces of each class, level by level.
    pub breadth: Above,
    /// What is above the interfaces of each class, level by level.
    pub reached: Above,
    /// The members of the classes, found by hash.
    pub members: Members,
}

/// Classes that name one another by superclass and interface without a cycle, with an index by name.
/// Contracts see the list of the classes.
#[derive(Drop)]
pub struct Hierarchy {
    parts: Box<Parts>,
}

impl Model for Hierarchy {
    ghost use Rattle.std.specs.Prelude.{List};
    ghost use Rattle.class_model.specs.declared.class.ClassDef.{ClassDef};
    ghost use Rattle.set_lookups.specs.Rows.{IsIndex};

    ghost Value = { List ClassDef };

    ghost view = { λ h. h.parts.value.classes };

    ghost invariant = { λ h. IsIndex h.parts.value.classes h.parts.value.names.keys h.parts.value.rows h.parts.value.ranks
        h.parts.value.breadth h.parts.value.reached h.parts.value.members };
}

impl Hierarchy {
    /// The classes with what is known of them, in one place of their own, so that each function that lets a set go does so
    /// in one call.
    pub(crate) fn from_parts(alloc: Global, parts: Parts) -> Result<Hierarchy, AllocError>
        requires { IsIndex parts.classes parts.names.keys parts.rows parts.ranks parts.breadth parts.reached parts.members }
        ensures { IfOk result (λ set. set ≡ parts.classes) }
    {
        Ok(Hierarchy {
            parts: Box::new(alloc, parts)?,
        })
    }

    /// What is known of the classes.
    fn index(&self) -> &Parts
        ensures holds { IsIndex result.now.classes result.now.names.keys result.now.rows result.now.ranks
            result.now.breadth result.now.reached result.now.members }
        ensures shown { result.now.classes ≡ self.now }
    {
        &self.parts
    }

    /// The number of classes.
    pub fn len(&self) -> u32
        ensures { result ≡ length self.now }
    {
        self.parts.classes.len() as u32
    }

    /// The classes in their order.
    pub fn classes(&self) -> &[ClassDef]
        ensures { result.now ≡ self.now }
    {
        self.parts.classes.as_slice()
    }

    /// The class of a number.
    pub fn class(&self, id: ClassId) -> &ClassDef
        requires { id.0 < length self.now }
        ensures { slice_get self.now id.0 ≡ Some result.now }
    {
        self.parts.classes.at(id.0 as usize)
    }

    /// The class of a number, if there is one.
    pub fn class_at(&self, id: ClassId) -> Option<&ClassDef>
        ensures { option_copied result ≡ slice_get self.now id.0 }
    {
        self.parts.classes.get(id.0 as usize)
    }

    /// The number of the class of a name.
    fn number(&self, name: &Name) -> Option<u32>
        ensures { result ≡ find_class self.now name.now }
    {
        number_of(self.index().names.get_index_of(name))
    }

    /// The class of a name.
    pub fn find_name(&self, name: &Name) -> Option<ClassId>
        ensures { option_map (λ id. id.0) result ≡ find_class self.now name.now }
    {
        match self.number(name) {
            Some(number) => Some(ClassId(number)),
            None => None,
        }
    }

    /// The class of a name that a text spells.
    pub fn find(&self, name: &str) -> Option<ClassId>
        ensures { option_map (λ id. id.0) result ≡ find_class self.now (units_of name.now) }
    {
        match self.number_of_text(name) {
            Some(number) => Some(ClassId(number)),
            None => None,
        }
    }

    /// The number of the class of a name that a text spells.
    fn number_of_text(&self, name: &str) -> Option<u32>
        ensures { result ≡ find_class self.now (units_of name.now) }
    {
        number_of(place_of(self.parts.classes.as_slice(), name))
    }

    /// What the index keeps of a class.
    fn row(&self, at: u32) -> Option<&Row>
        ensures { Shows self.now at result }
    {
        self.index().rows.get(at as usize)
    }

    /// The numbers of the interfaces of a class, in its order.
    pub fn interfaces(&self, at: u32) -> &[u32]
        ensures { result.now ≡ interfaces_at self.now at }
    {
        match self.row(at) {
            Some(row) => row.interfaces.as_slice(),
            None => &[],
        }
    }

    /// The number of the superclass of a class.
    pub fn superclass(&self, at: u32) -> Option<u32>
        ensures { option_to_list result ≡ super_at self.now at }
    {
        match self.row(at) {
            Some(row) => row.superclass,
            None => None,
        }
    }
}

/// Whether this is the name that a text spells.
#[tactic(auto, using(crate::specs::SameTypes::name_test))]
fn is_text(name: &Name, text: &str) -> bool
    ensures { result ≡ same_name name.now (units_of text.now) }
{
    name.is(text)
}

/// The place of the first class of a name that a text spells.
fn place_of(classes: &[ClassDef], name: &str) -> Option<usize>
    ensures { result ≡ find_class classes.now (units_of name.now) }
{
    classes.iter().position(|class| is_text(&class.name, name))
}
