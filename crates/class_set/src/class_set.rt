//! Closed sets.

ghost use Rattle.std.specs.Prelude.{◌≡◌, ◌<◌, ◌↔◌, IsTrue, length, slice_get, option_map, Some};
ghost use Rattle.lists.specs.Texts.{units_of};
ghost use Rattle.set_lookups.specs.Above.{Subtype, find_class, is_subtype};
ghost use Rattle.set_lookups.specs.Lookups as look;
ghost use Rattle.class_set.specs.Closed.{Closed};

use class_model::{ClassDef, FieldRef, MethodRef};
use lists::Name;
use set_lookups::{ClassId, Hierarchy, MethodId};
use std::marker::Model;

/// A closed set of classes: each class that is named is there, each reference resolves to a member of the
/// right kind, and no class is above itself. Contracts see the list of the classes, which are numbered in its
/// order.
#[derive(Drop)]
pub struct ClassSet {
    classes: Hierarchy,
}

impl Model for ClassSet {
    ghost use Rattle.std.specs.Prelude.{List};
    ghost use Rattle.class_model.specs.declared.class.ClassDef.{ClassDef};
    ghost use Rattle.class_set.specs.Closed.{Closed};

    ghost Value = { List ClassDef };

    ghost view = { λ s. s.classes };

    ghost invariant = { λ s. Closed s.classes };
}

impl ClassSet {
    /// A set that was found to be closed.
    pub(crate) fn of(classes: Hierarchy) -> ClassSet
        requires { Closed classes }
        ensures { result ≡ classes }
    {
        ClassSet { classes }
    }

    /// The number of classes.
    pub fn len(&self) -> u32
        ensures { result ≡ length self.now }
    {
        self.classes.len()
    }

    /// The classes, in the order of their numbers. Takes no memory.
    pub fn classes(&self) -> &[ClassDef]
        ensures same { result.now ≡ self.now }
        ensures closed { Closed self.now }
    {
        self.classes.classes()
    }

    /// The class of a number.
    pub fn class(&self, id: ClassId) -> &ClassDef
        requires { id.0 < length self.now }
        ensures { slice_get self.now id.0 ≡ Some result.now }
    {
        self.classes.class(id)
    }

    /// The class of a name that a text spells.
    pub fn find(&self, name: &str) -> Option<ClassId>
        ensures { option_map (λ id. id.0) result ≡ find_class self.now (units_of name.now) }
    {
        self.classes.find(name)
    }

    /// The class of a name.
    pub fn find_name(&self, name: &Name) -> Option<ClassId>
        ensures { option_map (λ id. id.0) result ≡ find_class self.now name.now }
    {
        self.classes.find_name(name)
    }

    /// Whether a class is the other or below it (JVMS 4.10).
    pub fn subtype(&self, low: ClassId, high: ClassId) -> bool
        ensures exact { IsTrue result ↔ Subtype self.now low.0 high.0 }
        ensures value { result ≡ is_subtype self.now low.0 high.0 }
    {
        self.classes.subtype(low, high)
    }

    /// The method that a receiver of a class has for a method, by its name and descriptor: the first up the
    /// superclasses that is neither static nor private. `None` where there is none.
    pub fn select(&self, class: ClassId, target: MethodId) -> Option<MethodId>
        ensures { result ≡ look.select self.now class.0 target }
    {
        self.classes.select(class, target)
    }

    /// The field that a reference names (JVMS 5.4.3.2): its class, and its number there. `None` where there
    /// is none.
    pub fn resolve_field(&self, target: &FieldRef) -> Option<(ClassId, u32)>
        ensures { result ≡ option_map look.field_id (look.resolve_field self.now target.now) }
    {
        self.classes.resolve_field(target)
    }

    /// The method that a reference names (JVMS 5.4.3.3 and 5.4.3.4, by name and descriptor alone). A method
    /// of an array is one of `java/lang/Object`. `None` where there is none.
    pub fn resolve_method(&self, target: &MethodRef) -> Option<MethodId>
        ensures { result ≡ look.resolve_method self.now target.now }
    {
        self.classes.resolve_method(target)
    }
}
