//! Classes that leave an abstract method open.

ghost use Rattle.std.specs.Prelude.{◌≡◌, ◌++◌};
ghost use Rattle.std.specs.List.{list_any};
ghost use Rattle.set_lookups.specs.Lookups.{supers, superinterfaces};
ghost use Rattle.class_set.specs.FinalSuper.{classes_above, methods_at};
ghost use Rattle.class_set.specs.Open as table;
ghost use Rattle.class_set.specs.Upwards as upwards;

use crate::above::{SuperWalk, methods_of};
use crate::core_shapes::is_text;
use crate::flags::{is_abstract, is_inherited, is_interface};
use crate::wrong_kind::lacks_body;
use class_model::{ClassDef, MethodDef};
use set_lookups::{ClassId, ClassTest, Hierarchy};

fn is_concrete(class: &ClassDef) -> bool
    ensures { result ≡ table.is_concrete class.now }
{
    !is_abstract(class.flags) && !is_interface(class)
}

/// Whether selection from a class finds no method or an abstract one for an instance method that is neither
/// private nor `<init>`.
fn is_open(set: &Hierarchy, number: u32, method: &MethodDef) -> bool
    ensures { result ≡ table.is_open set.now number method.now }
{
    is_inherited(method)
        && !is_text(&method.name, "<init>")
        && lacks_body(set, set.select_named(number, &method.name, &method.desc))
}

fn any_open(set: &Hierarchy, number: u32, methods: &[MethodDef]) -> bool
    ensures { result ≡ list_any (table.is_open set.now number) methods.now }
{
    methods.iter().any(|method| is_open(set, number, method))
}

/// To have a method that is open in a class.
#[derive(Drop)]
struct HasOpen<'a> {
    set: &'a Hierarchy,
    number: u32,
}

impl ClassTest for HasOpen<'_> {
    ghost passes = { λ test higher. list_any (table.is_open test.set.now test.number) (upwards.methods_of test.set.now higher) };

    fn passes(&self, number: u32) -> bool {
        any_open(self.set, self.number, methods_of(self.set, number))
    }
}

/// Whether a method that a superclass has from itself or from its interfaces is open in a class.
fn any_open_at(set: &Hierarchy, number: u32, higher: u32) -> bool
    ensures { result ≡ table.open_at set.now number higher }
{
    if any_open(set, number, methods_of(set, higher)) {
        return true;
    }
    set.any_superinterface(higher, &HasOpen { set, number })
}

/// Whether a method of a class, of a superclass or of a superinterface is open in it.
fn any_open_up(set: &Hierarchy, number: u32) -> bool
    ensures { result ≡ list_any (table.is_open set.now number) (methods_at set.now (supers set.now number ++ superinterfaces set.now number)) }
{
    let mut walk = SuperWalk::from_class(set, number);
    while let Some(higher) = walk.next() {
        if any_open_at(set, number, higher) {
            return true;
        }
    }
    false
}

/// Whether a class that is neither abstract nor an interface leaves a method open that it has from itself, from a
/// superclass or from a superinterface.
pub fn leaves_open(set: &Hierarchy, number: u32, class: &ClassDef) -> bool
    ensures { result ≡ table.leaves_open set.now number class.now }
{
    is_concrete(class) && any_open_up(set, number)
}

fn is_concrete_at(set: &Hierarchy, number: u32) -> bool
    ensures { result ≡ table.concrete_at set.now number }
{
    match set.class_at(ClassId(number)) {
        Some(class) => is_concrete(class),
        None => false,
    }
}

/// Whether a method of the superclasses below the first one that is neither abstract nor an interface is open.
fn any_open_below(set: &Hierarchy, number: u32) -> bool
    ensures { result ≡ table.open_below set.now number (classes_above set.now number) }
{
    let mut walk = SuperWalk::above_class(set, number);
    while let Some(higher) = walk.next() {
        if is_concrete_at(set, higher) {
            return false;
        }
        if any_open_at(set, number, higher) {
            return true;
        }
    }
    false
}

/// Whether a class that is neither abstract nor an interface leaves a method open that it declares itself or
/// has from its interfaces or from superclasses below the first one of that kind: what is above that one is
/// judged of that one.
pub fn leaves_new_open(set: &Hierarchy, number: u32, class: &ClassDef) -> bool
    ensures { result ≡ table.leaves_new_open set.now number class.now }
{
    is_concrete(class) && (any_open_at(set, number, number) || any_open_below(set, number))
}
