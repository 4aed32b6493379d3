//! Classes that extend, implement or override what they cannot.

ghost use Rattle.std.specs.Prelude.{◌≡◌, ◌||◌, List, ℕ, not, IfOk, OnOk, slice_get};
ghost use Rattle.std.specs.List.{list_any};
ghost use Rattle.set_lookups.specs.Above.{same_name};
ghost use Rattle.set_lookups.specs.First.{holds_of};
ghost use Rattle.set_lookups.specs.Flags as flags;
ghost use Rattle.set_lookups.specs.Lookups.{super_at, interfaces_at};
ghost use Rattle.class_set.specs.FinalSuper as table;
ghost use Rattle.class_set.specs.Upwards.{is_kept_named, methods_of, HoldsFinals};

use crate::above::SuperWalk;
use crate::flags::{is_final, is_inherited, is_interface};
use class_model::{ClassDef, MethodDef};
use indexmap::IndexSet;
use lists::Name;
use set_lookups::{ClassId, Hierarchy};
use std::alloc::{AllocError, Global};

/// A final method that a class below cannot have again adds its name.
fn add_if_final(names: &mut IndexSet<Name>, method: &MethodDef) -> Result<(), AllocError>
    ensures { OnOk result ((name : List ℕ) →
        list_any (same_name name) names.new.keys ≡ (list_any (same_name name) names.old.keys || is_kept_named name method.now)) }
{
    if is_final(method.flags) && is_inherited(method) {
        names.insert(method.name.clone()?)?;
    }
    Ok(())
}

/// The final methods of a class that classes below cannot have again add their names.
fn add_finals(names: &mut IndexSet<Name>, methods: &[MethodDef]) -> Result<(), AllocError>
    ensures { OnOk result ((name : List ℕ) →
        list_any (same_name name) names.new.keys ≡ (list_any (same_name name) names.old.keys || list_any (is_kept_named name) methods.now)) }
{
    for method in methods {
        add_if_final(names, method)?;
    }
    Ok(())
}

/// The names of the final methods that classes below cannot have again.
pub fn final_names(alloc: Global, classes: &[ClassDef]) -> Result<IndexSet<Name>, AllocError>
    ensures { IfOk result (λ names. HoldsFinals names.keys classes.now) }
{
    let mut names = IndexSet::new(alloc);
    for class in classes {
        add_finals(&mut names, class.methods.as_slice())?;
    }
    Ok(names)
}

/// Whether a class declares a final method that a class below with this one overrides.
fn keeps_final(set: &Hierarchy, number: u32, method: &MethodDef) -> bool
    ensures { result ≡ list_any (table.is_kept method.now) (methods_of set.now number) }
{
    set.declares_final(number, &method.name, &method.desc)
}

/// Whether a superclass has a final method that this one overrides.
fn overrides_above(set: &Hierarchy, number: u32, method: &MethodDef) -> bool
    ensures { result ≡ list_any (table.is_kept method.now) (table.methods_at set.now (table.classes_above set.now number)) }
{
    let mut walk = SuperWalk::above_class(set, number);
    while let Some(higher) = walk.next() {
        if keeps_final(set, higher, method) {
            return true;
        }
    }
    false
}

/// Whether a method overrides a final one. The way up is only gone for the names of final methods.
fn overrides_final(
    set: &Hierarchy,
    finals: &IndexSet<Name>,
    number: u32,
    method: &MethodDef,
) -> bool
    requires { HoldsFinals finals.now.keys set.now }
    ensures { result ≡ table.overrides_final set.now number method.now }
{
    if !is_inherited(method) {
        return false;
    }
    if !finals.contains(&method.name) {
        return false;
    }
    overrides_above(set, number, method)
}

fn any_overrides_final(
    set: &Hierarchy,
    finals: &IndexSet<Name>,
    number: u32,
    methods: &[MethodDef],
) -> bool
    requires { HoldsFinals finals.now.keys set.now }
    ensures { result ≡ list_any (table.overrides_final set.now number) methods.now }
{
    methods
        .iter()
        .any(|method| overrides_final(set, finals, number, method))
}

/// A class that no class can extend.
fn is_sealed(set: &Hierarchy, number: u32) -> bool
    ensures { result ≡ holds_of (λ class. flags.is_final class.flags || flags.is_interface class) (slice_get set.now number) }
{
    match set.class_at(ClassId(number)) {
        Some(class) => is_final(class.flags) || is_interface(class),
        None => false,
    }
}

fn extends_final(set: &Hierarchy, number: u32) -> bool
    ensures { result ≡ list_any (λ higher. flags.is_final higher.flags || flags.is_interface higher) (table.classes_at set.now (super_at set.now number)) }
{
    match set.superclass(number) {
        Some(higher) => is_sealed(set, higher),
        None => false,
    }
}

fn is_no_interface(set: &Hierarchy, number: u32) -> bool
    ensures { result ≡ holds_of (λ class. not (flags.is_interface class)) (slice_get set.now number) }
{
    match set.class_at(ClassId(number)) {
        Some(class) => !is_interface(class),
        None => false,
    }
}

fn any_no_interface(set: &Hierarchy, numbers: &[u32]) -> bool
    ensures { result ≡ list_any (λ number. holds_of (λ class. not (flags.is_interface class)) (slice_get set.now number)) numbers.now }
{
    numbers.iter().any(|number| is_no_interface(set, *number))
}

fn implements_class(set: &Hierarchy, number: u32) -> bool
    ensures { result ≡ list_any (λ higher. not (flags.is_interface higher)) (table.classes_at set.now (interfaces_at set.now number)) }
{
    any_no_interface(set, set.interfaces(number))
}

/// Whether a class extends a final class or an interface, implements a class, or overrides a final method of
/// a superclass. `finals` has the names of all methods that are final and neither private nor static.
pub fn has_final_super(
    set: &Hierarchy,
    finals: &IndexSet<Name>,
    number: u32,
    class: &ClassDef,
) -> bool
    requires { HoldsFinals finals.now.keys set.now }
    ensures { result ≡ table.has_final_super set.now number class.now }
{
    extends_final(set, number)
        || implements_class(set, number)
        || any_overrides_final(set, finals, number, class.methods.as_slice())
}
