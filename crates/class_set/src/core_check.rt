//! Whether the core classes are there and have their shapes.

ghost use Rattle.std.specs.Prelude.{◌≡◌, None, Some, MatchResult, IfSome, is_some, map, option_map, slice_get, true, if◌then◌else◌};
ghost use Rattle.lists.specs.Texts.{units_of};
ghost use Rattle.set_lookups.specs.Above.{find_class};
ghost use Rattle.set_lookups.specs.First.{holds_of};
ghost use Rattle.set_lookups.specs.Lookups.{object_name};
ghost use Rattle.class_set.specs.Core as table;
ghost use Rattle.class_set.specs.declared.fault.SetFault.TheVariants.{Core};
ghost use Rattle.class_set.specs.Answer.{IsFault};

use crate::core_shapes::{is_object, is_string, is_throwable};
use crate::fault::SetFault;
use crate::flags::{is_abstract, is_interface};
use lists::Name;
use set_lookups::{ClassId, Hierarchy};
use std::alloc::Global;

/// The seven exceptions that an instruction throws (JVMS 6.5), by name.
const THROWN: [&str; 7] = [
    "java/lang/ArithmeticException",
    "java/lang/ArrayIndexOutOfBoundsException",
    "java/lang/ArrayStoreException",
    "java/lang/ClassCastException",
    "java/lang/IncompatibleClassChangeError",
    "java/lang/NegativeArraySizeException",
    "java/lang/NullPointerException",
];

/// Nothing where a core class is there and has its shape, else the fault that names it.
fn require(alloc: Global, has_shape: bool, name: &str) -> Result<(), SetFault>
    ensures { MatchResult result
        (λ _. has_shape ≡ true)
        (IsFault (if has_shape then None else Some (Core (units_of name.now)))) }
{
    if has_shape {
        return Ok(());
    }
    Err(SetFault::Core(Name::from_str(alloc, name)?))
}

fn has_object(set: &Hierarchy) -> bool
    ensures { result ≡ table.has_shape set.now (λ number. table.is_object) object_name }
{
    let Some(id) = set.find("java/lang/Object") else {
        return false;
    };
    match set.class_at(id) {
        Some(class) => is_object(class),
        None => false,
    }
}

fn has_string(set: &Hierarchy) -> bool
    ensures { result ≡ table.has_shape set.now (λ number. table.is_string) table.string_name }
{
    let Some(id) = set.find("java/lang/String") else {
        return false;
    };
    match set.class_at(id) {
        Some(class) => is_string(class),
        None => false,
    }
}

/// The class `java/lang/Throwable`, where it has its shape.
fn find_throwable(set: &Hierarchy) -> Option<ClassId>
    ensures found { IfSome result (λ id. find_class set.now table.throwable_name ≡ Some id.0) }
    ensures shaped { is_some result ≡ table.has_shape set.now (λ number. table.is_throwable) table.throwable_name }
{
    let id = set.find("java/lang/Throwable")?;
    let class = set.class_at(id)?;
    if is_throwable(class) { Some(id) } else { None }
}

/// A class that is not abstract, and a subtype of `java/lang/Throwable`.
fn is_thrown(set: &Hierarchy, id: ClassId, throwable: ClassId) -> bool
    requires { find_class set.now table.throwable_name ≡ Some throwable.0 }
    ensures { result ≡ holds_of (table.is_thrown set.now id.0) (slice_get set.now id.0) }
{
    let Some(class) = set.class_at(id) else {
        return false;
    };
    !is_interface(class) && !is_abstract(class.flags) && set.subtype(id, throwable)
}

fn has_thrown(set: &Hierarchy, throwable: ClassId, name: &str) -> bool
    requires { find_class set.now table.throwable_name ≡ Some throwable.0 }
    ensures { result ≡ table.has_shape set.now (table.is_thrown set.now) (units_of name.now) }
{
    match set.find(name) {
        Some(id) => is_thrown(set, id, throwable),
        None => false,
    }
}

/// Whether the classes of some names are exceptions that an instruction can throw. Else the first that is not.
fn check_thrown(
    alloc: Global,
    set: &Hierarchy,
    throwable: ClassId,
    names: &[&str],
) -> Result<(), SetFault>
    requires { find_class set.now table.throwable_name ≡ Some throwable.0 }
    ensures { MatchResult result
        (λ _. table.thrown_wrong set.now (map (λ name. units_of name.now) names.now) ≡ None)
        (IsFault (option_map Core (table.thrown_wrong set.now (map (λ name. units_of name.now) names.now)))) }
{
    for name in names {
        require(alloc, has_thrown(set, throwable, name), name)?;
    }
    Ok(())
}

/// Whether `java/lang/Throwable` and the exceptions that an instruction throws are there and have their shapes.
fn check_exceptions(alloc: Global, set: &Hierarchy) -> Result<(), SetFault>
    ensures { MatchResult result
        (λ _. table.exceptions set.now ≡ None)
        (IsFault (option_map Core (table.exceptions set.now))) }
{
    match find_throwable(set) {
        Some(throwable) => check_thrown(alloc, set, throwable, &THROWN),
        None => require(alloc, false, "java/lang/Throwable"),
    }
}

/// Whether the core classes are there and have their shapes. Else the first that is not or has not.
pub fn check_core(alloc: Global, set: &Hierarchy) -> Result<(), SetFault>
    ensures { MatchResult result
        (λ _. table.core set.now ≡ None)
        (IsFault (option_map Core (table.core set.now))) }
{
    require(alloc, has_object(set), "java/lang/Object")?;
    require(alloc, has_string(set), "java/lang/String")?;
    check_exceptions(alloc, set)
}
