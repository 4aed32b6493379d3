//! The small base.

ghost use Rattle.std.specs.Prelude.{◌≡◌, ◌≢◌, [], ◌∷◌, ◌++◌, List, length, map, ◌↔◌, IsTrue, IfOk, MatchOption};
ghost use Rattle.std.specs.List.{Contains};
ghost use Rattle.lists.specs.Texts.{units_of};
ghost use Rattle.class_model.specs.declared.class.ClassDef.{ClassDef};
ghost use Rattle.small_base.specs.Rows as rows;
ghost use Rattle.small_base.specs.Base as spec;

use crate::class_tests::{
    is_native_class, is_object_class, is_string_class, is_system_class, is_thrown,
};
use crate::classes::{native_class, object_class, string_class, system_class, thrown_class};
use class_model::ClassDef;
use lists::Name;
use std::alloc::{AllocError, Global};

/// A class of the base. `Thrown` is `java/lang/Throwable` or a class below it, by its name and that of its superclass.
#[derive(Clone, Copy)]
enum Row {
    Object,
    Text,
    System,
    Native,
    Thrown(&'static str, &'static str),
}

/// The superclass of most exceptions.
const RUNTIME: &str = "java/lang/RuntimeException";

/// The classes of the base, in the order of their names.
const BASE: [Row; 21] = [
    Row::Thrown("java/io/IOException", "java/lang/Exception"),
    Row::Thrown("java/lang/ArithmeticException", RUNTIME),
    Row::Thrown(
        "java/lang/ArrayIndexOutOfBoundsException",
        "java/lang/IndexOutOfBoundsException",
    ),
    Row::Thrown("java/lang/ArrayStoreException", RUNTIME),
    Row::Thrown("java/lang/ClassCastException", RUNTIME),
    Row::Thrown("java/lang/Error", "java/lang/Throwable"),
    Row::Thrown("java/lang/Exception", "java/lang/Throwable"),
    Row::Thrown("java/lang/IllegalArgumentException", RUNTIME),
    Row::Thrown("java/lang/IllegalStateException", RUNTIME),
    Row::Thrown(
        "java/lang/IncompatibleClassChangeError",
        "java/lang/LinkageError",
    ),
    Row::Thrown("java/lang/IndexOutOfBoundsException", RUNTIME),
    Row::Thrown("java/lang/LinkageError", "java/lang/Error"),
    Row::Thrown("java/lang/NegativeArraySizeException", RUNTIME),
    Row::Thrown("java/lang/NullPointerException", RUNTIME),
    Row::Thrown(
        "java/lang/NumberFormatException",
        "java/lang/IllegalArgumentException",
    ),
    Row::Object,
    Row::Thrown(RUNTIME, "java/lang/Exception"),
    Row::Text,
    Row::System,
    Row::Thrown("java/lang/Throwable", "java/lang/Object"),
    Row::Native,
];

/// The class of a row.
fn class_of(alloc: Global, row: &Row) -> Result<ClassDef, AllocError>
    ensures { IfOk result (λ class. class ≡ rows.class_of row.now) }
{
    match row {
        Row::Object => object_class(alloc),
        Row::Text => string_class(alloc),
        Row::System => system_class(alloc),
        Row::Native => native_class(alloc),
        Row::Thrown(name, above) => thrown_class(alloc, name, above),
    }
}

/// The name of the class of a row.
fn name_of(row: &Row) -> &str
    ensures { units_of result.now ≡ (rows.class_of row.now).name }
{
    match row {
        Row::Object => "java/lang/Object",
        Row::Text => "java/lang/String",
        Row::System => "java/lang/System",
        Row::Native => "sys/Native",
        Row::Thrown(name, _) => name,
    }
}

/// Whether a class is that of a row.
fn is_row(class: &ClassDef, row: &Row) -> bool
    ensures { IsTrue result ↔ (class.now ≡ rows.class_of row.now) }
{
    match row {
        Row::Object => is_object_class(class),
        Row::Text => is_string_class(class),
        Row::System => is_system_class(class),
        Row::Native => is_native_class(class),
        Row::Thrown(name, above) => is_thrown(class, name, above),
    }
}

/// The classes of rows.
fn classes_of(alloc: Global, table: &[Row]) -> Result<Vec<ClassDef>, AllocError>
    ensures { IfOk result (λ classes. classes.items ≡ map rows.class_of table.now) }
{
    let mut classes = Vec::new(alloc);
    for row in table {
        classes.push(class_of(alloc, row)?)?;
    }
    Ok(classes)
}

/// Whether classes are those of rows, of which there are as many.
fn are_rows(classes: &[ClassDef], table: &[Row]) -> bool
    requires { length classes.now ≡ length table.now }
    ensures { IsTrue result ↔ (classes.now ≡ map rows.class_of table.now) }
{
    for (at, row) in table.iter().enumerate() {
        if !is_row(&classes[at], row) {
            return false;
        }
    }
    true
}

/// Whether a name is that of the class of a row.
fn is_named(name: &Name, table: &[Row]) -> bool
    ensures { IsTrue result ↔ Contains (map (λ row. (rows.class_of row).name) table.now) name.now }
{
    for row in table {
        if name.is(name_of(row)) {
            return true;
        }
    }
    false
}

/// Whether a class of the small base has this name. Takes no memory.
pub fn is_base_name(name: &Name) -> bool
    ensures { IsTrue result ↔ Contains spec.base_names name.now }
{
    is_named(name, &BASE)
}

/// The classes that stand beside those of a folder that has no `java/lang/Object` of its own, in the order of their
/// names: the core classes with `<init>` alone, sixteen exceptions, and the natives.
pub fn small_base(alloc: Global) -> Result<Vec<ClassDef>, AllocError>
    ensures { IfOk result (λ base. base.items ≡ spec.small_base) }
{
    classes_of(alloc, &BASE)
}

/// The classes of a set before the small base, where it ends with the small base. Takes no memory.
pub fn before_base(set: &[ClassDef]) -> Option<&[ClassDef]>
    ensures { MatchOption result ((classes : List ClassDef) → set.now ≢ classes ++ spec.small_base) (λ classes. set.now ≡ classes.now ++ spec.small_base) }
{
    if set.len() < BASE.len() {
        return None;
    }
    let (classes, last) = set.split_at(set.len() - BASE.len());
    if are_rows(last, &BASE) {
        Some(classes)
    } else {
        None
    }
}
