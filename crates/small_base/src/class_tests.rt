//! Tests of classes: whether they are those of the base.

ghost use Rattle.std.specs.Prelude.{◌≡◌, [], ◌∷◌, Some, None, ◌↔◌, IsTrue};
ghost use Rattle.lists.specs.Texts.{units_of};
ghost use Rattle.small_base.specs.Members.{object_name};
ghost use Rattle.small_base.specs.Base as spec;

use crate::member_tests::{
    does_give_int, does_take_arrays, does_take_int, is_native, is_object_init, is_super_init,
    is_value_field,
};
use class_model::{ClassDef, MethodDef};

const PUBLIC_SUPER: u16 = 0x0021;

const PUBLIC_FINAL_SUPER: u16 = 0x0031;

const MAJOR: u16 = 52;

/// Whether everything of a class but its superclass and its members is that of a class of the base.
fn has_header(class: &ClassDef, flags: u16, name: &str) -> bool
    ensures { IsTrue result ↔ (class.now ≡ spec.class_with flags (units_of name.now) class.now.super_name class.now.fields class.now.methods) }
{
    class.minor == 0
        && class.major == MAJOR
        && class.flags == flags
        && class.name.is(name)
        && class.interfaces.is_empty()
        && class.source.is_none()
        && class.inner.is_empty()
}

/// Whether a class extends the one of this name.
fn extends(class: &ClassDef, above: &str) -> bool
    ensures { IsTrue result ↔ (class.now.super_name ≡ Some (units_of above.now)) }
{
    match &class.super_name {
        Some(name) => name.is(above),
        None => false,
    }
}

/// Whether everything of a class but its members is that of a class of the base.
fn is_below(class: &ClassDef, flags: u16, name: &str, above: &str) -> bool
    ensures { IsTrue result ↔ (class.now ≡ spec.class_with flags (units_of name.now) (Some (units_of above.now)) class.now.fields class.now.methods) }
{
    has_header(class, flags, name) && extends(class, above)
}

/// Whether everything of a class but its methods is that of a class of the base without fields.
fn is_bare_below(class: &ClassDef, name: &str, above: &str) -> bool
    ensures { IsTrue result ↔ (class.now ≡ spec.class_with 0x0021 (units_of name.now) (Some (units_of above.now)) [] class.now.methods) }
{
    is_below(class, PUBLIC_SUPER, name, above) && class.fields.is_empty()
}

/// Whether everything of a class but its methods is that of `java/lang/Object`.
fn is_bare_object(class: &ClassDef) -> bool
    ensures { IsTrue result ↔ (class.now ≡ spec.class_with 0x0021 object_name None [] class.now.methods) }
{
    has_header(class, PUBLIC_SUPER, "java/lang/Object")
        && class.super_name.is_none()
        && class.fields.is_empty()
}

pub(crate) fn is_object_class(class: &ClassDef) -> bool
    ensures { IsTrue result ↔ (class.now ≡ spec.object_class) }
{
    match class.methods.as_slice() {
        [init] => is_bare_object(class) && is_object_init(init),
        _ => false,
    }
}

pub(crate) fn is_string_class(class: &ClassDef) -> bool
    ensures { IsTrue result ↔ (class.now ≡ spec.string_class) }
{
    match class.fields.as_slice() {
        [value] => {
            is_below(
                class,
                PUBLIC_FINAL_SUPER,
                "java/lang/String",
                "java/lang/Object",
            ) && is_value_field(value)
                && class.methods.is_empty()
        }
        _ => false,
    }
}

pub(crate) fn is_system_class(class: &ClassDef) -> bool
    ensures { IsTrue result ↔ (class.now ≡ spec.system_class) }
{
    match class.methods.as_slice() {
        [copy] => {
            is_bare_below(class, "java/lang/System", "java/lang/Object")
                && is_native(copy, "arraycopy")
                && does_take_arrays(&copy.desc)
        }
        _ => false,
    }
}

/// Whether methods are the natives of `sys/Native`.
fn are_natives(methods: &[MethodDef]) -> bool
    ensures { IsTrue result ↔ (methods.now ≡ spec.native_methods) }
{
    match methods {
        [read, write, exit] => {
            is_native(read, "read")
                && does_give_int(&read.desc)
                && is_native(write, "write")
                && does_take_int(&write.desc)
                && is_native(exit, "exit")
                && does_take_int(&exit.desc)
        }
        _ => false,
    }
}

pub(crate) fn is_native_class(class: &ClassDef) -> bool
    ensures { IsTrue result ↔ (class.now ≡ spec.native_class) }
{
    is_bare_below(class, "sys/Native", "java/lang/Object") && are_natives(class.methods.as_slice())
}

/// Whether a class is that of exceptions of this name, below the other.
pub(crate) fn is_thrown(class: &ClassDef, name: &str, above: &str) -> bool
    ensures { IsTrue result ↔ (class.now ≡ spec.thrown_class (units_of name.now) (units_of above.now)) }
{
    match class.methods.as_slice() {
        [init] => is_bare_below(class, name, above) && is_super_init(init, above),
        _ => false,
    }
}
