//! The methods that the machine itself carries out, by class, name and descriptor.

ghost use Rattle.std.specs.Prelude.{◌≡◌, ◌∷◌, [], Some, None, Bool};
ghost use Rattle.std.specs.Option.{option_copied};
ghost use Rattle.std.specs.Cmp.Lexicographic.{pointwise};
ghost use Rattle.class_model.specs.declared.types.Primitive.TheVariants as primitives;
ghost use Rattle.class_model.specs.declared.types.BaseType.TheVariants as bases;
ghost use Rattle.lists.specs.Texts.{units_of};
ghost use Rattle.run_state.specs.Natives as natives;
ghost use Rattle.run_state.specs.Texts.{same_text, same_type, same_base, same_result, same_desc, class_type, object_name, string_name, string_array, int_type, main_desc};
ghost use Rattle.program_links.specs.MethodTo.{NativeTo};

use crate::keys::letter;
use class_model::{BaseType, JType, MethodDesc};
use linked_code::Native;
use lists::{Name, Seq};

/// Whether a name is a text whose bytes are its units.
pub fn is_text(name: &Name, text: &str) -> bool
    requires { units_of text.now ≡ text.now }
    ensures { result ≡ same_text name.now text.now }
{
    name.is(text)
}

fn is_int_base(base: &BaseType) -> bool
    ensures { result ≡ same_base base.now (bases.Primitive primitives.Int) }
{
    match base {
        BaseType::Primitive(primitive) => letter(*primitive) == b'I',
        BaseType::Class(_) => false,
    }
}

fn is_int(ty: &JType) -> bool
    ensures { result ≡ same_type ty.now int_type }
{
    ty.depth == 0 && is_int_base(&ty.base)
}

/// Whether a name is that of the class `java/lang/Object`.
pub fn is_object_name(name: &Name) -> bool
    ensures { result ≡ same_text name.now object_name }
{
    is_text(name, "java/lang/Object")
}

pub fn is_object_base(base: &BaseType) -> bool
    ensures { result ≡ same_base base.now (bases.Class object_name) }
{
    match base {
        BaseType::Class(name) => is_object_name(name),
        BaseType::Primitive(_) => false,
    }
}

fn is_object(ty: &JType) -> bool
    ensures { result ≡ same_type ty.now (class_type object_name) }
{
    ty.depth == 0 && is_object_base(&ty.base)
}

fn takes_nothing(params: &Seq<JType>) -> bool
    ensures { result ≡ pointwise same_type params.now [] }
{
    params.is_empty()
}

fn takes_int(params: &Seq<JType>) -> bool
    ensures { result ≡ pointwise same_type params.now (int_type ∷ []) }
{
    match params.as_slice() {
        [first] => is_int(first),
        _ => false,
    }
}

fn takes_three_ints(params: &Seq<JType>) -> bool
    ensures { result ≡ pointwise same_type params.now (int_type ∷ int_type ∷ int_type ∷ []) }
{
    match params.as_slice() {
        [first, second, third] => is_int(first) && is_int(second) && is_int(third),
        _ => false,
    }
}

/// An object, an int, an object and two ints.
fn takes_copied(params: &Seq<JType>) -> bool
    ensures { result ≡ pointwise same_type params.now (class_type object_name ∷ int_type ∷ class_type object_name ∷ int_type ∷ int_type ∷ []) }
{
    match params.as_slice() {
        [from, start, to, at, many] => {
            is_object(from) && is_int(start) && is_object(to) && is_int(at) && is_int(many)
        }
        _ => false,
    }
}

fn is_string_base(base: &BaseType) -> bool
    ensures { result ≡ same_base base.now (bases.Class string_name) }
{
    match base {
        BaseType::Class(name) => is_text(name, "java/lang/String"),
        BaseType::Primitive(_) => false,
    }
}

fn is_string_array(ty: &JType) -> bool
    ensures { result ≡ same_type ty.now string_array }
{
    ty.depth == 1 && is_string_base(&ty.base)
}

fn takes_array(params: &Seq<JType>) -> bool
    ensures { result ≡ pointwise same_type params.now (string_array ∷ []) }
{
    match params.as_slice() {
        [first] => is_string_array(first),
        _ => false,
    }
}

/// Whether a descriptor is that of `main`.
pub fn takes_texts(desc: &MethodDesc) -> bool
    ensures { result ≡ same_desc desc.now main_desc }
{
    takes_array(&desc.params) && gives_nothing(desc.result.as_ref())
}

fn gives_int(given: Option<&JType>) -> bool
    ensures { result ≡ same_result (option_copied given.entry) (Some int_type) }
{
    match given {
        Some(ty) => is_int(ty),
        None => false,
    }
}

fn gives_nothing(given: Option<&JType>) -> bool
    ensures { result ≡ same_result (option_copied given.entry) None }
{
    given.is_none()
}

fn is_read(class: &Name, name: &Name, desc: &MethodDesc) -> bool
    ensures { result ≡ natives.is_native class.now name.now desc.now natives.Read }
{
    is_text(class, "sys/Native")
        && is_text(name, "read")
        && takes_nothing(&desc.params)
        && gives_int(desc.result.as_ref())
}

fn is_write(class: &Name, name: &Name, desc: &MethodDesc) -> bool
    ensures { result ≡ natives.is_native class.now name.now desc.now natives.Write }
{
    is_text(class, "sys/Native")
        && is_text(name, "write")
        && takes_int(&desc.params)
        && gives_nothing(desc.result.as_ref())
}

fn is_exit(class: &Name, name: &Name, desc: &MethodDesc) -> bool
    ensures { result ≡ natives.is_native class.now name.now desc.now natives.Exit }
{
    is_text(class, "sys/Native")
        && is_text(name, "exit")
        && takes_int(&desc.params)
        && gives_nothing(desc.result.as_ref())
}

fn is_arraycopy(class: &Name, name: &Name, desc: &MethodDesc) -> bool
    ensures { result ≡ natives.is_native class.now name.now desc.now natives.ArrayCopy }
{
    is_text(class, "java/lang/System")
        && is_text(name, "arraycopy")
        && takes_copied(&desc.params)
        && gives_nothing(desc.result.as_ref())
}

fn is_report(class: &Name, name: &Name, desc: &MethodDesc) -> bool
    ensures { result ≡ natives.is_native class.now name.now desc.now natives.Report }
{
    is_text(class, "phosphor/Report")
        && is_text(name, "tag")
        && takes_three_ints(&desc.params)
        && gives_nothing(desc.result.as_ref())
}

/// The native of a class, a name and a descriptor.
pub fn native_of(class: &Name, name: &Name, desc: &MethodDesc) -> Option<Native>
    ensures { NativeTo (natives.native_of class.now name.now desc.now) result }
{
    if is_read(class, name, desc) {
        Some(Native::Read)
    } else if is_write(class, name, desc) {
        Some(Native::Write)
    } else if is_exit(class, name, desc) {
        Some(Native::Exit)
    } else if is_arraycopy(class, name, desc) {
        Some(Native::ArrayCopy)
    } else if is_report(class, name, desc) {
        Some(Native::Report)
    } else {
        None
    }
}
