//! The first form of class: a class with one straight-line `main` alone.

ghost use Rattle.std.specs.Prelude.{◌≡◌, ◌≢◌, ◌≤◌, [], ◌∷◌, Some, ◌↔◌, IsTrue, IfOk, MatchOption};
ghost use Rattle.class_model.specs.declared.class.CodeDef.{CodeDef};
ghost use Rattle.small_base.specs.Members.{object_name};
ghost use Rattle.first_form.specs.Typing as typing;
ghost use Rattle.first_form.specs.FormOne as spec;

use crate::names::is_user_name;
use crate::straight::is_straight;
use class_limits::code_size;
use class_model::{BaseType, ClassDef, CodeDef, JType, MethodDef, MethodDesc};
use lists::Name;
use profile_check::Names;
use std::alloc::{AllocError, Global};

/// The most bytes of code of a user's class.
const MOST_CODE_BYTES: u64 = 1_000;

/// The most locals and the most stack words of a user's class.
const MOST_SLOTS: u16 = 100;

/// `ACC_PUBLIC` and `ACC_STATIC` (JVMS 4.6).
const PUBLIC_STATIC: u16 = 0x0009;

/// Whether a type is `String[]`.
fn is_words(ty: &JType) -> bool
    ensures { IsTrue result ↔ (ty.now ≡ typing.words_type) }
{
    match &ty.base {
        BaseType::Class(class) => ty.depth == 1 && class.is("java/lang/String"),
        BaseType::Primitive(_) => false,
    }
}

/// Whether a descriptor is that of `main`: `([Ljava/lang/String;)V`.
fn is_main_desc(desc: &MethodDesc) -> bool
    ensures { IsTrue result ↔ (desc.now ≡ spec.main_desc) }
{
    match desc.params.as_slice() {
        [words] => is_words(words) && desc.result.is_none(),
        _ => false,
    }
}

/// Whether everything of a method but its code is that of `main`.
fn is_main(method: &MethodDef) -> bool
    ensures { IsTrue result ↔ (method.now ≡ spec.main_with method.now.code) }
{
    method.flags == PUBLIC_STATIC
        && method.name.is("main")
        && is_main_desc(&method.desc)
        && method.throws.is_empty()
}

/// The code of a method that is the `main` of the form.
fn main_code(method: &MethodDef) -> Option<&CodeDef>
    ensures { MatchOption result ((code : CodeDef) → method.now ≢ spec.main_method code) (λ code. method.now ≡ spec.main_method code.now) }
{
    match &method.code {
        Some(code) if is_main(method) => Some(code),
        _ => None,
    }
}

/// Whether the flags of a class are of the form.
fn is_plain_class(flags: u16) -> bool
    ensures { IsTrue result ↔ spec.IsPlainClass flags }
{
    matches!(flags, 0x0001 | 0x0020 | 0x0021)
}

/// Whether a class extends `java/lang/Object`.
fn extends_object(super_name: &Option<Name>) -> bool
    ensures { IsTrue result ↔ (super_name.now ≡ Some object_name) }
{
    match super_name {
        Some(name) => name.is("java/lang/Object"),
        None => false,
    }
}

/// Whether everything of a class but its name and its methods is of the form.
fn has_form_header(class: &ClassDef) -> bool
    ensures { IsTrue result ↔ spec.HasFormHeader class.now }
{
    50 <= class.major
        && class.major <= 52
        && is_plain_class(class.flags)
        && extends_object(&class.super_name)
        && class.interfaces.is_empty()
        && class.fields.is_empty()
        && class.source.is_none()
        && class.inner.is_empty()
}

/// Whether a name and code are those of a user's class that no limit refuses.
fn is_small(name: &Name, code: &CodeDef) -> bool
    ensures { IsTrue result ↔ spec.IsSmall name.now code.now }
{
    code.max_locals <= MOST_SLOTS
        && code.max_stack <= MOST_SLOTS
        && is_user_name(name)
        && code_size(code) <= MOST_CODE_BYTES
}

/// Whether a name and code keep to what is asked beside the form.
fn is_kept(names: Names, name: &Name, code: &CodeDef) -> bool
    ensures { IsTrue result ↔ spec.IsKept names name.now code.now }
{
    match names {
        Names::Source => is_small(name, code),
        Names::Written => true,
    }
}

/// The code of the one method of a class, where that is the `main` of the form.
fn only_main(class: &ClassDef) -> Option<&CodeDef>
    ensures { MatchOption result ((code : CodeDef) → class.now.methods ≢ spec.main_method code ∷ []) (λ code. class.now.methods ≡ spec.main_method code.now ∷ []) }
{
    match class.methods.as_slice() {
        [method] => main_code(method),
        _ => None,
    }
}

/// Whether a class is of the form.
pub fn is_form_one(alloc: Global, class: &ClassDef, names: Names) -> Result<bool, AllocError>
    ensures { IfOk result (λ b. IsTrue b ↔ spec.FormOne names class.now) }
{
    match only_main(class) {
        Some(code) if has_form_header(class) && is_kept(names, &class.name, code) => {
            is_straight(alloc, code, names)
        }
        _ => Ok(false),
    }
}
