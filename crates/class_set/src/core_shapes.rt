//! The shapes of the core classes.

ghost use Rattle.std.specs.Prelude.{◌≡◌, not};
ghost use Rattle.std.specs.List.{list_any};
ghost use Rattle.lists.specs.Texts.{units_of};
ghost use Rattle.set_lookups.specs.Above.{same_name};
ghost use Rattle.set_lookups.specs.Same.{same_type, same_desc};
ghost use Rattle.set_lookups.specs.Lookups.{object_name};
ghost use Rattle.set_lookups.specs.First.{holds_of};
ghost use Rattle.class_set.specs.Core as table;

use crate::flags::{is_abstract, is_final, is_interface, is_static};
use class_model::{BaseType, ClassDef, FieldDef, Insn, JType, MethodDef, MethodDesc, Primitive};
use lists::Name;

/// Whether this is the name that a text spells.
pub fn is_text(name: &Name, text: &str) -> bool
    ensures { result ≡ same_name name.now (units_of text.now) }
{
    name.is(text)
}

fn is_int(ty: &JType) -> bool
    ensures { result ≡ same_type ty.now table.int_type }
{
    ty.depth == 0 && matches!(ty.base, BaseType::Primitive(Primitive::Int))
}

fn is_chars(ty: &JType) -> bool
    ensures { result ≡ same_type ty.now table.chars_type }
{
    ty.depth == 1 && matches!(ty.base, BaseType::Primitive(Primitive::Char))
}

/// Whether a descriptor is `()V`.
fn takes_nothing(desc: &MethodDesc) -> bool
    ensures { result ≡ same_desc desc.now table.nothing_from_nothing }
{
    desc.params.is_empty() && desc.result.is_none()
}

fn is_plain_return(insn: &Insn) -> bool
    ensures { result ≡ table.is_plain_return insn.now }
{
    match insn {
        Insn::Return(kind) => kind.is_none(),
        _ => false,
    }
}

fn is_one_return(insns: &[Insn]) -> bool
    ensures { result ≡ table.is_one_return insns.now }
{
    match insns {
        [insn] => is_plain_return(insn),
        _ => false,
    }
}

fn returns_at_once(method: &MethodDef) -> bool
    ensures { result ≡ table.returns_at_once method.now.code }
{
    match &method.code {
        Some(code) => is_one_return(code.insns.as_slice()),
        None => false,
    }
}

fn has_clinit(class: &ClassDef) -> bool
    ensures { result ≡ table.has_clinit class.now }
{
    let methods = class.methods.as_slice();
    methods
        .iter()
        .any(|method| is_text(&method.name, "<clinit>"))
}

fn is_plain_init(method: &MethodDef) -> bool
    ensures { result ≡ table.is_plain_init method.now }
{
    is_text(&method.name, "<init>") && takes_nothing(&method.desc) && returns_at_once(method)
}

/// A static field, or an int field for an object's own tag.
fn may_be_in_object(field: &FieldDef) -> bool
    ensures { result ≡ table.may_be_in_object field.now }
{
    is_static(field.flags) || (is_text(&field.name, "$$PHOSPHOR_TAG") && is_int(&field.ty))
}

fn has_plain_init(methods: &[MethodDef]) -> bool
    ensures { result ≡ list_any table.is_plain_init methods.now }
{
    methods.iter().any(|method| is_plain_init(method))
}

fn has_other_field(fields: &[FieldDef]) -> bool
    ensures { result ≡ list_any (λ field. not (table.may_be_in_object field)) fields.now }
{
    fields.iter().any(|field| !may_be_in_object(field))
}

pub fn is_object(class: &ClassDef) -> bool
    ensures { result ≡ table.is_object class.now }
{
    !is_abstract(class.flags)
        && has_plain_init(class.methods.as_slice())
        && !has_clinit(class)
        && !has_other_field(class.fields.as_slice())
}

fn is_value_field(field: &FieldDef) -> bool
    ensures { result ≡ table.is_value_field field.now }
{
    !is_static(field.flags) && is_text(&field.name, "value") && is_chars(&field.ty)
}

fn has_value_field(fields: &[FieldDef]) -> bool
    ensures { result ≡ list_any table.is_value_field fields.now }
{
    fields.iter().any(|field| is_value_field(field))
}

fn extends_object(class: &ClassDef) -> bool
    ensures { result ≡ holds_of (λ name. same_name name object_name) class.now.super_name }
{
    match &class.super_name {
        Some(name) => is_text(name, "java/lang/Object"),
        None => false,
    }
}

pub fn is_string(class: &ClassDef) -> bool
    ensures { result ≡ table.is_string class.now }
{
    is_final(class.flags)
        && extends_object(class)
        && has_value_field(class.fields.as_slice())
        && !has_clinit(class)
}

pub fn is_throwable(class: &ClassDef) -> bool
    ensures { result ≡ table.is_throwable class.now }
{
    !is_interface(class)
}
