//! Types and descriptors that are compared.

ghost use Rattle.std.specs.Prelude.{◌≡◌, ◌+◌, nat_lt, sum_by, if◌then◌else◌};
ghost use Rattle.class_model.specs.Descriptor.{type_words};
ghost use Rattle.lists.specs.Texts.{units_of};
ghost use Rattle.profile_check.specs.Types as table;

use crate::names::is_text;
use class_model::{BaseType, JType, MethodDesc, Primitive};
use lists::Same;

/// Whether two types are the same.
pub fn is_same_type(ty: &JType, other: &JType) -> bool
    ensures { result ≡ table.same_type ty.now other.now }
{
    ty.same(other)
}

/// Whether two descriptors are the same.
pub fn is_same_desc(desc: &MethodDesc, other: &MethodDesc) -> bool
    ensures { result ≡ table.same_desc desc.now other.now }
{
    desc.same(other)
}

fn is_int_base(base: &BaseType) -> bool
    ensures { result ≡ table.same_base base.now table.int_base }
{
    match base {
        BaseType::Primitive(primitive) => is_int_primitive(*primitive),
        BaseType::Class(_) => false,
    }
}

fn is_int_primitive(primitive: Primitive) -> bool
    ensures { result ≡ table.same_primitive primitive table.int_primitive }
{
    match primitive {
        Primitive::Int => true,
        Primitive::Boolean => false,
        Primitive::Byte => false,
        Primitive::Char => false,
        Primitive::Short => false,
        Primitive::Long => false,
        Primitive::Float => false,
        Primitive::Double => false,
    }
}

pub fn is_int(ty: &JType) -> bool
    ensures { result ≡ table.same_type ty.now table.int_type }
{
    ty.depth == 0 && is_int_base(&ty.base)
}

fn is_object_base(base: &BaseType) -> bool
    ensures { result ≡ table.same_base base.now table.object_base }
{
    match base {
        BaseType::Primitive(_) => false,
        BaseType::Class(name) => is_text(name, "java/lang/Object"),
    }
}

pub fn is_object(ty: &JType) -> bool
    ensures { result ≡ table.same_type ty.now table.object_type }
{
    ty.depth == 0 && is_object_base(&ty.base)
}

/// Whether a descriptor is `()V`.
pub fn takes_nothing(desc: &MethodDesc) -> bool
    ensures { result ≡ table.same_desc desc.now table.nothing_from_nothing }
{
    desc.params.is_empty() && desc.result.is_none()
}

/// The words of one value: two for a long or a double, which may be no type of the profile.
fn type_width(ty: &JType) -> u32
    ensures { result ≡ type_words ty.now }
{
    let wide = matches!(
        ty.base,
        BaseType::Primitive(Primitive::Long | Primitive::Double)
    );
    if ty.depth == 0 && wide { 2 } else { 1 }
}

/// Whether parameters take more than 255 words, a receiver counted.
pub fn takes_many_words(params: &[JType], receiver: bool) -> bool
    ensures { result ≡ nat_lt 255 (sum_by type_words params.now + (if receiver then 1 else 0)) }
{
    let mut words = u32::from(receiver);
    for ty in params {
        words += type_width(ty);
        if words > 255 {
            return true;
        }
    }
    false
}
