//! Types of the grammar (JVMS 4.3).

ghost use Rattle.std.specs.Prelude.{◌↔◌, ◌≢◌, IsTrue, All, IfSome};
ghost use Rattle.class_model.specs.Descriptor.{IsClassName, IsBaseType, IsFieldType, IsMethodType};
ghost use Rattle.class_shape.specs.ShapedInsn.{IsReferenceType};

use class_model::{BaseType, JType, MethodDesc, is_primitive};

const SEMICOLON: u16 = 59;

const BRACKET: u16 = 91;

fn has_no_mark(name: &[u16]) -> bool
    ensures { IsTrue result ↔ (All (λ unit. unit ≢ 59) name.now × All (λ unit. unit ≢ 91) name.now) }
{
    name.iter().all(|unit| *unit != SEMICOLON) && name.iter().all(|unit| *unit != BRACKET)
}

fn is_class_name(name: &[u16]) -> bool
    ensures { IsTrue result ↔ IsClassName name.now }
{
    !name.is_empty() && has_no_mark(name)
}

fn is_base(base: &BaseType) -> bool
    ensures { IsTrue result ↔ IsBaseType base.now }
{
    match base {
        BaseType::Primitive(_) => true,
        BaseType::Class(name) => is_class_name(name.as_units()),
    }
}

/// Whether a type is of the grammar.
pub fn is_field_type(ty: &JType) -> bool
    ensures { IsTrue result ↔ IsFieldType ty.now }
{
    let _depth = ty.depth;
    is_base(&ty.base)
}

/// Whether a type is a class or an array of the grammar.
pub fn is_reference_type(ty: &JType) -> bool
    ensures { IsTrue result ↔ IsReferenceType ty.now }
{
    !is_primitive(ty) && is_field_type(ty)
}

fn are_field_types(types: &[JType]) -> bool
    ensures { IsTrue result ↔ All IsFieldType types.now }
{
    types.iter().all(|ty| is_field_type(ty))
}

fn is_result(result_type: &Option<JType>) -> bool
    ensures { IsTrue result ↔ IfSome result_type.now IsFieldType }
{
    match result_type {
        Some(ty) => is_field_type(ty),
        None => true,
    }
}

/// Whether a method descriptor is of the grammar.
pub fn is_method_type(desc: &MethodDesc) -> bool
    ensures { IsTrue result ↔ IsMethodType desc.now }
{
    are_field_types(desc.params.as_slice()) && is_result(&desc.result)
}
