//! What a value of a type keeps of an int, and how it is moved.

ghost use Rattle.std.specs.Prelude.{◌≡◌, ℤ};
ghost use Rattle.std.specs.Option.{option_copied};
ghost use Rattle.run_state.specs.Calls.{narrowed_primitive, narrowed_base, narrowed_type, narrowed_result};
ghost use Rattle.run_state.specs.Objects.{kind_of_primitive, kind_of_base, kind_of};
ghost use Rattle.linked_code.specs.Kept.{kept_by};

use class_model::{BaseType, JType, Kind, Primitive};
use linked_code::Narrowing;

fn narrowing_of_primitive(primitive: Primitive) -> Narrowing
    ensures { (v : ℤ) → narrowed_primitive primitive v ≡ kept_by result v }
{
    match primitive {
        Primitive::Boolean => Narrowing::Boolean,
        Primitive::Byte => Narrowing::Byte,
        Primitive::Char => Narrowing::Char,
        Primitive::Short => Narrowing::Short,
        Primitive::Int | Primitive::Long | Primitive::Float | Primitive::Double => Narrowing::Whole,
    }
}

pub fn narrowing_of_base(base: &BaseType) -> Narrowing
    ensures { (v : ℤ) → narrowed_base base.now v ≡ kept_by result v }
{
    match base {
        BaseType::Primitive(primitive) => narrowing_of_primitive(*primitive),
        BaseType::Class(_) => Narrowing::Whole,
    }
}

/// What a value of a type keeps of an int.
pub fn narrowing_of(ty: &JType) -> Narrowing
    ensures { (v : ℤ) → narrowed_type ty.now v ≡ kept_by result v }
{
    if ty.depth == 0 {
        narrowing_of_base(&ty.base)
    } else {
        Narrowing::Whole
    }
}

/// What a result of a type keeps of an int, of `None` where there is none.
pub fn narrowing_of_result(ty: Option<&JType>) -> Narrowing
    ensures { (v : ℤ) → narrowed_result (option_copied ty.entry) v ≡ kept_by result v }
{
    match ty {
        Some(ty) => narrowing_of(ty),
        None => Narrowing::Whole,
    }
}

fn kind_of_a_primitive(primitive: Primitive) -> Kind
    ensures { result ≡ kind_of_primitive primitive }
{
    match primitive {
        Primitive::Long | Primitive::Double => Kind::Long,
        _ => Kind::Int,
    }
}

/// How a value of a type is moved.
pub fn kind_of_type(ty: &JType) -> Kind
    ensures { kind_of ty.now ≡ result }
{
    if ty.depth > 0 {
        return Kind::Ref;
    }
    match &ty.base {
        BaseType::Primitive(primitive) => kind_of_a_primitive(*primitive),
        BaseType::Class(_) => Kind::Ref,
    }
}
