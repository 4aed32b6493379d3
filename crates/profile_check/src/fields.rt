//! The rows of the profile on fields.

ghost use Rattle.std.specs.Prelude.{◌≡◌, ◌<◌, length, IfSome};
ghost use Rattle.lists.specs.Texts.{units_of};
ghost use Rattle.profile_check.specs.Answer.{Tells};
ghost use Rattle.profile_check.specs.Members as table;
ghost use Rattle.profile_check.specs.Rows as row;
ghost use Rattle.profile_check.specs.Profile.{IsCounted};

use crate::flags::{FINAL, STATIC, has, has_bad_field_flags};
use crate::methods::is_interface;
use crate::names::is_text;
use crate::profile::{OutOfProfile, ProfileKind, ProfileStop};
use class_model::{BaseType, ClassDef, Constant, FieldDef, JType, Primitive};

fn has_field_flags(class: &ClassDef, field: &FieldDef) -> bool
    ensures { result ≡ table.has_field_flags class.now field.now }
{
    has_bad_field_flags(is_interface(class), field.flags)
}

/// Whether an int constant fits a static field of a type (JVMS 4.7.2).
fn fits_int(primitive: Primitive) -> bool
    ensures { result ≡ table.fits_int primitive }
{
    match primitive {
        Primitive::Boolean => true,
        Primitive::Byte => true,
        Primitive::Char => true,
        Primitive::Short => true,
        Primitive::Int => true,
        Primitive::Long | Primitive::Float | Primitive::Double => false,
    }
}

fn fits_base(constant: &Constant, base: &BaseType) -> bool
    ensures { result ≡ table.fits_base constant.now base.now }
{
    match (constant, base) {
        (Constant::Int(_), BaseType::Primitive(primitive)) => fits_int(*primitive),
        (Constant::Long(_), BaseType::Primitive(primitive)) => matches!(primitive, Primitive::Long),
        (Constant::Text(_), BaseType::Class(name)) => is_text(name, "java/lang/String"),
        _ => false,
    }
}

fn fits_type(constant: &Constant, ty: &JType) -> bool
    ensures { result ≡ table.fits_type constant.now ty.now }
{
    ty.depth == 0 && fits_base(constant, &ty.base)
}

fn has_bad_constant(field: &FieldDef) -> bool
    ensures { result ≡ table.has_bad_constant field.now }
{
    match &field.constant {
        Some(constant) => {
            has(field.flags, STATIC) && !(has(field.flags, FINAL) && fits_type(constant, &field.ty))
        }
        None => false,
    }
}

/// The refusal of a field with this number.
fn at_field(class: &ClassDef, found: Option<usize>, kind: ProfileKind) -> Result<(), ProfileStop>
    requires counted { IsCounted class.now }
    requires within { IfSome found (λ k. k < length class.now.fields) }
    ensures { Tells result (row.fault_in kind found) }
{
    match found {
        Some(k) => Err(ProfileStop::Out(OutOfProfile {
            kind,
            member: Some(k as u32),
            at: None,
        })),
        None => Ok(()),
    }
}

pub fn check_field_flags(class: &ClassDef) -> Result<(), ProfileStop>
    requires { IsCounted class.now }
    ensures { Tells result (row.field_flags_row class.now) }
{
    let found = class
        .fields
        .as_slice()
        .iter()
        .position(|field| has_field_flags(class, field));
    at_field(class, found, ProfileKind::FieldFlags)
}

pub fn check_constants(class: &ClassDef) -> Result<(), ProfileStop>
    requires { IsCounted class.now }
    ensures { Tells result (row.constant_row class.now) }
{
    let found = class
        .fields
        .as_slice()
        .iter()
        .position(|field| has_bad_constant(field));
    at_field(class, found, ProfileKind::Constant)
}
