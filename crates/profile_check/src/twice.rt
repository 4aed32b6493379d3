//! Members that stand twice.

ghost use Rattle.std.specs.Prelude.{◌≡◌, ◌<◌, ◌^◌, [], Some, None, length, IfSome};
ghost use Rattle.profile_check.specs.Answer.{Tells};
ghost use Rattle.profile_check.specs.Members as table;
ghost use Rattle.profile_check.specs.Rows as row;
ghost use Rattle.profile_check.specs.Profile.{IsCounted};

use crate::profile::{OutOfProfile, ProfileKind, ProfileStop};
use crate::types::{is_same_desc, is_same_type};
use class_model::{ClassDef, FieldDef, MethodDef};

fn is_same_field(field: &FieldDef, other: &FieldDef) -> bool
    ensures { result ≡ table.same_field field.now other.now }
{
    field.name == other.name && is_same_type(&field.ty, &other.ty)
}

fn is_same_method(method: &MethodDef, other: &MethodDef) -> bool
    ensures { result ≡ table.same_method method.now other.now }
{
    method.name == other.name && is_same_desc(&method.desc, &other.desc)
}

/// The number of the first field that has the name and type of an earlier one.
fn again_in_fields(fields: &[FieldDef]) -> Option<usize>
    ensures found { result ≡ row.first_again table.same_field [] 0 fields.now }
    ensures within { IfSome result (λ k. k < length fields.now) }
{
    for (k, field) in fields.iter().enumerate() {
        if fields[..k]
            .iter()
            .any(|earlier| is_same_field(field, earlier))
        {
            return Some(k);
        }
    }
    None
}

/// The number of the first method that has the name and descriptor of an earlier one.
fn again_in_methods(methods: &[MethodDef]) -> Option<usize>
    ensures found { result ≡ row.first_again table.same_method [] 0 methods.now }
    ensures within { IfSome result (λ k. k < length methods.now) }
{
    for (k, method) in methods.iter().enumerate() {
        if methods[..k]
            .iter()
            .any(|earlier| is_same_method(method, earlier))
        {
            return Some(k);
        }
    }
    None
}

/// The first field that stands twice, else the first such method.
pub fn check_twice(class: &ClassDef) -> Result<(), ProfileStop>
    requires { IsCounted class.now }
    ensures { Tells result (row.twice_row class.now) }
{
    if let Some(k) = again_in_fields(class.fields.as_slice()) {
        return Err(twice_at(k));
    }
    match again_in_methods(class.methods.as_slice()) {
        Some(k) => Err(twice_at(class.fields.len() + k)),
        None => Ok(()),
    }
}

/// The refusal of the member with this number.
fn twice_at(member: usize) -> ProfileStop
    requires { member < 2 ^ 32 }
    ensures { result ≡ ProfileStop.Out (record { kind = ProfileKind.TwiceMember; member = Some member; at = None }) }
{
    ProfileStop::Out(OutOfProfile {
        kind: ProfileKind::TwiceMember,
        member: Some(member as u32),
        at: None,
    })
}
