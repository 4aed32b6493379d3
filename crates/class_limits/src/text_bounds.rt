//! No fewer than the bytes that texts take, from the numbers of their units alone: most texts are short, and need no
//! count of their bytes.

ghost use Rattle.std.specs.Prelude.{◌≡◌, ◌≤◌, length, flat_map};
ghost use Rattle.modified_utf8.specs.Text.{text_bytes};
ghost use Rattle.class_model.specs.Descriptor as text;
ghost use Rattle.class_limits.specs.Limits.{told};
ghost use Rattle.class_limits.specs.Texts.{class_name_of};

use class_model::{BaseType, JType, MethodDesc};

/// A unit takes at most three bytes.
#[tactic(auto, using(crate::proofs::TextSizes::units_most))]
pub(crate) fn text_bound(units: &[u16]) -> u64
    ensures { told (length (text_bytes units.now)) ≤ result }
{
    (units.len() as u64).saturating_mul(3)
}

#[tactic(auto, using(crate::proofs::TextSizes::letter_size, crate::proofs::TextSizes::class_size))]
fn base_bound(base: &BaseType) -> u64
    ensures { told (length (text_bytes (text.base_descriptor base.now))) ≤ result }
{
    match base {
        BaseType::Primitive(_) => 1,
        BaseType::Class(name) => text_bound(name.as_units()).saturating_add(2),
    }
}

#[tactic(auto, using(crate::proofs::TextSizes::type_size))]
pub(crate) fn type_bound(ty: &JType) -> u64
    ensures { told (length (text_bytes (text.field_descriptor ty.now))) ≤ result }
{
    base_bound(&ty.base).saturating_add(u64::from(ty.depth))
}

/// The descriptor of a type has no fewer bytes than the name that it is where a class is wanted.
#[tactic(auto, using(crate::proofs::TextSizes::class_name_most))]
pub(crate) fn class_bound(ty: &JType) -> u64
    ensures { told (length (text_bytes (class_name_of ty.now))) ≤ result }
{
    type_bound(ty)
}

#[tactic(auto, using(crate::proofs::TextSizes::under_more, crate::proofs::TextSizes::under_all))]
fn types_bound(types: &[JType]) -> u64
    ensures { told (length (text_bytes (flat_map text.field_descriptor types.now))) ≤ result }
{
    let mut bound: u64 = 0;
    for ty in types {
        bound = bound.saturating_add(type_bound(ty));
    }
    bound
}

fn result_bound(result_type: &Option<JType>) -> u64
    ensures { told (length (text_bytes (text.result_descriptor result_type.now))) ≤ result }
{
    match result_type {
        Some(ty) => type_bound(ty),
        None => 1,
    }
}

#[tactic(auto, using(crate::proofs::TextSizes::desc_size))]
pub(crate) fn desc_bound(desc: &MethodDesc) -> u64
    ensures { told (length (text_bytes (text.method_descriptor desc.now))) ≤ result }
{
    types_bound(desc.params.as_slice())
        .saturating_add(result_bound(&desc.result))
        .saturating_add(2)
}
