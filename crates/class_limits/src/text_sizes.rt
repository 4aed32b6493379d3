//! How many bytes texts take as modified UTF-8 (JVMS 4.4.7). A number past 64 bits is their greatest.

ghost use Rattle.std.specs.Prelude.{◌≡◌, ◌+◌, ◌≤◌, length, flat_map};
ghost use Rattle.modified_utf8.specs.Text.{unit_bytes, text_bytes};
ghost use Rattle.class_model.specs.Descriptor as text;
ghost use Rattle.class_limits.specs.Limits.{told};
ghost use Rattle.class_limits.specs.Texts.{class_name_of, base_name};

use class_model::{BaseType, JType, MethodDesc};

fn unit_size(unit: u16) -> u64
    ensures { result ≡ length (unit_bytes unit) }
{
    match unit {
        1..=127 => 1,
        0 | 128..=2047 => 2,
        _ => 3,
    }
}

/// The bytes of a text. Takes no memory.
#[tactic(auto, using(crate::proofs::TextSizes::units_more, crate::proofs::TextSizes::units_all))]
pub fn text_size(units: &[u16]) -> u64
    ensures { result ≡ told (length (text_bytes units.now)) }
{
    let mut bytes: u64 = 0;
    for unit in units {
        bytes = bytes.saturating_add(unit_size(*unit));
    }
    bytes
}

#[tactic(auto, using(crate::proofs::TextSizes::letter_size, crate::proofs::TextSizes::class_size))]
fn base_size(base: &BaseType) -> u64
    ensures { result ≡ told (length (text_bytes (text.base_descriptor base.now))) }
{
    match base {
        BaseType::Primitive(_) => 1,
        BaseType::Class(name) => text_size(name.as_units()).saturating_add(2),
    }
}

/// The bytes of the descriptor of a type (JVMS 4.3.2). Takes no memory.
#[tactic(auto, using(crate::proofs::TextSizes::type_size))]
pub fn type_size(ty: &JType) -> u64
    ensures { result ≡ told (length (text_bytes (text.field_descriptor ty.now))) }
{
    base_size(&ty.base).saturating_add(u64::from(ty.depth))
}

#[tactic(auto, using(crate::proofs::TextSizes::types_more, crate::proofs::TextSizes::types_all))]
fn types_size(types: &[JType]) -> u64
    ensures { result ≡ told (length (text_bytes (flat_map text.field_descriptor types.now))) }
{
    let mut bytes: u64 = 0;
    for ty in types {
        bytes = bytes.saturating_add(type_size(ty));
    }
    bytes
}

fn result_size(result_type: &Option<JType>) -> u64
    ensures { result ≡ told (length (text_bytes (text.result_descriptor result_type.now))) }
{
    match result_type {
        Some(ty) => type_size(ty),
        None => 1,
    }
}

/// The bytes of a method descriptor (JVMS 4.3.3). Takes no memory.
#[tactic(auto, using(crate::proofs::TextSizes::desc_size))]
pub fn desc_size(desc: &MethodDesc) -> u64
    ensures { result ≡ told (length (text_bytes (text.method_descriptor desc.now))) }
{
    types_size(desc.params.as_slice())
        .saturating_add(result_size(&desc.result))
        .saturating_add(2)
}

#[tactic(auto, using(crate::proofs::TextSizes::letter_size))]
fn base_name_size(base: &BaseType) -> u64
    ensures { result ≡ told (length (text_bytes (base_name base.now))) }
{
    match base {
        BaseType::Primitive(_) => 1,
        BaseType::Class(name) => text_size(name.as_units()),
    }
}

/// The bytes of a type where a class is wanted (JVMS 4.4.1). Takes no memory.
pub fn class_size(ty: &JType) -> u64
    ensures { result ≡ told (length (text_bytes (class_name_of ty.now))) }
{
    if ty.depth == 0 {
        base_name_size(&ty.base)
    } else {
        type_size(ty)
    }
}
