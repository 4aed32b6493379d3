//! Types as descriptors (JVMS 4.3), and their words.

ghost use Rattle.std.specs.Prelude.{◌≡◌, ◌≤◌, ◌↔◌, IfOk, length, ◌++◌, ◌∷◌, [], OnOk};
ghost use Rattle.class_model.specs.Descriptor.{letter_of, base_descriptor, field_descriptor, method_descriptor, IsFieldType, IsMethodType, SpellsField, SpellsMethod, type_words, words_of, is_primitive_type};

use crate::types::{BaseType, JType, MethodDesc, Primitive};
use lists::Name;
use std::alloc::{AllocError, Global};

/// The letter of a primitive type.
fn letter(primitive: Primitive) -> u8
    ensures { result ≡ letter_of primitive }
{
    match primitive {
        Primitive::Boolean => b'Z',
        Primitive::Byte => b'B',
        Primitive::Char => b'C',
        Primitive::Short => b'S',
        Primitive::Int => b'I',
        Primitive::Long => b'J',
        Primitive::Float => b'F',
        Primitive::Double => b'D',
    }
}

/// Adds the text of a type.
#[tactic(auto, unfolding(crate::specs::Descriptor::field_descriptor))]
fn add_type(ty: &JType, out: &mut Vec<u16>) -> Result<(), AllocError>
    ensures { OnOk result (out.new.items ≡ out.old.items ++ field_descriptor ty.now) }
{
    for _ in 0..ty.depth {
        out.push(u16::from(b'['))?;
    }
    match &ty.base {
        BaseType::Primitive(primitive) => out.push(u16::from(letter(*primitive)))?,
        BaseType::Class(name) => {
            out.push(u16::from(b'L'))?;
            out.extend_from_slice(name.as_units())?;
            out.push(u16::from(b';'))?;
        }
    }
    Ok(())
}

/// The text of a type (JVMS 4.3.2).
pub fn print_type(alloc: Global, ty: &JType) -> Result<Name, AllocError>
    ensures text { IfOk result (λ text. text ≡ field_descriptor ty.now) }
    ensures parsed { IfOk result (λ text. IsFieldType ty.now → SpellsField text ty.now) }
{
    let mut out = Vec::new(alloc);
    add_type(ty, &mut out)?;
    Name::from_vec(alloc, out)
}

/// The text of a method descriptor (JVMS 4.3.3).
#[tactic(auto, unfolding(crate::specs::Descriptor::method_descriptor))]
pub fn print_desc(alloc: Global, desc: &MethodDesc) -> Result<Name, AllocError>
    ensures text { IfOk result (λ text. text ≡ method_descriptor desc.now) }
    ensures parsed { IfOk result (λ text. IsMethodType desc.now → SpellsMethod text desc.now) }
{
    let mut out = Vec::new(alloc);
    out.push(u16::from(b'('))?;
    for ty in desc.params.as_slice() {
        add_type(ty, &mut out)?;
    }
    out.push(u16::from(b')'))?;
    match &desc.result {
        Some(ty) => add_type(ty, &mut out)?,
        None => out.push(u16::from(b'V'))?,
    }
    Name::from_vec(alloc, out)
}

/// The words of a type.
fn type_width(ty: &JType) -> u32
    ensures { result ≡ type_words ty.now }
{
    match ty {
        JType {
            depth: 0,
            base: BaseType::Primitive(Primitive::Long | Primitive::Double),
        } => 2,
        _ => 1,
    }
}

/// The words that the parameters take as locals, a long or double two (JVMS 2.6.1), and one more
/// where there is a receiver.
pub fn words(desc: &MethodDesc, receiver: bool) -> u32
    requires { length desc.now.params ≤ 1000000000 }
    ensures { result ≡ words_of desc.now receiver }
{
    let mut words = u32::from(receiver);
    for ty in desc.params.as_slice() {
        words += type_width(ty);
    }
    words
}

/// Whether a type is a primitive type, and so no array.
pub fn is_primitive(ty: &JType) -> bool
    ensures { result ≡ is_primitive_type ty.now }
{
    ty.depth == 0 && matches!(ty.base, BaseType::Primitive(_))
}
