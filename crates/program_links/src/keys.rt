//! What types and calls are found by.

ghost use Rattle.std.specs.Prelude.{◌≡◌, flat_map, option_to_list};
ghost use Rattle.std.specs.Option.{option_copied};
ghost use Rattle.std.specs.List.{fold};
ghost use Rattle.std.specs.Cmp.{partial_equiv_from_equiv};
ghost use Rattle.class_model.specs.Descriptor.{letter_of};
ghost use Rattle.set_lookups.specs.Above.{same_name};
ghost use Rattle.set_lookups.specs.MemberKeys.{base_hash, type_hash};
ghost use Rattle.set_lookups.specs.Same.{same_base, same_type, same_desc};
ghost use Rattle.program_links.specs.Keys.{type_equiv, key_hash, type_respects, same_selector, selector_equiv, selector_hash, selector_respects};

use class_model::{BaseType, JType, MethodDesc, Primitive};
use lists::{Name, Same};
use std::hash::{Hash, Hasher};
use std::marker::Model;

/// A type, which an array of arrays of the most dimensions has room in.
#[derive(Drop)]
pub struct TypeKey {
    pub depth: u32,
    pub base: BaseType,
}

impl Model for TypeKey {
    ghost use Rattle.class_model.specs.declared.types.JType.{JType};

    ghost Value = { JType };

    ghost view = { λ key. record { depth = key.depth; base = key.base } };
}

/// A name and a descriptor.
#[derive(Drop)]
pub struct Selector {
    pub name: Name,
    pub desc: MethodDesc,
}

/// The letter of a primitive type.
pub fn letter(primitive: Primitive) -> u8
    ensures { result ≡ letter_of primitive }
{
    match primitive {
        Primitive::Boolean => b'Z',
        Primitive::Byte => b'B',
        Primitive::Char => b'C',
        Primitive::Short => b'S',
        Primitive::Int => b'I',
        Primitive::Long => b'J',
        Primitive::Float => b'F',
        Primitive::Double => b'D',
    }
}

fn same_bases(base: &BaseType, other: &BaseType) -> bool
    ensures { result ≡ same_base base.now other.now }
{
    match (base, other) {
        (BaseType::Primitive(a), BaseType::Primitive(b)) => letter(*a) == letter(*b),
        (BaseType::Class(a), BaseType::Class(b)) => *a == *b,
        _ => false,
    }
}

fn hash_base<H: Hasher>(base: &BaseType, state: &mut H)
    ensures { state.new ≡ fold H.write state.old (base_hash base.now) }
{
    match base {
        BaseType::Primitive(primitive) => state.write_u8(letter(*primitive)),
        BaseType::Class(name) => name.hash(state),
    }
}

fn hash_type<H: Hasher>(ty: &JType, state: &mut H)
    ensures { state.new ≡ fold H.write state.old (type_hash ty.now) }
{
    state.write_u8(ty.depth);
    match &ty.base {
        BaseType::Primitive(primitive) => state.write_u8(letter(*primitive)),
        BaseType::Class(name) => name.hash(state),
    }
}

fn hash_types<H: Hasher>(types: &[JType], state: &mut H)
    ensures { state.new ≡ fold H.write state.old (flat_map type_hash types.now) }
{
    for ty in types {
        hash_type(ty, state);
    }
}

fn hash_given<H: Hasher>(given: Option<&JType>, state: &mut H)
    ensures { state.new ≡ fold H.write state.old (flat_map type_hash (option_to_list (option_copied given.entry))) }
{
    if let Some(ty) = given {
        hash_type(ty, state);
    }
}

impl PartialEq for TypeKey {
    ghost eq = { same_type };

    ghost laws = { partial_equiv_from_equiv type_equiv };

    fn eq(&self, other: &TypeKey) -> bool {
        self.depth == other.depth && same_bases(&self.base, &other.base)
    }
}

impl Eq for TypeKey {
    ghost laws = { type_equiv };
}

impl Hash for TypeKey {
    ghost hash_input = { key_hash };

    ghost respects_eq = { type_respects };

    fn hash<H: Hasher>(&self, state: &mut H) {
        state.write_u32(self.depth);
        hash_base(&self.base, state);
    }
}

fn same_descs(desc: &MethodDesc, other: &MethodDesc) -> bool
    ensures { result ≡ same_desc desc.now other.now }
{
    desc.same(other)
}

impl PartialEq for Selector {
    ghost eq = { same_selector };

    ghost laws = { partial_equiv_from_equiv selector_equiv };

    fn eq(&self, other: &Selector) -> bool {
        self.name == other.name && same_descs(&self.desc, &other.desc)
    }
}

impl Eq for Selector {
    ghost laws = { selector_equiv };
}

impl Hash for Selector {
    ghost hash_input = { selector_hash };

    ghost respects_eq = { selector_respects };

    fn hash<H: Hasher>(&self, state: &mut H) {
        self.name.hash(state);
        hash_types(self.desc.params.as_slice(), state);
        hash_given(self.desc.result.as_ref(), state);
    }
}
