//! What members are looked up by, compared and hashed.

ghost use Rattle.std.specs.Prelude.{◌≡◌, flat_map, option_to_list, option_copied};
ghost use Rattle.std.specs.List.{fold};
ghost use Rattle.std.specs.Cmp.{partial_equiv_from_equiv};
ghost use Rattle.std.specs.Cmp.Lexicographic.{pointwise};
ghost use Rattle.class_model.specs.Descriptor.{letter_of};
ghost use Rattle.set_lookups.specs.Members.{key_parts, query_parts, same_parts};
ghost use Rattle.set_lookups.specs.MemberKeys.{same_key, same_query, key_equiv, query_equiv, type_hash, parts_hash, parts_respect, same_to};
ghost use Rattle.set_lookups.specs.Same.{same_type, same_result};

use crate::members::Wanted;
use class_model::{BaseType, JType, MethodDesc, Primitive};
use indexmap::Equivalent;
use lists::{Name, Same, Seq};
use std::hash::{Hash, Hasher};

/// A class, a name, a descriptor, and which members of them are taken. A field has no parameters and its type as result.
#[derive(Debug, Drop)]
pub struct MemberKey {
    pub class: u32,
    pub wanted: Wanted,
    pub name: Name,
    pub desc: MethodDesc,
}

/// The same, borrowed.
#[derive(Clone, Copy)]
pub struct MemberQuery<'a> {
    pub class: u32,
    pub wanted: Wanted,
    pub name: &'a Name,
    pub params: &'a Seq<JType>,
    pub given: Option<&'a JType>,
}

impl MemberKey {
    fn as_query(&self) -> MemberQuery<'_>
        ensures { query_parts result ≡ key_parts self.now }
    {
        MemberQuery {
            class: self.class,
            wanted: self.wanted,
            name: &self.name,
            params: &self.desc.params,
            given: self.desc.result.as_ref(),
        }
    }
}

fn same_types(types: &Seq<JType>, others: &Seq<JType>) -> bool
    ensures { result ≡ pointwise same_type types.now others.now }
{
    types.same(others)
}

#[tactic(auto, using(crate::specs::SameTypes::type_test))]
fn is_type(ty: &JType, other: &JType) -> bool
    ensures { result ≡ same_type ty.now other.now }
{
    ty.same(other)
}

fn same_given(given: Option<&JType>, other: Option<&JType>) -> bool
    ensures { result ≡ same_result (option_copied given.entry) (option_copied other.entry) }
{
    match (given, other) {
        (Some(a), Some(b)) => is_type(a, b),
        (None, None) => true,
        _ => false,
    }
}

fn same_members(a: MemberQuery<'_>, b: MemberQuery<'_>) -> bool
    ensures { result ≡ same_parts (query_parts a.entry) (query_parts b.entry) }
{
    a.class == b.class
        && a.wanted == b.wanted
        && *a.name == *b.name
        && same_types(a.params, b.params)
        && same_given(a.given, b.given)
}

/// The letter of a primitive type.
fn letter(primitive: Primitive) -> u8
    ensures { result ≡ letter_of primitive }
{
    match primitive {
        Primitive::Boolean => b'Z',
        Primitive::Byte => b'B',
        Primitive::Char => b'C',
        Primitive::Short => b'S',
        Primitive::Int => b'I',
        Primitive::Long => b'J',
        Primitive::Float => b'F',
        Primitive::Double => b'D',
    }
}

fn hash_type<H: Hasher>(ty: &JType, state: &mut H)
    ensures { state.new ≡ fold H.write state.old (type_hash ty.now) }
{
    state.write_u8(ty.depth);
    match &ty.base {
        BaseType::Primitive(primitive) => state.write_u8(letter(*primitive)),
        BaseType::Class(name) => name.hash(state),
    }
}

fn hash_types<H: Hasher>(types: &[JType], state: &mut H)
    ensures { state.new ≡ fold H.write state.old (flat_map type_hash types.now) }
{
    for ty in types {
        hash_type(ty, state);
    }
}

fn hash_given<H: Hasher>(given: Option<&JType>, state: &mut H)
    ensures { state.new ≡ fold H.write state.old (flat_map type_hash (option_to_list (option_copied given.entry))) }
{
    if let Some(ty) = given {
        hash_type(ty, state);
    }
}

impl PartialEq for MemberQuery<'_> {
    ghost eq = { same_query };

    ghost laws = { partial_equiv_from_equiv query_equiv };

    fn eq(&self, other: &MemberQuery<'_>) -> bool {
        same_members(*self, *other)
    }
}

impl Eq for MemberQuery<'_> {
    ghost laws = { query_equiv };
}

impl Hash for MemberQuery<'_> {
    ghost hash_input = { λ query. parts_hash (query_parts query) };

    ghost respects_eq = { λ a b same. parts_respect (query_parts a) (query_parts b) same };

    fn hash<H: Hasher>(&self, state: &mut H) {
        state.write_u32(self.class);
        self.name.hash(state);
        hash_types(self.params.as_slice(), state);
        hash_given(self.given, state);
    }
}

impl PartialEq for MemberKey {
    ghost eq = { same_key };

    ghost laws = { partial_equiv_from_equiv key_equiv };

    fn eq(&self, other: &MemberKey) -> bool {
        same_members(self.as_query(), other.as_query())
    }
}

impl Eq for MemberKey {
    ghost laws = { key_equiv };
}

impl Hash for MemberKey {
    ghost hash_input = { λ key. parts_hash (key_parts key) };

    ghost respects_eq = { λ a b same. parts_respect (key_parts a) (key_parts b) same };

    fn hash<H: Hasher>(&self, state: &mut H) {
        self.as_query().hash(state);
    }
}

impl Equivalent<MemberKey> for MemberQuery<'_> {
    ghost equivalent = { λ query key. same_parts (query_parts query) (key_parts key) };

    ghost respects_hash = { λ query key same. parts_respect (query_parts query) (key_parts key) same };

    ghost respects_eq = { λ query a b same. same_to (query_parts query) (key_parts a) (key_parts b) same };

    fn equivalent(&self, key: &MemberKey) -> bool {
        same_members(*self, key.as_query())
    }
}
