//! The rows that judge each name and each type of a class.

ghost use Rattle.std.specs.Prelude.{◌≡◌, IfOk};
ghost use Rattle.profile_check.specs.Mentions as mention;
ghost use Rattle.profile_check.specs.Walks as table;

use crate::names::{
    has_bad_unit, is_bad_class, is_bad_member, is_bad_method, is_out, is_reserved,
    is_reserved_class, is_text,
};
use crate::profile::ProfileKind;
use class_model::{JType, Primitive};
use lists::Name;
use std::alloc::AllocError;

/// A row that judges each thing that a class names.
#[derive(Clone, Copy)]
pub enum Rule {
    FloatType,
    BadName,
    Reserved,
    OutName,
    ArrayMember,
}

/// Where something stands: the member, the fields counted first and then the methods, and the
/// instruction.
#[derive(Clone, Copy)]
pub struct Place {
    pub member: Option<u32>,
    pub at: Option<u32>,
}

fn is_float(primitive: Primitive) -> bool
    ensures { result ≡ table.is_float primitive }
{
    matches!(primitive, Primitive::Float | Primitive::Double)
}

impl Rule {
    pub fn refuses_class(self, name: &Name) -> bool
        ensures { result ≡ table.refuses self (mention.ClassName name.now) }
    {
        match self {
            Rule::BadName => is_bad_class(name),
            Rule::Reserved => is_reserved_class(name),
            Rule::FloatType | Rule::OutName | Rule::ArrayMember => false,
        }
    }

    pub fn refuses_used(self, name: &Name) -> bool
        ensures { result ≡ table.refuses self (mention.UsedClass name.now) }
    {
        match self {
            Rule::BadName => is_bad_class(name),
            Rule::Reserved => is_reserved_class(name),
            Rule::OutName => is_out(name),
            Rule::FloatType | Rule::ArrayMember => false,
        }
    }

    pub fn refuses_field(self, name: &Name) -> bool
        ensures { result ≡ table.refuses self (mention.FieldName name.now) }
    {
        match self {
            Rule::BadName => is_bad_member(name),
            Rule::Reserved => is_reserved(name),
            Rule::FloatType | Rule::OutName | Rule::ArrayMember => false,
        }
    }

    pub fn refuses_method(self, name: &Name) -> bool
        ensures { result ≡ table.refuses self (mention.MethodName name.now) }
    {
        match self {
            Rule::BadName => is_bad_method(name),
            Rule::Reserved => is_reserved(name),
            Rule::FloatType | Rule::OutName | Rule::ArrayMember => false,
        }
    }

    pub fn refuses_called(self, class: &JType, name: &Name) -> bool
        ensures { result ≡ table.refuses self (mention.CalledName class.now name.now) }
    {
        match self {
            Rule::BadName => is_bad_method(name),
            Rule::Reserved => is_reserved(name),
            Rule::ArrayMember => class.depth > 0 && is_text(name, "clone"),
            Rule::FloatType | Rule::OutName => false,
        }
    }

    pub fn refuses_simple(self, name: &Name) -> bool
        ensures { result ≡ table.refuses self (mention.SimpleName name.now) }
    {
        match self {
            Rule::BadName => has_bad_unit(name),
            Rule::Reserved => is_reserved(name),
            Rule::FloatType | Rule::OutName | Rule::ArrayMember => false,
        }
    }

    /// Whether a type with this class at its base is refused.
    pub fn refuses_base_class(self, name: &Name) -> bool
        ensures { result ≡ table.refuses_base_class self name.now }
    {
        match self {
            Rule::BadName => is_bad_class(name),
            Rule::Reserved => is_reserved_class(name),
            Rule::OutName => is_out(name),
            Rule::FloatType | Rule::ArrayMember => false,
        }
    }

    /// Whether a type with this primitive at its base is refused.
    pub fn refuses_primitive(self, primitive: Primitive) -> bool
        ensures { result ≡ table.refuses_primitive self primitive }
    {
        match self {
            Rule::FloatType => is_float(primitive),
            Rule::BadName | Rule::Reserved | Rule::OutName | Rule::ArrayMember => false,
        }
    }

    /// The kind that is told of a name.
    pub fn kind(self, name: &Name) -> Result<ProfileKind, AllocError>
        ensures { IfOk result (λ kind. kind ≡ table.kind_of self name.now) }
    {
        match self {
            Rule::FloatType => Ok(ProfileKind::FloatType),
            Rule::BadName => Ok(ProfileKind::BadName),
            Rule::Reserved => Ok(ProfileKind::Reserved(name.clone()?)),
            Rule::OutName => Ok(ProfileKind::OutName),
            Rule::ArrayMember => Ok(ProfileKind::ArrayMember),
        }
    }
}
