//! How things stand in a constant pool.

ghost use Rattle.std.specs.Prelude.{◌≡◌, ◌++◌, IfOk};
ghost use Rattle.std.specs.Cmp.{partial_equiv_from_equiv};
ghost use Rattle.class_limits.specs.Texts.{base_name, class_name_of};
ghost use Rattle.size_limits.specs.Pool.{same_key, key_of};
ghost use Rattle.size_limits.specs.Items.{ClassItem, FieldItem, MethodItem};
ghost use Rattle.size_limits.specs.Keys.{key_equiv, key_hash, key_respects};

use class_model::{BaseType, FieldRef, JType, MethodRef, print_desc, print_type};
use lists::{Name, Units};
use std::alloc::{AllocError, Global};
use std::hash::{Hash, Hasher};

/// A thing that stands in a constant pool, with texts for classes and descriptors.
#[derive(Drop)]
pub(crate) enum Key {
    Int(i32),
    Long(i64),
    Text(Units),
    Class(Name),
    /// The class, the name, and the descriptor.
    Field(Name, Name, Name),
    /// The class, the name, the descriptor, and whether an interface is named.
    Method(Name, Name, Name, bool),
}

impl PartialEq for Key {
    ghost eq = { same_key };

    ghost laws = { partial_equiv_from_equiv key_equiv };

    #[tactic(auto, unfolding(crate::specs::Pool::same_key))]
    fn eq(&self, other: &Key) -> bool {
        match (self, other) {
            (Key::Int(a), Key::Int(b)) => a == b,
            (Key::Long(a), Key::Long(b)) => a == b,
            (Key::Text(a), Key::Text(b)) => a == b,
            (Key::Class(a), Key::Class(b)) => a == b,
            (Key::Field(a, b, c), Key::Field(d, e, f)) => a == d && b == e && c == f,
            (Key::Method(a, b, c, x), Key::Method(d, e, f, y)) => {
                a == d && b == e && c == f && x == y
            }
            _ => false,
        }
    }
}

impl Eq for Key {
    ghost laws = { key_equiv };
}

impl Hash for Key {
    ghost hash_input = { key_hash };

    ghost respects_eq = { key_respects };

    #[tactic(auto, unfolding(crate::specs::Keys::key_hash))]
    fn hash<H: Hasher>(&self, state: &mut H) {
        match self {
            Key::Int(n) => n.hash(state),
            Key::Long(n) => n.hash(state),
            Key::Text(text) => text.hash(state),
            Key::Class(name) => name.hash(state),
            Key::Field(class, name, desc) | Key::Method(class, name, desc, _) => {
                class.hash(state);
                name.hash(state);
                desc.hash(state);
            }
        }
    }
}

/// A class by its name, a primitive by its letter.
#[tactic(auto, unfolding(class_model::specs::Descriptor::field_descriptor))]
fn base_text(alloc: Global, base: &BaseType) -> Result<Name, AllocError>
    ensures { IfOk result (λ text. text ≡ base_name base.now) }
{
    match base {
        BaseType::Class(name) => Ok(name.clone()?),
        BaseType::Primitive(primitive) => {
            let ty = JType {
                depth: 0,
                base: BaseType::Primitive(*primitive),
            };
            print_type(alloc, &ty)
        }
    }
}

/// The text of a type where a class is wanted (JVMS 4.4.1).
fn class_text(alloc: Global, ty: &JType) -> Result<Name, AllocError>
    ensures { IfOk result (λ text. text ≡ class_name_of ty.now) }
{
    if ty.depth == 0 {
        base_text(alloc, &ty.base)
    } else {
        print_type(alloc, ty)
    }
}

impl Key {
    pub(crate) fn of_type(alloc: Global, ty: &JType) -> Result<Key, AllocError>
        ensures { IfOk result (λ key. key ≡ key_of (ClassItem ty.now)) }
    {
        Ok(Key::Class(class_text(alloc, ty)?))
    }

    pub(crate) fn of_field(alloc: Global, field: &FieldRef) -> Result<Key, AllocError>
        ensures { IfOk result (λ key. key ≡ key_of (FieldItem field.now)) }
    {
        let desc = print_type(alloc, &field.ty)?;
        Ok(Key::Field(field.class.clone()?, field.name.clone()?, desc))
    }

    pub(crate) fn of_method(alloc: Global, method: &MethodRef) -> Result<Key, AllocError>
        ensures { IfOk result (λ key. key ≡ key_of (MethodItem method.now)) }
    {
        let class = class_text(alloc, &method.class)?;
        let desc = print_desc(alloc, &method.desc)?;
        let in_interface = method.in_interface;
        Ok(Key::Method(class, method.name.clone()?, desc, in_interface))
    }
}
