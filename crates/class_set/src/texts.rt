//! References as they are told.

ghost use Rattle.std.specs.Prelude.{◌≡◌, ◌++◌, ◌∷◌, IfOk};
ghost use Rattle.class_set.specs.References as table;

use class_model::{BaseType, FieldRef, Insn, JType, MethodRef, print_desc, print_type};
use lists::Name;
use std::alloc::{AllocError, Global};

/// A class by its name, an array by its descriptor.
#[tactic(auto, unfolding(class_model::specs::Descriptor::field_descriptor))]
fn class_text(alloc: Global, ty: &JType) -> Result<Name, AllocError>
    ensures { IfOk result (λ text. text ≡ table.class_text ty.now) }
{
    match &ty.base {
        BaseType::Class(name) if ty.depth == 0 => name.clone(),
        _ => print_type(alloc, ty),
    }
}

/// A class, `.`, a member's name, and its descriptor.
fn member_text(alloc: Global, class: &Name, name: &Name, desc: &Name) -> Result<Name, AllocError>
    ensures { IfOk result (λ text. text ≡ class.now ++ 46 ∷ name.now ++ desc.now) }
{
    let mut units = Vec::from_slice(alloc, class.as_units())?;
    units.push(46)?;
    units.extend_from_slice(name.as_units())?;
    units.extend_from_slice(desc.as_units())?;
    Name::from_vec(alloc, units)
}

/// The text of a field reference.
pub fn field_text(alloc: Global, field: &FieldRef) -> Result<Name, AllocError>
    ensures { IfOk result (λ text. text ≡ table.field_text field.now) }
{
    let desc = print_type(alloc, &field.ty)?;
    member_text(alloc, &field.class, &field.name, &desc)
}

/// The text of a method reference.
pub fn method_text(alloc: Global, method: &MethodRef) -> Result<Name, AllocError>
    ensures { IfOk result (λ text. text ≡ table.method_text method.now) }
{
    let class = class_text(alloc, &method.class)?;
    let desc = print_desc(alloc, &method.desc)?;
    member_text(alloc, &class, &method.name, &desc)
}

/// What an instruction names, where it names a member or is a `new`; else no units.
pub fn insn_text(alloc: Global, insn: &Insn) -> Result<Name, AllocError>
    ensures { IfOk result (λ text. text ≡ table.insn_text insn.now) }
{
    match insn {
        Insn::GetStatic(field)
        | Insn::PutStatic(field)
        | Insn::GetField(field)
        | Insn::PutField(field) => field_text(alloc, field),
        Insn::Invoke(_, method) => method_text(alloc, method),
        Insn::New(class) => class.clone(),
        _ => Name::from_vec(alloc, Vec::new(alloc)),
    }
}
