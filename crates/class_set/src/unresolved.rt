//! References that do not resolve.

ghost use Rattle.std.specs.Prelude.{◌≡◌, IfOk};
ghost use Rattle.class_set.specs.References as table;

use crate::texts::{field_text, method_text};
use crate::walk::InsnRule;
use class_model::{FieldRef, Insn, MethodRef};
use lists::Name;
use set_lookups::Hierarchy;
use std::alloc::{AllocError, Global};

/// Each field and method reference resolves.
#[derive(Drop)]
pub struct Resolves<'a> {
    pub set: &'a Hierarchy,
}

fn lacks_field(alloc: Global, set: &Hierarchy, field: &FieldRef) -> Result<Option<Name>, AllocError>
    ensures { IfOk result (λ text. text ≡ table.lacks_field set.now field.now) }
{
    match set.resolve_field(field) {
        Some(_) => Ok(None),
        None => Ok(Some(field_text(alloc, field)?)),
    }
}

fn lacks_method(
    alloc: Global,
    set: &Hierarchy,
    method: &MethodRef,
) -> Result<Option<Name>, AllocError>
    ensures { IfOk result (λ text. text ≡ table.lacks_method set.now method.now) }
{
    match set.resolve_method(method) {
        Some(_) => Ok(None),
        None => Ok(Some(method_text(alloc, method)?)),
    }
}

impl InsnRule for Resolves<'_> {
    ghost told = { λ rule current insn. table.if_unresolved rule.set.now insn };

    #[tactic(auto, unfolding(crate::specs::References::if_unresolved))]
    fn judge(&self, alloc: Global, _current: u32, insn: &Insn) -> Result<Option<Name>, AllocError> {
        match insn {
            Insn::GetStatic(field)
            | Insn::PutStatic(field)
            | Insn::GetField(field)
            | Insn::PutField(field) => lacks_field(alloc, self.set, field),
            Insn::Invoke(_, method) => lacks_method(alloc, self.set, method),
            _ => Ok(None),
        }
    }
}
