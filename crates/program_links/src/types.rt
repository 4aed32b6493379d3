//! Instructions that name a type.

ghost use Rattle.std.specs.Prelude.{◌≡◌, OnOk, IfOk};
ghost use Rattle.class_model.specs.declared.insn.Insn.TheVariants as insn;
ghost use Rattle.linked_code.specs.Linked.{MakesArray};
ghost use Rattle.program_links.specs.Numbers.{Grows};
ghost use Rattle.program_links.specs.LinkedTo.{TypeAt};

use crate::tables::Tables;
use class_model::{BaseType, JType, Primitive};
use std::alloc::AllocError;

/// The number of a type that stands in code.
#[tactic(auto, using(crate::proofs::Typed::of_itself))]
pub fn named_type(tables: &mut Tables, ty: &JType) -> Result<u32, AllocError>
    ensures grows { OnOk result (Grows tables.old tables.new) }
    ensures is { IfOk result (λ n. TypeAt tables.new (λ named. ty.now ≡ named) n) }
{
    tables.ty(u32::from(ty.depth), &ty.base)
}

/// The number of the type of an array of these elements.
#[tactic(auto, using(crate::proofs::Typed::of_references))]
pub fn array_of_references(tables: &mut Tables, element: &JType) -> Result<u32, AllocError>
    ensures grows { OnOk result (Grows tables.old tables.new) }
    ensures is { IfOk result (λ n. TypeAt tables.new (MakesArray (insn.ANewArray element.now)) n) }
{
    tables.ty(u32::from(element.depth) + 1, &element.base)
}

/// The number of the type of an array of these numbers.
#[tactic(auto, using(crate::proofs::Typed::of_numbers))]
pub fn array_of_numbers(tables: &mut Tables, number: Primitive) -> Result<u32, AllocError>
    ensures grows { OnOk result (Grows tables.old tables.new) }
    ensures is { IfOk result (λ n. TypeAt tables.new (MakesArray (insn.NewArray number)) n) }
{
    tables.ty(1, &BaseType::Primitive(number))
}
