//! Arrays.

ghost use Rattle.std.specs.Prelude.{◌≡◌, ◌∷◌, [], Ok, OnOk, IfOk, IfErr, replicate};
ghost use Rattle.class_model.specs.declared.class.VType.TheVariants.{Int};
ghost use Rattle.type_rows.specs.Halts.{Halts};
ghost use Rattle.type_rows.specs.Operands.{pop, pops};
ghost use Rattle.type_rows.specs.Arrays.{is_for, takes_array, is_array_for, reference_in, element, stored_element, from_array, row_array_load, into_array, row_array_store, is_array, length_of, row_array_length, row_new_array, row_a_new_array, row_multi_new_array};

use crate::method::Checked;
use crate::operands::{pop, pop_class, push, turn_one};
use crate::rule::{Halt, VerifyRule};
use crate::state::TypeState;
use class_model::{BaseType, Elem, JType, Primitive, VType};
use std::alloc::AllocError;

/// Whether an array instruction is for arrays of the primitive.
fn is_for(elem: Elem, primitive: Primitive) -> bool
    ensures { result ≡ is_for elem primitive }
{
    match elem {
        Elem::Int => matches!(primitive, Primitive::Int),
        Elem::Long => matches!(primitive, Primitive::Long),
        Elem::Byte => matches!(primitive, Primitive::Byte | Primitive::Boolean),
        Elem::Char => matches!(primitive, Primitive::Char),
        Elem::Short => matches!(primitive, Primitive::Short),
        Elem::Ref => false,
    }
}

/// Whether an array instruction is for arrays of the type.
fn takes_array(elem: Elem, ty: &JType) -> bool
    ensures { result ≡ takes_array elem ty.now.depth ty.now.base }
{
    match ty {
        JType { depth: 0, .. } => false,
        JType {
            depth: 1,
            base: BaseType::Primitive(primitive),
        } => is_for(elem, *primitive),
        _ => matches!(elem, Elem::Ref),
    }
}

/// Whether an array instruction is for the type.
fn is_array_for(elem: Elem, ty: &VType) -> bool
    ensures { result ≡ is_array_for elem ty.now }
{
    match ty {
        VType::Null => true,
        VType::Ref(ty) => takes_array(elem, ty),
        _ => false,
    }
}

/// The element of an array of references.
fn reference_in(array: VType) -> VType
    ensures { result ≡ reference_in array }
{
    match array {
        VType::Ref(ty) => VType::Ref(JType {
            depth: ty.depth.saturating_sub(1),
            base: ty.base,
        }),
        _ => VType::Null,
    }
}

/// What is in an array.
fn element(elem: Elem, array: VType) -> VType
    ensures { result ≡ element elem array }
{
    match elem {
        Elem::Int => VType::Int,
        Elem::Long => VType::Long,
        Elem::Byte => VType::Int,
        Elem::Char => VType::Int,
        Elem::Short => VType::Int,
        Elem::Ref => reference_in(array),
    }
}

/// Takes an array and gives an element.
fn from_array(method: &Checked, elem: Elem, state: &mut TypeState) -> Result<(), Halt>
    ensures ok { OnOk result (from_array method.now elem state.old.locals state.old.stack ≡ Ok state.new) }
    ensures err { IfErr result (λ halt. Halts halt (from_array method.now elem state.old.locals state.old.stack)) }
{
    let Some(array) = state.stack.pop() else {
        return Err(Halt::Broken(VerifyRule::Operand));
    };
    if !is_array_for(elem, &array) {
        return Err(Halt::Broken(VerifyRule::Operand));
    }
    push(method, element(elem, array), state)
}

/// Takes an index and an array, and gives an element.
#[tactic(auto, using(crate::proofs::Steps::halts_on))]
pub fn array_load(method: &Checked, elem: Elem, state: &mut TypeState) -> Result<(), Halt>
    ensures ok { OnOk result (row_array_load method.now elem state.old ≡ Ok state.new) }
    ensures err { IfErr result (λ halt. Halts halt (row_array_load method.now elem state.old)) }
{
    pop(method, &VType::Int, state)?;
    from_array(method, elem, state)
}

/// Takes an array that something is stored into.
fn into_array(elem: Elem, state: &mut TypeState) -> Result<(), Halt>
    ensures ok { OnOk result (into_array elem state.old.locals state.old.stack ≡ Ok state.new) }
    ensures err { IfErr result (λ halt. Halts halt (into_array elem state.old.locals state.old.stack)) }
{
    let Some(array) = state.stack.pop() else {
        return Err(Halt::Broken(VerifyRule::Operand));
    };
    if !is_array_for(elem, &array) {
        return Err(Halt::Broken(VerifyRule::Operand));
    }
    Ok(())
}

/// Takes what is stored into an array.
fn pop_element(method: &Checked, elem: Elem, state: &mut TypeState) -> Result<(), Halt>
    ensures same { state.new.locals ≡ state.old.locals }
    ensures ok { OnOk result (pop method.now (stored_element elem) state.old.stack ≡ Ok state.new.stack) }
    ensures err { IfErr result (λ halt. Halts halt (pop method.now (stored_element elem) state.old.stack)) }
{
    match elem {
        Elem::Int => pop(method, &VType::Int, state),
        Elem::Long => pop(method, &VType::Long, state),
        Elem::Byte => pop(method, &VType::Int, state),
        Elem::Char => pop(method, &VType::Int, state),
        Elem::Short => pop(method, &VType::Int, state),
        Elem::Ref => pop_class(method, method.object(), state),
    }
}

/// Takes a value, an index and an array.
#[tactic(auto, using(crate::proofs::Steps::halts_on))]
pub fn array_store(method: &Checked, elem: Elem, state: &mut TypeState) -> Result<(), Halt>
    ensures ok { OnOk result (row_array_store method.now elem state.old ≡ Ok state.new) }
    ensures err { IfErr result (λ halt. Halts halt (row_array_store method.now elem state.old)) }
{
    pop_element(method, elem, state)?;
    pop(method, &VType::Int, state)?;
    into_array(elem, state)
}

fn is_array(ty: &VType) -> bool
    ensures { result ≡ is_array ty.now }
{
    match ty {
        VType::Null => true,
        VType::Ref(ty) => ty.depth != 0,
        _ => false,
    }
}

/// Takes an array and gives its length.
pub fn array_length(method: &Checked, state: &mut TypeState) -> Result<(), Halt>
    ensures ok { OnOk result (row_array_length method.now state.old ≡ Ok state.new) }
    ensures err { IfErr result (λ halt. Halts halt (row_array_length method.now state.old)) }
{
    let Some(array) = state.stack.pop() else {
        return Err(Halt::Broken(VerifyRule::Operand));
    };
    if !is_array(&array) {
        return Err(Halt::Broken(VerifyRule::Operand));
    }
    push(method, VType::Int, state)
}

/// Takes a length and gives an array of primitives.
pub fn new_array(method: &Checked, primitive: Primitive, state: &mut TypeState) -> Result<(), Halt>
    ensures ok { OnOk result (row_new_array method.now primitive state.old ≡ Ok state.new) }
    ensures err { IfErr result (λ halt. Halts halt (row_new_array method.now primitive state.old)) }
{
    let array = JType {
        depth: 1,
        base: BaseType::Primitive(primitive),
    };
    turn_one(method, &VType::Int, VType::Ref(array), state)
}

/// Takes a length and gives an array of references.
pub fn a_new_array(method: &Checked, ty: &JType, state: &mut TypeState) -> Result<(), Halt>
    ensures ok { OnOk result (row_a_new_array method.now ty.now state.old ≡ Ok state.new) }
    ensures err { IfErr result (λ halt. Halts halt (row_a_new_array method.now ty.now state.old)) }
{
    if ty.depth > 254 {
        return Err(Halt::Broken(VerifyRule::Operand));
    }
    let array = JType {
        depth: ty.depth + 1,
        base: ty.base.clone()?,
    };
    turn_one(method, &VType::Int, VType::Ref(array), state)
}

/// Takes so many lengths.
#[tactic(auto, using(crate::proofs::Steps::lengths_on, crate::proofs::Steps::lengths_halt))]
fn pop_lengths(method: &Checked, dimensions: u8, state: &mut TypeState) -> Result<(), Halt>
    ensures same { state.new.locals ≡ state.old.locals }
    ensures ok { OnOk result (pops method.now (replicate dimensions Int) state.old.stack ≡ Ok state.new.stack) }
    ensures err { IfErr result (λ halt. Halts halt (pops method.now (replicate dimensions Int) state.old.stack)) }
{
    let mut left = dimensions;
    while left > 0 {
        left -= 1;
        pop(method, &VType::Int, state)?;
    }
    Ok(())
}

/// Takes a length for each dimension that is made, and gives the array.
#[tactic(auto, using(crate::proofs::Steps::halts_on))]
pub fn multi_new_array(
    method: &Checked,
    ty: &JType,
    dimensions: u8,
    state: &mut TypeState,
) -> Result<(), Halt>
    ensures ok { OnOk result (row_multi_new_array method.now ty.now dimensions state.old ≡ Ok state.new) }
    ensures err { IfErr result (λ halt. Halts halt (row_multi_new_array method.now ty.now dimensions state.old)) }
{
    if dimensions > ty.depth {
        return Err(Halt::Broken(VerifyRule::Operand));
    }
    pop_lengths(method, dimensions, state)?;
    push(method, VType::Ref(ty.clone()?), state)
}
