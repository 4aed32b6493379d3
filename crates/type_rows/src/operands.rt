//! Operands that are taken and given.

ghost use Rattle.std.specs.Prelude.{◌≡◌, [], ◌∷◌, Ok, OnOk, IfOk, IfErr};
ghost use Rattle.class_model.specs.declared.class.VType.TheVariants.{Ref};
ghost use Rattle.class_set.specs.Assignable.{type_of, class_type, primitive_type};
ghost use Rattle.type_rows.specs.Halts.{Halts};
ghost use Rattle.type_rows.specs.Operands.{room, push, pop, takes, turns, gives, is_reference, is_kind, take_kind};

use crate::method::Checked;
use crate::rule::{Halt, VerifyRule};
use crate::state::TypeState;
use class_model::{BaseType, JType, Kind, Primitive, VType};
use class_set::{is_int, is_long};
use lists::Name;
use std::alloc::AllocError;

/// Judges whether the operands have at most `max_stack` words.
pub fn room(method: &Checked, state: &TypeState) -> Result<(), Halt>
    ensures ok { OnOk result (room method.now state.now ≡ Ok state.now) }
    ensures err { IfErr result (λ halt. Halts halt (room method.now state.now)) }
{
    if state.stack.fits(method.code().max_stack) {
        Ok(())
    } else {
        Err(Halt::Broken(VerifyRule::Room))
    }
}

/// Puts an operand on top, if there is room.
#[tactic(auto, using(crate::proofs::Steps::halts_on))]
pub fn push(method: &Checked, ty: VType, state: &mut TypeState) -> Result<(), Halt>
    ensures ok { OnOk result (push method.now ty state.old.locals state.old.stack ≡ Ok state.new) }
    ensures err { IfErr result (λ halt. Halts halt (push method.now ty state.old.locals state.old.stack)) }
{
    state.stack.push(ty)?;
    room(method, state)
}

/// Takes the topmost operand, which goes to the type that is wanted.
pub fn pop(method: &Checked, wanted: &VType, state: &mut TypeState) -> Result<(), Halt>
    ensures same { state.new.locals ≡ state.old.locals }
    ensures ok { OnOk result (pop method.now wanted.now state.old.stack ≡ Ok state.new.stack) }
    ensures err { IfErr result (λ halt. Halts halt (pop method.now wanted.now state.old.stack)) }
{
    let Some(ty) = state.stack.pop() else {
        return Err(Halt::Broken(VerifyRule::Operand));
    };
    if !method.set().assignable(&ty, wanted) {
        return Err(Halt::Broken(VerifyRule::Operand));
    }
    Ok(())
}

/// Takes the topmost operand, which goes to the declared type.
pub fn pop_type(method: &Checked, wanted: &JType, state: &mut TypeState) -> Result<(), Halt>
    ensures same { state.new.locals ≡ state.old.locals }
    ensures ok { OnOk result (pop method.now (type_of wanted.now) state.old.stack ≡ Ok state.new.stack) }
    ensures err { IfErr result (λ halt. Halts halt (pop method.now (type_of wanted.now) state.old.stack)) }
{
    let Some(ty) = state.stack.pop() else {
        return Err(Halt::Broken(VerifyRule::Operand));
    };
    if !method.set().fits_type(&ty, wanted) {
        return Err(Halt::Broken(VerifyRule::Operand));
    }
    Ok(())
}

/// Takes the topmost operand, which goes to the class or interface.
pub fn pop_class(method: &Checked, wanted: &Name, state: &mut TypeState) -> Result<(), Halt>
    ensures same { state.new.locals ≡ state.old.locals }
    ensures ok { OnOk result (pop method.now (Ref (class_type wanted.now)) state.old.stack ≡ Ok state.new.stack) }
    ensures err { IfErr result (λ halt. Halts halt (pop method.now (Ref (class_type wanted.now)) state.old.stack)) }
{
    let Some(ty) = state.stack.pop() else {
        return Err(Halt::Broken(VerifyRule::Operand));
    };
    if !method.set().fits_class(&ty, wanted) {
        return Err(Halt::Broken(VerifyRule::Operand));
    }
    Ok(())
}

/// Whether the type is a reference, also one to an object that is not initialised.
pub fn is_reference(ty: &VType) -> bool
    ensures { result ≡ is_reference ty.now }
{
    matches!(
        ty,
        VType::Null | VType::UninitThis | VType::Ref(_) | VType::Uninit(_)
    )
}

/// Whether an instruction of that kind moves the type.
pub fn is_kind(kind: Kind, ty: &VType) -> bool
    ensures { result ≡ is_kind kind ty.now }
{
    match kind {
        Kind::Int => is_int(ty),
        Kind::Long => is_long(ty),
        Kind::Ref => is_reference(ty),
    }
}

/// Takes the topmost operand, which is of the kind.
pub fn take_kind(kind: Kind, state: &mut TypeState) -> Result<VType, Halt>
    ensures same { state.new.locals ≡ state.old.locals }
    ensures ok { IfOk result (λ ty. take_kind kind state.old.stack ≡ Ok (record { ty = ty; rest = state.new.stack })) }
    ensures err { IfErr result (λ halt. Halts halt (take_kind kind state.old.stack)) }
{
    let Some(ty) = state.stack.pop() else {
        return Err(Halt::Broken(VerifyRule::Operand));
    };
    if !is_kind(kind, &ty) {
        return Err(Halt::Broken(VerifyRule::Operand));
    }
    Ok(ty)
}

/// Takes an operand.
#[tactic(auto, using(crate::proofs::Steps::halts_on))]
pub fn take_one(method: &Checked, wanted: &VType, state: &mut TypeState) -> Result<(), Halt>
    ensures ok { OnOk result (takes method.now (wanted.now ∷ []) state.old ≡ Ok state.new) }
    ensures err { IfErr result (λ halt. Halts halt (takes method.now (wanted.now ∷ []) state.old)) }
{
    pop(method, wanted, state)
}

/// Takes two operands, the topmost first.
#[tactic(auto, using(crate::proofs::Steps::halts_on))]
pub fn take_two(
    method: &Checked,
    top: &VType,
    below: &VType,
    state: &mut TypeState,
) -> Result<(), Halt>
    ensures ok { OnOk result (takes method.now (top.now ∷ below.now ∷ []) state.old ≡ Ok state.new) }
    ensures err { IfErr result (λ halt. Halts halt (takes method.now (top.now ∷ below.now ∷ []) state.old)) }
{
    pop(method, top, state)?;
    pop(method, below, state)
}

/// Takes an operand and gives one.
#[tactic(auto, using(crate::proofs::Steps::halts_on))]
pub fn turn_one(
    method: &Checked,
    wanted: &VType,
    given: VType,
    state: &mut TypeState,
) -> Result<(), Halt>
    ensures ok { OnOk result (turns method.now (wanted.now ∷ []) given state.old ≡ Ok state.new) }
    ensures err { IfErr result (λ halt. Halts halt (turns method.now (wanted.now ∷ []) given state.old)) }
{
    pop(method, wanted, state)?;
    push(method, given, state)
}

/// Takes two operands, the topmost first, and gives one.
#[tactic(auto, using(crate::proofs::Steps::halts_on))]
pub fn turn_two(
    method: &Checked,
    top: &VType,
    below: &VType,
    given: VType,
    state: &mut TypeState,
) -> Result<(), Halt>
    ensures ok { OnOk result (turns method.now (top.now ∷ below.now ∷ []) given state.old ≡ Ok state.new) }
    ensures err { IfErr result (λ halt. Halts halt (turns method.now (top.now ∷ below.now ∷ []) given state.old)) }
{
    pop(method, top, state)?;
    pop(method, below, state)?;
    push(method, given, state)
}

/// Takes an object of the class and gives an operand.
#[tactic(auto, using(crate::proofs::Steps::halts_on))]
pub fn turn_class(
    method: &Checked,
    wanted: &Name,
    given: VType,
    state: &mut TypeState,
) -> Result<(), Halt>
    ensures ok { OnOk result (turns method.now (Ref (class_type wanted.now) ∷ []) given state.old ≡ Ok state.new) }
    ensures err { IfErr result (λ halt. Halts halt (turns method.now (Ref (class_type wanted.now) ∷ []) given state.old)) }
{
    pop_class(method, wanted, state)?;
    push(method, given, state)
}

/// Gives the result of a call, if there is one.
pub fn give(method: &Checked, declared: &Option<JType>, state: &mut TypeState) -> Result<(), Halt>
    ensures ok { OnOk result (gives method.now declared.now state.old.locals state.old.stack ≡ Ok state.new) }
    ensures err { IfErr result (λ halt. Halts halt (gives method.now declared.now state.old.locals state.old.stack)) }
{
    match declared {
        None => Ok(()),
        Some(ty) => push(method, type_of(ty)?, state),
    }
}

/// The type that a value of a declared type has on the stack and in locals.
pub fn type_of(ty: &JType) -> Result<VType, AllocError>
    ensures { IfOk result (λ given. given ≡ type_of ty.now) }
{
    match ty {
        JType {
            depth: 0,
            base: BaseType::Primitive(primitive),
        } => Ok(primitive_type(*primitive)),
        _ => Ok(VType::Ref(ty.clone()?)),
    }
}

fn primitive_type(primitive: Primitive) -> VType
    ensures { result ≡ primitive_type primitive }
{
    match primitive {
        Primitive::Long => VType::Long,
        Primitive::Float | Primitive::Double => VType::Top,
        _ => VType::Int,
    }
}

/// A class or interface.
pub fn class_ref(name: &Name) -> Result<VType, AllocError>
    ensures { IfOk result (λ given. given ≡ Ref (class_type name.now)) }
{
    Ok(VType::Ref(JType {
        depth: 0,
        base: BaseType::Class(name.clone()?),
    }))
}
