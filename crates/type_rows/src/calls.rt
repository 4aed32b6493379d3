//! Calls and new objects.

ghost use Rattle.std.specs.Prelude.{◌≡◌, Ok, OnOk, IfOk, IfErr, slice_get};
ghost use Rattle.set_lookups.specs.Above.{same_name};
ghost use Rattle.set_lookups.specs.Same.{same_type};
ghost use Rattle.class_set.specs.Assignable.{class_type, type_of};
ghost use Rattle.type_rows.specs.Halts.{Halts};
ghost use Rattle.type_rows.specs.Method.{init_name};
ghost use Rattle.type_rows.specs.Operands.{pops};
ghost use Rattle.type_rows.specs.Calls.{arguments, is_own_or_super, is_super, is_new_of, initialised, row_init, row_receiver, row_special, row_called, row_invoke, row_new};

use crate::method::Checked;
use crate::operands::{class_ref, give, pop_class, pop_type, room, type_of};
use crate::rule::{Halt, VerifyRule};
use crate::state::TypeState;
use class_model::{BaseType, Insn, InvokeKind, JType, MethodDesc, MethodRef, VType};
use lists::Name;

/// Whether a type is the class or interface of a name.
#[tactic(auto, using(class_set::proofs::Assigned::same_exact))]
fn is_class(name: &Name, ty: &JType) -> bool
    ensures { result ≡ same_type (class_type name.now) ty.now }
{
    match ty {
        JType {
            depth: 0,
            base: BaseType::Class(class),
        } => name == class,
        _ => false,
    }
}

fn is_super(name: &Option<Name>, ty: &JType) -> bool
    ensures { result ≡ is_super name.now ty.now }
{
    match name {
        None => false,
        Some(name) => is_class(name, ty),
    }
}

/// Whether a type is the method's class or its superclass.
fn is_own_or_super(method: &Checked, ty: &JType) -> bool
    ensures { result ≡ is_own_or_super method.now ty.now }
{
    is_class(&method.class().name, ty) || is_super(&method.class().super_name, ty)
}

/// Whether the instruction of a number makes an object of a class.
fn is_new_of(method: &Checked, ty: &JType, at: u32) -> bool
    ensures { result ≡ is_new_of ty.now (slice_get method.now.code.insns at) }
{
    match method.code().insns.get(at as usize) {
        Some(Insn::New(class)) => is_class(class, ty),
        _ => false,
    }
}

/// The type that an object has after a call of a constructor.
fn initialised(method: &Checked, class: &JType, ty: &VType) -> Result<VType, Halt>
    ensures ok { IfOk result (λ new. initialised method.now class.now ty.now ≡ Ok new) }
    ensures err { IfErr result (λ halt. Halts halt (initialised method.now class.now ty.now)) }
{
    match ty {
        VType::UninitThis => {
            if !is_own_or_super(method, class) {
                return Err(Halt::Broken(VerifyRule::Init));
            }
            Ok(class_ref(&method.class().name)?)
        }
        VType::Uninit(at) => {
            if !is_new_of(method, class, *at) {
                return Err(Halt::Broken(VerifyRule::Init));
            }
            Ok(type_of(class)?)
        }
        _ => Err(Halt::Broken(VerifyRule::Operand)),
    }
}

/// A call of a constructor, behind its arguments.
#[tactic(auto, using(crate::proofs::Steps::halts_on))]
fn init(method: &Checked, target: &MethodRef, state: &mut TypeState) -> Result<(), Halt>
    ensures ok { OnOk result (row_init method.now target.now state.old.locals state.old.stack ≡ Ok state.new) }
    ensures err { IfErr result (λ halt. Halts halt (row_init method.now target.now state.old.locals state.old.stack)) }
{
    let Some(ty) = state.stack.pop() else {
        return Err(Halt::Broken(VerifyRule::Operand));
    };
    let new = initialised(method, &target.class, &ty)?;
    state.locals.replace(&ty, &new)?;
    state.stack.replace(&ty, &new)?;
    Ok(())
}

/// A call on an object of a class or array, behind its arguments.
#[tactic(auto, using(crate::proofs::Steps::halts_on))]
fn call_on(method: &Checked, target: &MethodRef, state: &mut TypeState) -> Result<(), Halt>
    ensures ok { OnOk result (row_receiver method.now target.now.class target.now.desc.result state.old.locals state.old.stack ≡ Ok state.new) }
    ensures err { IfErr result (λ halt. Halts halt (row_receiver method.now target.now.class target.now.desc.result state.old.locals state.old.stack)) }
{
    pop_type(method, &target.class, state)?;
    give(method, &target.desc.result, state)
}

fn is_init(name: &Name) -> bool
    ensures { result ≡ same_name name.now init_name }
{
    name.is("<init>")
}

#[tactic(auto, using(crate::proofs::Steps::halts_on))]
fn special(method: &Checked, target: &MethodRef, state: &mut TypeState) -> Result<(), Halt>
    ensures ok { OnOk result (row_special method.now target.now state.old.locals state.old.stack ≡ Ok state.new) }
    ensures err { IfErr result (λ halt. Halts halt (row_special method.now target.now state.old.locals state.old.stack)) }
{
    if is_init(&target.name) {
        return init(method, target, state);
    }
    pop_class(method, &method.class().name, state)?;
    give(method, &target.desc.result, state)
}

/// A call, behind its arguments.
fn called(
    method: &Checked,
    kind: InvokeKind,
    target: &MethodRef,
    state: &mut TypeState,
) -> Result<(), Halt>
    ensures ok { OnOk result (row_called method.now kind target.now state.old.locals state.old.stack ≡ Ok state.new) }
    ensures err { IfErr result (λ halt. Halts halt (row_called method.now kind target.now state.old.locals state.old.stack)) }
{
    match kind {
        InvokeKind::Virtual => call_on(method, target, state),
        InvokeKind::Interface => call_on(method, target, state),
        InvokeKind::Special => special(method, target, state),
        InvokeKind::Static => give(method, &target.desc.result, state),
    }
}

/// Takes the arguments of a call, the last one first.
#[tactic(auto, using(crate::proofs::Steps::arguments_whole))]
fn pop_arguments(method: &Checked, desc: &MethodDesc, state: &mut TypeState) -> Result<(), Halt>
    ensures same { state.new.locals ≡ state.old.locals }
    ensures ok { OnOk result (pops method.now (arguments desc.now) state.old.stack ≡ Ok state.new.stack) }
    ensures err { IfErr result (λ halt. Halts halt (pops method.now (arguments desc.now) state.old.stack)) }
{
    let params = desc.params.as_slice();
    let mut left = params.len();
    while left > 0 {
        left -= 1;
        pop_type(method, &params[left], state)?;
    }
    Ok(())
}

/// A call.
#[tactic(auto, using(crate::proofs::Steps::halts_on))]
pub fn invoke(
    method: &Checked,
    kind: InvokeKind,
    target: &MethodRef,
    state: &mut TypeState,
) -> Result<(), Halt>
    ensures ok { OnOk result (row_invoke method.now kind target.now state.old ≡ Ok state.new) }
    ensures err { IfErr result (λ halt. Halts halt (row_invoke method.now kind target.now state.old)) }
{
    pop_arguments(method, &target.desc, state)?;
    called(method, kind, target, state)
}

/// A new object of the instruction of this number.
#[tactic(auto, using(crate::proofs::Steps::halts_on))]
pub fn new_object(method: &Checked, at: u32, state: &mut TypeState) -> Result<(), Halt>
    ensures ok { OnOk result (row_new method.now at state.old ≡ Ok state.new) }
    ensures err { IfErr result (λ halt. Halts halt (row_new method.now at state.old)) }
{
    let is_there = state.stack.has_uninit(at);
    state.locals.replace(&VType::Uninit(at), &VType::Top)?;
    state.stack.push(VType::Uninit(at))?;
    room(method, state)?;
    if is_there {
        return Err(Halt::Broken(VerifyRule::Init));
    }
    Ok(())
}
