//! Loads, stores and the increment of a local.

ghost use Rattle.std.specs.Prelude.{◌≡◌, ◌≤◌, ◌+◌, Ok, OnOk, IfErr};
ghost use Rattle.type_rows.specs.Halts.{Halts};
ghost use Rattle.type_rows.specs.Locals.{kind_words, row_load, row_store, row_iinc};

use crate::method::Checked;
use crate::operands::{is_kind, push, take_kind};
use crate::rule::{Halt, VerifyRule};
use crate::state::TypeState;
use class_model::Kind;
use class_set::is_int;

fn kind_words(kind: Kind) -> u32
    ensures words { result ≡ kind_words kind }
    ensures most { result ≤ 2 }
{
    match kind {
        Kind::Int => 1,
        Kind::Long => 2,
        Kind::Ref => 1,
    }
}

/// Gives what a local of the kind has.
#[tactic(auto, using(crate::proofs::Steps::halts_on))]
pub fn load(method: &Checked, kind: Kind, slot: u16, state: &mut TypeState) -> Result<(), Halt>
    ensures ok { OnOk result (row_load method.now kind slot state.old ≡ Ok state.new) }
    ensures err { IfErr result (λ halt. Halts halt (row_load method.now kind slot state.old)) }
{
    if u32::from(slot) + kind_words(kind) > u32::from(method.code().max_locals) {
        return Err(Halt::Broken(VerifyRule::Local));
    }
    let Some(ty) = state.locals.get(slot) else {
        return Err(Halt::Broken(VerifyRule::Operand));
    };
    if !is_kind(kind, ty) {
        return Err(Halt::Broken(VerifyRule::Operand));
    }
    let ty = ty.clone()?;
    push(method, ty, state)
}

/// Takes an operand of the kind into a local.
#[tactic(auto, using(crate::proofs::Steps::halts_on))]
pub fn store(method: &Checked, kind: Kind, slot: u16, state: &mut TypeState) -> Result<(), Halt>
    ensures ok { OnOk result (row_store method.now kind slot state.old ≡ Ok state.new) }
    ensures err { IfErr result (λ halt. Halts halt (row_store method.now kind slot state.old)) }
{
    if u32::from(slot) + kind_words(kind) > u32::from(method.code().max_locals) {
        return Err(Halt::Broken(VerifyRule::Local));
    }
    let ty = take_kind(kind, state)?;
    state.locals.store(slot, ty);
    Ok(())
}

/// Adds to a local that is an int.
pub fn iinc(method: &Checked, slot: u16, state: &TypeState) -> Result<(), Halt>
    ensures ok { OnOk result (row_iinc method.now slot state.now ≡ Ok state.now) }
    ensures err { IfErr result (λ halt. Halts halt (row_iinc method.now slot state.now)) }
{
    if slot >= method.code().max_locals {
        return Err(Halt::Broken(VerifyRule::Local));
    }
    match state.locals.get(slot) {
        Some(ty) if is_int(ty) => Ok(()),
        _ => Err(Halt::Broken(VerifyRule::Operand)),
    }
}
