//! The check of an instruction.

ghost use Rattle.std.specs.Prelude.{◌≡◌, ◌<◌, map, Ok, None, Some, OnOk, IfOk, IfErr};
ghost use Rattle.std.specs.Option.{option_copied};
ghost use Rattle.type_rows.specs.Halts.{Halts};
ghost use Rattle.type_rows.specs.Jumps.{targets, target_of};
ghost use Rattle.verifier.specs.Frames.{declared_at};
ghost use Rattle.verifier.specs.First.{first_frame};
ghost use Rattle.verifier.specs.Check.{is_start_shaped, merges, enter, caught_name, is_caught, is_handled, covers, one_handled, handled, leads, one_branched, branched, leave, pass, judge};
ghost use Rattle.verifier.specs.Set.{IsCheckable};

use crate::frames::{declared_at, frame_of, goes, is_shaped, locals_go, types_of};
use crate::typing::Typing;
use class_model::{Frame, Handler, Insn, VType};
use lists::Name;
use std::alloc::{AllocError, Global};
use type_rows::{Checked, Halt, TypeState, VerifyRule, class_ref, falls, fits, row};

/// The frame that is declared at an instruction.
fn declared<'a>(method: &'a Checked, at: u32) -> Option<&'a Frame>
    requires { IsCheckable method.now.code }
    ensures { option_copied result ≡ declared_at method.now.code.frames at }
{
    declared_at(method.code().frames.as_slice(), at)
}

/// Whether the first frame fits, which is asked at instruction 0.
fn is_start_shaped(method: &Checked, first: &Frame, at: u32) -> bool
    requires { first.now ≡ first_frame method.now }
    ensures { result ≡ is_start_shaped method.now at }
{
    at != 0 || fits(first.locals.as_slice(), method.code().max_locals)
}

/// The types at an instruction without a declared frame.
fn enter_alone(
    method: &Checked,
    first: &Frame,
    at: u32,
    came: Option<TypeState>,
) -> Result<TypeState, Halt>
    requires { first.now ≡ first_frame method.now }
    ensures ok { IfOk result (λ types. enter method.now at came None ≡ Ok types) }
    ensures err { IfErr result (λ halt. Halts halt (enter method.now at came None)) }
{
    let Some(types) = came else {
        return Err(Halt::Broken(VerifyRule::NoFrame));
    };
    if !is_start_shaped(method, first, at) {
        return Err(Halt::Broken(VerifyRule::Shape));
    }
    Ok(types)
}

/// Whether what falls in goes to a frame.
fn merges(method: &Checked, came: &Option<TypeState>, frame: &Frame) -> bool
    ensures { result ≡ merges method.now came.now frame.now }
{
    match came {
        None => true,
        Some(types) => goes(method, types, frame),
    }
}

/// The types at an instruction with a declared frame.
fn enter_frame(
    alloc: Global,
    method: &Checked,
    first: &Frame,
    at: u32,
    came: &Option<TypeState>,
    frame: &Frame,
) -> Result<TypeState, Halt>
    requires { first.now ≡ first_frame method.now }
    ensures ok { IfOk result (λ types. enter method.now at came.now (Some frame.now) ≡ Ok types) }
    ensures err { IfErr result (λ halt. Halts halt (enter method.now at came.now (Some frame.now))) }
{
    if !merges(method, came, frame) {
        return Err(Halt::Broken(VerifyRule::Merge));
    }
    if !is_shaped(method, frame) || !is_start_shaped(method, first, at) {
        return Err(Halt::Broken(VerifyRule::Shape));
    }
    Ok(types_of(alloc, method, frame)?)
}

/// The types at an instruction.
fn enter(
    alloc: Global,
    method: &Checked,
    first: &Frame,
    at: u32,
    came: Option<TypeState>,
) -> Result<TypeState, Halt>
    requires checkable { IsCheckable method.now.code }
    requires first { first.now ≡ first_frame method.now }
    ensures ok { IfOk result (λ types. enter method.now at came (declared_at method.now.code.frames at) ≡ Ok types) }
    ensures err { IfErr result (λ halt. Halts halt (enter method.now at came (declared_at method.now.code.frames at))) }
{
    match declared(method, at) {
        None => enter_alone(method, first, at, came),
        Some(frame) => enter_frame(alloc, method, first, at, &came, frame),
    }
}

/// The name of what a handler catches.
fn caught_name<'a>(method: &'a Checked, handler: &'a Handler) -> &'a Name
    ensures { result.now ≡ caught_name handler.now.caught }
{
    match &handler.caught {
        None => method.throwable(),
        Some(name) => name,
    }
}

/// Whether what is caught is a Throwable and goes to the one entry of a stack.
fn is_caught(method: &Checked, caught: &VType, stack: &[VType]) -> bool
    ensures { result ≡ is_caught method.now caught.now stack.now }
{
    match stack {
        [ty] => {
            method.set().assignable(caught, ty)
                && method.set().fits_class(caught, method.throwable())
        }
        _ => false,
    }
}

/// Whether a handler with its frame takes what is thrown.
fn catches(
    method: &Checked,
    types: &TypeState,
    handler: &Handler,
    frame: &Frame,
) -> Result<bool, AllocError>
    ensures { IfOk result (λ is. is ≡ is_handled method.now types.now handler.now (Some frame.now)) }
{
    if types.has_uninit_this() {
        return Ok(false);
    }
    let caught = class_ref(caught_name(method, handler))?;
    let goes = is_caught(method, &caught, frame.stack.as_slice())
        && locals_go(
            method.set(),
            types.locals.as_slice(),
            frame.locals.as_slice(),
        );
    Ok(goes)
}

/// Whether a handler takes what is thrown.
fn is_handled(method: &Checked, types: &TypeState, handler: &Handler) -> Result<bool, AllocError>
    requires { IsCheckable method.now.code }
    ensures { IfOk result (λ is. is ≡ is_handled method.now types.now handler.now (declared_at method.now.code.frames handler.now.target)) }
{
    match declared(method, handler.target) {
        None => Ok(false),
        Some(frame) => catches(method, types, handler, frame),
    }
}

fn covers(handler: &Handler, at: u32) -> bool
    ensures { result ≡ covers handler.now at }
{
    handler.start <= at && at < handler.end
}

/// Judges a handler.
fn handle(method: &Checked, at: u32, types: &TypeState, handler: &Handler) -> Result<(), Halt>
    requires { IsCheckable method.now.code }
    ensures ok { OnOk result (one_handled method.now at types.now handler.now ≡ Ok tt) }
    ensures err { IfErr result (λ halt. Halts halt (one_handled method.now at types.now handler.now)) }
{
    if !covers(handler, at) || is_handled(method, types, handler)? {
        return Ok(());
    }
    Err(Halt::Broken(VerifyRule::Handler))
}

/// Judges each handler over an instruction.
#[tactic(auto, using(crate::proofs::Judged::handled_on, crate::proofs::Judged::handled_halt))]
fn handled(method: &Checked, at: u32, types: &TypeState) -> Result<(), Halt>
    requires { IsCheckable method.now.code }
    ensures ok { OnOk result (handled method.now at types.now method.now.code.handlers ≡ Ok tt) }
    ensures err { IfErr result (λ halt. Halts halt (handled method.now at types.now method.now.code.handlers)) }
{
    for handler in method.code().handlers.as_slice() {
        handle(method, at, types, handler)?;
    }
    Ok(())
}

/// Whether the types go to the frame that is declared at a target.
fn leads(method: &Checked, types: &TypeState, target: u32) -> bool
    requires { IsCheckable method.now.code }
    ensures { result ≡ leads method.now types.now (declared_at method.now.code.frames target) }
{
    match declared(method, target) {
        None => false,
        Some(frame) => goes(method, types, frame),
    }
}

/// Judges a target.
fn branch(method: &Checked, types: &TypeState, target: u32) -> Result<(), Halt>
    requires { IsCheckable method.now.code }
    ensures ok { OnOk result (one_branched method.now types.now target ≡ Ok tt) }
    ensures err { IfErr result (λ halt. Halts halt (one_branched method.now types.now target)) }
{
    if leads(method, types, target) {
        Ok(())
    } else {
        Err(Halt::Broken(VerifyRule::Branch))
    }
}

/// Judges each target of a table.
#[tactic(auto, using(crate::proofs::Judged::branched_on, crate::proofs::Judged::branched_halt))]
fn branch_each(method: &Checked, types: &TypeState, table: &[u32]) -> Result<(), Halt>
    requires { IsCheckable method.now.code }
    ensures ok { OnOk result (branched method.now types.now table.now ≡ Ok tt) }
    ensures err { IfErr result (λ halt. Halts halt (branched method.now types.now table.now)) }
{
    for target in table {
        branch(method, types, *target)?;
    }
    Ok(())
}

/// Judges the target of each row.
#[tactic(auto, using(crate::proofs::Judged::rows_on, crate::proofs::Judged::rows_halt))]
fn branch_rows(method: &Checked, types: &TypeState, rows: &[(i32, u32)]) -> Result<(), Halt>
    requires { IsCheckable method.now.code }
    ensures ok { OnOk result (branched method.now types.now (map target_of rows.now) ≡ Ok tt) }
    ensures err { IfErr result (λ halt. Halts halt (branched method.now types.now (map target_of rows.now))) }
{
    for row in rows {
        branch(method, types, row.1)?;
    }
    Ok(())
}

/// Judges each target of an instruction.
#[tactic(auto, using(type_rows::proofs::Steps::halts_on), unfolding(type_rows::specs::Jumps::targets))]
fn branched(method: &Checked, types: &TypeState, insn: &Insn) -> Result<(), Halt>
    requires { IsCheckable method.now.code }
    ensures ok { OnOk result (branched method.now types.now (targets insn.now) ≡ Ok tt) }
    ensures err { IfErr result (λ halt. Halts halt (branched method.now types.now (targets insn.now))) }
{
    match insn {
        Insn::If(_, target)
        | Insn::IfInt(_, target)
        | Insn::IfRef(_, target)
        | Insn::IfNull(_, target)
        | Insn::Goto(target) => branch(method, types, *target),
        Insn::TableSwitch {
            default,
            targets,
            ..
        } => {
            branch(method, types, *default)?;
            branch_each(method, types, targets.as_slice())
        }
        Insn::LookupSwitch { default, rows } => {
            branch(method, types, *default)?;
            branch_rows(method, types, rows.as_slice())
        }
        _ => Ok(()),
    }
}

/// Judges where the types behind an instruction go on to.
#[tactic(auto, using(type_rows::proofs::Steps::halts_on))]
fn leave(
    method: &Checked,
    at: u32,
    insn: &Insn,
    frame: Frame,
    behind: TypeState,
) -> Result<Typing, Halt>
    requires checkable { IsCheckable method.now.code }
    requires within { at < 65535 }
    ensures ok { IfOk result (λ typing. leave method.now at insn.now frame behind ≡ Ok typing) }
    ensures err { IfErr result (λ halt. Halts halt (leave method.now at insn.now frame behind)) }
{
    branched(method, &behind, insn)?;
    if !falls(insn) {
        return Ok(Typing {
            frame,
            falls_on: None,
        });
    }
    if at as usize + 1 >= method.code().insns.len() {
        return Err(Halt::Broken(VerifyRule::End));
    }
    Ok(Typing {
        frame,
        falls_on: Some(behind),
    })
}

/// Judges an instruction with its types.
#[tactic(auto, using(type_rows::proofs::Steps::halts_on, crate::proofs::Judged::pass_is, crate::proofs::Judged::pass_halts))]
fn pass(
    alloc: Global,
    method: &Checked,
    at: u32,
    insn: &Insn,
    mut types: TypeState,
) -> Result<Typing, Halt>
    requires checkable { IsCheckable method.now.code }
    requires within { at < 65535 }
    ensures ok { IfOk result (λ typing. pass method.now at insn.now types ≡ Ok typing) }
    ensures err { IfErr result (λ halt. Halts halt (pass method.now at insn.now types)) }
{
    handled(method, at, &types)?;
    let frame = frame_of(alloc, &types)?;
    row(method, at, insn, &mut types)?;
    leave(method, at, insn, frame, types)
}

/// The typing of the instruction of a number to which these types fall in, or the first rule that fails.
#[tactic(auto, using(type_rows::proofs::Steps::halts_on))]
pub fn judge(
    alloc: Global,
    method: &Checked,
    first: &Frame,
    at: u32,
    insn: &Insn,
    came: Option<TypeState>,
) -> Result<Typing, Halt>
    requires checkable { IsCheckable method.now.code }
    requires first { first.now ≡ first_frame method.now }
    requires within { at < 65535 }
    ensures ok { IfOk result (λ typing. judge method.now at insn.now came ≡ Ok typing) }
    ensures err { IfErr result (λ halt. Halts halt (judge method.now at insn.now came)) }
{
    let types = enter(alloc, method, first, at, came)?;
    pass(alloc, method, at, insn, types)
}
