//! The operands of an instruction that has no table. Each function takes the bytes from the opcode on.

ghost use Rattle.std.specs.Prelude.{◌≡◌, ◌<◌, ◌≤◌, ℕ, length, OnOk, IfErr};
ghost use Rattle.opcode_table.specs.declared.code_stop.CodeStop.TheVariants.{Short};
ghost use Rattle.opcode_table.specs.declared.opcodes.OperandForm.TheVariants as form;
ghost use Rattle.opcode_table.specs.Judging.{Answers, judged};

use crate::code_stop::CodeStop;
use crate::fields::{i8_at, i16_at, i32_at, u8_at, u16_at};
use crate::opcodes::{OperandForm, operand_form};
use crate::raw_insn::RawInsn;

/// An instruction with its length in bytes, or why there is none.
pub(crate) type Decoded = Result<(RawInsn, usize), CodeStop>;

/// Refuses bytes that are fewer than an instruction has.
pub(crate) fn has(text: &[u8], size: usize) -> Result<(), CodeStop>
    ensures ok { OnOk result (size ≤ length text.now) }
    ensures short { IfErr result (λ why. (why ≡ Short) × (length text.now < size)) }
{
    if text.len() < size {
        return Err(CodeStop::Short);
    }
    Ok(())
}

#[tactic(auto, unfolding(crate::specs::Judging::judged))]
pub(crate) fn empty(text: &[u8]) -> Decoded
    requires { 0 < length text.now }
    ensures { (pc : ℕ) → Answers result (judged pc text.now form.Empty) }
{
    Ok((RawInsn::Plain(u8_at(text, 0)), 1))
}

#[tactic(auto, unfolding(crate::specs::Judging::judged))]
pub(crate) fn signed_byte(text: &[u8]) -> Decoded
    ensures { (pc : ℕ) → Answers result (judged pc text.now form.SignedByte) }
{
    has(text, 2)?;
    Ok((RawInsn::Byte(u8_at(text, 0), i8_at(text, 1)), 2))
}

#[tactic(auto, unfolding(crate::specs::Judging::judged))]
pub(crate) fn signed_short(text: &[u8]) -> Decoded
    ensures { (pc : ℕ) → Answers result (judged pc text.now form.SignedShort) }
{
    has(text, 3)?;
    Ok((RawInsn::Short(u8_at(text, 0), i16_at(text, 1)), 3))
}

#[tactic(auto, unfolding(crate::specs::Judging::judged))]
pub(crate) fn pool_byte(text: &[u8]) -> Decoded
    ensures { (pc : ℕ) → Answers result (judged pc text.now form.PoolByte) }
{
    has(text, 2)?;
    Ok((RawInsn::Pool(u8_at(text, 0), u16::from(u8_at(text, 1))), 2))
}

#[tactic(auto, unfolding(crate::specs::Judging::judged))]
pub(crate) fn pool(text: &[u8]) -> Decoded
    ensures { (pc : ℕ) → Answers result (judged pc text.now form.Pool) }
{
    has(text, 3)?;
    Ok((RawInsn::Pool(u8_at(text, 0), u16_at(text, 1)), 3))
}

#[tactic(auto, unfolding(crate::specs::Judging::judged))]
pub(crate) fn local(text: &[u8]) -> Decoded
    ensures { (pc : ℕ) → Answers result (judged pc text.now form.Local) }
{
    has(text, 2)?;
    Ok((RawInsn::Local(u8_at(text, 0), u16::from(u8_at(text, 1))), 2))
}

#[tactic(auto, unfolding(crate::specs::Judging::judged))]
pub(crate) fn increment(text: &[u8]) -> Decoded
    ensures { (pc : ℕ) → Answers result (judged pc text.now form.Increment) }
{
    has(text, 3)?;
    let step = i16::from(i8_at(text, 2));
    Ok((RawInsn::Inc(u16::from(u8_at(text, 1)), step), 3))
}

#[tactic(auto, unfolding(crate::specs::Judging::judged))]
pub(crate) fn jump(text: &[u8]) -> Decoded
    ensures { (pc : ℕ) → Answers result (judged pc text.now form.Jump) }
{
    has(text, 3)?;
    Ok((RawInsn::Jump(u8_at(text, 0), i32::from(i16_at(text, 1))), 3))
}

#[tactic(auto, unfolding(crate::specs::Judging::judged))]
pub(crate) fn wide_jump(text: &[u8]) -> Decoded
    ensures { (pc : ℕ) → Answers result (judged pc text.now form.WideJump) }
{
    has(text, 5)?;
    Ok((RawInsn::Jump(u8_at(text, 0), i32_at(text, 1)), 5))
}

#[tactic(auto, unfolding(crate::specs::Judging::judged))]
pub(crate) fn interface(text: &[u8]) -> Decoded
    ensures { (pc : ℕ) → Answers result (judged pc text.now form.Interface) }
{
    has(text, 5)?;
    let count = u8_at(text, 3);
    if count == 0 || u8_at(text, 4) != 0 {
        return Err(CodeStop::Operand);
    }
    Ok((RawInsn::Interface(u16_at(text, 1), count), 5))
}

#[tactic(auto, unfolding(crate::specs::Judging::judged))]
pub(crate) fn array_type(text: &[u8]) -> Decoded
    ensures { (pc : ℕ) → Answers result (judged pc text.now form.ArrayType) }
{
    has(text, 2)?;
    let ty = u8_at(text, 1);
    if ty < 4 || ty > 11 {
        return Err(CodeStop::Operand);
    }
    Ok((RawInsn::NewArray(ty), 2))
}

#[tactic(auto, unfolding(crate::specs::Judging::judged))]
pub(crate) fn dimensions(text: &[u8]) -> Decoded
    ensures { (pc : ℕ) → Answers result (judged pc text.now form.Dimensions) }
{
    has(text, 4)?;
    let dimensions = u8_at(text, 3);
    if dimensions == 0 {
        return Err(CodeStop::Operand);
    }
    Ok((RawInsn::Multi(u16_at(text, 1), dimensions), 4))
}

#[tactic(auto, unfolding(crate::specs::Judging::judged))]
pub(crate) fn wide(text: &[u8]) -> Decoded
    ensures { (pc : ℕ) → Answers result (judged pc text.now form.Wide) }
{
    has(text, 2)?;
    let op = u8_at(text, 1);
    match operand_form(op) {
        OperandForm::Local => {
            has(text, 4)?;
            Ok((RawInsn::Local(op, u16_at(text, 2)), 4))
        }
        OperandForm::Increment => {
            has(text, 6)?;
            Ok((RawInsn::Inc(u16_at(text, 2), i16_at(text, 4)), 6))
        }
        _ => Err(CodeStop::Operand),
    }
}
