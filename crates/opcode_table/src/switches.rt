//! The operands of switches. Each function takes the bytes from the opcode at `pc` on.

ghost use Rattle.std.specs.Prelude.{◌≡◌, ◌+◌, ◌*◌, ◌<◌, ◌≤◌, ◌^◌, ℕ, length, IfOk, IfErr, IsTrue};
ghost use Rattle.opcode_table.specs.declared.code_stop.CodeStop.TheVariants.{Memory};
ghost use Rattle.opcode_table.specs.declared.opcodes.OperandForm.TheVariants as form;
ghost use Rattle.opcode_table.specs.Fields as field;
ghost use Rattle.opcode_table.specs.Judging.{Answers, has_low_key, judged};

use crate::code_stop::CodeStop;
use crate::fields::i32_at;
use crate::operands::{Decoded, has};
use crate::raw_insn::RawInsn;
use lists::Seq;
use std::alloc::Global;

/// How many bytes stand between a switch's opcode at `pc` and its operands.
pub(crate) fn padding(pc: usize) -> usize
    ensures { result ≡ field.padding pc }
{
    3 - pc % 4
}

#[tactic(auto, using(crate::proofs::Tables::offsets_more), unfolding(crate::specs::Fields::offsets_at))]
fn offsets(alloc: Global, text: &[u8], at: usize, count: usize) -> Result<Seq<i32>, CodeStop>
    requires { at + 4 * count ≤ length text.now }
    ensures ok { IfOk result (λ offsets. offsets ≡ field.offsets_at text.now at count) }
    ensures err { IfErr result (λ why. why ≡ Memory) }
{
    let mut offsets = Seq::new(alloc);
    for k in 0..count {
        offsets.push(i32_at(text, at + 4 * k))?;
    }
    Ok(offsets)
}

#[tactic(auto, using(crate::proofs::Tables::rows_more), unfolding(crate::specs::Fields::rows_at))]
fn rows(alloc: Global, text: &[u8], at: usize, count: usize) -> Result<Seq<(i32, i32)>, CodeStop>
    requires { at + 8 * count ≤ length text.now }
    ensures ok { IfOk result (λ rows. rows ≡ field.rows_at text.now at count) }
    ensures err { IfErr result (λ why. why ≡ Memory) }
{
    let mut rows = Seq::new(alloc);
    for k in 0..count {
        rows.push((i32_at(text, at + 8 * k), i32_at(text, at + 8 * k + 4)))?;
    }
    Ok(rows)
}

/// Whether a key that is there is not above the one before it.
fn low_key(text: &[u8], at: usize, count: usize) -> bool
    requires within { at ≤ length text.now }
    requires small { count < 2 ^ 32 }
    ensures { result ≡ has_low_key text.now at count }
{
    for k in 1..count {
        let row = at + 8 * (k - 1);
        if text.len() < row + 12 {
            return false;
        }
        let key = i32_at(text, row);
        let next = i32_at(text, row + 8);
        if next <= key {
            return true;
        }
    }
    false
}

/// `tableswitch`.
#[tactic(auto, unfolding(crate::specs::Judging::judged))]
pub(crate) fn table(alloc: Global, text: &[u8], pc: usize) -> Decoded
    ensures { Answers result (judged pc text.now form.Table) }
{
    let operands = 1 + padding(pc);
    let rows = operands + 12;
    has(text, rows)?;
    let default = i32_at(text, operands);
    let low = i32_at(text, operands + 4);
    let high = i32_at(text, operands + 8);
    if high < low {
        return Err(CodeStop::Order);
    }
    let count = high.abs_diff(low) as usize + 1;
    let size = rows + 4 * count;
    has(text, size)?;
    let offsets = offsets(alloc, text, rows, count)?;
    Ok((
        RawInsn::Table {
            low,
            default,
            offsets,
        },
        size,
    ))
}

/// `lookupswitch`.
#[tactic(auto, unfolding(crate::specs::Judging::judged))]
pub(crate) fn lookup(alloc: Global, text: &[u8], pc: usize) -> Decoded
    ensures { Answers result (judged pc text.now form.Lookup) }
{
    let numbers = 1 + padding(pc);
    let first = numbers + 8;
    has(text, first)?;
    let default = i32_at(text, numbers);
    let declared = i32_at(text, numbers + 4);
    if declared < 0 {
        return Err(CodeStop::Operand);
    }
    let count = declared.unsigned_abs() as usize;
    if low_key(text, first, count) {
        return Err(CodeStop::Order);
    }
    let size = first + 8 * count;
    has(text, size)?;
    let rows = rows(alloc, text, first, count)?;
    Ok((RawInsn::Lookup { default, rows }, size))
}
