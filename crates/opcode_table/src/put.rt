//! Writing operands. After a refusal the bytes that were there stand in front still.

ghost use Rattle.std.specs.Prelude.{◌≡◌, ◌+◌, ◌<◌, ◌≤◌, ◌^◌, ◌++◌, ◌⊎◌, ◌∷◌, ◌≤ℤ◌, ◌+ℤ◌, ◌-ℤ◌, pos, List, ℕ, length, take, drop, OnOk, OnErr, All};
ghost use Rattle.std.specs.List.{flat_map};
ghost use Rattle.opcode_table.specs.Writing as written;
ghost use Rattle.opcode_table.specs.declared.raw_insn.RawInsn.TheVariants as insn;
ghost use Rattle.opcode_table.specs.Spelling.{IsWellFormed, Spells};

use crate::opcodes::{OperandForm, operand_form};
use crate::switches::padding;
use std::alloc::AllocError;

fn put_bytes(out: &mut Vec<u8>, bytes: &[u8]) -> Result<(), AllocError>
    ensures ok { OnOk result (out.new.items ≡ out.old.items ++ bytes.now) }
    ensures err { OnErr result (take (length out.old.items) out.new.items ≡ out.old.items) }
{
    out.extend_from_slice(bytes)
}

#[tactic(auto, using(crate::proofs::Spelled::plain_spelled), unfolding(crate::specs::Writing::spelling))]
pub(crate) fn put_plain(out: &mut Vec<u8>, op: u8) -> Result<(), AllocError>
    ensures ok { (pc : ℕ) → OnOk result (out.new.items ≡ out.old.items ++ written.spelling pc (insn.Plain op)) }
    ensures spelled { (pc : ℕ) → IsWellFormed (insn.Plain op) → Spells pc (insn.Plain op) (written.spelling pc (insn.Plain op)) }
    ensures err { OnErr result (take (length out.old.items) out.new.items ≡ out.old.items) }
{
    put_bytes(out, &[op])
}

#[tactic(auto, using(crate::proofs::Spelled::byte_spelled), unfolding(crate::specs::Writing::spelling, crate::specs::Writing::i8_bytes))]
pub(crate) fn put_byte(out: &mut Vec<u8>, op: u8, n: i8) -> Result<(), AllocError>
    ensures ok { (pc : ℕ) → OnOk result (out.new.items ≡ out.old.items ++ written.spelling pc (insn.Byte op n)) }
    ensures spelled { (pc : ℕ) → IsWellFormed (insn.Byte op n) → Spells pc (insn.Byte op n) (written.spelling pc (insn.Byte op n)) }
    ensures err { OnErr result (take (length out.old.items) out.new.items ≡ out.old.items) }
{
    put_bytes(out, &[op, n.cast_unsigned()])
}

#[tactic(auto, using(crate::proofs::Spelled::short_spelled), unfolding(crate::specs::Writing::spelling, crate::specs::Writing::i16_bytes))]
pub(crate) fn put_short(out: &mut Vec<u8>, op: u8, n: i16) -> Result<(), AllocError>
    ensures ok { (pc : ℕ) → OnOk result (out.new.items ≡ out.old.items ++ written.spelling pc (insn.Short op n)) }
    ensures spelled { (pc : ℕ) → IsWellFormed (insn.Short op n) → Spells pc (insn.Short op n) (written.spelling pc (insn.Short op n)) }
    ensures err { OnErr result (take (length out.old.items) out.new.items ≡ out.old.items) }
{
    let [high, low] = n.to_be_bytes();
    put_bytes(out, &[op, high, low])
}

#[tactic(auto, unfolding(crate::specs::Writing::i32_bytes))]
fn put_i32(out: &mut Vec<u8>, n: i32) -> Result<(), AllocError>
    ensures ok { OnOk result (out.new.items ≡ out.old.items ++ written.i32_bytes n) }
    ensures err { OnErr result (take (length out.old.items) out.new.items ≡ out.old.items) }
{
    put_bytes(out, &n.to_be_bytes())
}

#[tactic(auto, using(crate::proofs::Spelled::local_spelled), unfolding(crate::specs::Writing::spelling, crate::specs::Writing::u16_bytes))]
pub(crate) fn put_local(out: &mut Vec<u8>, op: u8, local: u16) -> Result<(), AllocError>
    ensures ok { (pc : ℕ) → OnOk result (out.new.items ≡ out.old.items ++ written.spelling pc (insn.Local op local)) }
    ensures spelled { (pc : ℕ) → IsWellFormed (insn.Local op local) → Spells pc (insn.Local op local) (written.spelling pc (insn.Local op local)) }
    ensures err { OnErr result (take (length out.old.items) out.new.items ≡ out.old.items) }
{
    if local < 256 {
        return put_bytes(out, &[op, local as u8]);
    }
    let [high, low] = local.to_be_bytes();
    put_bytes(out, &[196, op, high, low])
}

#[tactic(auto, using(crate::proofs::Spelled::increment_spelled), unfolding(crate::specs::Writing::spelling, crate::specs::Writing::u16_bytes, crate::specs::Writing::i8_bytes, crate::specs::Writing::i16_bytes))]
pub(crate) fn put_increment(out: &mut Vec<u8>, local: u16, step: i16) -> Result<(), AllocError>
    ensures ok { (pc : ℕ) → OnOk result (out.new.items ≡ out.old.items ++ written.spelling pc (insn.Inc local step)) }
    ensures spelled { (pc : ℕ) → IsWellFormed (insn.Inc local step) → Spells pc (insn.Inc local step) (written.spelling pc (insn.Inc local step)) }
    ensures err { OnErr result (take (length out.old.items) out.new.items ≡ out.old.items) }
{
    if local < 256 && -128 <= step && step < 128 {
        return put_bytes(out, &[132, local as u8, (step as i8).cast_unsigned()]);
    }
    let [high, low] = local.to_be_bytes();
    let [step_high, step_low] = step.to_be_bytes();
    put_bytes(out, &[196, 132, high, low, step_high, step_low])
}

#[tactic(auto, using(crate::proofs::Spelled::index_spelled), unfolding(crate::specs::Writing::spelling, crate::specs::Writing::u16_bytes))]
pub(crate) fn put_index(out: &mut Vec<u8>, op: u8, index: u16) -> Result<(), AllocError>
    requires { IsWellFormed (insn.Pool op index) }
    ensures ok { (pc : ℕ) → OnOk result (out.new.items ≡ out.old.items ++ written.spelling pc (insn.Pool op index)) }
    ensures spelled { (pc : ℕ) → IsWellFormed (insn.Pool op index) → Spells pc (insn.Pool op index) (written.spelling pc (insn.Pool op index)) }
    ensures err { OnErr result (take (length out.old.items) out.new.items ≡ out.old.items) }
{
    if operand_form(op) == OperandForm::PoolByte {
        return put_bytes(out, &[op, index as u8]);
    }
    let [high, low] = index.to_be_bytes();
    put_bytes(out, &[op, high, low])
}

#[tactic(auto, using(crate::proofs::Spelled::offset_spelled), unfolding(crate::specs::Writing::spelling, crate::specs::Writing::i16_bytes, crate::specs::Writing::i32_bytes))]
pub(crate) fn put_offset(out: &mut Vec<u8>, op: u8, offset: i32) -> Result<(), AllocError>
    requires { IsWellFormed (insn.Jump op offset) }
    ensures ok { (pc : ℕ) → OnOk result (out.new.items ≡ out.old.items ++ written.spelling pc (insn.Jump op offset)) }
    ensures spelled { (pc : ℕ) → IsWellFormed (insn.Jump op offset) → Spells pc (insn.Jump op offset) (written.spelling pc (insn.Jump op offset)) }
    ensures err { OnErr result (take (length out.old.items) out.new.items ≡ out.old.items) }
{
    if operand_form(op) == OperandForm::WideJump {
        let [a, b, c, d] = offset.to_be_bytes();
        return put_bytes(out, &[op, a, b, c, d]);
    }
    let [high, low] = (offset as i16).to_be_bytes();
    put_bytes(out, &[op, high, low])
}

#[tactic(auto, using(crate::proofs::Spelled::interface_spelled), unfolding(crate::specs::Writing::spelling, crate::specs::Writing::u16_bytes))]
pub(crate) fn put_interface(out: &mut Vec<u8>, index: u16, count: u8) -> Result<(), AllocError>
    ensures ok { (pc : ℕ) → OnOk result (out.new.items ≡ out.old.items ++ written.spelling pc (insn.Interface index count)) }
    ensures spelled { (pc : ℕ) → IsWellFormed (insn.Interface index count) → Spells pc (insn.Interface index count) (written.spelling pc (insn.Interface index count)) }
    ensures err { OnErr result (take (length out.old.items) out.new.items ≡ out.old.items) }
{
    let [high, low] = index.to_be_bytes();
    put_bytes(out, &[185, high, low, count, 0])
}

#[tactic(auto, using(crate::proofs::Spelled::array_type_spelled), unfolding(crate::specs::Writing::spelling))]
pub(crate) fn put_array_type(out: &mut Vec<u8>, ty: u8) -> Result<(), AllocError>
    ensures ok { (pc : ℕ) → OnOk result (out.new.items ≡ out.old.items ++ written.spelling pc (insn.NewArray ty)) }
    ensures spelled { (pc : ℕ) → IsWellFormed (insn.NewArray ty) → Spells pc (insn.NewArray ty) (written.spelling pc (insn.NewArray ty)) }
    ensures err { OnErr result (take (length out.old.items) out.new.items ≡ out.old.items) }
{
    put_bytes(out, &[188, ty])
}

#[tactic(auto, using(crate::proofs::Spelled::dimensions_spelled), unfolding(crate::specs::Writing::spelling, crate::specs::Writing::u16_bytes))]
pub(crate) fn put_dimensions(
    out: &mut Vec<u8>,
    index: u16,
    dimensions: u8,
) -> Result<(), AllocError>
    ensures ok { (pc : ℕ) → OnOk result (out.new.items ≡ out.old.items ++ written.spelling pc (insn.Multi index dimensions)) }
    ensures spelled { (pc : ℕ) → IsWellFormed (insn.Multi index dimensions) → Spells pc (insn.Multi index dimensions) (written.spelling pc (insn.Multi index dimensions)) }
    ensures err { OnErr result (take (length out.old.items) out.new.items ≡ out.old.items) }
{
    let [high, low] = index.to_be_bytes();
    put_bytes(out, &[197, high, low, dimensions])
}

/// The opcode of a switch at `pc`, and its padding.
fn put_padded(out: &mut Vec<u8>, op: u8, pc: usize) -> Result<(), AllocError>
    ensures ok { OnOk result (out.new.items ≡ out.old.items ++ op ∷ written.zeros pc) }
    ensures err { OnErr result (take (length out.old.items) out.new.items ≡ out.old.items) }
{
    put_bytes(out, &[op, 0, 0, 0][..1 + padding(pc)])
}

/// The same, and the first two numbers.
#[tactic(auto, using(crate::proofs::Written::kept_behind))]
fn put_switch(
    out: &mut Vec<u8>,
    op: u8,
    pc: usize,
    default: i32,
    next: i32,
) -> Result<(), AllocError>
    ensures ok { OnOk result (out.new.items ≡ out.old.items ++ op ∷ (written.zeros pc ++ written.i32_bytes default ++ written.i32_bytes next)) }
    ensures err { OnErr result (take (length out.old.items) out.new.items ≡ out.old.items) }
{
    put_padded(out, op, pc)?;
    put_i32(out, default)?;
    put_i32(out, next)
}

fn put_offsets(out: &mut Vec<u8>, offsets: &[i32]) -> Result<(), AllocError>
    ensures ok { OnOk result (out.new.items ≡ out.old.items ++ flat_map written.i32_bytes offsets.now) }
    ensures fit { OnOk result (All written.FitsI32 offsets.now) }
    ensures err { OnErr result (take (length out.old.items) out.new.items ≡ out.old.items) }
{
    for offset in offsets {
        put_i32(out, *offset)?;
    }
    Ok(())
}

fn put_rows(out: &mut Vec<u8>, rows: &[(i32, i32)]) -> Result<(), AllocError>
    ensures ok { OnOk result (out.new.items ≡ out.old.items ++ flat_map written.row_bytes rows.now) }
    ensures fit { OnOk result (All written.RowFits rows.now) }
    ensures err { OnErr result (take (length out.old.items) out.new.items ≡ out.old.items) }
{
    for (key, offset) in rows {
        put_row(out, *key, *offset)?;
    }
    Ok(())
}

#[tactic(auto, unfolding(crate::specs::Writing::i32_bytes))]
fn put_row(out: &mut Vec<u8>, key: i32, offset: i32) -> Result<(), AllocError>
    ensures ok { OnOk result (out.new.items ≡ out.old.items ++ (written.i32_bytes key ++ written.i32_bytes offset)) }
    ensures err { OnErr result (take (length out.old.items) out.new.items ≡ out.old.items) }
{
    let [a, b, c, d] = key.to_be_bytes();
    let [e, f, g, h] = offset.to_be_bytes();
    put_bytes(out, &[a, b, c, d, e, f, g, h])
}

/// The last of so many numbers from `low` on.
fn last(low: i32, count: usize) -> i32
    requires some { 0 < count }
    requires fits { (low +ℤ pos count) ≤ℤ pos (2 ^ 31) }
    ensures { result ≡ low +ℤ pos count -ℤ pos 1 }
{
    (i64::from(low) + count as i64 - 1) as i32
}

#[tactic(auto, using(crate::proofs::SpelledSwitches::table_spelled, crate::proofs::Written::kept_behind), unfolding(crate::specs::Writing::spelling))]
pub(crate) fn put_table(
    out: &mut Vec<u8>,
    pc: usize,
    low: i32,
    default: i32,
    offsets: &[i32],
) -> Result<(), AllocError>
    requires { IsWellFormed (insn.Table low default offsets.now) }
    ensures ok { OnOk result (out.new.items ≡ out.old.items ++ written.spelling pc (insn.Table low default offsets.now)) }
    ensures spelled { OnOk result (Spells pc (insn.Table low default offsets.now) (written.spelling pc (insn.Table low default offsets.now))) }
    ensures err { OnErr result (take (length out.old.items) out.new.items ≡ out.old.items) }
{
    put_switch(out, 170, pc, default, low)?;
    put_i32(out, last(low, offsets.len()))?;
    put_offsets(out, offsets)
}

#[tactic(auto, using(crate::proofs::SpelledSwitches::lookup_spelled, crate::proofs::Written::kept_behind), unfolding(crate::specs::Writing::spelling))]
pub(crate) fn put_lookup(
    out: &mut Vec<u8>,
    pc: usize,
    default: i32,
    rows: &[(i32, i32)],
) -> Result<(), AllocError>
    requires { IsWellFormed (insn.Lookup default rows.now) }
    ensures ok { OnOk result (out.new.items ≡ out.old.items ++ written.spelling pc (insn.Lookup default rows.now)) }
    ensures spelled { OnOk result (Spells pc (insn.Lookup default rows.now) (written.spelling pc (insn.Lookup default rows.now))) }
    ensures err { OnErr result (take (length out.old.items) out.new.items ≡ out.old.items) }
{
    put_switch(out, 171, pc, default, rows.len() as i32)?;
    put_rows(out, rows)
}
