//! Reading one instruction.

ghost use Rattle.std.specs.Prelude.{◌≡◌, ◌↔◌, ℕ, ◌<◌, ◌≤◌, IfOk, Ok, drop, length, take};
ghost use Rattle.opcode_table.specs.declared.code_stop.CodeStop.TheVariants.{Unknown, OutOfScope, Short, Operand, Order};
ghost use Rattle.opcode_table.specs.declared.opcodes.OperandForm.TheVariants as form;
ghost use Rattle.opcode_table.specs.Fields.{u8_at};
ghost use Rattle.opcode_table.specs.Judging.{Answers, IsBadOperand, IsOutOfOrder, IsShort, decoding, form_at};
ghost use Rattle.opcode_table.specs.Opcodes.{form_of};
ghost use Rattle.opcode_table.specs.Spelling.{IsWellFormed, Spells};
ghost use Rattle.opcode_table.specs.declared.raw_insn.RawInsn.{RawInsn};

use crate::code_stop::CodeStop;
use crate::fields::u8_at;
use crate::opcodes::{OperandForm, operand_form};
use crate::operands::{
    Decoded, array_type, dimensions, empty, increment, interface, jump, local, pool, pool_byte,
    signed_byte, signed_short, wide, wide_jump,
};
use crate::raw_insn::RawInsn;
use crate::switches::{lookup, table};
use std::alloc::Global;

/// The instruction whose opcode stands at `pc` (JVMS 6.5), and its length in bytes. Indices of the constant
/// pool and branch offsets are given as they stand.
///
/// # Errors
/// `Unknown` and `OutOfScope` come by the opcode alone. Then `Short` comes where bytes are missing that the
/// instruction has in any case, `Operand` for a bad operand among these, `Order` for low above high or for a
/// key that is not above the one before it, and last `Short` where the table is not whole. Of keys those are
/// judged that are there in full. Behind `wide`, its second byte is what is there in any case. `Memory` comes
/// for no bytes that are refused otherwise.
pub fn decode_insn(alloc: Global, code: &[u8], pc: usize) -> Result<(RawInsn, usize), CodeStop>
    requires { pc < length code.now }
    ensures exact { Answers result (decoding pc (drop pc code.now)) }

    // An instruction, exactly where a spelling of it is a prefix of the code from `pc` on.
    ensures found { IfOk result (λ a. (a.1 ≤ length (drop pc code.now)) × Spells pc a.0 (take a.1 (drop pc code.now))) }
    ensures only { (insn : RawInsn) (size : ℕ) → size ≤ length (drop pc code.now) → Spells pc insn (take size (drop pc code.now)) → Answers result (Ok (insn, size)) }
    ensures formed { IfOk result (λ a. IsWellFormed a.0) }

    // When each refusal comes.
    ensures unknown { (op : ℕ) → (result ≡ Err (Unknown op)) ↔ ((u8_at (drop pc code.now) 0 ≡ op) × (202 ≤ op)) }
    ensures out_of_scope { (op : ℕ) → (result ≡ Err (OutOfScope op)) ↔ ((u8_at (drop pc code.now) 0 ≡ op) × (form_of op ≡ form.OutOfScope)) }
    ensures short { (result ≡ Err Short) ↔ IsShort pc (drop pc code.now) (form_at (drop pc code.now)) }
    ensures operand { (result ≡ Err Operand) ↔ IsBadOperand pc (drop pc code.now) (form_at (drop pc code.now)) }
    ensures order { (result ≡ Err Order) ↔ IsOutOfOrder pc (drop pc code.now) (form_at (drop pc code.now)) }
{
    insn_at(alloc, &code[pc..], pc)
}

/// The instruction that bytes begin with, whose opcode stands at `pc`.
#[tactic(auto, using(crate::proofs::Refusals::judged_unknown, crate::proofs::Refusals::judged_out_of_scope))]
fn insn_at(alloc: Global, text: &[u8], pc: usize) -> Decoded
    requires { 0 < length text.now }
    ensures { Answers result (decoding pc text.now) }
{
    let op = u8_at(text, 0);
    match operand_form(op) {
        OperandForm::Unknown => Err(CodeStop::Unknown(op)),
        OperandForm::OutOfScope => Err(CodeStop::OutOfScope(op)),
        OperandForm::Empty => empty(text),
        OperandForm::SignedByte => signed_byte(text),
        OperandForm::SignedShort => signed_short(text),
        OperandForm::PoolByte => pool_byte(text),
        OperandForm::Pool => pool(text),
        OperandForm::Local => local(text),
        OperandForm::Increment => increment(text),
        OperandForm::Jump => jump(text),
        OperandForm::WideJump => wide_jump(text),
        OperandForm::Table => table(alloc, text, pc),
        OperandForm::Lookup => lookup(alloc, text, pc),
        OperandForm::Interface => interface(text),
        OperandForm::ArrayType => array_type(text),
        OperandForm::Dimensions => dimensions(text),
        OperandForm::Wide => wide(text),
    }
}
