//! One instruction.

ghost use Rattle.std.specs.Prelude.{◌≡◌};
ghost use Rattle.class_input.specs.Reading.{Gives, seen};
ghost use Rattle.opcode_table.specs.Opcodes.{form_of};
ghost use Rattle.insn_code.specs.InsnReading as reading;

use crate::operands::{
    Read, array_type, increment, interface_call, jump, multi_array, narrow_local, pool_byte,
    pool_index, signed_byte, signed_short, wide, wide_jump,
};
use crate::shapes::plain;
use crate::switches::{lookup_switch, table_switch};
use crate::unlinked::Unlinked;
use class_input::{BadClass, BadKind, Input};
use class_names::NamedPool;
use opcode_table::{OperandForm, operand_form};
use std::alloc::Global;

/// The refusal of an opcode that stands at a place.
fn bad_opcode(place: usize, opcode: u8) -> BadClass
    ensures { result ≡ BadClass.Bad place (BadKind.Code opcode) }
{
    BadClass::Bad {
        place,
        kind: BadKind::Code(opcode),
    }
}

/// What stands behind an opcode, which stands at a place of the file and at `pc` of the code.
fn operands(
    alloc: Global,
    pool: &NamedPool,
    place: usize,
    pc: usize,
    opcode: u8,
    input: &mut Input,
) -> Read<Unlinked>
    ensures { Gives result input.new (reading.operands pool.now place pc opcode (form_of opcode) (seen input.old)) }
{
    match operand_form(opcode) {
        OperandForm::Unknown | OperandForm::OutOfScope => Err(bad_opcode(place, opcode)),
        OperandForm::Empty => Ok(Unlinked::Whole(plain(opcode).ok_or(bad_opcode(place, opcode))?)),
        OperandForm::SignedByte => signed_byte(input),
        OperandForm::SignedShort => signed_short(input),
        OperandForm::PoolByte => pool_byte(alloc, pool, input),
        OperandForm::Pool => pool_index(alloc, pool, opcode, input),
        OperandForm::Local => narrow_local(opcode, input),
        OperandForm::Increment => increment(input),
        OperandForm::Jump => jump(opcode, input),
        OperandForm::WideJump => wide_jump(opcode, input),
        OperandForm::Table => table_switch(alloc, pc, input),
        OperandForm::Lookup => lookup_switch(alloc, pc, input),
        OperandForm::Interface => interface_call(pool, input),
        OperandForm::ArrayType => array_type(input),
        OperandForm::Dimensions => multi_array(pool, input),
        OperandForm::Wide => wide(input),
    }
}

/// An instruction whose opcode stands at `pc` of the code.
#[tactic(auto, unfolding(crate::specs::InsnReading::insn))]
pub(crate) fn insn(alloc: Global, pool: &NamedPool, pc: usize, input: &mut Input) -> Read<Unlinked>
    ensures { Gives result input.new (reading.insn pool.now pc (seen input.old)) }
{
    let place = input.at;
    let opcode = input.u8()?;
    operands(alloc, pool, place, pc, opcode, input)
}
