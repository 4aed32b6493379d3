//! The operands behind an opcode (JVMS 6.5), each field judged as it is read.

ghost use Rattle.std.specs.Prelude.{◌≡◌, ◌==◌, true};
ghost use Rattle.class_model.specs.Descriptor.{words_of};
ghost use Rattle.class_input.specs.declared.bad_class.BadKind.TheVariants.{Operand};
ghost use Rattle.class_input.specs.Reading.{Answers, Gives, GivesBy, seen};
ghost use Rattle.insn_code.specs.InsnReading as reading;

use crate::shapes::{element, local};
use crate::unlinked::Unlinked;
use class_input::{BadClass, BadKind, Input};
use class_model::{Insn, InvokeKind, MethodDesc, words};
use class_names::{
    MethodEntry, NamedPool, class_name_at, class_type_at, field_at, long_at, method_at,
    next_class_type, next_method, pushed_at,
};
use opcode_table::{OperandForm, operand_form};
use std::alloc::Global;

/// What is read, or why not.
pub(crate) type Read<T> = Result<T, BadClass>;

/// Refuses an operand at a place, unless it is as it has to be.
pub(crate) fn demand(place: usize, holds: bool) -> Read<()>
    ensures { Answers (λ _. tt) result (reading.demanded place Operand holds) }
{
    if holds {
        Ok(())
    } else {
        Err(BadClass::Bad {
            place,
            kind: BadKind::Operand,
        })
    }
}

/// A signed number of four bytes.
#[tactic(auto, unfolding(crate::specs::InsnReading::signed))]
pub(crate) fn signed(input: &mut Input) -> Read<i32>
    ensures { Gives result input.new (reading.signed (seen input.old)) }
{
    let number = input.u32()?;
    Ok(number.cast_signed())
}

/// A byte 0.
#[tactic(auto, unfolding(crate::specs::InsnReading::exactly))]
fn zero(input: &mut Input) -> Read<()>
    ensures { GivesBy (λ _. tt) result input.new (reading.exactly 0 (seen input.old)) }
{
    let place = input.at;
    let byte = input.u8()?;
    demand(place, byte == 0)
}

/// Whether a byte is the number of words that a receiver and the parameters take.
#[tactic(auto, using(crate::proofs::Words::few_words))]
fn counts_words(byte: u8, desc: &MethodDesc) -> bool
    ensures { result ≡ (byte == words_of desc.now true) }
{
    desc.params.len() < 256 && u32::from(byte) == words(desc, true)
}

/// The count of words that the arguments of a call take, with its receiver.
#[tactic(auto, unfolding(crate::specs::InsnReading::exactly))]
fn argument_words(desc: &MethodDesc, input: &mut Input) -> Read<()>
    ensures { GivesBy (λ _. tt) result input.new (reading.exactly (words_of desc.now true) (seen input.old)) }
{
    let place = input.at;
    let byte = input.u8()?;
    demand(place, counts_words(byte, desc))
}

/// `bipush`.
#[tactic(auto, unfolding(crate::specs::InsnReading::signed_byte))]
pub(crate) fn signed_byte(input: &mut Input) -> Read<Unlinked>
    ensures { Gives result input.new (reading.signed_byte (seen input.old)) }
{
    let number = input.u8()?;
    Ok(Unlinked::Whole(Insn::PushInt(i32::from(number.cast_signed()))))
}

/// `sipush`.
#[tactic(auto, unfolding(crate::specs::InsnReading::signed_short))]
pub(crate) fn signed_short(input: &mut Input) -> Read<Unlinked>
    ensures { Gives result input.new (reading.signed_short (seen input.old)) }
{
    let number = input.u16()?;
    Ok(Unlinked::Whole(Insn::PushInt(i32::from(number.cast_signed()))))
}

/// A load or a store.
#[tactic(auto, unfolding(crate::specs::InsnReading::narrow_local))]
pub(crate) fn narrow_local(opcode: u8, input: &mut Input) -> Read<Unlinked>
    ensures { Gives result input.new (reading.narrow_local opcode (seen input.old)) }
{
    let slot = input.u8()?;
    Ok(Unlinked::Whole(local(opcode, u16::from(slot))))
}

/// `iinc`.
#[tactic(auto, unfolding(crate::specs::InsnReading::increment))]
pub(crate) fn increment(input: &mut Input) -> Read<Unlinked>
    ensures { Gives result input.new (reading.increment (seen input.old)) }
{
    let slot = input.u8()?;
    let step = input.u8()?;
    Ok(Unlinked::Whole(Insn::Iinc(u16::from(slot), i16::from(step.cast_signed()))))
}

/// A branch with a distance of two bytes.
#[tactic(auto, unfolding(crate::specs::InsnReading::jump))]
pub(crate) fn jump(opcode: u8, input: &mut Input) -> Read<Unlinked>
    ensures { Gives result input.new (reading.jump opcode (seen input.old)) }
{
    let distance = input.u16()?;
    Ok(Unlinked::Jump(opcode, i32::from(distance.cast_signed())))
}

/// A branch with a distance of four bytes.
#[tactic(auto, unfolding(crate::specs::InsnReading::wide_jump))]
pub(crate) fn wide_jump(opcode: u8, input: &mut Input) -> Read<Unlinked>
    ensures { Gives result input.new (reading.wide_jump opcode (seen input.old)) }
{
    let distance = signed(input)?;
    Ok(Unlinked::Jump(opcode, distance))
}

/// `newarray`.
#[tactic(auto, unfolding(crate::specs::InsnReading::array_type))]
pub(crate) fn array_type(input: &mut Input) -> Read<Unlinked>
    ensures { Gives result input.new (reading.array_type (seen input.old)) }
{
    let place = input.at;
    let code = input.u8()?;
    let ty = element(code).ok_or(BadClass::Bad {
        place,
        kind: BadKind::Operand,
    })?;
    Ok(Unlinked::Whole(Insn::NewArray(ty)))
}

#[tactic(auto, unfolding(crate::specs::InsnReading::wide_local))]
fn wide_local(opcode: u8, input: &mut Input) -> Read<Unlinked>
    ensures { Gives result input.new (reading.wide_local opcode (seen input.old)) }
{
    let slot = input.u16()?;
    Ok(Unlinked::Whole(local(opcode, slot)))
}

#[tactic(auto, unfolding(crate::specs::InsnReading::wide_increment))]
fn wide_increment(input: &mut Input) -> Read<Unlinked>
    ensures { Gives result input.new (reading.wide_increment (seen input.old)) }
{
    let slot = input.u16()?;
    let step = input.u16()?;
    Ok(Unlinked::Whole(Insn::Iinc(slot, step.cast_signed())))
}

/// `wide`, with the opcode behind it.
#[tactic(auto, unfolding(crate::specs::InsnReading::wide))]
pub(crate) fn wide(input: &mut Input) -> Read<Unlinked>
    ensures { Gives result input.new (reading.wide (seen input.old)) }
{
    let place = input.at;
    let opcode = input.u8()?;
    match operand_form(opcode) {
        OperandForm::Local => wide_local(opcode, input),
        OperandForm::Increment => wide_increment(input),
        _ => Err(BadClass::Bad {
            place,
            kind: BadKind::Operand,
        }),
    }
}

/// `ldc`.
#[tactic(auto, unfolding(crate::specs::InsnReading::pool_byte, crate::specs::InsnReading::at_byte))]
pub(crate) fn pool_byte(alloc: Global, pool: &NamedPool, input: &mut Input) -> Read<Unlinked>
    ensures { Gives result input.new (reading.pool_byte pool.now (seen input.old)) }
{
    let place = input.at;
    let index = input.u8()?;
    let insn = pushed_at(alloc, pool, place, u16::from(index))?;
    Ok(Unlinked::Whole(insn))
}

/// A call by an index of two bytes, which stands at a place.
fn call(
    pool: &NamedPool,
    kind: InvokeKind,
    entry: MethodEntry,
    place: usize,
    index: u16,
) -> Read<Insn>
    ensures { Answers (λ insn. insn) result (reading.called pool.now kind entry place index) }
{
    let method = method_at(entry, pool, place, index)?;
    Ok(Insn::Invoke(kind, method))
}

/// The instruction of an opcode with an index of two bytes, which stands at a place.
#[tactic(auto, unfolding(crate::specs::InsnReading::pool_insn))]
fn pool_insn(alloc: Global, pool: &NamedPool, opcode: u8, place: usize, index: u16) -> Read<Insn>
    ensures { Answers (λ insn. insn) result (reading.pool_insn pool.now opcode place index) }
{
    match opcode {
        19 => pushed_at(alloc, pool, place, index),
        20 => Ok(Insn::PushLong(long_at(pool, place, index)?)),
        178 => Ok(Insn::GetStatic(field_at(pool, place, index)?)),
        179 => Ok(Insn::PutStatic(field_at(pool, place, index)?)),
        180 => Ok(Insn::GetField(field_at(pool, place, index)?)),
        181 => Ok(Insn::PutField(field_at(pool, place, index)?)),
        182 => call(
            pool,
            InvokeKind::Virtual,
            MethodEntry::OfClass,
            place,
            index,
        ),
        183 => call(pool, InvokeKind::Special, MethodEntry::Either, place, index),
        184 => call(pool, InvokeKind::Static, MethodEntry::Either, place, index),
        187 => Ok(Insn::New(class_name_at(pool, place, index)?)),
        189 => Ok(Insn::ANewArray(class_type_at(pool, place, index)?)),
        192 => Ok(Insn::CheckCast(class_type_at(pool, place, index)?)),
        _ => Ok(Insn::InstanceOf(class_type_at(pool, place, index)?)),
    }
}

/// An opcode with an index of two bytes.
#[tactic(auto, unfolding(crate::specs::InsnReading::pool_index, class_names::specs::Steps::at_index))]
pub(crate) fn pool_index(
    alloc: Global,
    pool: &NamedPool,
    opcode: u8,
    input: &mut Input,
) -> Read<Unlinked>
    ensures { Gives result input.new (reading.pool_index pool.now opcode (seen input.old)) }
{
    let place = input.at;
    let index = input.u16()?;
    let insn = pool_insn(alloc, pool, opcode, place, index)?;
    Ok(Unlinked::Whole(insn))
}

/// `invokeinterface`.
#[tactic(auto, unfolding(crate::specs::InsnReading::interface_call))]
pub(crate) fn interface_call(pool: &NamedPool, input: &mut Input) -> Read<Unlinked>
    ensures { Gives result input.new (reading.interface_call pool.now (seen input.old)) }
{
    let method = next_method(MethodEntry::OfInterface, pool, input)?;
    argument_words(&method.desc, input)?;
    zero(input)?;
    Ok(Unlinked::Whole(Insn::Invoke(InvokeKind::Interface, method)))
}

/// `multianewarray`.
#[tactic(auto, unfolding(crate::specs::InsnReading::multi_array))]
pub(crate) fn multi_array(pool: &NamedPool, input: &mut Input) -> Read<Unlinked>
    ensures { Gives result input.new (reading.multi_array pool.now (seen input.old)) }
{
    let ty = next_class_type(pool, input)?;
    let place = input.at;
    let dimensions = input.u8()?;
    demand(place, dimensions > 0)?;
    Ok(Unlinked::Whole(Insn::MultiNewArray(ty, dimensions)))
}
