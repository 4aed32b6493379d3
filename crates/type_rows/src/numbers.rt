//! Arithmetic and conversions.

ghost use Rattle.std.specs.Prelude.{◌≡◌, [], ◌∷◌, Ok, OnOk, IfErr};
ghost use Rattle.class_model.specs.declared.class.VType.TheVariants.{Int, Long};
ghost use Rattle.type_rows.specs.Halts.{Halts};
ghost use Rattle.type_rows.specs.Operands.{turns};
ghost use Rattle.type_rows.specs.Numbers.{number_type, converted_from, converted_to};

use crate::method::Checked;
use crate::operands::{turn_one, turn_two};
use crate::rule::Halt;
use crate::state::TypeState;
use class_model::{Conv, VType, Width};

fn number_type(width: Width) -> VType
    ensures { result ≡ number_type width }
{
    match width {
        Width::Int => VType::Int,
        Width::Long => VType::Long,
    }
}

/// An operation on two numbers.
pub fn binary(method: &Checked, width: Width, state: &mut TypeState) -> Result<(), Halt>
    ensures ok { OnOk result (turns method.now (number_type width ∷ number_type width ∷ []) (number_type width) state.old ≡ Ok state.new) }
    ensures err { IfErr result (λ halt. Halts halt (turns method.now (number_type width ∷ number_type width ∷ []) (number_type width) state.old)) }
{
    let ty = number_type(width);
    turn_two(method, &ty, &ty, number_type(width), state)
}

/// A shift of a number by an int.
pub fn shift(method: &Checked, width: Width, state: &mut TypeState) -> Result<(), Halt>
    ensures ok { OnOk result (turns method.now (Int ∷ number_type width ∷ []) (number_type width) state.old ≡ Ok state.new) }
    ensures err { IfErr result (λ halt. Halts halt (turns method.now (Int ∷ number_type width ∷ []) (number_type width) state.old)) }
{
    turn_two(
        method,
        &VType::Int,
        &number_type(width),
        number_type(width),
        state,
    )
}

/// An operation on one number.
pub fn unary(method: &Checked, width: Width, state: &mut TypeState) -> Result<(), Halt>
    ensures ok { OnOk result (turns method.now (number_type width ∷ []) (number_type width) state.old ≡ Ok state.new) }
    ensures err { IfErr result (λ halt. Halts halt (turns method.now (number_type width ∷ []) (number_type width) state.old)) }
{
    turn_one(method, &number_type(width), number_type(width), state)
}

/// A comparison of two longs.
pub fn compare_longs(method: &Checked, state: &mut TypeState) -> Result<(), Halt>
    ensures ok { OnOk result (turns method.now (Long ∷ Long ∷ []) Int state.old ≡ Ok state.new) }
    ensures err { IfErr result (λ halt. Halts halt (turns method.now (Long ∷ Long ∷ []) Int state.old)) }
{
    turn_two(method, &VType::Long, &VType::Long, VType::Int, state)
}

fn converted_from(conv: Conv) -> VType
    ensures { result ≡ converted_from conv }
{
    match conv {
        Conv::LongInt => VType::Long,
        _ => VType::Int,
    }
}

fn converted_to(conv: Conv) -> VType
    ensures { result ≡ converted_to conv }
{
    match conv {
        Conv::IntLong => VType::Long,
        _ => VType::Int,
    }
}

/// A conversion.
pub fn convert(method: &Checked, conv: Conv, state: &mut TypeState) -> Result<(), Halt>
    ensures ok { OnOk result (turns method.now (converted_from conv ∷ []) (converted_to conv) state.old ≡ Ok state.new) }
    ensures err { IfErr result (λ halt. Halts halt (turns method.now (converted_from conv ∷ []) (converted_to conv) state.old)) }
{
    turn_one(method, &converted_from(conv), converted_to(conv), state)
}
