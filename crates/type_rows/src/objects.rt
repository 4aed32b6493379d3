//! Literals, casts and throws.

ghost use Rattle.std.specs.Prelude.{◌≡◌, Ok, OnOk, IfErr};
ghost use Rattle.type_rows.specs.Halts.{Halts};
ghost use Rattle.type_rows.specs.Objects.{row_push_string, row_throw, row_cast, row_instance_of};

use crate::method::Checked;
use crate::operands::{class_ref, pop_class, push, turn_class};
use crate::rule::Halt;
use crate::state::TypeState;
use class_model::{JType, VType};

/// Gives a literal text.
pub fn push_string(method: &Checked, state: &mut TypeState) -> Result<(), Halt>
    ensures ok { OnOk result (row_push_string method.now state.old ≡ Ok state.new) }
    ensures err { IfErr result (λ halt. Halts halt (row_push_string method.now state.old)) }
{
    push(method, class_ref(method.string())?, state)
}

/// Takes what is thrown.
#[tactic(auto, using(crate::proofs::Steps::halts_on))]
pub fn throw(method: &Checked, state: &mut TypeState) -> Result<(), Halt>
    ensures ok { OnOk result (row_throw method.now state.old ≡ Ok state.new) }
    ensures err { IfErr result (λ halt. Halts halt (row_throw method.now state.old)) }
{
    pop_class(method, method.throwable(), state)
}

/// Takes an object and gives it as one of the type.
pub fn cast(method: &Checked, ty: &JType, state: &mut TypeState) -> Result<(), Halt>
    ensures ok { OnOk result (row_cast method.now ty.now state.old ≡ Ok state.new) }
    ensures err { IfErr result (λ halt. Halts halt (row_cast method.now ty.now state.old)) }
{
    turn_class(method, method.object(), VType::Ref(ty.clone()?), state)
}

/// Takes an object and gives an int.
pub fn instance_of(method: &Checked, state: &mut TypeState) -> Result<(), Halt>
    ensures ok { OnOk result (row_instance_of method.now state.old ≡ Ok state.new) }
    ensures err { IfErr result (λ halt. Halts halt (row_instance_of method.now state.old)) }
{
    turn_class(method, method.object(), VType::Int, state)
}
