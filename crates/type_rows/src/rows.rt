//! What each instruction makes of the types that it finds, one line a shape.

ghost use Rattle.std.specs.Prelude.{◌≡◌, Ok, OnOk, IfErr};
ghost use Rattle.type_rows.specs.Halts.{Halts};
ghost use Rattle.type_rows.specs.Families.{IsConstantOrLocal, IsNumeric, IsJump, IsMember, IsArrayOrCast};
ghost use Rattle.type_rows.specs.Rows.{row};

use crate::arrays::{
    a_new_array, array_length, array_load, array_store, multi_new_array, new_array,
};
use crate::blocks::stack_op;
use crate::calls::{invoke, new_object};
use crate::fields::{get_field, get_static, put_field, put_static};
use crate::jumps::{take_reference, take_references};
use crate::locals::{iinc, load, store};
use crate::method::Checked;
use crate::numbers::{binary, compare_longs, convert, shift, unary};
use crate::objects::{cast, instance_of, push_string, throw};
use crate::operands::{push, take_one, take_two};
use crate::returns::return_value;
use crate::rule::Halt;
use crate::state::TypeState;
use class_model::{Insn, VType};

// The shapes of one family, each with its row.
macro_rules! rows {
    ($insn:ident; $($shape:pat => $row:expr),+ $(,)?) => {
        match $insn {
            $($shape => $row,)+
            _ => unreachable!(),
        }
    };
}

/// The rows of constants and locals.
#[tactic(auto, unfolding(crate::specs::Rows::row))]
fn constant_or_local(
    method: &Checked,
    at: u32,
    insn: &Insn,
    state: &mut TypeState,
) -> Result<(), Halt>
    requires { IsConstantOrLocal insn.now }
    ensures ok { OnOk result (row method.now at insn.now state.old ≡ Ok state.new) }
    ensures err { IfErr result (λ halt. Halts halt (row method.now at insn.now state.old)) }
{
    rows!(insn;
        Insn::Nop => Ok(()),
        Insn::PushNull => push(method, VType::Null, state),
        Insn::PushInt(_) => push(method, VType::Int, state),
        Insn::PushLong(_) => push(method, VType::Long, state),
        Insn::PushString(_) => push_string(method, state),
        Insn::Load(kind, slot) => load(method, *kind, *slot, state),
        Insn::Store(kind, slot) => store(method, *kind, *slot, state),
        Insn::Iinc(slot, _) => iinc(method, *slot, state),
    )
}

/// The rows of arithmetic and of stack words.
#[tactic(auto, unfolding(crate::specs::Rows::row))]
fn numeric(method: &Checked, at: u32, insn: &Insn, state: &mut TypeState) -> Result<(), Halt>
    requires { IsNumeric insn.now }
    ensures ok { OnOk result (row method.now at insn.now state.old ≡ Ok state.new) }
    ensures err { IfErr result (λ halt. Halts halt (row method.now at insn.now state.old)) }
{
    rows!(insn;
        Insn::Stack(op) => stack_op(method, *op, state),
        Insn::Bin(width, _) => binary(method, *width, state),
        Insn::Shift(width, _) => shift(method, *width, state),
        Insn::Neg(width) => unary(method, *width, state),
        Insn::Convert(conv) => convert(method, *conv, state),
        Insn::Lcmp => compare_longs(method, state),
    )
}

/// The rows of branches, switches, returns and throws.
#[tactic(auto, unfolding(crate::specs::Rows::row))]
fn jump(method: &Checked, at: u32, insn: &Insn, state: &mut TypeState) -> Result<(), Halt>
    requires { IsJump insn.now }
    ensures ok { OnOk result (row method.now at insn.now state.old ≡ Ok state.new) }
    ensures err { IfErr result (λ halt. Halts halt (row method.now at insn.now state.old)) }
{
    rows!(insn;
        Insn::If(..) => take_one(method, &VType::Int, state),
        Insn::IfInt(..) => take_two(method, &VType::Int, &VType::Int, state),
        Insn::IfRef(..) => take_references(state),
        Insn::IfNull(..) => take_reference(state),
        Insn::Goto(_) => Ok(()),
        Insn::TableSwitch { .. } => take_one(method, &VType::Int, state),
        Insn::LookupSwitch { .. } => take_one(method, &VType::Int, state),
        Insn::Return(kind) => return_value(method, *kind, state),
        Insn::Athrow => throw(method, state),
    )
}

/// The rows of fields, calls and new objects.
#[tactic(auto, unfolding(crate::specs::Rows::row))]
fn member(method: &Checked, at: u32, insn: &Insn, state: &mut TypeState) -> Result<(), Halt>
    requires { IsMember insn.now }
    ensures ok { OnOk result (row method.now at insn.now state.old ≡ Ok state.new) }
    ensures err { IfErr result (λ halt. Halts halt (row method.now at insn.now state.old)) }
{
    rows!(insn;
        Insn::GetStatic(field) => get_static(method, field, state),
        Insn::PutStatic(field) => put_static(method, field, state),
        Insn::GetField(field) => get_field(method, field, state),
        Insn::PutField(field) => put_field(method, field, state),
        Insn::Invoke(kind, target) => invoke(method, *kind, target, state),
        Insn::New(_) => new_object(method, at, state),
    )
}

/// The rows of arrays and casts.
#[tactic(auto, unfolding(crate::specs::Rows::row))]
fn array_or_cast(method: &Checked, at: u32, insn: &Insn, state: &mut TypeState) -> Result<(), Halt>
    requires { IsArrayOrCast insn.now }
    ensures ok { OnOk result (row method.now at insn.now state.old ≡ Ok state.new) }
    ensures err { IfErr result (λ halt. Halts halt (row method.now at insn.now state.old)) }
{
    rows!(insn;
        Insn::ArrayLoad(elem) => array_load(method, *elem, state),
        Insn::ArrayStore(elem) => array_store(method, *elem, state),
        Insn::NewArray(primitive) => new_array(method, *primitive, state),
        Insn::ANewArray(ty) => a_new_array(method, ty, state),
        Insn::ArrayLength => array_length(method, state),
        Insn::CheckCast(ty) => cast(method, ty, state),
        Insn::InstanceOf(_) => instance_of(method, state),
        Insn::MultiNewArray(ty, dimensions) => multi_new_array(method, ty, *dimensions, state),
    )
}

/// Takes the types through the instruction of a number (JVMS 4.10.1.9): they are those behind it where its rules on
/// locals, operands, room, objects that are not initialised and results hold, and else the first of these that fails is
/// told.
pub fn row(method: &Checked, at: u32, insn: &Insn, state: &mut TypeState) -> Result<(), Halt>
    ensures ok { OnOk result (row method.now at insn.now state.old ≡ Ok state.new) }
    ensures err { IfErr result (λ halt. Halts halt (row method.now at insn.now state.old)) }
{
    match insn {
        Insn::Nop
        | Insn::PushNull
        | Insn::PushInt(_)
        | Insn::PushLong(_)
        | Insn::PushString(_)
        | Insn::Load(..)
        | Insn::Store(..)
        | Insn::Iinc(..) => constant_or_local(method, at, insn, state),
        Insn::Stack(_)
        | Insn::Bin(..)
        | Insn::Shift(..)
        | Insn::Neg(_)
        | Insn::Convert(_)
        | Insn::Lcmp => numeric(method, at, insn, state),
        Insn::If(..)
        | Insn::IfInt(..)
        | Insn::IfRef(..)
        | Insn::IfNull(..)
        | Insn::Goto(_)
        | Insn::TableSwitch { .. }
        | Insn::LookupSwitch { .. }
        | Insn::Return(_)
        | Insn::Athrow => jump(method, at, insn, state),
        Insn::GetStatic(_)
        | Insn::PutStatic(_)
        | Insn::GetField(_)
        | Insn::PutField(_)
        | Insn::Invoke(..)
        | Insn::New(_) => member(method, at, insn, state),
        Insn::ArrayLoad(_)
        | Insn::ArrayStore(_)
        | Insn::NewArray(_)
        | Insn::ANewArray(_)
        | Insn::ArrayLength
        | Insn::CheckCast(_)
        | Insn::InstanceOf(_)
        | Insn::MultiNewArray(..) => array_or_cast(method, at, insn, state),
    }
}
