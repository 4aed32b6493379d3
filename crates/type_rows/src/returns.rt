//! Returns.

ghost use Rattle.std.specs.Prelude.{◌≡◌, Ok, OnOk, IfErr};
ghost use Rattle.class_set.specs.Assignable.{type_of, primitive_type};
ghost use Rattle.type_rows.specs.Halts.{Halts};
ghost use Rattle.type_rows.specs.Operands.{is_kind};
ghost use Rattle.type_rows.specs.Returns.{row_return_nothing, returned, row_return};

use crate::method::Checked;
use crate::operands::take_kind;
use crate::rule::{Halt, VerifyRule};
use crate::state::TypeState;
use class_model::{BaseType, JType, Kind, Primitive, VType};

/// A return of nothing.
fn return_nothing(method: &Checked, state: &TypeState) -> Result<(), Halt>
    ensures ok { OnOk result (row_return_nothing method.now state.now ≡ Ok state.now) }
    ensures err { IfErr result (λ halt. Halts halt (row_return_nothing method.now state.now)) }
{
    if state.has_uninit_this() {
        return Err(Halt::Broken(VerifyRule::Init));
    }
    match &method.method().desc.result {
        None => Ok(()),
        Some(_) => Err(Halt::Broken(VerifyRule::Result)),
    }
}

/// Whether values of the declared type are of the kind.
fn has_kind(kind: Kind, ty: &JType) -> bool
    ensures { result ≡ is_kind kind (type_of ty.now) }
{
    match ty {
        JType {
            depth: 0,
            base: BaseType::Primitive(primitive),
        } => is_primitive_kind(kind, *primitive),
        _ => matches!(kind, Kind::Ref),
    }
}

fn is_primitive_kind(kind: Kind, primitive: Primitive) -> bool
    ensures { result ≡ is_kind kind (primitive_type primitive) }
{
    match primitive {
        Primitive::Long => matches!(kind, Kind::Long),
        Primitive::Float | Primitive::Double => false,
        _ => matches!(kind, Kind::Int),
    }
}

/// A return of a value that was taken.
fn returned(method: &Checked, kind: Kind, ty: &VType, state: &TypeState) -> Result<(), Halt>
    ensures ok { OnOk result (returned method.now kind method.now.method.desc.result (record { ty = ty.now; rest = state.now.stack }) state.now.locals ≡ Ok state.now) }
    ensures err { IfErr result (λ halt. Halts halt (returned method.now kind method.now.method.desc.result (record { ty = ty.now; rest = state.now.stack }) state.now.locals)) }
{
    let Some(declared) = &method.method().desc.result else {
        return Err(Halt::Broken(VerifyRule::Result));
    };
    if !has_kind(kind, declared) {
        return Err(Halt::Broken(VerifyRule::Result));
    }
    if !method.set().fits_type(ty, declared) {
        return Err(Halt::Broken(VerifyRule::Operand));
    }
    Ok(())
}

/// A return.
#[tactic(auto, using(crate::proofs::Steps::halts_on))]
pub fn return_value(method: &Checked, kind: Option<Kind>, state: &mut TypeState) -> Result<(), Halt>
    ensures ok { OnOk result (row_return method.now kind state.old ≡ Ok state.new) }
    ensures err { IfErr result (λ halt. Halts halt (row_return method.now kind state.old)) }
{
    match kind {
        None => return_nothing(method, state),
        Some(kind) => {
            let ty = take_kind(kind, state)?;
            returned(method, kind, &ty, state)
        }
    }
}
