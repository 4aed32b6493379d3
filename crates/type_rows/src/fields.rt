//! Fields.

ghost use Rattle.std.specs.Prelude.{◌≡◌, Ok, OnOk, IfErr};
ghost use Rattle.type_rows.specs.Halts.{Halts};
ghost use Rattle.type_rows.specs.Fields.{row_get_static, row_put_static, row_get_field, declares_field, has_field, into_field, row_put_field};

use crate::method::Checked;
use crate::operands::{pop_type, push, turn_class, type_of};
use crate::rule::{Halt, VerifyRule};
use crate::state::TypeState;
use class_model::{FieldRef, VType};

/// Gives a static field.
pub fn get_static(method: &Checked, field: &FieldRef, state: &mut TypeState) -> Result<(), Halt>
    ensures ok { OnOk result (row_get_static method.now field.now state.old ≡ Ok state.new) }
    ensures err { IfErr result (λ halt. Halts halt (row_get_static method.now field.now state.old)) }
{
    push(method, type_of(&field.ty)?, state)
}

/// Takes a value into a static field.
#[tactic(auto, using(crate::proofs::Steps::halts_on))]
pub fn put_static(method: &Checked, field: &FieldRef, state: &mut TypeState) -> Result<(), Halt>
    ensures ok { OnOk result (row_put_static method.now field.now state.old ≡ Ok state.new) }
    ensures err { IfErr result (λ halt. Halts halt (row_put_static method.now field.now state.old)) }
{
    pop_type(method, &field.ty, state)
}

/// Gives a field of an object.
pub fn get_field(method: &Checked, field: &FieldRef, state: &mut TypeState) -> Result<(), Halt>
    ensures ok { OnOk result (row_get_field method.now field.now state.old ≡ Ok state.new) }
    ensures err { IfErr result (λ halt. Halts halt (row_get_field method.now field.now state.old)) }
{
    turn_class(method, &field.class, type_of(&field.ty)?, state)
}

/// Whether the method's class declares the field.
fn declares_field(method: &Checked, field: &FieldRef) -> bool
    ensures { result ≡ declares_field method.now field.now }
{
    match method.set().resolve_field(field) {
        None => false,
        Some((class, _)) => class.0 == method.number(),
    }
}

/// Whether a value may be put into the field of an object of this type.
fn has_field(method: &Checked, field: &FieldRef, object: &VType) -> bool
    ensures { result ≡ has_field method.now field.now object.now }
{
    match object {
        VType::UninitThis => declares_field(method, field),
        VType::Null | VType::Ref(_) => method.set().fits_class(object, &field.class),
        _ => false,
    }
}

/// Takes the object whose field is put.
fn into_field(method: &Checked, field: &FieldRef, state: &mut TypeState) -> Result<(), Halt>
    ensures ok { OnOk result (into_field method.now field.now state.old.locals state.old.stack ≡ Ok state.new) }
    ensures err { IfErr result (λ halt. Halts halt (into_field method.now field.now state.old.locals state.old.stack)) }
{
    let Some(object) = state.stack.pop() else {
        return Err(Halt::Broken(VerifyRule::Operand));
    };
    if !has_field(method, field, &object) {
        return Err(Halt::Broken(VerifyRule::Operand));
    }
    Ok(())
}

/// Takes a value into a field of an object.
#[tactic(auto, using(crate::proofs::Steps::halts_on))]
pub fn put_field(method: &Checked, field: &FieldRef, state: &mut TypeState) -> Result<(), Halt>
    ensures ok { OnOk result (row_put_field method.now field.now state.old ≡ Ok state.new) }
    ensures err { IfErr result (λ halt. Halts halt (row_put_field method.now field.now state.old)) }
{
    pop_type(method, &field.ty, state)?;
    into_field(method, field, state)
}
