//! Instructions that name a field.

ghost use Rattle.std.specs.Prelude.{◌≡◌, ◌<◌, Some, OnOk, IfOk, Option, List, ℕ, length, take, slice_get, true, false, Bool, option_map};
ghost use Rattle.std.specs.Option.{option_copied};
ghost use Rattle.class_model.specs.declared.insn.Insn.TheVariants as insn;
ghost use Rattle.set_lookups.specs.Lookups.{member_of, resolve_field};
ghost use Rattle.class_set.specs.Closed.{Closed};
ghost use Rattle.run_state.specs.SetLooks.{field_place, text_of};
ghost use Rattle.program_links.specs.Before.{AreBefore};
ghost use Rattle.program_links.specs.Found.{IsFound};
ghost use Rattle.program_links.specs.LinkedTo.{LinkedTo, StaticTo};
ghost use Rattle.program_links.specs.Numbers.{Grows};
ghost use Rattle.program_links.specs.Ready.{FindsField};

use crate::before::{Before, count_of_object, count_statics, sum};
use crate::kinds::{kind_of_type, narrowing_of};
use crate::tables::Tables;
use class_model::{ClassDef, Constant, FieldDef, FieldRef};
use class_set::{ClassId, ClassSet};
use linked_code::Op;
use lists::{Seq, Units};
use std::alloc::AllocError;

/// A field, with the numbers and the class of it.
#[derive(Clone, Copy)]
pub struct Found<'a> {
    pub number: u32,
    pub index: u32,
    pub class: &'a ClassDef,
    pub field: &'a FieldDef,
}

/// The numbers of the field that a reference finds.
fn member(set: &ClassSet, target: &FieldRef, _static: bool) -> (u32, u32)
    requires { FindsField set.now target.now _static }
    ensures { resolve_field set.now target.now ≡ Some (member_of result.0 result.1) }
{
    match set.resolve_field(target) {
        Some((class, index)) => (class.0, index),
        None => unreachable!(),
    }
}

/// The field that a reference finds.
pub fn find_field<'a>(set: &'a ClassSet, target: &FieldRef, _static: bool) -> Found<'a>
    requires { FindsField set.now target.now _static }
    ensures { IsFound set.entry.now target.now _static result.number result.index result.class.now result.field.now }
{
    let (number, index) = member(set, target, _static);
    let class = set.class(ClassId(number));
    let field = class.fields.at(index as usize);
    Found {
        number,
        index,
        class,
        field,
    }
}

/// The text that a constant is.
fn constant_text(constant: Option<&Constant>) -> Option<&Units>
    ensures { option_copied result ≡ text_of (option_copied constant.entry) }
{
    match constant {
        Some(Constant::Text(text)) => Some(text),
        _ => None,
    }
}

/// As a number of a program.
pub fn number(count: usize) -> Result<u32, AllocError>
    ensures { IfOk result (λ n. n ≡ count) }
{
    match u32::try_from(count) {
        Ok(number) => Ok(number),
        Err(_) => Err(AllocError),
    }
}

/// The fields of a class in front of one.
fn fields_in_front(class: &ClassDef, index: u32) -> &[FieldDef]
    requires { index < length class.now.fields }
    ensures { result.now ≡ take index class.now.fields }
{
    &class.fields.as_slice()[..index as usize]
}

/// The place of a static field among all of them.
#[tactic(auto, using(crate::proofs::FieldsLinked::row_within, crate::proofs::FieldsLinked::static_linked))]
fn static_place(
    set: &ClassSet,
    before: &Seq<Before>,
    _target: &FieldRef,
    found: &Found<'_>,
) -> Result<u32, AllocError>
    requires closed { Closed set.now }
    requires rows { AreBefore set.now before.now (length set.now) }
    requires found { IsFound set.now _target.now true found.now.number found.now.index found.now.class.now found.now.field.now }
    ensures { IfOk result (λ place. StaticTo set.now _target.now found.now.number place (text_of found.now.field.now.constant)) }
{
    let row = before.at(found.number as usize);
    let own = count_statics(fields_in_front(found.class, found.index));
    number(sum(row.statics, own)?)
}

/// The place of a field in an object.
#[tactic(auto, using(crate::proofs::FieldsLinked::row_within, crate::proofs::FieldsLinked::place_linked))]
pub fn object_place(
    set: &ClassSet,
    before: &Seq<Before>,
    _target: &FieldRef,
    found: &Found<'_>,
) -> Result<u32, AllocError>
    requires closed { Closed set.now }
    requires rows { AreBefore set.now before.now (length set.now) }
    requires found { IsFound set.now _target.now false found.now.number found.now.index found.now.class.now found.now.field.now }
    ensures { IfOk result (λ place. field_place set.now _target.now ≡ Some place) }
{
    let row = before.at(found.number as usize);
    let own = count_of_object(fields_in_front(found.class, found.index));
    number(sum(row.fields, own)?)
}

/// Reads a static field: a text that is constant, or what stands in its place.
pub fn get_static(
    set: &ClassSet,
    before: &Seq<Before>,
    tables: &mut Tables,
    target: &FieldRef,
) -> Result<Op, AllocError>
    requires closed { Closed set.now }
    requires rows { AreBefore set.now before.now (length set.now) }
    requires ready { FindsField set.now target.now true }
    ensures grows { OnOk result (Grows tables.old tables.new) }
    ensures is { IfOk result (λ op. LinkedTo set.now tables.new (insn.GetStatic target.now) op) }
{
    let found = find_field(set, target, true);
    let place = static_place(set, before, target, &found)?;
    match constant_text(found.field.constant.as_ref()) {
        Some(text) => Ok(Op::GetText(found.number, tables.text(text)?)),
        None => Ok(Op::GetStatic(found.number, place)),
    }
}

/// Writes a static field.
pub fn put_static(
    set: &ClassSet,
    before: &Seq<Before>,
    _tables: &Tables,
    target: &FieldRef,
) -> Result<Op, AllocError>
    requires closed { Closed set.now }
    requires rows { AreBefore set.now before.now (length set.now) }
    requires ready { FindsField set.now target.now true }
    ensures { IfOk result (λ op. LinkedTo set.now _tables.now (insn.PutStatic target.now) op) }
{
    let found = find_field(set, target, true);
    let place = static_place(set, before, target, &found)?;
    let kind = kind_of_type(&target.ty);
    Ok(Op::PutStatic(found.number, place, kind, narrowing_of(&target.ty)))
}

/// Reads a field of an object.
pub fn get_field(
    set: &ClassSet,
    before: &Seq<Before>,
    _tables: &Tables,
    target: &FieldRef,
) -> Result<Op, AllocError>
    requires closed { Closed set.now }
    requires rows { AreBefore set.now before.now (length set.now) }
    requires ready { FindsField set.now target.now false }
    ensures { IfOk result (λ op. LinkedTo set.now _tables.now (insn.GetField target.now) op) }
{
    let found = find_field(set, target, false);
    let place = object_place(set, before, target, &found)?;
    Ok(Op::GetField(place))
}

/// Writes a field of an object.
pub fn put_field(
    set: &ClassSet,
    before: &Seq<Before>,
    _tables: &Tables,
    target: &FieldRef,
) -> Result<Op, AllocError>
    requires closed { Closed set.now }
    requires rows { AreBefore set.now before.now (length set.now) }
    requires ready { FindsField set.now target.now false }
    ensures { IfOk result (λ op. LinkedTo set.now _tables.now (insn.PutField target.now) op) }
{
    let found = find_field(set, target, false);
    let place = object_place(set, before, target, &found)?;
    let kind = kind_of_type(&target.ty);
    Ok(Op::PutField(place, kind, narrowing_of(&target.ty)))
}
