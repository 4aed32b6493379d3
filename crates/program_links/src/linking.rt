//! Linking code, one instruction after another.

ghost use Rattle.std.specs.Prelude.{◌≡◌, OnOk, IfOk, MatchBool, Some, ℕ, length};
ghost use Rattle.class_model.specs.declared.insn.Insn.TheVariants as insn;
ghost use Rattle.set_lookups.specs.Above.{find_class};
ghost use Rattle.class_set.specs.Closed.{Closed};
ghost use Rattle.program_links.specs.Before.{AreBefore};
ghost use Rattle.program_links.specs.CodeSoFar.{AreReady, CodeTo};
ghost use Rattle.program_links.specs.LinkedTo.{LinkedTo};
ghost use Rattle.program_links.specs.Numbers.{Grows};
ghost use Rattle.program_links.specs.Plain.{IsOfType, IsOfMember, Names};
ghost use Rattle.program_links.specs.Ready.{IsReady, FindsMethod};

use crate::before::Before;
use crate::calls::{call, static_call};
use crate::fields::{get_field, get_static, put_field, put_static};
use crate::plain::plain_op;
use crate::tables::Tables;
use crate::types::{array_of_numbers, array_of_references, named_type};
use class_model::{Insn, InvokeKind, MethodRef};
use class_set::ClassSet;
use linked_code::{Op, Rows, Table};
use lists::{Name, Seq};
use std::alloc::{AllocError, Global};

pub fn class_number(set: &ClassSet, name: &Name) -> u32
    requires { (number : ℕ) × (find_class set.now name.now ≡ Some number) }
    ensures { find_class set.now name.now ≡ Some result }
{
    match set.find_name(name) {
        Some(id) => id.0,
        None => unreachable!(),
    }
}

fn table_of(low: i32, default: u32, targets: &Seq<u32>) -> Result<Table, AllocError>
    ensures { IfOk result (λ table. table ≡ record { low = low; default = default; targets = targets.now }) }
{
    let targets = targets.clone()?;
    Ok(Table {
        low,
        default,
        targets,
    })
}

fn rows_of(default: u32, rows: &Seq<(i32, u32)>) -> Result<Rows, AllocError>
    ensures { IfOk result (λ of. of ≡ record { default = default; rows = rows.now }) }
{
    let rows = rows.clone()?;
    Ok(Rows { default, rows })
}

/// Links an instruction that names a text, targets, a class or a type.
#[tactic(auto, using(crate::proofs::Named::cast_linked, crate::proofs::Named::question_linked, crate::proofs::Named::nest_linked, crate::proofs::Named::new_linked, crate::proofs::Named::text_linked, crate::proofs::Named::table_linked, crate::proofs::Named::rows_linked))]
fn link_type(set: &ClassSet, tables: &mut Tables, insn: &Insn) -> Result<Op, AllocError>
    requires ready { IsReady set.now insn.now }
    requires of { IsOfType insn.now }
    ensures grows { OnOk result (Grows tables.old tables.new) }
    ensures is { IfOk result (λ op. LinkedTo set.now tables.new insn.now op) }
{
    match insn {
        Insn::PushString(text) => Ok(Op::PushText(tables.text(text)?)),
        Insn::TableSwitch {
            low,
            default,
            targets,
        } => {
            let table = table_of(*low, *default, targets)?;
            Ok(Op::TableSwitch(tables.table(table)?))
        }
        Insn::LookupSwitch { default, rows } => {
            let rows = rows_of(*default, rows)?;
            Ok(Op::LookupSwitch(tables.rows(rows)?))
        }
        Insn::New(class) => Ok(Op::New(class_number(set, class))),
        Insn::NewArray(primitive) => Ok(Op::NewArray(array_of_numbers(tables, *primitive)?)),
        Insn::ANewArray(element) => Ok(Op::NewArray(array_of_references(tables, element)?)),
        Insn::CheckCast(ty) => Ok(Op::CheckCast(named_type(tables, ty)?)),
        Insn::InstanceOf(ty) => Ok(Op::InstanceOf(named_type(tables, ty)?)),
        Insn::MultiNewArray(ty, sizes) => Ok(Op::MultiNewArray(named_type(tables, ty)?, *sizes)),
        _ => unreachable!(),
    }
}

/// Links a call.
fn link_call(
    set: &ClassSet,
    before: &Seq<Before>,
    tables: &mut Tables,
    kind: InvokeKind,
    target: &MethodRef,
) -> Result<Op, AllocError>
    requires rows { AreBefore set.now before.now (length set.now) }
    requires ready { FindsMethod set.now target.now }
    ensures grows { OnOk result (Grows tables.old tables.new) }
    ensures is { IfOk result (λ op. LinkedTo set.now tables.new (insn.Invoke kind target.now) op) }
{
    match kind {
        InvokeKind::Static => Ok(Op::InvokeStatic(static_call(set, before, target)?)),
        InvokeKind::Special => Ok(Op::InvokeSpecial(call(set, before, tables, target)?)),
        InvokeKind::Virtual => Ok(Op::InvokeVirtual(call(set, before, tables, target)?)),
        InvokeKind::Interface => Ok(Op::InvokeInterface(call(set, before, tables, target)?)),
    }
}

/// Links an instruction that names a member.
fn link_member(
    set: &ClassSet,
    before: &Seq<Before>,
    tables: &mut Tables,
    insn: &Insn,
) -> Result<Op, AllocError>
    requires closed { Closed set.now }
    requires rows { AreBefore set.now before.now (length set.now) }
    requires ready { IsReady set.now insn.now }
    requires of { IsOfMember insn.now }
    ensures grows { OnOk result (Grows tables.old tables.new) }
    ensures is { IfOk result (λ op. LinkedTo set.now tables.new insn.now op) }
{
    match insn {
        Insn::GetStatic(field) => get_static(set, before, tables, field),
        Insn::PutStatic(field) => put_static(set, before, tables, field),
        Insn::GetField(field) => get_field(set, before, tables, field),
        Insn::PutField(field) => put_field(set, before, tables, field),
        Insn::Invoke(kind, target) => link_call(set, before, tables, *kind, target),
        _ => unreachable!(),
    }
}

/// Whether an instruction that names something names a member.
fn names_member(insn: &Insn) -> bool
    requires { Names insn.now }
    ensures { MatchBool result (IsOfMember insn.now) (IsOfType insn.now) }
{
    matches!(
        insn,
        Insn::GetStatic(_)
            | Insn::PutStatic(_)
            | Insn::GetField(_)
            | Insn::PutField(_)
            | Insn::Invoke(..)
    )
}

/// Links an instruction.
#[tactic(auto, using(crate::proofs::Named::plain_linked))]
pub fn link_insn(
    set: &ClassSet,
    before: &Seq<Before>,
    tables: &mut Tables,
    insn: &Insn,
) -> Result<Op, AllocError>
    requires closed { Closed set.now }
    requires rows { AreBefore set.now before.now (length set.now) }
    requires ready { IsReady set.now insn.now }
    ensures grows { OnOk result (Grows tables.old tables.new) }
    ensures is { IfOk result (λ op. LinkedTo set.now tables.new insn.now op) }
{
    if let Some(op) = plain_op(insn) {
        return Ok(op);
    }
    if names_member(insn) {
        link_member(set, before, tables, insn)
    } else {
        link_type(set, tables, insn)
    }
}

/// Links the code of a method.
#[tactic(auto, using(crate::proofs::Growing::grown_further, crate::proofs::CodeLinked::code_more, crate::proofs::CodeLinked::no_code))]
pub fn link_code(
    alloc: Global,
    set: &ClassSet,
    before: &Seq<Before>,
    tables: &mut Tables,
    insns: &Seq<Insn>,
) -> Result<Seq<Op>, AllocError>
    requires closed { Closed set.now }
    requires rows { AreBefore set.now before.now (length set.now) }
    requires ready { AreReady set.now insns.now }
    ensures grows { OnOk result (Grows tables.old tables.new) }
    ensures is { IfOk result (λ ops. CodeTo set.now tables.new insns.now ops (length insns.now)) }
{
    let mut ops = Seq::new(alloc);
    for pc in 0..insns.len() {
        let op = link_insn(set, before, tables, insns.at(pc))?;
        ops.push(op)?;
    }
    Ok(ops)
}
