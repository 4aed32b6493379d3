//! Instructions (JVMS 6.5).

ghost use Rattle.std.specs.Prelude.{◌≡◌, ◌≢◌, ◌≤◌, ◌<◌, ◌^◌, ◌↔◌, ◌+ℤ◌, ◌≤ℤ◌, ℕ, pos, true, length, map, IsTrue, All};
ghost use Rattle.class_model.specs.Descriptor.{words_of};
ghost use Rattle.class_shape.specs.ShapedInsn as shape;
ghost use Rattle.class_shape.specs.ShapedInsn.{ShapedInsn};

use crate::types::{is_field_type, is_method_type, is_reference_type};
use class_model::{Insn, InvokeKind, JType, MethodDesc, MethodRef, words};

fn are_targets(count: usize, targets: &[u32]) -> bool
    ensures { IsTrue result ↔ All (shape.IsTarget count) targets.now }
{
    targets.iter().all(|target| (*target as usize) < count)
}

fn is_table(count: usize, low: i32, default: u32, targets: &[u32]) -> bool
    ensures { IsTrue result ↔ shape.IsTable count low default targets.now }
{
    let above_low = i64::from(i32::MAX) - i64::from(low);
    (default as usize) < count
        && !targets.is_empty()
        && targets.len() - 1 <= above_low as usize
        && are_targets(count, targets)
}

fn are_row_targets(count: usize, rows: &[(i32, u32)]) -> bool
    ensures { IsTrue result ↔ All (λ row. shape.IsTarget count row.1) rows.now }
{
    rows.iter().all(|row| (row.1 as usize) < count)
}

/// Whether the keys of rows ascend strictly from `last` on.
#[tactic(auto, using(crate::proofs::Ascending::left_none, crate::proofs::Ascending::left_more, crate::proofs::Ascending::left_broken, crate::proofs::Ascending::left_all))]
fn ascend_above(last: i32, rows: &[(i32, u32)]) -> bool
    ensures { IsTrue result ↔ shape.AscendAbove last (map shape.key_of rows.now) }
{
    let mut last = last;
    for row in rows {
        if row.0 <= last {
            return false;
        }
        last = row.0;
    }
    true
}

fn ascend(rows: &[(i32, u32)]) -> bool
    ensures { IsTrue result ↔ shape.Ascend (map shape.key_of rows.now) }
{
    match rows {
        [] => true,
        [first, rest @ ..] => ascend_above(first.0, rest),
    }
}

fn is_lookup(count: usize, default: u32, rows: &[(i32, u32)]) -> bool
    ensures { IsTrue result ↔ shape.IsLookup count default rows.now }
{
    (default as usize) < count && ascend(rows) && are_row_targets(count, rows)
}

/// Whether the arguments with their receiver take at most 255 words.
#[tactic(auto, using(crate::proofs::Words::few_parameters))]
fn has_few_words(desc: &MethodDesc) -> bool
    ensures { IsTrue result ↔ (words_of desc.now true ≤ 255) }
{
    desc.params.len() <= 255 && words(desc, true) <= 255
}

fn fits_kind(kind: InvokeKind, method: &MethodRef) -> bool
    ensures { IsTrue result ↔ shape.FitsKind kind method.now }
{
    match kind {
        InvokeKind::Virtual => !method.in_interface,
        InvokeKind::Special | InvokeKind::Static => true,
        InvokeKind::Interface => method.in_interface && has_few_words(&method.desc),
    }
}

fn is_call(kind: InvokeKind, method: &MethodRef) -> bool
    ensures { IsTrue result ↔ shape.IsCall kind method.now }
{
    is_reference_type(&method.class) && is_method_type(&method.desc) && fits_kind(kind, method)
}

fn is_multi_array(ty: &JType, dimensions: u8) -> bool
    ensures { IsTrue result ↔ shape.IsMultiArray ty.now dimensions }
{
    dimensions != 0 && is_reference_type(ty)
}

/// Whether an instruction is shaped, where there are so many.
pub fn is_shaped_insn(count: usize, insn: &Insn) -> bool
    ensures { IsTrue result ↔ ShapedInsn count insn.now }
{
    match insn {
        Insn::If(_, target)
        | Insn::IfInt(_, target)
        | Insn::IfRef(_, target)
        | Insn::IfNull(_, target)
        | Insn::Goto(target) => (*target as usize) < count,
        Insn::TableSwitch {
            low,
            default,
            targets,
        } => is_table(count, *low, *default, targets.as_slice()),
        Insn::LookupSwitch { default, rows } => is_lookup(count, *default, rows.as_slice()),
        Insn::GetStatic(field)
        | Insn::PutStatic(field)
        | Insn::GetField(field)
        | Insn::PutField(field) => is_field_type(&field.ty),
        Insn::Invoke(kind, method) => is_call(*kind, method),
        Insn::ANewArray(ty) | Insn::CheckCast(ty) | Insn::InstanceOf(ty) => is_reference_type(ty),
        Insn::MultiNewArray(ty, dimensions) => is_multi_array(ty, *dimensions),
        _ => true,
    }
}
