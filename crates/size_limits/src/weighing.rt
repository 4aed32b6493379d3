//! What code weighs.

ghost use Rattle.std.specs.Prelude.{◌≡◌, ◌+◌, ◌*◌, length};
ghost use Rattle.class_limits.specs.Limits.{told};
ghost use Rattle.size_limits.specs.Weights as weights;

use crate::measure::{Measure, sum_of};
use class_model::{CodeDef, Elem, Insn, Kind, StackOp};

fn by_kind(kind: Kind, primitive: u64, reference: u64) -> u64
    ensures { result ≡ weights.by_kind kind primitive reference }
{
    match kind {
        Kind::Int | Kind::Long => primitive,
        Kind::Ref => reference,
    }
}

fn by_elem(elem: Elem, primitive: u64, reference: u64) -> u64
    ensures { result ≡ weights.by_elem elem primitive reference }
{
    match elem {
        Elem::Ref => reference,
        Elem::Int | Elem::Long | Elem::Byte | Elem::Char | Elem::Short => primitive,
    }
}

fn stack_weight(op: StackOp) -> u64
    ensures { result ≡ weights.stack_weight op }
{
    match op {
        StackOp::Pop | StackOp::Pop2 => 1,
        StackOp::Dup => 12,
        StackOp::DupX1 => 28,
        StackOp::DupX2 => 36,
        StackOp::Dup2 => 20,
        StackOp::Dup2X1 => 44,
        StackOp::Dup2X2 => 52,
        StackOp::Swap => 20,
    }
}

fn return_weight(kind: Option<Kind>) -> u64
    ensures { result ≡ weights.return_weight kind }
{
    match kind {
        Some(kind) => by_kind(kind, 16, 12),
        None => 4,
    }
}

/// So much for each of a number of things, behind a weight of their own.
fn each(base: u64, more: u64, count: usize) -> u64
    ensures { result ≡ told (base + more * count) }
{
    more.saturating_mul(count as u64).saturating_add(base)
}

/// What weighs instructions.
struct InsnWeights;

impl Measure<Insn> for InsnWeights {
    ghost measure = { weights.insn_weight };

    #[tactic(auto, unfolding(crate::specs::Weights::insn_weight))]
    fn measure(&self, insn: &Insn) -> u64 {
        match insn {
            Insn::Nop | Insn::PushNull => 1,
            Insn::PushInt(_) | Insn::PushLong(_) => 8,
            Insn::PushString(_) => 6,
            Insn::Load(kind, _) | Insn::Store(kind, _) => by_kind(*kind, 12, 4),
            Insn::ArrayLoad(elem) => by_elem(*elem, 24, 4),
            Insn::ArrayStore(elem) => by_elem(*elem, 16, 4),
            Insn::Stack(op) => stack_weight(*op),
            Insn::Bin(_, _) | Insn::Shift(_, _) | Insn::Lcmp => 16,
            Insn::Neg(_) | Insn::Convert(_) => 4,
            Insn::Iinc(_, _) => 8,
            Insn::If(_, _)
            | Insn::IfInt(_, _)
            | Insn::IfRef(_, _)
            | Insn::IfNull(_, _)
            | Insn::Goto(_) => 8,
            Insn::TableSwitch { targets, .. } => each(24, 4, targets.len()),
            Insn::LookupSwitch { rows, .. } => each(24, 8, rows.len()),
            Insn::Return(kind) => return_weight(*kind),
            Insn::GetStatic(_) | Insn::PutStatic(_) | Insn::GetField(_) => 12,
            Insn::PutField(_) => 20,
            Insn::Invoke(_, method) => each(20, 4, method.desc.params.len()),
            Insn::New(_) | Insn::NewArray(_) | Insn::ANewArray(_) => 4,
            Insn::ArrayLength => 12,
            Insn::Athrow | Insn::CheckCast(_) => 4,
            Insn::InstanceOf(_) => 8,
            Insn::MultiNewArray(_, _) => 32,
        }
    }
}

/// What code weighs, in bytes (this project's own): no less than what is written for it. A number past 64 bits is
/// their greatest. Takes no memory.
#[tactic(auto, unfolding(crate::specs::Weights::code_weight))]
pub fn weight(code: &CodeDef) -> u64
    ensures { result ≡ told (weights.code_weight code.now) }
{
    let (locals, stack) = (code.max_locals, code.max_stack);
    let front = 160 + 32 * u64::from(locals) + 8 * u64::from(stack);
    sum_of(&InsnWeights, code.insns.as_slice()).saturating_add(front)
}
