//! How many bytes an instruction takes.

ghost use Rattle.std.specs.Prelude.{◌≡◌, ◌+◌, ◌*◌, ◌^◌, ◌<◌, ◌≤◌, min};
ghost use Rattle.class_limits.specs.Sizes as sizes;
ghost use Rattle.class_limits.specs.Limits.{told};
ghost use Rattle.opcode_table.specs.Fields.{padding};

use class_model::{Insn, InvokeKind};

fn int_size(n: i32) -> u64
    ensures { result ≡ sizes.int_size n }
{
    match n {
        -1..=5 => 1,
        -128..=127 => 2,
        _ => 3,
    }
}

fn long_size(n: i64) -> u64
    ensures { result ≡ sizes.long_size n }
{
    match n {
        0 | 1 => 1,
        _ => 3,
    }
}

fn local_size(slot: u16) -> u64
    ensures { result ≡ sizes.local_size slot }
{
    match slot {
        0..=3 => 1,
        4..=255 => 2,
        _ => 4,
    }
}

fn iinc_size(slot: u16, step: i16) -> u64
    ensures { result ≡ sizes.iinc_size slot step }
{
    if slot < 256 && -128 <= step && step < 128 {
        3
    } else {
        6
    }
}

fn goto_size(wide_goto: bool) -> u64
    ensures { result ≡ sizes.goto_size wide_goto }
{
    if wide_goto { 5 } else { 3 }
}

fn invoke_size(kind: InvokeKind) -> u64
    ensures { result ≡ sizes.invoke_size kind }
{
    match kind {
        InvokeKind::Interface => 5,
        InvokeKind::Virtual | InvokeKind::Special | InvokeKind::Static => 3,
    }
}

/// The bytes of a switch that stands at `pc`: its opcode and padding, `fixed` bytes, and a table of rows.
fn switch_size(pc: u64, fixed: u64, row: u64, count: usize) -> u64
    requires { fixed ≤ 100 }
    ensures { result ≡ told (1 + padding pc + fixed + row * count) }
{
    let table = row.saturating_mul(count as u64);
    table.saturating_add(1 + (3 - pc % 4) + fixed)
}

/// The bytes of an instruction whose opcode stands at `pc`, in the spelling that is written; `wide_goto` says whether
/// each Goto is `goto_w`. A number past 64 bits is their greatest. Takes no memory.
#[tactic(auto, unfolding(crate::specs::Sizes::size_at))]
pub fn size_at(wide_goto: bool, pc: u64, insn: &Insn) -> u64
    ensures { result ≡ told (sizes.size_at wide_goto pc insn.now) }
{
    match insn {
        Insn::Nop
        | Insn::PushNull
        | Insn::ArrayLoad(_)
        | Insn::ArrayStore(_)
        | Insn::Stack(_)
        | Insn::Bin(_, _)
        | Insn::Shift(_, _)
        | Insn::Neg(_)
        | Insn::Convert(_)
        | Insn::Lcmp
        | Insn::Return(_)
        | Insn::ArrayLength
        | Insn::Athrow => 1,
        Insn::PushInt(n) => int_size(*n),
        Insn::PushLong(n) => long_size(*n),
        Insn::Load(_, slot) | Insn::Store(_, slot) => local_size(*slot),
        Insn::Iinc(slot, step) => iinc_size(*slot, *step),
        Insn::NewArray(_) => 2,
        Insn::PushString(_)
        | Insn::If(_, _)
        | Insn::IfInt(_, _)
        | Insn::IfRef(_, _)
        | Insn::IfNull(_, _)
        | Insn::GetStatic(_)
        | Insn::PutStatic(_)
        | Insn::GetField(_)
        | Insn::PutField(_)
        | Insn::New(_)
        | Insn::ANewArray(_)
        | Insn::CheckCast(_)
        | Insn::InstanceOf(_) => 3,
        Insn::MultiNewArray(_, _) => 4,
        Insn::Goto(_) => goto_size(wide_goto),
        Insn::Invoke(kind, _) => invoke_size(*kind),
        Insn::TableSwitch { targets, .. } => switch_size(pc, 12, 4, targets.len()),
        Insn::LookupSwitch { rows, .. } => switch_size(pc, 8, 8, rows.len()),
    }
}
