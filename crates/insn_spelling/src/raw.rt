//! The form in which each instruction is written.

ghost use Rattle.std.specs.Prelude.{◌≡◌, ◌<◌, ◌≤◌, ℕ, List, Bool, length, map, All, IfOk, IsTrue};
ghost use Rattle.std.specs.List.{list_all};
ghost use Rattle.class_model.specs.Descriptor.{words_of};
ghost use Rattle.class_limits.specs.Sizes.{CodeLayout};
ghost use Rattle.opcode_table.specs.declared.raw_insn.RawInsn.TheVariants as form;
ghost use Rattle.insn_spelling.specs.Raw as spelled;
ghost use Rattle.insn_spelling.specs.Conditions.{Small, Writable, fits_i32, is_in_range};
ghost use Rattle.insn_spelling.specs.Families.{IsAlone, IsNumber, IsJump, IsSwitch, IsIndexed};
ghost use Rattle.class_shape.specs.ShapedInsn.{ShapedInsn, FitsKind};

use crate::opcodes;
use class_limits::Layout;
use class_model::{Insn, InvokeKind, MethodRef, words};
use lists::Seq;
use opcode_table::RawInsn;
use std::alloc::{AllocError, Global};

/// An opcode that stands alone.
#[tactic(auto, unfolding(crate::specs::Raw::raw_of))]
fn alone(insn: &Insn) -> RawInsn
    requires { IsAlone insn.now }
    ensures { (layout : CodeLayout) (pc index : ℕ) → result ≡ spelled.raw_of layout pc index insn.now }
{
    RawInsn::Plain(match insn {
        Insn::Nop => 0,
        Insn::PushNull => 1,
        Insn::ArrayLoad(elem) => opcodes::array_load(*elem),
        Insn::ArrayStore(elem) => opcodes::array_store(*elem),
        Insn::Stack(op) => opcodes::stack_op(*op),
        Insn::Bin(width, op) => opcodes::bin(*width, *op),
        Insn::Shift(width, op) => opcodes::shift(*width, *op),
        Insn::Neg(width) => opcodes::neg(*width),
        Insn::Convert(conv) => opcodes::convert(*conv),
        Insn::Lcmp => 148,
        Insn::Return(kind) => opcodes::return_(*kind),
        Insn::ArrayLength => 190,
        Insn::Athrow => 191,
        _ => unreachable!(),
    })
}

/// `iconst`, `bipush`, `sipush` or `ldc_w`.
fn int(index: u16, n: i32) -> RawInsn
    ensures { result ≡ spelled.raw_int index n }
{
    if -1 <= n && n <= 5 {
        return RawInsn::Plain((n + 3) as u8);
    }
    if -128 <= n && n <= 127 {
        return RawInsn::Byte(16, n as i8);
    }
    if -32768 <= n && n <= 32767 {
        return RawInsn::Short(17, n as i16);
    }
    RawInsn::Pool(19, index)
}

/// `lconst` or `ldc2_w`.
fn long(index: u16, n: i64) -> RawInsn
    ensures { result ≡ spelled.raw_long index n }
{
    if 0 <= n && n <= 1 {
        return RawInsn::Plain(9 + n as u8);
    }
    RawInsn::Pool(20, index)
}

/// A local by its opcode, or by its number.
fn local(opcode: u8, opcode_0: u8, slot: u16) -> RawInsn
    requires { opcode_0 < 100 }
    ensures { result ≡ spelled.raw_local opcode opcode_0 slot }
{
    if slot < 4 {
        return RawInsn::Plain(opcode_0 + slot as u8);
    }
    RawInsn::Local(opcode, slot)
}

/// Constants, and what names a local or an element type.
#[tactic(auto, unfolding(crate::specs::Raw::raw_of))]
fn number(index: u16, insn: &Insn) -> RawInsn
    requires { IsNumber insn.now }
    ensures range { IsTrue (is_in_range insn.now) }
    ensures form { (layout : CodeLayout) (pc : ℕ) → result ≡ spelled.raw_of layout pc index insn.now }
{
    match insn {
        Insn::PushInt(n) => int(index, *n),
        Insn::PushLong(n) => long(index, *n),
        Insn::Load(kind, slot) => local(opcodes::load(*kind), opcodes::load_0(*kind), *slot),
        Insn::Store(kind, slot) => local(opcodes::store(*kind), opcodes::store_0(*kind), *slot),
        Insn::Iinc(slot, step) => RawInsn::Inc(*slot, *step),
        Insn::NewArray(primitive) => RawInsn::NewArray(opcodes::element_code(*primitive)),
        _ => unreachable!(),
    }
}

/// From an opcode at `pc` to the opcode of an instruction, in bytes.
fn distance(layout: &Layout, pc: u32, target: u32) -> i32
    requires small { Small layout.now }
    requires near { pc ≤ 65535 }
    ensures { result ≡ spelled.distance layout.now pc target }
{
    layout.offset(target) as i32 - pc as i32
}

/// A branch with one target.
#[tactic(auto, unfolding(crate::specs::Raw::raw_of))]
fn jump(layout: &Layout, pc: u32, insn: &Insn) -> RawInsn
    requires jumps { IsJump insn.now }
    requires small { Small layout.now }
    requires near { pc ≤ 65535 }
    ensures { (index : ℕ) → result ≡ spelled.raw_of layout.now pc index insn.now }
{
    let (opcode, target) = match insn {
        Insn::If(cond, target) => (opcodes::if_zero(*cond), *target),
        Insn::IfInt(cond, target) => (opcodes::if_int(*cond), *target),
        Insn::IfRef(same, target) => (opcodes::if_ref(*same), *target),
        Insn::IfNull(null, target) => (opcodes::if_null(*null), *target),
        Insn::Goto(target) => (opcodes::goto(layout.wide_goto()), *target),
        _ => unreachable!(),
    };
    RawInsn::Jump(opcode, distance(layout, pc, target))
}

/// The distances of some targets.
fn distances(
    alloc: Global,
    layout: &Layout,
    pc: u32,
    targets: &[u32],
) -> Result<Seq<i32>, AllocError>
    requires small { Small layout.now }
    requires near { pc ≤ 65535 }
    ensures { IfOk result (λ found. found ≡ map (spelled.distance layout.now pc) targets.now) }
{
    let mut found = Seq::new(alloc);
    for target in targets {
        found.push(distance(layout, pc, *target))?;
    }
    Ok(found)
}

/// Keys with the distances of their targets.
fn row_distances(
    alloc: Global,
    layout: &Layout,
    pc: u32,
    rows: &[(i32, u32)],
) -> Result<Seq<(i32, i32)>, AllocError>
    requires small { Small layout.now }
    requires near { pc ≤ 65535 }
    ensures range { IfOk result (λ _. IsTrue (list_all (λ row. fits_i32 row.0) rows.now)) }
    ensures distances { IfOk result (λ found. found ≡ map (spelled.row_distance layout.now pc) rows.now) }
{
    let mut found = Seq::new(alloc);
    for (key, target) in rows {
        found.push((*key, distance(layout, pc, *target)))?;
    }
    Ok(found)
}

/// A branch by numbers.
#[tactic(auto, unfolding(crate::specs::Raw::raw_of))]
fn switch(alloc: Global, layout: &Layout, pc: u32, insn: &Insn) -> Result<RawInsn, AllocError>
    requires switches { IsSwitch insn.now }
    requires small { Small layout.now }
    requires near { pc ≤ 65535 }
    ensures range { IfOk result (λ _. IsTrue (is_in_range insn.now)) }
    ensures form { (index : ℕ) → IfOk result (λ found. found ≡ spelled.raw_of layout.now pc index insn.now) }
{
    match insn {
        Insn::TableSwitch {
            low,
            default,
            targets,
        } => Ok(RawInsn::Table {
            low: *low,
            default: distance(layout, pc, *default),
            offsets: distances(alloc, layout, pc, targets.as_slice())?,
        }),
        Insn::LookupSwitch { default, rows } => Ok(RawInsn::Lookup {
            default: distance(layout, pc, *default),
            rows: row_distances(alloc, layout, pc, rows.as_slice())?,
        }),
        _ => unreachable!(),
    }
}

#[tactic(auto, using(insn_code::proofs::Words::few_words))]
fn call(index: u16, kind: InvokeKind, method: &MethodRef) -> RawInsn
    requires { FitsKind kind method.now }
    ensures { result ≡ spelled.raw_call index kind method.now }
{
    match kind {
        InvokeKind::Interface => RawInsn::Interface(index, words(&method.desc, true) as u8),
        _ => RawInsn::Pool(opcodes::invoke(kind), index),
    }
}

/// What names an entry of the constant pool.
#[tactic(auto, unfolding(crate::specs::Raw::raw_of))]
fn indexed(index: u16, insn: &Insn) -> RawInsn
    requires names { IsIndexed insn.now }
    requires shaped { (n : ℕ) × ShapedInsn n insn.now }
    ensures range { IsTrue (is_in_range insn.now) }
    ensures form { (layout : CodeLayout) (pc : ℕ) → result ≡ spelled.raw_of layout pc index insn.now }
{
    match insn {
        Insn::PushString(_) => RawInsn::Pool(19, index),
        Insn::GetStatic(_) => RawInsn::Pool(178, index),
        Insn::PutStatic(_) => RawInsn::Pool(179, index),
        Insn::GetField(_) => RawInsn::Pool(180, index),
        Insn::PutField(_) => RawInsn::Pool(181, index),
        Insn::Invoke(kind, method) => call(index, *kind, method),
        Insn::New(_) => RawInsn::Pool(187, index),
        Insn::ANewArray(_) => RawInsn::Pool(189, index),
        Insn::CheckCast(_) => RawInsn::Pool(192, index),
        Insn::InstanceOf(_) => RawInsn::Pool(193, index),
        Insn::MultiNewArray(_, dimensions) => RawInsn::Multi(index, *dimensions),
        _ => unreachable!(),
    }
}

/// The form in which an instruction at `pc` is written, with the index of what it names. A switch takes memory.
#[tactic(auto)]
pub(crate) fn raw_insn(
    alloc: Global,
    layout: &Layout,
    pc: u32,
    index: u16,
    insn: &Insn,
) -> Result<RawInsn, AllocError>
    requires { Writable layout.now (length layout.now.starts) pc insn.now }
    ensures range { IfOk result (λ _. IsTrue (is_in_range insn.now)) }
    ensures form { IfOk result (λ found. found ≡ spelled.raw_of layout.now pc index insn.now) }
{
    match insn {
        Insn::Nop
        | Insn::PushNull
        | Insn::ArrayLoad(_)
        | Insn::ArrayStore(_)
        | Insn::Stack(_)
        | Insn::Bin(_, _)
        | Insn::Shift(_, _)
        | Insn::Neg(_)
        | Insn::Convert(_)
        | Insn::Lcmp
        | Insn::Return(_)
        | Insn::ArrayLength
        | Insn::Athrow => Ok(alone(insn)),
        Insn::PushInt(_)
        | Insn::PushLong(_)
        | Insn::Load(_, _)
        | Insn::Store(_, _)
        | Insn::Iinc(_, _)
        | Insn::NewArray(_) => Ok(number(index, insn)),
        Insn::If(_, _)
        | Insn::IfInt(_, _)
        | Insn::IfRef(_, _)
        | Insn::IfNull(_, _)
        | Insn::Goto(_) => Ok(jump(layout, pc, insn)),
        Insn::TableSwitch { .. } | Insn::LookupSwitch { .. } => switch(alloc, layout, pc, insn),
        _ => Ok(indexed(index, insn)),
    }
}
