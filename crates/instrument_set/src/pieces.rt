//! The written instructions that stand for one instruction.

ghost use Rattle.std.specs.Prelude.{◌≡◌, ◌+◌, ◌-◌, ◌<◌, ◌≤◌, ◌∷◌, ◌++◌, [], IfOk, OnOk};
ghost use Rattle.class_model.specs.declared.insn.Insn.TheVariants.{Bin, PushInt};
ghost use Rattle.class_model.specs.declared.insn.Width.TheVariants as widths;
ghost use Rattle.class_model.specs.declared.insn.BinOp.TheVariants as operations;
ghost use Rattle.instrument_set.specs.Pieces as written;

use crate::marks::Marks;
use crate::slots::Slots;
use class_model::{BinOp, Insn, InvokeKind, Kind, MethodRef, Width};
use first_form::{Native, native_ref};
use lists::Seq;
use std::alloc::{AllocError, Global};

/// What the pieces of a method have in common.
#[derive(Clone, Copy)]
pub(crate) struct Rules {
    pub(crate) slots: Slots,
    pub(crate) marks: Marks,
}

fn load(out: &mut Seq<Insn>, slot: u16) -> Result<(), AllocError>
    ensures { OnOk result (out.new ≡ out.old ++ written.load slot ∷ []) }
{
    out.push(Insn::Load(Kind::Int, slot))
}

fn store(out: &mut Seq<Insn>, slot: u16) -> Result<(), AllocError>
    ensures { OnOk result (out.new ≡ out.old ++ written.store slot ∷ []) }
{
    out.push(Insn::Store(Kind::Int, slot))
}

/// A value comes on the stack with a tag that is known.
fn put_value(
    insn: &Insn,
    depth: u16,
    tag: i32,
    slots: Slots,
    out: &mut Seq<Insn>,
) -> Result<(), AllocError>
    requires { depth < slots.words }
    ensures { OnOk result (out.new ≡ out.old ++ insn.now ∷ PushInt tag ∷ written.store (written.word_tag slots.locals depth) ∷ []) }
{
    out.push(insn.clone()?)?;
    out.push(Insn::PushInt(tag))?;
    store(out, slots.word_tag(depth))
}

/// A local comes on the stack with its tag.
fn put_load(
    insn: &Insn,
    local: u16,
    depth: u16,
    slots: Slots,
    out: &mut Seq<Insn>,
) -> Result<(), AllocError>
    requires local { local < slots.locals }
    requires depth { depth < slots.words }
    ensures { OnOk result (out.new ≡ out.old ++ insn.now ∷ written.load (written.local_tag slots.locals local) ∷ written.store (written.word_tag slots.locals depth) ∷ []) }
{
    out.push(insn.clone()?)?;
    load(out, slots.local_tag(local))?;
    store(out, slots.word_tag(depth))
}

/// A word goes into a local with its tag. The local changes last.
fn put_store(
    insn: &Insn,
    local: u16,
    word: u16,
    slots: Slots,
    out: &mut Seq<Insn>,
) -> Result<(), AllocError>
    requires local { local < slots.locals }
    requires word { word < slots.words }
    ensures { OnOk result (out.new ≡ out.old ++ written.load (written.word_tag slots.locals word) ∷ written.store (written.local_tag slots.locals local) ∷ insn.now ∷ []) }
{
    load(out, slots.word_tag(word))?;
    store(out, slots.local_tag(local))?;
    out.push(insn.clone()?)
}

/// Two words become one, whose tag is the or of theirs.
fn put_join(insn: &Insn, word: u16, slots: Slots, out: &mut Seq<Insn>) -> Result<(), AllocError>
    requires { word + 1 < slots.words }
    ensures { OnOk result (out.new ≡ out.old ++ insn.now ∷ written.load (written.word_tag slots.locals word) ∷ written.load (written.word_tag slots.locals (word + 1))
        ∷ Bin widths.Int operations.Or ∷ written.store (written.word_tag slots.locals word) ∷ []) }
{
    out.push(insn.clone()?)?;
    load(out, slots.word_tag(word))?;
    load(out, slots.word_tag(word + 1))?;
    out.push(Insn::Bin(Width::Int, BinOp::Or))?;
    store(out, slots.word_tag(word))
}

/// A word that is about to be written is reported, where `write` is listed.
fn put_report(
    alloc: Global,
    word: u16,
    rules: &Rules,
    out: &mut Seq<Insn>,
) -> Result<(), AllocError>
    requires { word < rules.now.slots.words }
    ensures { OnOk result (out.new ≡ out.old ++ written.reported rules.now.marks (written.word_tag rules.now.slots.locals word)) }
{
    if !rules.marks.write {
        return Ok(());
    }
    out.push(Insn::PushInt(0))?;
    out.push(Insn::PushInt(0))?;
    load(out, rules.slots.word_tag(word))?;
    let report = native_ref(alloc, Native::Report)?;
    out.push(Insn::Invoke(InvokeKind::Static, report))
}

/// A word is written, and reported before that where `write` is listed.
fn put_write(
    alloc: Global,
    insn: &Insn,
    word: u16,
    rules: &Rules,
    out: &mut Seq<Insn>,
) -> Result<(), AllocError>
    requires { word < rules.now.slots.words }
    ensures { OnOk result (out.new ≡ out.old ++ (written.reported rules.now.marks (written.word_tag rules.now.slots.locals word) ++ insn.now ∷ [])) }
{
    put_report(alloc, word, rules, out)?;
    out.push(insn.clone()?)
}

/// Puts the piece of a call.
fn put_call(
    alloc: Global,
    insn: &Insn,
    method: &MethodRef,
    depth: u16,
    rules: &Rules,
    out: &mut Seq<Insn>,
) -> Result<u16, AllocError>
    requires fits { written.FitsCall rules.now.slots.words method.now.desc.result depth }
    requires within { depth ≤ rules.now.slots.words }
    ensures deeper { IfOk result (λ e. e ≡ written.after_call method.now.desc.result depth) }
    ensures put { OnOk result (out.new ≡ out.old ++ written.call_piece rules.now.slots.locals rules.now.marks insn.now method.now.desc.result depth) }
{
    if method.desc.result.is_some() {
        put_value(insn, depth, rules.marks.read, rules.slots, out)?;
        Ok(depth + 1)
    } else {
        put_write(alloc, insn, depth - 1, rules, out)?;
        Ok(depth - 1)
    }
}

/// Puts the piece of an instruction behind those that are there. Answers how deep the stack is after it.
pub(crate) fn put_piece(
    alloc: Global,
    insn: &Insn,
    depth: u16,
    rules: &Rules,
    out: &mut Seq<Insn>,
) -> Result<u16, AllocError>
    requires fits { written.Fits rules.now.slots.locals rules.now.slots.words insn.now depth }
    requires within { depth ≤ rules.now.slots.words }
    ensures deeper { IfOk result (λ e. e ≡ written.after insn.now depth) }
    ensures put { OnOk result (out.new ≡ out.old ++ written.piece_of rules.now.slots.locals rules.now.marks insn.now depth) }
{
    let slots = rules.slots;
    match insn {
        Insn::PushInt(_) => {
            put_value(insn, depth, 0, slots, out)?;
            Ok(depth + 1)
        }
        Insn::Load(_, local) => {
            put_load(insn, *local, depth, slots, out)?;
            Ok(depth + 1)
        }
        Insn::Store(_, local) => {
            put_store(insn, *local, depth - 1, slots, out)?;
            Ok(depth - 1)
        }
        Insn::Stack(_) => {
            out.push(insn.clone()?)?;
            Ok(depth - 1)
        }
        Insn::Bin(_, _) => {
            put_join(insn, depth - 2, slots, out)?;
            Ok(depth - 1)
        }
        Insn::Invoke(_, method) => put_call(alloc, insn, method, depth, rules, out),
        Insn::Return(_) => {
            out.push(insn.clone()?)?;
            Ok(depth)
        }
        _ => unreachable!(),
    }
}
