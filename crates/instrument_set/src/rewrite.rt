//! Rewriting a class, so that it computes tags beside its own work.

ghost use Rattle.std.specs.Prelude.{◌≡◌, ◌+◌, ◌++◌, map, All, IfOk, OnOk};
ghost use Rattle.instrument_set.specs.Pieces.{AllFit, pieces};
ghost use Rattle.instrument_set.specs.Written.{cleared, written_code, written_method, written_class, CanWriteCode, CanWriteMethod, CanWriteClass};

use crate::marks::Marks;
use crate::pieces::{Rules, put_piece};
use crate::slots::Slots;
use class_model::{ClassDef, CodeDef, Insn, Kind, MethodDef};
use lists::Seq;
use std::alloc::{AllocError, Global};

/// Sets each slot of a tag to 0.
fn put_prologue(slots: Slots, out: &mut Seq<Insn>) -> Result<(), AllocError>
    ensures { OnOk result (out.new ≡ out.old ++ cleared slots.locals (slots.locals + slots.words)) }
{
    for slot in slots.first()..slots.end() {
        out.push(Insn::PushInt(0))?;
        out.push(Insn::Store(Kind::Int, slot))?;
    }
    Ok(())
}

/// Puts the pieces of instructions, one after the other.
fn put_pieces(
    alloc: Global,
    insns: &[Insn],
    rules: &Rules,
    out: &mut Seq<Insn>,
) -> Result<(), AllocError>
    requires { AllFit rules.now.slots.locals rules.now.slots.words insns.now 0 }
    ensures { OnOk result (out.new ≡ out.old ++ pieces rules.now.slots.locals rules.now.marks insns.now 0) }
{
    let mut depth = 0;
    for insn in insns {
        depth = put_piece(alloc, insn, depth, rules, out)?;
    }
    Ok(())
}

/// The written code of code.
fn rewrite_code(alloc: Global, code: &CodeDef, marks: Marks) -> Result<CodeDef, AllocError>
    requires { CanWriteCode code.now }
    ensures { IfOk result (λ c. c ≡ written_code marks code.now) }
{
    let rules = Rules {
        slots: Slots::of(code.max_locals, code.max_stack),
        marks,
    };
    let mut insns = Seq::new(alloc);
    put_prologue(rules.slots, &mut insns)?;
    put_pieces(alloc, code.insns.as_slice(), &rules, &mut insns)?;
    Ok(CodeDef {
        max_stack: rules.slots.max_stack(),
        max_locals: rules.slots.max_locals(),
        insns,
        handlers: Seq::new(alloc),
        frames: Seq::new(alloc),
        lines: Seq::new(alloc),
    })
}

/// The written method of a method.
fn rewrite_method(alloc: Global, method: &MethodDef, marks: Marks) -> Result<MethodDef, AllocError>
    requires { CanWriteMethod method.now }
    ensures { IfOk result (λ m. m ≡ written_method marks method.now) }
{
    let code = match &method.code {
        Some(code) => Some(rewrite_code(alloc, code, marks)?),
        None => None,
    };
    Ok(MethodDef {
        flags: method.flags,
        name: method.name.clone()?,
        desc: method.desc.clone()?,
        throws: method.throws.clone()?,
        code,
    })
}

/// The written methods of methods.
fn rewrite_methods(
    alloc: Global,
    methods: &[MethodDef],
    marks: Marks,
) -> Result<Seq<MethodDef>, AllocError>
    requires { All CanWriteMethod methods.now }
    ensures { IfOk result (λ ms. ms ≡ map (written_method marks) methods.now) }
{
    let mut written = Seq::new(alloc);
    for method in methods {
        written.push(rewrite_method(alloc, method, marks)?)?;
    }
    Ok(written)
}

/// The written class of a class.
pub(crate) fn rewrite_class(
    alloc: Global,
    class: &ClassDef,
    marks: Marks,
) -> Result<ClassDef, AllocError>
    requires { CanWriteClass class.now }
    ensures { IfOk result (λ c. c ≡ written_class marks class.now) }
{
    Ok(ClassDef {
        minor: class.minor,
        major: class.major,
        flags: class.flags,
        name: class.name.clone()?,
        super_name: class.super_name.clone()?,
        interfaces: class.interfaces.clone()?,
        fields: class.fields.clone()?,
        methods: rewrite_methods(alloc, class.methods.as_slice(), marks)?,
        source: class.source.clone()?,
        inner: class.inner.clone()?,
    })
}
