//! The instructions of all classes, judged one by one.

ghost use Rattle.std.specs.Prelude.{◌≡◌, ◌≤◌, ℕ, List, Option, IfOk, flat_map, length};
ghost use Rattle.class_model.specs.declared.insn.Insn.{Insn as InsnValue};
ghost use Rattle.set_lookups.specs.First.{first, first_from};
ghost use Rattle.class_set.specs.References as table;

use class_model::{ClassDef, Insn, MethodDef};
use lists::Name;
use std::alloc::{AllocError, Global};

/// What is asked of each instruction of a class.
pub trait InsnRule {
    ghost told: { Self → ℕ → InsnValue → Option (List ℕ) };

    /// The text that is told of an instruction of the class `current`, where the rule is broken.
    fn judge(&self, alloc: Global, current: u32, insn: &Insn) -> Result<Option<Name>, AllocError>
        ensures { IfOk result (λ text. text ≡ told self.now current insn.now) };
}

fn judge_insns<R: InsnRule>(
    alloc: Global,
    rule: &R,
    current: u32,
    insns: &[Insn],
) -> Result<Option<Name>, AllocError>
    ensures { IfOk result (λ text. text ≡ first (R.told rule.now current) insns.now) }
{
    for insn in insns {
        if let Some(text) = rule.judge(alloc, current, insn)? {
            return Ok(Some(text));
        }
    }
    Ok(None)
}

fn judge_method<R: InsnRule>(
    alloc: Global,
    rule: &R,
    current: u32,
    method: &MethodDef,
) -> Result<Option<Name>, AllocError>
    ensures { IfOk result (λ text. text ≡ first (R.told rule.now current) (table.code_insns method.now)) }
{
    match &method.code {
        Some(code) => judge_insns(alloc, rule, current, code.insns.as_slice()),
        None => Ok(None),
    }
}

fn judge_methods<R: InsnRule>(
    alloc: Global,
    rule: &R,
    current: u32,
    methods: &[MethodDef],
) -> Result<Option<Name>, AllocError>
    ensures { IfOk result (λ text. text ≡ first (R.told rule.now current) (flat_map table.code_insns methods.now)) }
{
    for method in methods {
        if let Some(text) = judge_method(alloc, rule, current, method)? {
            return Ok(Some(text));
        }
    }
    Ok(None)
}

/// The first text that is told of an instruction, by the order of the classes and of their files.
pub fn judge_classes<R: InsnRule>(
    alloc: Global,
    rule: &R,
    classes: &[ClassDef],
) -> Result<Option<Name>, AllocError>
    requires { length classes.now ≤ 1001000 }
    ensures { IfOk result (λ text. text ≡ first_from (λ current class. first (R.told rule.now current) (table.class_insns class)) 0 classes.now) }
{
    for current in 0..classes.len() {
        let methods = classes[current].methods.as_slice();
        if let Some(text) = judge_methods(alloc, rule, current as u32, methods)? {
            return Ok(Some(text));
        }
    }
    Ok(None)
}
