//! Conditional branches that pass 16 bits (JVMS 6.5, if<cond>).

ghost use Rattle.std.specs.Prelude.{◌≡◌, ◌≤◌, ℕ, None, IfOk, length, zip, flat_map};
ghost use Rattle.class_limits.specs.Sizes as sizes;
ghost use Rattle.class_limits.specs.Branches as branches;
ghost use Rattle.class_limits.specs.Limits as limits;

use crate::layout::{Layout, code_size};
use class_model::{CodeDef, Insn, MethodDef};
use std::alloc::{AllocError, Global};

/// Where a conditional branch leads.
fn branch_target(insn: &Insn) -> Option<u32>
    ensures { result ≡ branches.branch_target insn.now }
{
    match insn {
        Insn::If(_, target)
        | Insn::IfInt(_, target)
        | Insn::IfRef(_, target)
        | Insn::IfNull(_, target) => Some(*target),
        _ => None,
    }
}

/// The distance without its sign, where it passes 16 bits.
fn far(from: u32, to: u32) -> Option<u64>
    ensures { result ≡ branches.far from to }
{
    let (from, to) = (u64::from(from), u64::from(to));
    if to > from + 32_767 {
        Some(to - from)
    } else if from > to + 32_768 {
        Some(from - to)
    } else {
        None
    }
}

fn far_branch(layout: &Layout, from: u32, insn: &Insn) -> Option<u64>
    ensures { result ≡ branches.far_branch layout.now.starts (from, insn.now) }
{
    let to = layout.start(branch_target(insn)?)?;
    far(from, to)
}

/// The first of instructions with a layout that leads too far.
#[tactic(auto, using(crate::proofs::First::none_yet, crate::proofs::FarBranches::no_far_more, crate::proofs::FarBranches::no_far))]
fn far_in_insns(layout: &Layout, insns: &[Insn]) -> Option<u64>
    requires { length insns.now ≡ length layout.now.starts }
    ensures { result ≡ limits.first (branches.far_branch layout.now.starts) (zip layout.now.starts insns.now) }
{
    for (i, insn) in insns.iter().enumerate() {
        let from = layout.start_of(i);
        if let Some(distance) = far_branch(layout, from, insn) {
            return Some(distance);
        }
    }
    None
}

/// The first branch of code that leads too far. Code of at most 32,767 bytes has none.
#[tactic(auto, unfolding(crate::specs::Limits::far_in_code, crate::specs::Sizes::layout_of), using(crate::proofs::FarBranches::short_code, crate::proofs::FarBranches::as_many_offsets))]
fn far_in_code(alloc: Global, code: &CodeDef) -> Result<Option<u64>, AllocError>
    requires { sizes.code_size code.now ≤ 65535 }
    ensures { IfOk result (λ found. found ≡ limits.far_in_code code.now) }
{
    if code_size(code) <= 32_767 {
        return Ok(None);
    }
    let layout = Layout::of(alloc, code)?;
    Ok(far_in_insns(&layout, code.insns.as_slice()))
}

#[tactic(auto, using(crate::proofs::First::first_none, crate::proofs::First::first_one, crate::proofs::FarBranches::size_in))]
fn far_in_method(alloc: Global, method: &MethodDef) -> Result<Option<u64>, AllocError>
    requires { limits.bad_size (limits.codes_in method.now) ≡ None }
    ensures { IfOk result (λ found. found ≡ limits.first limits.far_in_code (limits.codes_in method.now)) }
{
    match &method.code {
        Some(code) => far_in_code(alloc, code),
        None => Ok(None),
    }
}

/// The first branch of methods that leads too far, where the size of no code is bad.
pub(crate) fn far_in_methods(
    alloc: Global,
    methods: &[MethodDef],
) -> Result<Option<u64>, AllocError>
    requires { limits.bad_size (flat_map limits.codes_in methods.now) ≡ None }
    ensures { IfOk result (λ found. found ≡ limits.first limits.far_in_code (flat_map limits.codes_in methods.now)) }
{
    for method in methods {
        if let Some(distance) = far_in_method(alloc, method)? {
            return Ok(Some(distance));
        }
    }
    Ok(None)
}
