//! Instructions that call a method.

ghost use Rattle.std.specs.Prelude.{◌≡◌, OnOk, IfOk, Some, true, length};
ghost use Rattle.class_model.specs.declared.insn.Insn.TheVariants as insn;
ghost use Rattle.class_model.specs.Descriptor.{words_of};
ghost use Rattle.class_model.specs.declared.insn.InvokeKind.{InvokeKind};
ghost use Rattle.class_model.specs.declared.insn.InvokeKind.TheVariants as invoke;
ghost use Rattle.set_lookups.specs.Lookups.{resolve_method};
ghost use Rattle.run_state.specs.Objects.{is_constructor};
ghost use Rattle.run_state.specs.SetLooks.{resolved, shown_method};
ghost use Rattle.program_links.specs.Before.{AreBefore};
ghost use Rattle.program_links.specs.LinkedTo.{LinkedTo, CallTo, CallAt, StaticCallTo};
ghost use Rattle.program_links.specs.Methods.{Shows};
ghost use Rattle.program_links.specs.Numbers.{Grows};
ghost use Rattle.program_links.specs.Ready.{FindsMethod};

use crate::before::{Before, sum};
use crate::fields::number;
use crate::tables::Tables;
use crate::types::named_type;
use class_model::{MethodDesc, MethodRef, words};
use class_set::{ClassSet, MethodId};
use linked_code::Call;
use lists::{Name, Seq};
use std::alloc::AllocError;

/// The method that a reference finds.
fn find_method(set: &ClassSet, target: &MethodRef) -> MethodId
    requires { FindsMethod set.now target.now }
    ensures { resolve_method set.now target.now ≡ Some result }
{
    match set.resolve_method(target) {
        Some(method) => method,
        None => unreachable!(),
    }
}

/// The number of the method that a reference finds.
#[tactic(auto, using(crate::proofs::Called::row_of_method, crate::proofs::Called::number_shows))]
fn method_number(
    _set: &ClassSet,
    before: &Seq<Before>,
    _target: &MethodRef,
    method: MethodId,
) -> Result<u32, AllocError>
    requires rows { AreBefore _set.now before.now (length _set.now) }
    requires found { resolve_method _set.now _target.now ≡ Some method }
    ensures { IfOk result (λ n. Shows _set.now (shown_method _set.now method) (Some n)) }
{
    let row = before.at(method.class as usize);
    number(sum(row.methods, method.index as usize)?)
}

/// The number of the method that a reference resolves to.
#[tactic(auto, using(crate::proofs::Called::shows_resolved))]
fn resolved_number(
    set: &ClassSet,
    before: &Seq<Before>,
    target: &MethodRef,
) -> Result<u32, AllocError>
    requires rows { AreBefore set.now before.now (length set.now) }
    requires ready { FindsMethod set.now target.now }
    ensures { IfOk result (λ n. Shows set.now (resolved set.now target.now) (Some n)) }
{
    let method = find_method(set, target);
    method_number(set, before, target, method)
}

#[tactic(auto, using(crate::proofs::Called::constructor_test))]
fn is_init(name: &Name) -> bool
    ensures { is_constructor name.now ≡ result }
{
    name.is("<init>")
}

/// The words of the arguments of a call with a receiver or without.
pub fn words_of_call(desc: &MethodDesc, receiver: bool) -> Result<u32, AllocError>
    ensures { IfOk result (λ n. words_of desc.now receiver ≡ n) }
{
    if desc.params.len() > 1_000_000_000 {
        return Err(AllocError);
    }
    Ok(words(desc, receiver))
}

/// The number of the method that a static call enters.
#[tactic(auto, using(crate::proofs::Called::static_linked))]
pub fn static_call(
    set: &ClassSet,
    before: &Seq<Before>,
    target: &MethodRef,
) -> Result<u32, AllocError>
    requires rows { AreBefore set.now before.now (length set.now) }
    requires ready { FindsMethod set.now target.now }
    ensures { IfOk result (λ n. StaticCallTo set.now (insn.Invoke invoke.Static target.now) n) }
{
    resolved_number(set, before, target)
}

/// The number of a call on an object.
#[tactic(auto, using(crate::proofs::Growing::grown_further, crate::proofs::Called::call_linked))]
pub fn call(
    set: &ClassSet,
    before: &Seq<Before>,
    tables: &mut Tables,
    target: &MethodRef,
) -> Result<u32, AllocError>
    requires rows { AreBefore set.now before.now (length set.now) }
    requires ready { FindsMethod set.now target.now }
    ensures grows { OnOk result (Grows tables.old tables.new) }
    ensures is { IfOk result (λ n. (kind : InvokeKind) → CallAt set.now tables.new kind (insn.Invoke kind target.now) n) }
{
    let resolved = resolved_number(set, before, target)?;
    let words = words_of_call(&target.desc, true)?;
    let is_constructor = is_init(&target.name);
    let ty = named_type(tables, &target.class)?;
    let selector = tables.selector(&target.name, &target.desc)?;
    tables.call(Call {
        words,
        resolved: Some(resolved),
        is_constructor,
        selector,
        ty,
    })
}
