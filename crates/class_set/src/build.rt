//! Making closed sets.

ghost use Rattle.std.specs.Prelude.{◌≡◌, ◌≤◌, None, MatchResult, is_some, option_map, length};
ghost use Rattle.set_lookups.specs.Counts.{AreCounted};
ghost use Rattle.class_set.specs.Answer.{IsFault};
ghost use Rattle.class_set.specs.Faults.{fault_of_linked, first_fault};
ghost use Rattle.class_set.specs.FinalSuper.{final_super};
ghost use Rattle.class_set.specs.References.{unresolved};
ghost use Rattle.class_set.specs.Calls.{wrong_kind};
ghost use Rattle.class_set.specs.Open.{abstract_left, newly_left};
ghost use Rattle.class_set.specs.Upwards.{AreRanked};
ghost use Rattle.class_set.specs.declared.fault.SetFault.TheVariants.{FinalSuper, Unresolved, WrongKind, Abstract};

use crate::class_set::ClassSet;
use crate::core_check::check_core;
use crate::fault::SetFault;
use crate::final_super::{final_names, has_final_super};
use crate::open::{leaves_new_open, leaves_open};
use crate::unresolved::Resolves;
use crate::walk::judge_classes;
use crate::wrong_kind::Fits;
use class_model::ClassDef;
use lists::Seq;
use set_lookups::{ClassId, Hierarchy, link_classes};
use std::alloc::Global;

fn check_final_super(alloc: Global, set: &Hierarchy) -> Result<(), SetFault>
    ensures { MatchResult result
        (λ _. final_super set.now ≡ None)
        (IsFault (option_map FinalSuper (final_super set.now))) }
{
    let finals = final_names(alloc, set.classes())?;
    for number in 0..set.len() {
        let class = set.class(ClassId(number));
        if has_final_super(set, &finals, number, class) {
            return Err(SetFault::FinalSuper(class.name.clone()?));
        }
    }
    Ok(())
}

fn check_resolved(alloc: Global, set: &Hierarchy) -> Result<(), SetFault>
    requires { length set.now ≤ 1001000 }
    ensures { MatchResult result
        (λ _. unresolved set.now ≡ None)
        (IsFault (option_map Unresolved (unresolved set.now))) }
{
    match judge_classes(alloc, &Resolves { set }, set.classes())? {
        Some(text) => Err(SetFault::Unresolved(text)),
        None => Ok(()),
    }
}

fn check_kinds(alloc: Global, set: &Hierarchy) -> Result<(), SetFault>
    requires { length set.now ≤ 1001000 }
    ensures { MatchResult result
        (λ _. wrong_kind set.now ≡ None)
        (IsFault (option_map WrongKind (wrong_kind set.now))) }
{
    match judge_classes(alloc, &Fits { set }, set.classes())? {
        Some(text) => Err(SetFault::WrongKind(text)),
        None => Ok(()),
    }
}

/// Whether a class leaves a method open that it does not have from a class above that is judged for itself.
fn any_new_open(set: &Hierarchy) -> bool
    ensures { result ≡ is_some (newly_left set.now) }
{
    for number in 0..set.len() {
        if leaves_new_open(set, number, set.class(ClassId(number))) {
            return true;
        }
    }
    false
}

/// Only where some class leaves a method open is each class judged by all that it has from above.
fn check_open(set: &Hierarchy) -> Result<(), SetFault>
    requires { AreRanked set.now }
    ensures { MatchResult result
        (λ _. abstract_left set.now ≡ None)
        (IsFault (option_map Abstract (abstract_left set.now))) }
{
    if !any_new_open(set) {
        return Ok(());
    }
    for number in 0..set.len() {
        let class = set.class(ClassId(number));
        if leaves_open(set, number, class) {
            return Err(SetFault::Abstract(class.name.clone()?));
        }
    }
    Ok(())
}

/// The kinds of fault that linked classes can have, in their order.
fn judge_linked(alloc: Global, set: &Hierarchy) -> Result<(), SetFault>
    requires few { length set.now ≤ 1001000 }
    requires ranked { AreRanked set.now }
    ensures { MatchResult result (λ _. fault_of_linked set.now ≡ None) (IsFault (fault_of_linked set.now)) }
{
    check_final_super(alloc, set)?;
    check_core(alloc, set)?;
    check_resolved(alloc, set)?;
    check_kinds(alloc, set)?;
    check_open(set)
}

impl ClassSet {
    /// The closed set of these classes, which are numbered in their order. Else the first kind of fault by the order of
    /// `SetFault`: of the first class that has it, for `Missing`, `Unresolved` and `WrongKind` by the order of the
    /// classes and of their files, and for `Core` by that of `java/lang/Object`, `String`, `Throwable` and then the
    /// exceptions by name.
    pub fn build(alloc: Global, classes: Seq<ClassDef>) -> Result<ClassSet, SetFault>
        requires { AreCounted classes }
        ensures { MatchResult result
            (λ set. (set ≡ classes) × (first_fault classes ≡ None))
            (IsFault (first_fault classes)) }
    {
        let set = link_classes(alloc, classes)?;
        judge_linked(alloc, &set)?;
        Ok(ClassSet::of(set))
    }
}
