//! The sets that are built so far.

ghost use Rattle.std.specs.Prelude.{◌≡◌, ℕ, ◌++◌, Some, None, ◌↔◌, IsTrue, IfOk, MatchOption};
ghost use Rattle.small_base.specs.Base as base;
ghost use Rattle.first_form.specs.FirstSet as spec;

use crate::form::is_form_one;
use class_model::ClassDef;
use profile_check::Names;
use small_base::before_base;
use std::alloc::{AllocError, Global};

/// Whether classes may stand before the small base.
fn are_built(alloc: Global, classes: &[ClassDef]) -> Result<bool, AllocError>
    ensures { IfOk result (λ b. IsTrue b ↔ spec.IsFirstSet (classes.now ++ base.small_base)) }
{
    match classes {
        [] => Ok(true),
        [class] => is_form_one(alloc, class, Names::Source),
        _ => Ok(false),
    }
}

/// Whether a set is built.
fn is_first_set(alloc: Global, set: &[ClassDef]) -> Result<bool, AllocError>
    ensures { IfOk result (λ b. IsTrue b ↔ spec.IsFirstSet set.now) }
{
    match before_base(set) {
        Some(classes) => are_built(alloc, classes),
        None => Ok(false),
    }
}

/// The number of the first class that is not built, where one is not.
fn first_other(alloc: Global, set: &[ClassDef]) -> Result<u32, AllocError>
    requires { spec.HasObject set.now }
    ensures { IfOk result (spec.IsFirstOther set.now) }
{
    match set {
        [class, ..] if is_form_one(alloc, class, Names::Source)? => Ok(1),
        _ => Ok(0),
    }
}

/// The first class of a set, by its number, that is not built: `None` where the set is the small base, or one class of
/// the form before it. Where another set begins with a class of the form, the second class is told.
pub fn first_not_built(alloc: Global, set: &[ClassDef]) -> Result<Option<u32>, AllocError>
    requires { spec.HasObject set.now }
    ensures answer { IfOk result (λ told. MatchOption told (spec.IsFirstSet set.now) (spec.IsNotBuilt set.now)) }
    ensures built { spec.IsFirstSet set.now → IfOk result (λ told. told ≡ None) }
    ensures refused { (number : ℕ) → spec.IsNotBuilt set.now number → IfOk result (λ told. told ≡ Some number) }
{
    if is_first_set(alloc, set)? {
        Ok(None)
    } else {
        Ok(Some(first_other(alloc, set)?))
    }
}
