//! The last pass: the types.

ghost use Rattle.std.specs.Prelude.{◌≡◌, IfOk, MatchResult};
ghost use Rattle.verifier.specs.Set.{IsCheckableSet};
ghost use Rattle.verifier.specs.WholeSet.{FirstInSet, SetVerifies};
ghost use Rattle.set_loader.specs.Passes.{RefusesTypes};

use crate::stop::LoadStop;
use class_model::print_desc;
use class_set::{ClassId, ClassSet, MethodId};
use std::alloc::{AllocError, Global};
use verifier::{SetVerifyStop, VerifiedSet, VerifyRule, verify_set};

/// The refusal of a method of a set, with its names.
fn unverified(
    alloc: Global,
    set: &ClassSet,
    method: MethodId,
    at: u32,
    rule: VerifyRule,
) -> Result<LoadStop, AllocError>
    requires { FirstInSet set.now method at rule }
    ensures { IfOk result (RefusesTypes set.now) }
{
    let owner = set.class(ClassId(method.class));
    let method = &owner.methods.as_slice()[method.index as usize];
    Ok(LoadStop::Unverified {
        class: owner.name.clone()?,
        name: method.name.clone()?,
        desc: print_desc(alloc, &method.desc)?,
        at,
        rule,
    })
}

/// The same, or want of memory.
fn refusal(alloc: Global, set: &ClassSet, method: MethodId, at: u32, rule: VerifyRule) -> LoadStop
    requires { FirstInSet set.now method at rule }
    ensures { RefusesTypes set.now result }
{
    match unverified(alloc, set, method, at, rule) {
        Ok(stop) => stop,
        Err(_) => LoadStop::Memory,
    }
}

/// The set with the frames of its methods.
pub(crate) fn judge_types(alloc: Global, set: ClassSet) -> Result<VerifiedSet, LoadStop>
    requires { IsCheckableSet set }
    ensures { MatchResult result (λ verified. (verified ≡ set) × SetVerifies set) (RefusesTypes set) }
{
    match verify_set(alloc, set) {
        Ok(verified) => Ok(verified),
        Err(
            SetVerifyStop::Unverified {
                set,
                method,
                at,
                rule,
            },
        ) => Err(refusal(alloc, &set, method, at, rule)),
        Err(SetVerifyStop::Memory) => Err(LoadStop::Memory),
    }
}
