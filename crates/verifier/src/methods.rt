//! The check of a method of a set.

ghost use Rattle.std.specs.Prelude.{◌≡◌, ◌↔◌, IsTrue, IfOk, IfErr, IfSome, IsSome};
ghost use Rattle.verifier.specs.Set.{with_code, method_of, IsCheckable};
ghost use Rattle.verifier.specs.Verifies.{Stops};
ghost use Rattle.verifier.specs.Typed.{IsTyped};
ghost use Rattle.verifier.specs.Exact.{Exact};

use crate::typed_code::{TypedCode, VerifyStop, check_code};
use class_model::{ClassDef, CodeDef, MethodDef};
use class_set::{ClassId, ClassSet, MethodId};
use std::alloc::Global;
use type_rows::Checked;

/// Checks code of a method of a class.
pub fn check_found(
    alloc: Global,
    set: &ClassSet,
    number: u32,
    class: &ClassDef,
    method: &MethodDef,
    code: &CodeDef,
) -> Result<TypedCode, VerifyStop>
    requires { IsCheckable code.now }
    ensures ok { IfOk result (λ typed. IsTyped (with_code set.now number class.now method.now code.now) typed) }
    ensures err { IfErr result (λ stop. Stops (with_code set.now number class.now method.now code.now) stop) }
{
    let checked = Checked::new(alloc, set, number, class, method, code)?;
    check_code(alloc, &checked)
}

/// Whether a method is there and has code, which `verify_method` asks.
pub fn has_code(set: &ClassSet, method: MethodId) -> bool
    ensures { IsTrue result ↔ IsSome (method_of set.now method) }
{
    if method.class >= set.len() {
        return false;
    }
    match set
        .class(ClassId(method.class))
        .methods
        .get(method.index as usize)
    {
        Some(declared) => declared.code.is_some(),
        None => false,
    }
}

/// Checks the types of a method with code (JVMS 4.10.1): the frames of its instructions, or `Unverified` with the first
/// instruction that fails and the first rule, in the order of `VerifyRule`, that fails there.
#[tactic(auto, using(crate::proofs::Exactly::class_within, crate::proofs::Exactly::method_within))]
pub fn verify_method(
    alloc: Global,
    set: &ClassSet,
    method: MethodId,
) -> Result<TypedCode, VerifyStop>
    requires there { IsSome (method_of set.now method) }
    requires checkable { IfSome (method_of set.now method) (λ m. IsCheckable m.code) }
    ensures exact { IfSome (method_of set.now method) (λ m. Exact m result) }
{
    let class = set.class(ClassId(method.class));
    let declared = class.methods.at(method.index as usize);
    match &declared.code {
        Some(code) => check_found(alloc, set, method.class, class, declared, code),
        None => unreachable!(),
    }
}
