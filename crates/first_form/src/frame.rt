//! What is known between two instructions of straight-line code on ints.

ghost use Rattle.std.specs.Prelude.{◌≡◌, ◌∷◌, ◌≤◌, IfOk, replicate};
ghost use Rattle.class_model.specs.declared.class.VType.TheVariants as types;
ghost use Rattle.first_form.specs.Typing as spec;

use class_model::{BaseType, JType, VType};
use lists::{Name, Seq};
use std::alloc::{AllocError, Global};

/// The types of the locals, and how deep the operand stack is (JVMS 4.10.1.2). Each word of the stack
/// is an int.
#[derive(Debug, Drop)]
pub struct IntFrame {
    pub locals: Seq<VType>,
    pub depth: u16,
}

/// The type `String[]`.
fn words_type(alloc: Global) -> Result<JType, AllocError>
    ensures { IfOk result (λ ty. ty ≡ spec.words_type) }
{
    Ok(JType {
        depth: 1,
        base: BaseType::Class(Name::from_str(alloc, "java/lang/String")?),
    })
}

/// The frame of the first instruction of `main`.
#[tactic(auto, using(std::proofs::lemmas::List::replicate_more))]
pub(crate) fn first_frame(alloc: Global, max_locals: u16) -> Result<IntFrame, AllocError>
    requires { 1 ≤ max_locals }
    ensures { IfOk result (λ frame. frame ≡ spec.first_frame max_locals) }
{
    let mut locals = Seq::new(alloc);
    locals.push(VType::Ref(words_type(alloc)?))?;
    for _ in 0..max_locals - 1 {
        locals.push(VType::Top)?;
    }
    Ok(IntFrame { locals, depth: 0 })
}
