//! What the check asks of a set.

ghost use Rattle.std.specs.Prelude.{◌↔◌, IsTrue, All, IfSome};
ghost use Rattle.std.specs.List.Sorted.{IsNonDecreasingBy};
ghost use Rattle.verifier.specs.Set.{place_of, IsCheckable, IsCheckableClass, IsCheckableSet};

use class_model::{ClassDef, CodeDef, Frame, MethodDef};
use class_set::{ClassId, ClassSet};

/// The most instructions of a method, and the most methods of a class (JVMS 4.1, 4.7.3).
const MOST: usize = 65_535;

/// The most classes of a set.
const MOST_CLASSES: u32 = 1_001_000;

/// Whether frames stand in the order of their instructions.
#[tactic(auto, using(crate::proofs::Ordered::ordered, crate::proofs::Ordered::unordered))]
fn are_ordered(frames: &[(u32, Frame)]) -> bool
    ensures { IsTrue result ↔ IsNonDecreasingBy place_of frames.now }
{
    for (i, row) in frames.iter().enumerate() {
        if i > 0 && row.0 < frames[i - 1].0 {
            return false;
        }
    }
    true
}

fn is_code_checkable(code: &CodeDef) -> bool
    ensures { IsTrue result ↔ IsCheckable code.now }
{
    code.insns.len() <= MOST && are_ordered(code.frames.as_slice())
}

fn is_method_checkable(method: &MethodDef) -> bool
    ensures { IsTrue result ↔ IfSome method.now.code IsCheckable }
{
    match &method.code {
        Some(code) => is_code_checkable(code),
        None => true,
    }
}

fn are_methods_checkable(methods: &[MethodDef]) -> bool
    ensures { IsTrue result ↔ All (λ method. IfSome method.code IsCheckable) methods.now }
{
    methods.iter().all(|method| is_method_checkable(method))
}

fn is_class_checkable(class: &ClassDef) -> bool
    ensures { IsTrue result ↔ IsCheckableClass class.now }
{
    class.methods.len() <= MOST && are_methods_checkable(class.methods.as_slice())
}

/// Whether a set is as `verify_set` asks: it has at most 1,001,000 classes, a class of it at most 65,535 methods and a
/// method at most 65,535 instructions, and the frames of each method stand in the order of their instructions.
pub fn is_checkable(set: &ClassSet) -> bool
    ensures { IsTrue result ↔ IsCheckableSet set.now }
{
    if set.len() > MOST_CLASSES {
        return false;
    }
    for number in 0..set.len() {
        if !is_class_checkable(set.class(ClassId(number))) {
            return false;
        }
    }
    true
}
