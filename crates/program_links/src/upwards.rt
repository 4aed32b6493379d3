//! A class and its superclasses, by number.

ghost use Rattle.std.specs.Prelude.{◌≡◌, ◌<◌, IfOk, IfSome, length};
ghost use Rattle.set_lookups.specs.Lookups.{supers};
ghost use Rattle.program_links.specs.Upwards.{next_up, super_found, AreClasses};

use class_model::ClassDef;
use class_set::{ClassId, ClassSet};
use lists::Seq;
use std::alloc::{AllocError, Global};

/// The number of the superclass of a class, where it has one.
pub fn superclass(set: &ClassSet, class: &ClassDef) -> Option<u32>
    ensures { super_found set.now class.now ≡ result }
{
    match &class.super_name {
        Some(name) => match set.find_name(name) {
            Some(id) => Some(id.0),
            None => None,
        },
        None => None,
    }
}

#[tactic(auto, using(crate::proofs::GoingUp::up_within))]
fn up(set: &ClassSet, number: u32) -> Option<u32>
    requires { number < length set.now }
    ensures next { next_up set.now number ≡ result }
    ensures within { IfSome result (λ n. n < length set.now) }
{
    superclass(set, set.class(ClassId(number)))
}

/// The numbers of a class and its superclasses upwards.
#[tactic(auto, using(crate::proofs::GoingUp::from_class, crate::proofs::GoingUp::one_up, crate::proofs::GoingUp::nothing_up, crate::proofs::GoingUp::none_left, crate::proofs::GoingUp::one_more, crate::proofs::GoingUp::no_classes))]
pub fn upwards(alloc: Global, set: &ClassSet, number: u32) -> Result<Seq<u32>, AllocError>
    requires { number < length set.now }
    ensures all { IfOk result (λ numbers. numbers ≡ supers set.now number) }
    ensures within { IfOk result (AreClasses set.now) }
{
    let mut numbers = Seq::new(alloc);
    let mut next = Some(number);
    for _step in 0..u64::from(set.len()) + 1 {
        let Some(at) = next else {
            return Ok(numbers);
        };
        numbers.push(at)?;
        next = up(set, at);
    }
    Ok(numbers)
}
