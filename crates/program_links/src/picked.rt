//! The classes that a class is a subtype of.

ghost use Rattle.std.specs.Prelude.{◌≡◌, ◌<◌, IfOk, length, slice_get};
ghost use Rattle.set_lookups.specs.First.{holds_of};
ghost use Rattle.class_set.specs.Closed.{Closed};
ghost use Rattle.run_state.specs.Texts.{class_type};
ghost use Rattle.run_state.specs.SetLooks.{fits_in};
ghost use Rattle.program_links.specs.Picked.{AllPicked};
ghost use Rattle.program_links.specs.RowTo.{type_of_class};
ghost use Rattle.program_links.specs.WorldOf.{name_at, no_name};

use crate::natives::is_object_name;
use class_set::{ClassId, ClassSet};
use lists::Seq;
use std::alloc::{AllocError, Global};

/// Whether a class is a subtype of another. Each is one of `java/lang/Object`.
#[tactic(auto, using(crate::proofs::Fitting::numbers_fit))]
fn class_fits(set: &ClassSet, low: u32, high: u32) -> bool
    requires closed { Closed set.now }
    requires low { low < length set.now }
    requires high { high < length set.now }
    ensures { holds_of (λ class. fits_in set.now (class_type (name_at set.now low)) (type_of_class class)) (slice_get set.now high) ≡ result }
{
    let class = set.class(ClassId(high));
    set.subtype(ClassId(low), ClassId(high)) || is_object_name(&class.name)
}

/// Whether a class that is not there is a subtype of another.
#[tactic(auto, using(crate::proofs::Fitting::nothing_fits))]
fn nothing_fits(set: &ClassSet, high: u32) -> bool
    requires closed { Closed set.now }
    requires high { high < length set.now }
    ensures { holds_of (λ class. fits_in set.now (class_type (no_name set.now)) (type_of_class class)) (slice_get set.now high) ≡ result }
{
    let class = set.class(ClassId(high));
    is_object_name(&class.name)
}

/// The classes that a class is a subtype of, itself among them.
#[tactic(auto, using(crate::proofs::Picking::none_picked, crate::proofs::Picking::picked_more, crate::proofs::Picking::passed_over, crate::proofs::Picking::all_picked))]
pub fn class_above(alloc: Global, set: &ClassSet, low: u32) -> Result<Seq<u32>, AllocError>
    requires closed { Closed set.now }
    requires low { low < length set.now }
    ensures { IfOk result (AllPicked (λ class. fits_in set.now (class_type (name_at set.now low)) (type_of_class class)) set.now) }
{
    let mut picked = Seq::new(alloc);
    for high in 0..set.len() {
        if class_fits(set, low, high) {
            picked.push(high)?;
        }
    }
    Ok(picked)
}

/// The classes that a class which is not there is a subtype of.
#[tactic(auto, using(crate::proofs::Picking::none_picked, crate::proofs::Picking::picked_more, crate::proofs::Picking::passed_over, crate::proofs::Picking::all_picked))]
pub fn nothing_above(alloc: Global, set: &ClassSet) -> Result<Seq<u32>, AllocError>
    requires { Closed set.now }
    ensures { IfOk result (AllPicked (λ class. fits_in set.now (class_type (no_name set.now)) (type_of_class class)) set.now) }
{
    let mut picked = Seq::new(alloc);
    for high in 0..set.len() {
        if nothing_fits(set, high) {
            picked.push(high)?;
        }
    }
    Ok(picked)
}
