//! The third pass: the set.

ghost use Rattle.std.specs.Prelude.{◌≡◌, MatchResult};
ghost use Rattle.set_lookups.specs.Counts.{AreCounted};
ghost use Rattle.class_set.specs.Closed.{Closed};
ghost use Rattle.set_loader.specs.Passes.{RefusesSet, of_fault};

use crate::stop::LoadStop;
use class_model::ClassDef;
use class_set::{ClassSet, SetFault};
use lists::Seq;
use std::alloc::Global;

/// A fault of a set, as a refusal of the load.
fn of_fault(fault: SetFault) -> LoadStop
    ensures { result ≡ of_fault fault }
{
    match fault {
        SetFault::Memory => LoadStop::Memory,
        fault => LoadStop::Set(fault),
    }
}

/// The closed set of classes.
pub(crate) fn judge_set(alloc: Global, classes: Seq<ClassDef>) -> Result<ClassSet, LoadStop>
    requires { AreCounted classes }
    ensures { MatchResult result (λ set. (set ≡ classes) × Closed classes) (RefusesSet classes) }
{
    match ClassSet::build(alloc, classes) {
        Ok(set) => Ok(set),
        Err(fault) => Err(of_fault(fault)),
    }
}
