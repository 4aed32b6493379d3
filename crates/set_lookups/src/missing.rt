//! Classes that are named and absent.

ghost use Rattle.std.specs.Prelude.{◌≡◌, map, None, MatchResult, option_map};
ghost use Rattle.set_lookups.specs.Needed.{missing};
ghost use Rattle.set_lookups.specs.declared.fault.HierarchyFault.TheVariants.{Missing};
ghost use Rattle.set_lookups.specs.Answer.{IsFault};

use crate::fault::HierarchyFault;
use crate::needs::Needs;
use class_model::ClassDef;
use indexmap::IndexSet;
use lists::{Name, Seq};

/// Whether each class that is named is there. Else the first name of an absent one, by the order of the classes and of
/// their files.
pub fn check_missing(names: &IndexSet<Name>, classes: &Seq<ClassDef>) -> Result<(), HierarchyFault>
    requires { names.now.keys ≡ map (λ class. class.name) classes.now }
    ensures { MatchResult result
        (λ _. missing classes.now ≡ None)
        (IsFault (option_map Missing (missing classes.now))) }
{
    match classes.missing(names) {
        Some(name) => Err(HierarchyFault::Missing(name.clone()?)),
        None => Ok(()),
    }
}
