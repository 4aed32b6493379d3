//! The class whose `main` is run.

ghost use Rattle.std.specs.Prelude.{◌≡◌, is_some, MatchOption};
ghost use Rattle.run_state.specs.Observation.{HasMain};
ghost use Rattle.run_state.specs.SetLooks as looks;
ghost use Rattle.program_links.specs.Mains.{IsMainOf};

use crate::starts::place_of_main;
use class_set::ClassSet;
use lists::Name;
use set_lookups::ClassId;

/// The class of a name, where it declares a static `main([Ljava/lang/String;)V` that is not native. Takes no memory.
#[tactic(auto, using(crate::proofs::MainClass::no_class, crate::proofs::MainClass::no_main, crate::proofs::MainClass::main_there))]
pub fn find_main(set: &ClassSet, name: &Name) -> Option<ClassId>
    ensures { MatchOption result (HasMain set.now name.now → ⊥) (IsMainOf set.now name.now) }
{
    let Some(class) = set.find_name(name) else {
        return None;
    };
    match place_of_main(set.class(class)) {
        Some(_) => Some(class),
        None => None,
    }
}
