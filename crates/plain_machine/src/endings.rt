//! How a run has ended, with classes by their ids.

ghost use Rattle.std.specs.Prelude.{◌≡◌, ℕ, List};
ghost use Rattle.class_model.specs.declared.class.ClassDef.{ClassDef};
ghost use Rattle.machine.specs.Shown.{ending_of};
ghost use Rattle.program_links.specs.Numbers.{Numbers};
ghost use Rattle.program_links.specs.WorldOf.{world_of};
ghost use Rattle.plain_machine.specs.Endings.{ending_shown, told};

use machine::Ending as Shown;
use run_state::Ending;
use set_lookups::ClassId;

/// The ending of a machine over a linked set. The number of a class in the program is that of the class in the set.
pub fn ending_told(ending: Shown) -> Ending
    ensures { (set : List ClassDef) (main : List ℕ) (t : Numbers) → ending_shown set result ≡ told (ending_of {T = Unit {0}} (world_of set main t) ending) }
{
    match ending {
        Shown::Running => Ending::Running,
        Shown::Returned => Ending::Returned,
        Shown::Exit(status) => Ending::Exit(status),
        Shown::Uncaught(class) => Ending::Uncaught(ClassId(class)),
        Shown::InitFailed(class, exception) => {
            Ending::InitFailed(ClassId(class), ClassId(exception))
        }
        Shown::Stuck => Ending::Running,
    }
}
