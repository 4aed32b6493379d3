//! Loading the files of a folder.

ghost use Rattle.std.specs.Prelude.{◌≡◌, ◌≢◌, ◌≤◌, All, List, length, Err, IfOk, IfErr, MatchResult, ◌⊎◌};
ghost use Rattle.class_model.specs.declared.class.ClassDef.{ClassDef};
ghost use Rattle.class_shape.specs.Shaped.{Shaped};
ghost use Rattle.profile_check.specs.Profile.{Profile};
ghost use Rattle.set_lookups.specs.Counts.{AreCounted};
ghost use Rattle.class_set.specs.declared.fault.SetFault.TheVariants as faults;
ghost use Rattle.set_loader.specs.Loads.{Loads, IsDue, Refuses};
ghost use Rattle.set_loader.specs.declared.stop.LoadStop as model;
ghost use Rattle.set_loader.specs.declared.stop.LoadStop.TheVariants as stops;

use crate::base::complete;
use crate::decode::read_classes;
use crate::file::File;
use crate::profile::judge_profile;
use crate::set::judge_set;
use crate::stop::LoadStop;
use crate::types::judge_types;
use profile_check::Names;
use std::alloc::Global;
use verifier::VerifiedSet;

/// The four passes, each over all files.
fn judge(alloc: Global, files: &[File], names: Names) -> Result<VerifiedSet, LoadStop>
    requires { length files.now ≤ 1000000 }
    ensures answer { MatchResult result (Loads names files.now) (Refuses names files.now) }
    ensures counted { IfOk result AreCounted }
    ensures shaped { IfOk result (All Shaped) }
{
    let classes = read_classes(alloc, files)?;
    judge_profile(alloc, names, &classes)?;
    let set = complete(alloc, classes)?;
    let closed = judge_set(alloc, set)?;
    judge_types(alloc, closed)
}

/// The set of the classes that files are, in the order of the files, with the small base behind them where none is
/// `java/lang/Object`.
///
/// All files are decoded first, then the class of each is judged by the profile, then the set of all, then the types of
/// all methods. The first refusal is told: of each pass the first file, the first fault of the set, or the first method
/// by class and file order.
pub fn load_set(alloc: Global, files: &[File], names: Names) -> Result<VerifiedSet, LoadStop>
    requires { length files.now ≤ 1000000 }
    // What is loaded is what the files are.
    ensures loaded { IfOk result (λ set. Loads names files.now set) }
    // A refusal is one that is due.
    ensures refused { IfErr result (Refuses names files.now) }
    // What the files are is loaded, unless memory runs out.
    ensures whole { (set : List ClassDef) → Loads names files.now set → MatchResult result (λ found. found ≡ set) (λ stop. stop ≡ stops.Memory) }
    // A refusal that is due is the one that comes, unless memory runs out.
    ensures due { (stop : model.LoadStop) → IsDue stop → Refuses names files.now stop → MatchResult result (λ _. ⊥) (λ told. (told ≡ stop) ⊎ (told ≡ stops.Memory)) }
    // Want of memory is told in one way.
    ensures told { result ≢ Err (stops.Set faults.Memory) }
    // What is loaded has the counts that a set can have.
    ensures counted { IfOk result AreCounted }
    // Its classes have shapes that bytes give, the base too.
    ensures shaped { IfOk result (All Shaped) }
    // They are in the profile, the base too.
    ensures in_profile { IfOk result (All (Profile names)) }
{
    judge(alloc, files, names)
}
