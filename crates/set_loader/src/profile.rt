//! The second pass: the profile.

ghost use Rattle.std.specs.Prelude.{◌≤◌, length, All, MatchResult};
ghost use Rattle.profile_check.specs.Profile.{IsCounted, Profile};
ghost use Rattle.set_loader.specs.Passes.{RefusesProfile};

use crate::stop::LoadStop;
use class_model::ClassDef;
use profile_check::{Names, ProfileStop, check_profile};
use std::alloc::Global;

/// Sees that each class is in the profile.
pub(crate) fn judge_profile(
    alloc: Global,
    names: Names,
    classes: &[ClassDef],
) -> Result<(), LoadStop>
    requires few { length classes.now ≤ 1000000 }
    requires counted { All IsCounted classes.now }
    ensures { MatchResult result (λ _. All (Profile names) classes.now) (RefusesProfile names classes.now) }
{
    for (number, class) in classes.iter().enumerate() {
        match check_profile(alloc, class, names) {
            Ok(()) => {}
            Err(ProfileStop::Out(fault)) => {
                return Err(LoadStop::Profile {
                    file: number as u32,
                    fault,
                });
            }
            Err(ProfileStop::Memory) => return Err(LoadStop::Memory),
        }
    }
    Ok(())
}
