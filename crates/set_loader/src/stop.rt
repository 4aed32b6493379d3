//! Why files do not load.

ghost use Rattle.std.specs.Prelude.{◌≡◌};
ghost use Rattle.set_loader.specs.declared.stop.LoadStop.TheVariants.{Memory};

use class_codec::BadKind;
use class_set::SetFault;
use lists::Name;
use profile_check::OutOfProfile;
use std::alloc::{AllocError, AllocFailed};
use verifier::VerifyRule;

/// Why files do not load: the refusals in the order in which they are judged, each over all files. Files are numbered
/// from 0.
#[derive(Debug, PartialEq, Eq, Drop)]
pub enum LoadStop {
    /// A file is no class file: its first bad place, as an offset in bytes, and the kind.
    Bad {
        file: u32,
        place: usize,
        kind: BadKind,
    },
    /// The class of a file is out of the profile, by this row and at this place.
    Profile {
        file: u32,
        fault: OutOfProfile,
    },
    /// The classes are no closed set. Any fault but want of memory.
    Set(SetFault),
    /// The first method that does not verify, by the names of its class and its own and the text of its descriptor, with
    /// the first instruction that fails, by its number, and the first rule that fails there.
    Unverified {
        class: Name,
        name: Name,
        desc: Name,
        at: u32,
        rule: VerifyRule,
    },
    Memory,
}

impl From<AllocError> for LoadStop {
    ghost from_gives = { λ _ stop. stop ≡ Memory };

    fn from(_: AllocError) -> LoadStop {
        LoadStop::Memory
    }
}

impl<T: Drop> From<AllocFailed<T>> for LoadStop {
    ghost from_gives = { λ _ stop. stop ≡ Memory };

    fn from(_: AllocFailed<T>) -> LoadStop {
        LoadStop::Memory
    }
}
