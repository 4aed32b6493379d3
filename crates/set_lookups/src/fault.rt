//! Why a list of classes has no index.

ghost use Rattle.std.specs.Prelude.{◌≡◌};
ghost use Rattle.set_lookups.specs.declared.fault.HierarchyFault.TheVariants.{Memory};

use lists::Name;
use std::alloc::{AllocError, AllocFailed};
use thiserror::Error;

/// The kinds by which classes cannot be linked by their names, in the order in which they are judged, each over all
/// classes. All are this project's own rules.
#[derive(Debug, PartialEq, Eq, Drop, Error)]
pub enum HierarchyFault {
    /// Two classes have this name.
    #[error("duplicate")]
    Duplicate(Name),
    /// This class is named as superclass, interface, in code, a descriptor, a frame or a handler, and is absent.
    #[error("missing")]
    Missing(Name),
    /// This class is its own superclass or superinterface, directly or through others.
    #[error("cycle")]
    Cycle(Name),
    #[error("out of memory")]
    Memory,
}

impl From<AllocError> for HierarchyFault {
    ghost from_gives = { λ _ fault. fault ≡ Memory };

    fn from(_: AllocError) -> HierarchyFault {
        HierarchyFault::Memory
    }
}

impl<T: Drop> From<AllocFailed<T>> for HierarchyFault {
    ghost from_gives = { λ _ fault. fault ≡ Memory };

    fn from(_: AllocFailed<T>) -> HierarchyFault {
        HierarchyFault::Memory
    }
}
