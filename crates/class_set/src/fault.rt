//! Why a list of classes is no closed set.

ghost use Rattle.std.specs.Prelude.{◌≡◌};
ghost use Rattle.class_set.specs.declared.fault.SetFault.TheVariants.{Memory};
ghost use Rattle.class_set.specs.Faults.{of_links};

use lists::Name;
use set_lookups::HierarchyFault;
use std::alloc::{AllocError, AllocFailed};
use thiserror::Error;

/// The kinds by which a list of classes is no closed set, in the order in which they are judged, each over
/// all classes. All are this project's own rules. Each holds a name or another text: of a class for
/// `Duplicate`, `Cycle`, `FinalSuper` and `Abstract`; of the class that is absent or has not its shape for
/// `Missing` and `Core`; and for `Unresolved` and `WrongKind` the reference, as its class (an array as its
/// descriptor), `.`, its name, and its descriptor or that of its type, or for a `new` the class alone.
#[derive(Debug, PartialEq, Eq, Drop, Error)]
pub enum SetFault {
    /// Two classes have this name.
    #[error("duplicate")]
    Duplicate(Name),
    /// A class is named as superclass, interface, in code, a descriptor, a frame or a handler, and is absent.
    #[error("missing")]
    Missing(Name),
    /// A class is its own superclass or superinterface, directly or through others.
    #[error("cycle")]
    Cycle(Name),
    /// A class extends a final class or an interface, implements a class, or overrides a final method.
    #[error("final super")]
    FinalSuper(Name),
    /// A core class is absent or has not its shape.
    #[error("core")]
    Core(Name),
    /// A field or method reference does not resolve.
    #[error("unresolved")]
    Unresolved(Name),
    /// An instruction names a member or a class of the wrong kind.
    #[error("wrong kind")]
    WrongKind(Name),
    /// A class that is neither abstract nor an interface leaves an abstract method open.
    #[error("abstract")]
    Abstract(Name),
    #[error("out of memory")]
    Memory,
}

impl From<AllocError> for SetFault {
    ghost from_gives = { λ _ fault. fault ≡ Memory };

    fn from(_: AllocError) -> SetFault {
        SetFault::Memory
    }
}

impl<T: Drop> From<AllocFailed<T>> for SetFault {
    ghost from_gives = { λ _ fault. fault ≡ Memory };

    fn from(_: AllocFailed<T>) -> SetFault {
        SetFault::Memory
    }
}

impl From<HierarchyFault> for SetFault {
    ghost from_gives = { λ links fault. fault ≡ of_links links };

    fn from(links: HierarchyFault) -> SetFault {
        match links {
            HierarchyFault::Duplicate(name) => SetFault::Duplicate(name),
            HierarchyFault::Missing(name) => SetFault::Missing(name),
            HierarchyFault::Cycle(name) => SetFault::Cycle(name),
            HierarchyFault::Memory => SetFault::Memory,
        }
    }
}
