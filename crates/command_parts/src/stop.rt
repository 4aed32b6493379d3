//! Why a command stops.

ghost use Rattle.std.specs.Prelude.{◌≡◌};
ghost use Rattle.command_parts.specs.declared.stop.Stop.TheVariants.{Memory};

use lists::{Bytes, Name, Path};
use std::alloc::{AllocError, AllocFailed};

/// Why a command ended before its work was done, with what its line names. A path is whole in a
/// fault and where a file is too long, and relative to its folder in a refusal.
#[derive(Debug, Drop)]
pub enum Stop {
    /// The words are no command.
    Usage,
    /// A folder could not be listed.
    ListFault(Path),
    /// A file could not be read.
    ReadFault(Path),
    /// Standard input could not be read.
    InputFault,
    /// A file could not be written.
    WriteFault(Path),
    /// Standard output did not take what was written to it.
    OutputFault,
    /// A folder holds more files than are read.
    TooManyFiles(Path),
    /// A file holds more bytes than are read.
    FileTooLong(Path),
    /// The class files do not load. With the line that says why.
    NotLoaded(Bytes),
    /// The lists are of a form that is not built yet.
    ConfigNotBuilt,
    /// A class is of a form whose instrumentation is not built yet.
    NotBuilt(Name),
    /// A file that was to be read is not there.
    NoFile(Path),
    /// The class of this name has no `main` that can be run, or there is none of this name.
    NoMain(Name),
    /// The output folder holds a file.
    NotEmpty(Path),
    Memory,
}

impl From<AllocError> for Stop {
    ghost from_gives = { λ _ stop. stop ≡ Memory };

    fn from(_: AllocError) -> Stop {
        Stop::Memory
    }
}

impl<T: Drop> From<AllocFailed<T>> for Stop {
    ghost from_gives = { λ _ stop. stop ≡ Memory };

    fn from(_: AllocFailed<T>) -> Stop {
        Stop::Memory
    }
}
