//! Why a run stops before its steps are made.

ghost use Rattle.std.specs.Prelude.{◌≡◌};
ghost use Rattle.run_console.specs.declared.stop.RunStop.TheVariants.{Memory};

use std::alloc::AllocError;
use thiserror::Error;

/// Why a run was given up.
#[derive(Clone, Copy, Debug, PartialEq, Eq, Error)]
pub enum RunStop {
    /// The source failed, which its count of faults shows.
    #[error("the input failed")]
    ReadFault,
    /// The sink failed, which its count of faults shows.
    #[error("the output failed")]
    WriteFault,
    /// Want of memory.
    #[error("out of memory")]
    Memory,
}

impl From<AllocError> for RunStop {
    ghost from_gives = { λ _ stop. stop ≡ Memory };

    fn from(_: AllocError) -> RunStop {
        RunStop::Memory
    }
}
