//! Why a device gave no answer.

ghost use Rattle.std.specs.Prelude.{◌≡◌};
ghost use Rattle.outside_io.specs.declared.stop.IoStop.TheVariants.{Memory};

use std::alloc::{AllocError, AllocFailed};
use thiserror::Error;

/// Why a device gave no answer.
#[derive(Clone, Copy, Debug, PartialEq, Eq, Error)]
pub enum IoStop {
    /// A fault of the device itself, which its count of faults shows.
    #[error("the device failed")]
    Failed,
    /// Want of memory.
    #[error("out of memory")]
    Memory,
    /// There is no file at the path.
    #[error("no such file")]
    Absent,
    /// More than 1,000,000 files, shown by the number of paths seen: 1,000,001.
    #[error("too many files: {seen} seen")]
    TooMany { seen: u64 },
    /// A file of more than 16,777,216 bytes, shown by the number of bytes taken: 16,777,217.
    #[error("file too long: {taken} bytes taken")]
    TooLong { taken: u64 },
}

impl From<AllocError> for IoStop {
    ghost from_gives = { λ _ stop. stop ≡ Memory };

    fn from(_: AllocError) -> IoStop {
        IoStop::Memory
    }
}

impl<T: Drop> From<AllocFailed<T>> for IoStop {
    ghost from_gives = { λ _ stop. stop ≡ Memory };

    fn from(_: AllocFailed<T>) -> IoStop {
        IoStop::Memory
    }
}
