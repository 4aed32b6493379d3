//! The limits of the class file format.

ghost use Rattle.std.specs.Prelude.{◌≡◌};
ghost use Rattle.class_limits.specs.declared.limit.EncodeStop.TheVariants.{Memory};

use std::alloc::AllocError;
use thiserror::Error;

/// A limit of the class file format, in the order in which they are judged.
#[derive(Clone, Copy, Debug, PartialEq, Eq)]
pub enum EncodeKind {
    /// A text of over 65,535 bytes (JVMS 4.4.7). The number is that of its bytes.
    Text,
    /// A count of two bytes that is over 65,535. The number is the count.
    Count,
    /// Code that is empty or over 65,535 bytes (JVMS 4.7.3). The number is that of its bytes.
    Code,
    /// A conditional branch whose distance passes 16 bits. The number is the distance without its sign.
    Branch,
    /// An attribute whose content is over 4,294,967,295 bytes (JVMS 4.7). The number is that of these bytes.
    Length,
    /// An entry of the constant pool past index 65,534 (JVMS 4.1). The number is the last index of the first entry
    /// that does not fit.
    Pool,
}

/// Why a class was not written.
#[derive(Debug, PartialEq, Eq, Drop, Error)]
pub enum EncodeStop {
    /// The first limit that the class passes, and its number.
    #[error("past a limit of the class file format: {0:?} {1}")]
    Limit(EncodeKind, u64),
    #[error("out of memory")]
    Memory,
}

impl From<AllocError> for EncodeStop {
    ghost from_gives = { λ _ stop. stop ≡ Memory };

    fn from(_: AllocError) -> EncodeStop {
        EncodeStop::Memory
    }
}
