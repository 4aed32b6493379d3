//! Why bytes are no instruction.

ghost use Rattle.std.specs.Prelude.{◌≡◌};
ghost use Rattle.opcode_table.specs.declared.code_stop.CodeStop.TheVariants.{Memory};

use std::alloc::{AllocError, AllocFailed};
use thiserror::Error;

/// Why no instruction was read.
#[derive(Clone, Copy, Debug, PartialEq, Eq, Error)]
pub enum CodeStop {
    /// An opcode that is none: 202 to 255.
    #[error("unknown opcode {0}")]
    Unknown(u8),
    /// An opcode to 201 that this project leaves out.
    #[error("opcode {0} is out of scope")]
    OutOfScope(u8),
    /// Bytes of the instruction are missing.
    #[error("short")]
    Short,
    /// Low above high, or a key that is not above the one before it.
    #[error("order")]
    Order,
    /// An operand that the instruction does not allow.
    #[error("operand")]
    Operand,
    #[error("out of memory")]
    Memory,
}

impl From<AllocError> for CodeStop {
    ghost from_gives = { λ _ e. e ≡ Memory };

    fn from(_: AllocError) -> CodeStop {
        CodeStop::Memory
    }
}

impl<T: Drop> From<AllocFailed<T>> for CodeStop {
    ghost from_gives = { λ _ e. e ≡ Memory };

    fn from(_: AllocFailed<T>) -> CodeStop {
        CodeStop::Memory
    }
}
