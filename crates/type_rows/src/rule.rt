//! The rules of the type check.

ghost use Rattle.std.specs.Prelude.{◌≡◌};
ghost use Rattle.type_rows.specs.declared.rule.Halt.TheVariants.{Memory};

use std::alloc::{AllocError, AllocFailed};
use thiserror::Error;

/// The rules, in the order in which they are judged at an instruction.
#[derive(Clone, Copy, Debug, PartialEq, Eq, Error)]
pub enum VerifyRule {
    /// Nothing goes on to the instruction, and it has no declared frame.
    #[error("no frame")]
    NoFrame,
    /// The frame that falls in does not go to the declared one.
    #[error("merge")]
    Merge,
    /// A declared frame has more words than the method, or Top on its stack; the first frame has more locals.
    #[error("shape")]
    Shape,
    /// A handler of the instruction has no frame to which the locals and what it catches go.
    #[error("handler")]
    Handler,
    /// A local is past `max_locals`.
    #[error("local")]
    Local,
    /// The stack or a local does not have what the instruction takes.
    #[error("operand")]
    Operand,
    /// The stack would pass `max_stack`.
    #[error("room")]
    Room,
    /// A target has no declared frame, or the types do not go to it.
    #[error("branch")]
    Branch,
    /// A rule on objects that are not initialised, or on the return of a constructor.
    #[error("init")]
    Init,
    /// A return of another kind than the method's result.
    #[error("result")]
    Result,
    /// The last instruction goes on.
    #[error("end")]
    End,
}

/// Why a check ends.
#[derive(Clone, Copy, Debug, PartialEq, Eq)]
pub enum Halt {
    /// This rule fails.
    Broken(VerifyRule),
    Memory,
}

impl From<AllocError> for Halt {
    ghost from_gives = { λ _ halt. halt ≡ Memory };

    fn from(_: AllocError) -> Halt {
        Halt::Memory
    }
}

impl<T: Drop> From<AllocFailed<T>> for Halt {
    ghost from_gives = { λ _ halt. halt ≡ Memory };

    fn from(_: AllocFailed<T>) -> Halt {
        Halt::Memory
    }
}
