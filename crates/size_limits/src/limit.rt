//! The numbers of size.

ghost use Rattle.std.specs.Prelude.{◌≡◌};
ghost use Rattle.size_limits.specs.declared.limit.LimitStop.TheVariants.{Memory};

use std::alloc::AllocError;
use thiserror::Error;

/// A number of size of a class, in the order in which they are judged. Their bounds are those of the class file format
/// (JVMS 4.11) with room for what is written beside; the numbers are this project's own.
#[derive(Clone, Copy, Debug, PartialEq, Eq)]
pub enum LimitKind {
    /// The bytes of the longest class name, member name or descriptor are over 16,000.
    TextTooLong,
    /// The greater of twice the fields and 1, and of the methods and 4, is over 65,535.
    MembersTooMany,
    /// The number of the constant pool is over 65,535.
    PoolFull,
    /// The words of a method's parameters, the receiver counted, and its primitive parameters are over 255.
    ParamsTooMany,
    /// Twice the words of a method's locals, those of its stack, and 8 are over 65,535.
    LocalsTooMany,
    /// Twice the words of a method's stack, and 16, are over 65,535.
    StackTooDeep,
    /// The weight of a method's code is over 65,535.
    CodeTooLong,
}

/// A number of a class that passes its bound. The method is a number in file order, `None` for a number of the class.
#[derive(Clone, Copy, Debug, PartialEq, Eq)]
pub struct ClassLimit {
    pub kind: LimitKind,
    pub method: Option<u32>,
    pub number: u64,
}

/// Why classes are not instrumented.
#[derive(Debug, PartialEq, Eq, Drop, Error)]
pub enum LimitStop {
    /// The first number that passes its bound, and the class by its number in the set. A number past 64 bits is told
    /// as their greatest.
    #[error("class {class}: {kind:?} {number}")]
    Limit {
        kind: LimitKind,
        class: u32,
        method: Option<u32>,
        number: u64,
    },
    /// The class of this number is not built yet. The numbers of size are never told so.
    #[error("class {class}: not built")]
    NotBuilt {
        class: u32,
    },
    #[error("out of memory")]
    Memory,
}

impl From<AllocError> for LimitStop {
    ghost from_gives = { λ _ stop. stop ≡ Memory };

    fn from(_: AllocError) -> LimitStop {
        LimitStop::Memory
    }
}
