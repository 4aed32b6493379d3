//! Why bytes are no class file.

ghost use Rattle.std.specs.Prelude.{◌≡◌};
ghost use Rattle.class_input.specs.declared.bad_class.BadClass.TheVariants.{Memory};

use std::alloc::{AllocError, AllocFailed};
use thiserror::Error;

/// What is wrong at a place of a class file. The texts are this project's own.
#[derive(Clone, Copy, Debug, PartialEq, Eq, Error)]
pub enum BadKind {
    /// Bytes of the field are missing.
    #[error("short")]
    Short,
    /// The file does not begin with 0xCAFEBABE (JVMS 4.1).
    #[error("magic")]
    Magic,
    /// A tag that JVMS 4.4 does not have, or a Long or Double without room for its second index.
    #[error("pool tag {0}")]
    PoolTag(u8),
    /// The count of the constant pool is 0 (JVMS 4.1).
    #[error("pool count")]
    PoolCount,
    /// An index of the constant pool that names no entry.
    #[error("pool index {0}")]
    PoolIndex(u16),
    /// An index of the constant pool that names an entry of another kind than is needed.
    #[error("pool kind {0}")]
    PoolKind(u16),
    /// Bytes that are not modified UTF-8 (JVMS 4.4.7).
    #[error("text")]
    Text,
    /// A descriptor or an array class name outside JVMS 4.3.
    #[error("descriptor")]
    Descriptor,
    /// An opcode that is unknown or out of scope.
    #[error("opcode {0}")]
    Code(u8),
    /// An operand that its instruction does not allow.
    #[error("operand")]
    Operand,
    /// An offset into code that names no instruction where one is needed.
    #[error("target")]
    Target,
    /// A stack map frame or a verification type that JVMS 4.7.4 does not have.
    #[error("frame {0}")]
    Frame(u8),
    /// An attribute whose fields end before its length does.
    #[error("attribute length")]
    AttrLength,
    /// A second attribute of one name where only one may stand.
    #[error("twice")]
    Twice,
    /// A length of code that is 0 or over 65,535 (JVMS 4.7.3).
    #[error("code length")]
    CodeLength,
    /// Bytes after the last attribute of the class.
    #[error("trailing")]
    Trailing,
}

/// Why bytes were not read: the first bad place, as an offset in bytes, with its kind, or want of
/// memory.
#[derive(Clone, Copy, Debug, PartialEq, Eq, Error)]
pub enum BadClass {
    #[error("byte {place}: {kind}")]
    Bad { place: usize, kind: BadKind },
    #[error("out of memory")]
    Memory,
}

impl From<AllocError> for BadClass {
    ghost from_gives = { λ _ e. e ≡ Memory };

    fn from(_: AllocError) -> BadClass {
        BadClass::Memory
    }
}

impl<T: Drop> From<AllocFailed<T>> for BadClass {
    ghost from_gives = { λ _ e. e ≡ Memory };

    fn from(_: AllocFailed<T>) -> BadClass {
        BadClass::Memory
    }
}
