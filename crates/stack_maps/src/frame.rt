//! Verification types and frames, as a class file spells them.

use lists::{Plain, Seq};

/// A verification type (JVMS 4.7.4), with the index or the offset that the class file has. Float and double are left
/// out.
#[derive(Clone, Copy, Debug, PartialEq, Eq)]
pub enum RawType {
    Top,
    Int,
    Long,
    Null,
    UninitThis,
    /// The index of a class in the constant pool.
    Object(u16),
    /// The offset of a `new` instruction, in bytes from the start of the code.
    Uninit(u16),
    /// An entry of the first frame, by its number from 0, that is a class or an array: it may have no index in the
    /// constant pool. No bytes stand for it.
    First(u16),
}

impl Plain for RawType {
    ghost copies = { λ x y same. same };
}

/// The types at an offset, which is in bytes from the start of the code: all locals, and the operand stack from its
/// bottom. A long is one entry.
#[derive(Clone, Debug, PartialEq, Eq, Drop)]
pub struct RawFrame {
    pub offset: u16,
    pub locals: Seq<RawType>,
    pub stack: Seq<RawType>,
}
