//! Instructions as they stand in the bytes.

use lists::Seq;

/// An instruction with its operands as they stand in the bytes (JVMS 6.5): a `u8` that comes first is the
/// opcode, indices are those of the constant pool, and branch offsets count bytes from the opcode.
#[derive(Debug, PartialEq, Eq, Drop)]
pub enum RawInsn {
    /// An opcode without operand, `iload_0` and its like among them.
    Plain(u8),
    /// `bipush` and its number.
    Byte(u8, i8),
    /// `sipush` and its number.
    Short(u8, i16),
    /// A load or a store that names its local, with or without `wide`; the opcode is never `wide`.
    Local(u8, u16),
    /// `iinc` or `wide iinc`: the local, and what is added to it.
    Inc(u16, i16),
    /// An opcode with an index of the constant pool: one byte behind `ldc`, and else two.
    Pool(u8, u16),
    /// A branch: an offset of 32 bits behind `goto_w`, and else one of 16 bits.
    Jump(u8, i32),
    /// `tableswitch`: one offset for each number from `low` on, at least one.
    Table {
        low: i32,
        default: i32,
        offsets: Seq<i32>,
    },
    /// `lookupswitch`: pairs of a key and an offset, the keys strictly ascending.
    Lookup {
        default: i32,
        rows: Seq<(i32, i32)>,
    },
    /// `invokeinterface`: the index, and the count of argument words, which is not 0.
    Interface(u16, u8),
    /// `newarray`: the type of the elements, from 4 to 11.
    NewArray(u8),
    /// `multianewarray`: the index, and the number of dimensions, which is not 0.
    Multi(u16, u8),
}
