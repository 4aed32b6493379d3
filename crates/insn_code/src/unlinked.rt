//! Instructions before the targets of branches are known by number.

use class_model::Insn;
use lists::Seq;

/// An instruction as it stands in code (JVMS 6.5): what the constant pool gives stands by name, and a branch
/// still holds distances in bytes from its own opcode, in place of the numbers of instructions.
#[derive(Debug, Drop)]
pub enum Unlinked {
    /// An instruction that leads nowhere else.
    Whole(Insn),
    /// A branch by its opcode, with one distance.
    Jump(u8, i32),
    /// `tableswitch`: one distance for each number from `low` on, at least one.
    Table {
        low: i32,
        default: i32,
        distances: Seq<i32>,
    },
    /// `lookupswitch`: pairs of a key and a distance, the keys strictly ascending.
    Lookup {
        default: i32,
        rows: Seq<(i32, i32)>,
    },
}
