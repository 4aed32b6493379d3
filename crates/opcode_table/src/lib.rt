//! The instructions of a method's code as bytes, read and written one at a time.
#![tactic(auto)]

mod code_stop;
mod decode;
mod encode;
mod fields;
mod opcodes;
mod operands;
mod put;
mod raw_insn;
mod switches;

pub use code_stop::CodeStop;
pub use decode::decode_insn;
pub use encode::encode_insn;
pub use opcodes::{OperandForm, operand_form};
pub use raw_insn::RawInsn;

#[cfg(test)]
mod tests;
