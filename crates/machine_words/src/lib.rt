//! What a machine's locals and operand stacks hold, word by word, and its arithmetic.
#![tactic(auto)]

mod locals;
mod numbers;
mod stack;
mod tag;
mod word;

pub use locals::Locals;
pub use numbers::{
    compare, holds, int_of, int_to_byte, int_to_char, int_to_short, long_of, long_to_int,
    lowest_bit, lowest_byte, shift_int, shift_long,
};
pub use stack::Stack;
pub use tag::{NoTag, Tag};
pub use word::{Shape, Word};

#[cfg(test)]
mod tests;
