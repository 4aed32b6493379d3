//! The instructions of a method's code (JVMS 4.7.3 and 6.5), as symbolic instructions.
#![tactic(auto)]

mod code;
mod insn;
mod link;
mod operands;
mod shapes;
mod starts;
mod switches;
mod unlinked;

pub use code::read_insns;
pub use starts::Starts;
pub use unlinked::Unlinked;

#[cfg(test)]
mod tests;
