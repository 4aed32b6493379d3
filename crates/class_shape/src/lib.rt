//! The shape of a symbolic class: whether some bytes are that class, sizes aside.
#![tactic(auto)]

mod class;
mod code;
mod insn;
mod types;

pub use class::is_shaped;

#[cfg(test)]
mod tests;
