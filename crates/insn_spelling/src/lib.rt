//! Instructions of a method's code (JVMS 6.5), written in one fixed spelling.
#![tactic(auto)]

mod index;
mod insns;
mod opcodes;
mod raw;

pub use insns::{put_insns, written_code};

#[cfg(test)]
mod tests;
