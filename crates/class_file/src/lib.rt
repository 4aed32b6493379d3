//! Class files (JVMS 4.1): everything but the content of Code attributes, which a `CodeReader` reads.
#![tactic(auto)]

mod class;
mod field;
mod method;

pub use class::{one_class, read_class};
pub use method::{CodeReader, MethodHead};

#[cfg(test)]
mod tests;
