//! Whole class files (JVMS 4) as symbolic classes.
#![tactic(auto)]

mod decode;
mod reader;

pub use decode::{decode_class, one_class};

#[cfg(test)]
mod tests;
