//! Class files (JVMS 4.1) in the spelling that is written: everything but the content of Code attributes, which a
//! `CodeWriter` writes.
#![tactic(auto)]

mod attribute;
mod class;
mod content;
mod field;
mod inner;
mod method;
mod table;

pub use class::write_class;
pub use method::CodeWriter;

#[cfg(test)]
mod tests;
