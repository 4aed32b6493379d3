//! Class files as symbolic classes (JVMS 4), read and written.
#![tactic(auto)]

mod encode;

pub use class_decoding::{decode_class, one_class};
pub use class_encoding::{EncodeKind, EncodeStop};
pub use class_input::{BadClass, BadKind};
pub use encode::encode_class;

#[cfg(test)]
mod tests;
