//! Class files of symbolic classes in one fixed spelling (JVMS 4), with the limits of the format told before.
#![tactic(auto)]

mod encode;

pub use class_limits::{EncodeKind, EncodeStop};
pub use encode::encode_class;

#[cfg(test)]
mod tests;
