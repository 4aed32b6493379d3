//! Reading the bytes of a class file from front to back, with the place of each refusal.
//!
//! Every decoder of the class file format stands on this crate: a reader over the bytes, the
//! definitions by which a structure's reading order is written down, and the laws that tie a
//! reading to the texts that it accepts.
#![tactic(auto)]

mod bad_class;
mod input;

pub use bad_class::{BadClass, BadKind};
pub use input::Input;
