//! What a class names, put into a constant pool that grows (JVMS 4.4): each call answers the index of an entry.
//!
//! An entry that is there is found again, and else stands last. A text stands before what names it, and a member as
//! class, name, descriptor, name with type, member (`specs/Spelling`).
#![tactic(auto)]

mod bytes;
mod constant;
mod laws;
mod member;
mod text;
mod types;
mod writer;

pub use bytes::{put_u16, put_u32};
pub use constant::{put_constant, put_int, put_long, put_string};
pub use laws::{named_indices, spelled_bytes};
pub use member::{put_field, put_method, put_name_and_type};
pub use text::{put_ascii, put_bytes, put_text};
pub use types::{put_class, put_desc, put_field_type, put_type};
pub use writer::PoolWriter;

#[cfg(test)]
mod tests;
