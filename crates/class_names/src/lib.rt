//! What the two-byte indices of a class file name, each refused at the field that holds the index.
//!
//! For each use that a class file makes of its constant pool there is a relation (`specs/Names`), a
//! judgement of an index at a place (`.._at`), and a reader of the next index (`next_..`).
#![tactic(auto)]

mod class;
mod constant;
mod member;
mod named_pool;
mod text;

pub use class::{
    class_name_at, class_type_at, field_type_at, method_desc_at, next_class_name, next_class_type,
    next_field_type, next_method_desc, next_optional_class_name,
};
pub use constant::{constant_at, long_at, next_constant, pushed_at, string_at};
pub use member::{MethodEntry, field_at, method_at, next_field, next_method};
pub use named_pool::{NamedPool, Spelled};
pub use text::{name_at, next_bytes, next_name, next_optional_name, text_at};

#[cfg(test)]
mod tests;
