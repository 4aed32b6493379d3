//! Attributes of a class file (JVMS 4.7), all but those of code: which are read, which are dropped.
#![tactic(auto)]

mod contents;
mod named;
mod tables;

pub use contents::{constant_value, exceptions, inner_classes, named_classes, source_file};
pub use named::{drop_content, twice};
pub use tables::{class_attributes, field_attributes};
