//! The small base: the classes that stand beside those of a folder.
#![tactic(auto)]

mod base;
mod class_tests;
mod classes;
mod member_tests;
mod members;

pub use base::{before_base, is_base_name, small_base};
pub use classes::class_below;
pub use member_tests::{does_give_int, does_take_int, is_class, is_int};
pub use members::{gives_int, int_type, native_method, single, takes_int};

#[cfg(test)]
mod tests;
