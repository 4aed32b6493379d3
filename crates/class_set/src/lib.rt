//! Closed sets of classes.
#![tactic(auto)]

mod above;
mod assignable;
mod build;
mod class_set;
mod core_check;
mod core_shapes;
mod fault;
mod final_super;
mod flags;
mod open;
mod texts;
mod types;
mod unresolved;
mod walk;
mod words;
mod wrong_kind;

pub use class_set::ClassSet;
pub use fault::SetFault;
pub use set_lookups::{ClassId, MethodId, are_counted};
pub use types::{any_uninit_this, is_int, is_long};

#[cfg(test)]
mod tests;
