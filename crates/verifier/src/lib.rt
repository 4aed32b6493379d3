//! The type check of code (JVMS 4.10.1).
#![tactic(auto)]

mod check;
mod checkable;
mod first;
mod frames;
mod methods;
mod sets;
mod typed_code;
mod typing;

pub use checkable::is_checkable;
pub use methods::{has_code, verify_method};
pub use sets::{SetVerifyStop, VerifiedSet, verify_set};
pub use type_rows::VerifyRule;
pub use typed_code::{TypedCode, VerifyStop};

#[cfg(test)]
mod tests;
