//! The first form: a class whose one method is a `main` of straight-line code on ints; the sets of such a class that are
//! built so far, and the class of reports that stands beside a written one.
#![tactic(auto)]

mod base;
mod first_set;
mod form;
mod frame;
mod names;
mod natives;
mod straight;

pub use base::report_class;
pub use first_set::first_not_built;
pub use form::is_form_one;
pub use frame::IntFrame;
pub use natives::{Native, native_of, native_ref};

#[cfg(test)]
mod tests;
