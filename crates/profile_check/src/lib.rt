//! The profile: which classes Phosphor takes.
#![tactic(auto)]

mod check;
mod counts;
mod fields;
mod flags;
mod header;
mod methods;
mod names;
mod natives;
mod profile;
mod rule;
mod twice;
mod types;
mod walk;
mod walk_class;

pub use check::check_profile;
pub use counts::is_counted;
pub use profile::{Names, OutOfProfile, ProfileKind, ProfileStop};

#[cfg(test)]
mod tests;
