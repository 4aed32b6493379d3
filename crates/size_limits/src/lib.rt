//! Numbers of size: what a class may come to before its written form passes a limit of the class file format.
#![tactic(auto)]

mod check;
mod key;
mod limit;
mod lists_by_class;
mod measure;
mod method;
mod names;
mod pool;
mod weighing;

pub use check::check_limits;
pub use limit::{ClassLimit, LimitKind, LimitStop};
pub use weighing::weight;

#[cfg(test)]
mod tests;
