//! The sizes of a class as it is written, and the limits of the class file format that they may pass.
#![tactic(auto)]

mod branches;
mod check;
mod codes;
mod finder;
mod layout;
mod lengths;
mod limit;
mod size;
mod text_bounds;
mod text_sizes;
mod texts;

pub use check::check_limits;
pub use layout::{Layout, code_size, uses_wide_goto};
pub use limit::{EncodeKind, EncodeStop};
pub use size::size_at;
pub use text_sizes::{class_size, desc_size, text_size, type_size};

#[cfg(test)]
mod tests;
