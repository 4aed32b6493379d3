//! Rewriting a set of classes, so that it computes tags beside its own work.
#![tactic(auto)]

mod class_path;
mod files;
mod laws;
mod marks;
mod pieces;
mod rewrite;
mod set;
mod slots;

pub use files::instrument;
pub use laws::written_paths_ascend;

#[cfg(test)]
mod tests;
