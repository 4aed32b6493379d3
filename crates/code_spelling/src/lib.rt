//! The content of Code attributes (JVMS 4.7.3) in one fixed spelling.
#![tactic(auto)]

mod attributes;
mod content;
mod frames;
mod tables;

pub use content::{code_content, written_content};

#[cfg(test)]
mod tests;
