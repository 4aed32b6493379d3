//! The content of Code attributes (JVMS 4.7.3).
#![tactic(auto)]

mod attributes;
mod content;
mod lines;

pub use content::read_code;

#[cfg(test)]
mod tests;
