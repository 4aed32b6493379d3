//! Modified UTF-8, the form of each text in a class file (JVMS 4.4.7), both ways.
#![tactic(auto)]

mod text;

pub use text::{TextStop, text_units, units_text, wrong_place};

#[cfg(test)]
mod tests;
