//! The top call of Phosphor: the words of a command, the devices, and the order of its work.
#![tactic(auto)]

mod check;
mod done;
mod instrument;
mod parts;
mod run;
mod top;
mod words;

pub use top::phosphor;

#[cfg(test)]
mod tests;
