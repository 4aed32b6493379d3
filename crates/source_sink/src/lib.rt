//! The lists of sources and sinks, read from JSON.
#![tactic(auto)]

mod fault;
mod natives;
mod read;

pub use fault::ConfigFault;
pub use read::read_config;

#[cfg(test)]
mod tests;
