//! The lists of sources and sinks, what a run reports and how it ends, and the definitions of both machines: states,
//! steps, runs, and what is seen of them.
#![tactic(auto)]

mod config;
mod ending;
mod laws;
mod listed;
mod report;

pub use config::{Config, Sink, Source};
pub use ending::Ending;
pub use laws::{ended_runs_stay, erasure, sum_of_two_bytes, worked_programs};
pub use listed::Listed;
pub use report::Report;

#[cfg(test)]
mod tests;
