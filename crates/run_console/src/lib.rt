//! A run against a source and a sink: `run_plain` makes steps, takes one byte of the source where the run waits for one, and writes the
//! console once, at the end.
//!
//! What is promised, where the source tells what it has left: for each input of which the run stands at k steps and has left just what
//! the source has, it stands after the call at k and the given number of steps, and the source has left just what the definition's state
//! has left (`Runs`). So exactly the bytes are taken that the definition takes. A run that has ended stands at every later number. The
//! sink gets exactly the console, or, where its count of faults rose, a front of it; nothing after a fault of the source or want of memory.
#![tactic(auto)]

mod advance;
mod reading;
mod runs;
mod stop;

pub use runs::run_plain;
pub use stop::RunStop;
