//! The tables behind the instructions of a method's code: handlers and line numbers (JVMS 4.7.3 and 4.7.12).
#![tactic(auto)]

mod handlers;
mod lines;
mod offsets;

pub use handlers::read_handlers;
pub use lines::read_lines;
