//! Frames, and the instructions that concern the top frame alone.
#![tactic(auto)]

mod arithmetic;
mod branches;
mod constants;
mod conversions;
mod flow;
mod frame;
mod frame_op;
mod kinds;
mod moves;
mod shuffles;
mod switches;

pub use flow::{Fault, Flow};
pub use frame::Frame;
pub use frame_op::{FrameOp, advance};
pub use kinds::{pop_kind, pop_place};
pub use switches::{lookup_switch, table_switch};

#[cfg(test)]
mod tests;
