//! The frames of a StackMapTable (JVMS 4.7.4), by the numbers of instructions and with classes by name.
#![tactic(auto)]

mod first;
mod full;
mod marks;
mod names;
mod table;

pub use first::first_types;
pub use names::Code;
pub use table::read_frames;

#[cfg(test)]
mod tests;
