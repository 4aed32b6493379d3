//! The heap of a machine: objects and arrays, in the order in which they were made.
#![tactic(auto)]

mod block;
mod heap;
mod item;

pub use heap::Heap;
pub use item::Item;

#[cfg(test)]
mod tests;
