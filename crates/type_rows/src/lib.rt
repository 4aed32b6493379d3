//! What each instruction makes of the types that it finds.
#![tactic(auto)]

mod arrays;
mod blocks;
mod calls;
mod fields;
mod jumps;
mod locals;
mod method;
mod numbers;
mod objects;
mod operands;
mod returns;
mod rows;
mod rule;
mod state;
mod types;

pub use jumps::falls;
pub use method::Checked;
pub use operands::{class_ref, type_of};
pub use rows::row;
pub use rule::{Halt, VerifyRule};
pub use state::{Locals, Operands, TypeState};
pub use types::{fits, width};
