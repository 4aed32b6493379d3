//! Classes with their references resolved into numbers, once, for a machine to run.
#![tactic(auto)]

mod native;
mod op;
mod program;

pub use native::Native;
pub use op::Op;
pub use program::{
    Call, FaultClasses, Handler, LinkedClass, LinkedType, Method, Narrowing, Program, Rows,
    Selection, Table,
};
