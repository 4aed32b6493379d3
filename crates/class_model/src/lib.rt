//! Class files as symbolic classes, and descriptors.
#![tactic(auto)]

mod class;
mod descriptor;
mod insn;
mod parser;
mod print;
mod types;

pub use class::{
    ClassDef, CodeDef, Constant, FieldDef, Frame, Handler, InnerRow, MethodDef, VType,
};
pub use descriptor::{DescStop, parse_desc, parse_type};
pub use insn::{BinOp, Cond, Conv, Elem, Insn, InvokeKind, Kind, ShiftOp, StackOp, Width};
pub use print::{is_primitive, print_desc, print_type, words};
pub use types::{BaseType, FieldRef, JType, MethodDesc, MethodRef, Primitive};

#[cfg(test)]
mod tests;
