//! Linked instructions.

use crate::program::Narrowing;
use class_model::{Elem, Kind};
use machine_frames::FrameOp;

/// An instruction whose references are numbers: of a method, a class, a type or a text of the program, of a place among an
/// object's fields or among the static fields, of a table of a switch, or of a call.
#[derive(Clone, Copy, Debug)]
pub enum Op {
    /// One that concerns the top frame alone.
    Frame(FrameOp),
    TableSwitch(u32),
    LookupSwitch(u32),
    /// Of no value.
    Return,
    ReturnValue(Kind),
    /// Of the method that the call resolves to.
    InvokeStatic(u32),
    InvokeSpecial(u32),
    InvokeVirtual(u32),
    InvokeInterface(u32),
    PushText(u32),
    /// Of the class that declares the field, and the field's place.
    GetStatic(u32, u32),
    /// A static field with a constant text: its class and the text.
    GetText(u32, u32),
    PutStatic(u32, u32, Kind, Narrowing),
    GetField(u32),
    PutField(u32, Kind, Narrowing),
    New(u32),
    /// Of an array of this type.
    NewArray(u32),
    MultiNewArray(u32, u8),
    ArrayLength,
    ArrayLoad(Elem),
    ArrayStore(Elem),
    Throw,
    CheckCast(u32),
    InstanceOf(u32),
}
