//! What an instruction leads to.

/// What the machine itself throws: an object of the exception class of that name, made by no constructor.
#[derive(Clone, Copy, Debug, PartialEq, Eq)]
pub enum Fault {
    Arithmetic,
    NullPointer,
    IncompatibleChange,
    NegativeSize,
    ClassCast,
    ArrayIndex,
    ArrayStore,
}

/// What an instruction of the top frame leads to: the frame goes on, or the machine throws. `Stuck` comes only where an
/// operand is missing or of another kind.
#[derive(Clone, Copy, Debug, PartialEq, Eq)]
pub enum Flow {
    Next,
    Throws(Fault),
    Stuck,
}
