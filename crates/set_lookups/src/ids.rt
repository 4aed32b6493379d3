//! Numbers of classes and methods.

/// The number of a class in its set, from 0.
#[derive(Clone, Copy, Debug, PartialEq, Eq)]
pub struct ClassId(pub u32);

/// The number of a method's class in its set, and the method's number in that class, both from 0.
#[derive(Clone, Copy, Debug, PartialEq, Eq)]
pub struct MethodId {
    pub class: u32,
    pub index: u32,
}
