//! Types and references to members.

ghost use Rattle.std.proofs.Common.{rules};

use lists::{Name, Plain, Same, Seq};

/// A primitive type (JVMS 2.3). Its name is not `Prim`, which the prover keeps for itself.
#[derive(Clone, Copy, Debug, PartialEq, Eq)]
pub enum Primitive {
    Boolean,
    Byte,
    Char,
    Short,
    Int,
    Long,
    Float,
    Double,
}

/// What an array has at its leaves, or a type that is no array is: a primitive, or a class or interface.
#[derive(Clone, Debug, PartialEq, Eq, Drop)]
pub enum BaseType {
    Primitive(Primitive),
    Class(Name),
}

/// A field type (JVMS 4.3.2): `depth` dimensions, 0 where it is no array, over a base.
#[derive(Clone, Debug, PartialEq, Eq, Drop)]
pub struct JType {
    pub depth: u8,
    pub base: BaseType,
}

/// A method descriptor (JVMS 4.3.3): the parameters in order, and the result, `None` for `void`.
#[derive(Clone, Debug, PartialEq, Eq, Drop)]
pub struct MethodDesc {
    pub params: Seq<JType>,
    pub result: Option<JType>,
}

/// A reference to a field (JVMS 4.4.2).
#[derive(Clone, Debug, PartialEq, Eq, Drop)]
pub struct FieldRef {
    pub class: Name,
    pub name: Name,
    pub ty: JType,
}

/// A reference to a method (JVMS 4.4.2), whose class may be an array.
#[derive(Clone, Debug, PartialEq, Eq, Drop)]
pub struct MethodRef {
    pub class: JType,
    pub name: Name,
    pub desc: MethodDesc,
    /// Whether the constant pool has an InterfaceMethodref for it, and not a Methodref.
    pub in_interface: bool,
}

impl Plain for BaseType {
    ghost copies = { Prim.search rules };
}

impl Plain for JType {
    ghost copies = { Prim.search rules };
}

impl Plain for MethodDesc {
    ghost copies = { Prim.search rules };
}

impl Plain for FieldRef {
    ghost copies = { Prim.search rules };
}

impl Plain for MethodRef {
    ghost copies = { Prim.search rules };
}

impl Same for JType {
    fn same(&self, other: &JType) -> bool {
        self == other
    }
}

impl Same for MethodDesc {
    fn same(&self, other: &MethodDesc) -> bool {
        self.params.same(&other.params) && self.result.same(&other.result)
    }
}

impl Same for FieldRef {
    fn same(&self, other: &FieldRef) -> bool {
        self.class == other.class && self.name == other.name && self.ty.same(&other.ty)
    }
}

impl Same for MethodRef {
    fn same(&self, other: &MethodRef) -> bool {
        self.in_interface == other.in_interface
            && self.class.same(&other.class)
            && self.name == other.name
            && self.desc.same(&other.desc)
    }
}
