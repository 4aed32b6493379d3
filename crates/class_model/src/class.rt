//! Symbolic classes.

ghost use Rattle.std.proofs.Common.{rules};

use crate::insn::Insn;
use crate::types::{JType, MethodDesc};
use lists::{Bytes, Name, Plain, Seq, Units};

/// The value of a ConstantValue attribute (JVMS 4.7.2).
#[derive(Clone, Debug, PartialEq, Eq, Drop)]
pub enum Constant {
    Int(i32),
    Long(i64),
    Text(Units),
}

/// A verification type (JVMS 4.10.1.2). `Uninit` holds the number of the `new` instruction that made the object.
#[derive(Clone, Debug, PartialEq, Eq, Drop)]
pub enum VType {
    Top,
    Int,
    Long,
    Null,
    UninitThis,
    Ref(JType),
    Uninit(u32),
}

/// The types of locals and of the operand stack (JVMS 4.7.4), the stack from its bottom. A long is one entry.
#[derive(Clone, Debug, PartialEq, Eq, Drop)]
pub struct Frame {
    pub locals: Seq<VType>,
    pub stack: Seq<VType>,
}

/// A row of the exception table (JVMS 4.7.3), by instruction numbers. `end` is behind the last one covered;
/// `caught` is `None` for a handler of every class.
#[derive(Clone, Debug, PartialEq, Eq, Drop)]
pub struct Handler {
    pub start: u32,
    pub end: u32,
    pub target: u32,
    pub caught: Option<Name>,
}

/// The code of a method (JVMS 4.7.3), with its frames (4.7.4) and its line numbers (4.7.12), each by instruction number.
#[derive(Clone, Debug, PartialEq, Eq, Drop)]
pub struct CodeDef {
    pub max_stack: u16,
    pub max_locals: u16,
    pub insns: Seq<Insn>,
    pub handlers: Seq<Handler>,
    pub frames: Seq<(u32, Frame)>,
    pub lines: Seq<(u32, u16)>,
}

/// A field (JVMS 4.5).
#[derive(Clone, Debug, PartialEq, Eq, Drop)]
pub struct FieldDef {
    pub flags: u16,
    pub name: Name,
    pub ty: JType,
    pub constant: Option<Constant>,
}

/// A method (JVMS 4.6) with its Exceptions (4.7.5).
#[derive(Clone, Debug, PartialEq, Eq, Drop)]
pub struct MethodDef {
    pub flags: u16,
    pub name: Name,
    pub desc: MethodDesc,
    pub throws: Seq<Name>,
    pub code: Option<CodeDef>,
}

/// A row of InnerClasses (JVMS 4.7.6).
#[derive(Clone, Debug, PartialEq, Eq, Drop)]
pub struct InnerRow {
    pub inner: Name,
    pub outer: Option<Name>,
    pub name: Option<Name>,
    pub flags: u16,
}

/// A class file (JVMS 4.1) with its constant pool resolved: indices stand for what they name.
#[derive(Clone, Debug, PartialEq, Eq, Drop)]
pub struct ClassDef {
    pub minor: u16,
    pub major: u16,
    pub flags: u16,
    pub name: Name,
    pub super_name: Option<Name>,
    pub interfaces: Seq<Name>,
    pub fields: Seq<FieldDef>,
    pub methods: Seq<MethodDef>,
    pub source: Option<Bytes>,
    pub inner: Seq<InnerRow>,
}

impl Plain for VType {
    ghost copies = { Prim.search rules };
}

impl Plain for Frame {
    ghost copies = { Prim.search rules };
}

impl Plain for Handler {
    ghost copies = { Prim.search rules };
}

impl Plain for FieldDef {
    ghost copies = { Prim.search rules };
}

impl Plain for CodeDef {
    ghost copies = { Prim.search rules };
}

impl Plain for MethodDef {
    ghost copies = { Prim.search rules };
}

impl Plain for InnerRow {
    ghost copies = { Prim.search rules };
}

impl Plain for ClassDef {
    ghost copies = { Prim.search rules };
}
