//! Instructions.

ghost use Rattle.std.specs.Prelude.{◌≡◌};

use crate::types::{FieldRef, JType, MethodRef, Primitive};
use lists::{Name, Plain, Seq, Units};
use std::alloc::AllocError;

/// The two widths of arithmetic.
#[derive(Clone, Copy, Debug, PartialEq, Eq)]
pub enum Width {
    Int,
    Long,
}

/// What a load, a store or a return moves.
#[derive(Clone, Copy, Debug, PartialEq, Eq)]
pub enum Kind {
    Int,
    Long,
    Ref,
}

/// What an array instruction moves. `Byte` serves byte and boolean arrays.
#[derive(Clone, Copy, Debug, PartialEq, Eq)]
pub enum Elem {
    Int,
    Long,
    Ref,
    Byte,
    Char,
    Short,
}

/// The condition of a branch on numbers.
#[derive(Clone, Copy, Debug, PartialEq, Eq)]
pub enum Cond {
    Eq,
    Ne,
    Lt,
    Ge,
    Gt,
    Le,
}

/// An operation on two numbers of one width.
#[derive(Clone, Copy, Debug, PartialEq, Eq)]
pub enum BinOp {
    Add,
    Sub,
    Mul,
    Div,
    Rem,
    And,
    Or,
    Xor,
}

/// A shift. `Unsigned` is the logical right shift.
#[derive(Clone, Copy, Debug, PartialEq, Eq)]
pub enum ShiftOp {
    Left,
    Right,
    Unsigned,
}

/// A conversion from the first to the second.
#[derive(Clone, Copy, Debug, PartialEq, Eq)]
pub enum Conv {
    IntLong,
    LongInt,
    IntByte,
    IntChar,
    IntShort,
}

/// An operation on stack words, whatever they hold.
#[derive(Clone, Copy, Debug, PartialEq, Eq)]
pub enum StackOp {
    Pop,
    Pop2,
    Dup,
    DupX1,
    DupX2,
    Dup2,
    Dup2X1,
    Dup2X2,
    Swap,
}

/// How a call selects its method.
#[derive(Clone, Copy, Debug, PartialEq, Eq)]
pub enum InvokeKind {
    Virtual,
    Special,
    Static,
    Interface,
}

/// An instruction (JVMS 6.5), one shape for each family of opcodes. What the constant pool gives stands here
/// by name, and a branch names its target by the number of an instruction, from 0.
#[derive(Debug, PartialEq, Eq, Drop)]
pub enum Insn {
    Nop,
    PushNull,
    PushInt(i32),
    PushLong(i64),
    PushString(Units),
    Load(Kind, u16),
    Store(Kind, u16),
    ArrayLoad(Elem),
    ArrayStore(Elem),
    Stack(StackOp),
    Bin(Width, BinOp),
    Shift(Width, ShiftOp),
    Neg(Width),
    /// The local and what is added to it.
    Iinc(u16, i16),
    Convert(Conv),
    Lcmp,
    If(Cond, u32),
    IfInt(Cond, u32),
    /// True for `if_acmpeq`, false for `if_acmpne`.
    IfRef(bool, u32),
    /// True for `ifnull`, false for `ifnonnull`.
    IfNull(bool, u32),
    Goto(u32),
    TableSwitch {
        low: i32,
        default: u32,
        targets: Seq<u32>,
    },
    LookupSwitch {
        default: u32,
        rows: Seq<(i32, u32)>,
    },
    Return(Option<Kind>),
    GetStatic(FieldRef),
    PutStatic(FieldRef),
    GetField(FieldRef),
    PutField(FieldRef),
    Invoke(InvokeKind, MethodRef),
    New(Name),
    NewArray(Primitive),
    ANewArray(JType),
    ArrayLength,
    Athrow,
    CheckCast(JType),
    InstanceOf(JType),
    /// The array type and how many of its dimensions are made.
    MultiNewArray(JType, u8),
}

impl Clone for Insn {
    ghost is_clone = { λ insn copy. copy ≡ insn };

    fn clone(&self) -> Result<Insn, AllocError> {
        match self {
            Insn::Nop => Ok(Insn::Nop),
            Insn::PushNull => Ok(Insn::PushNull),
            Insn::PushInt(n) => Ok(Insn::PushInt(*n)),
            Insn::PushLong(n) => Ok(Insn::PushLong(*n)),
            Insn::PushString(text) => Ok(Insn::PushString(text.clone()?)),
            Insn::Load(kind, slot) => Ok(Insn::Load(*kind, *slot)),
            Insn::Store(kind, slot) => Ok(Insn::Store(*kind, *slot)),
            Insn::ArrayLoad(elem) => Ok(Insn::ArrayLoad(*elem)),
            Insn::ArrayStore(elem) => Ok(Insn::ArrayStore(*elem)),
            Insn::Stack(op) => Ok(Insn::Stack(*op)),
            Insn::Bin(width, op) => Ok(Insn::Bin(*width, *op)),
            Insn::Shift(width, op) => Ok(Insn::Shift(*width, *op)),
            Insn::Neg(width) => Ok(Insn::Neg(*width)),
            Insn::Iinc(slot, step) => Ok(Insn::Iinc(*slot, *step)),
            Insn::Convert(conv) => Ok(Insn::Convert(*conv)),
            Insn::Lcmp => Ok(Insn::Lcmp),
            Insn::If(cond, target) => Ok(Insn::If(*cond, *target)),
            Insn::IfInt(cond, target) => Ok(Insn::IfInt(*cond, *target)),
            Insn::IfRef(same, target) => Ok(Insn::IfRef(*same, *target)),
            Insn::IfNull(null, target) => Ok(Insn::IfNull(*null, *target)),
            Insn::Goto(target) => Ok(Insn::Goto(*target)),
            Insn::TableSwitch {
                low,
                default,
                targets,
            } => Ok(Insn::TableSwitch {
                low: *low,
                default: *default,
                targets: targets.clone()?,
            }),
            Insn::LookupSwitch { default, rows } => Ok(Insn::LookupSwitch {
                default: *default,
                rows: rows.clone()?,
            }),
            Insn::Return(kind) => Ok(Insn::Return(*kind)),
            Insn::GetStatic(field) => Ok(Insn::GetStatic(field.clone()?)),
            Insn::PutStatic(field) => Ok(Insn::PutStatic(field.clone()?)),
            Insn::GetField(field) => Ok(Insn::GetField(field.clone()?)),
            Insn::PutField(field) => Ok(Insn::PutField(field.clone()?)),
            Insn::Invoke(kind, method) => Ok(Insn::Invoke(*kind, method.clone()?)),
            Insn::New(class) => Ok(Insn::New(class.clone()?)),
            Insn::NewArray(primitive) => Ok(Insn::NewArray(*primitive)),
            Insn::ANewArray(ty) => Ok(Insn::ANewArray(ty.clone()?)),
            Insn::ArrayLength => Ok(Insn::ArrayLength),
            Insn::Athrow => Ok(Insn::Athrow),
            Insn::CheckCast(ty) => Ok(Insn::CheckCast(ty.clone()?)),
            Insn::InstanceOf(ty) => Ok(Insn::InstanceOf(ty.clone()?)),
            Insn::MultiNewArray(ty, dims) => Ok(Insn::MultiNewArray(ty.clone()?, *dims)),
        }
    }
}

impl Plain for Insn {
    ghost copies = { λ x y same. same };
}
