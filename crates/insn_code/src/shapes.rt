//! The symbolic instruction of each opcode (JVMS 6.5).

ghost use Rattle.std.specs.Prelude.{◌≡◌, ◌≤◌};
ghost use Rattle.insn_code.specs.Shapes as table;

use class_model::{BinOp, Cond, Conv, Elem, Insn, Kind, Primitive, ShiftOp, StackOp, Width};

// Opcodes without operand, each with its instruction.
macro_rules! rows {
    ($op:ident; $($opcode:literal => $insn:expr),+ $(,)?) => {
        $(if $op == $opcode {
            return Some($insn);
        })+
    };
}

#[tactic(auto, unfolding(crate::specs::Shapes::constant_or_load))]
fn constant_or_load(opcode: u8) -> Option<Insn>
    ensures { result ≡ table.constant_or_load opcode }
{
    match opcode {
        0 => Some(Insn::Nop),
        1 => Some(Insn::PushNull),
        2..=8 => Some(Insn::PushInt(i32::from(opcode) - 3)),
        9..=10 => Some(Insn::PushLong(i64::from(opcode) - 9)),
        26..=29 => Some(Insn::Load(Kind::Int, u16::from(opcode) - 26)),
        30..=33 => Some(Insn::Load(Kind::Long, u16::from(opcode) - 30)),
        42..=45 => Some(Insn::Load(Kind::Ref, u16::from(opcode) - 42)),
        46 => Some(Insn::ArrayLoad(Elem::Int)),
        47 => Some(Insn::ArrayLoad(Elem::Long)),
        50 => Some(Insn::ArrayLoad(Elem::Ref)),
        51 => Some(Insn::ArrayLoad(Elem::Byte)),
        52 => Some(Insn::ArrayLoad(Elem::Char)),
        53 => Some(Insn::ArrayLoad(Elem::Short)),
        _ => None,
    }
}

#[tactic(auto, unfolding(crate::specs::Shapes::store_or_stack))]
fn store_or_stack(opcode: u8) -> Option<Insn>
    ensures { result ≡ table.store_or_stack opcode }
{
    match opcode {
        59..=62 => Some(Insn::Store(Kind::Int, u16::from(opcode) - 59)),
        63..=66 => Some(Insn::Store(Kind::Long, u16::from(opcode) - 63)),
        75..=78 => Some(Insn::Store(Kind::Ref, u16::from(opcode) - 75)),
        79 => Some(Insn::ArrayStore(Elem::Int)),
        80 => Some(Insn::ArrayStore(Elem::Long)),
        83 => Some(Insn::ArrayStore(Elem::Ref)),
        84 => Some(Insn::ArrayStore(Elem::Byte)),
        85 => Some(Insn::ArrayStore(Elem::Char)),
        86 => Some(Insn::ArrayStore(Elem::Short)),
        87 => Some(Insn::Stack(StackOp::Pop)),
        88 => Some(Insn::Stack(StackOp::Pop2)),
        89 => Some(Insn::Stack(StackOp::Dup)),
        90 => Some(Insn::Stack(StackOp::DupX1)),
        91 => Some(Insn::Stack(StackOp::DupX2)),
        92 => Some(Insn::Stack(StackOp::Dup2)),
        93 => Some(Insn::Stack(StackOp::Dup2X1)),
        94 => Some(Insn::Stack(StackOp::Dup2X2)),
        95 => Some(Insn::Stack(StackOp::Swap)),
        _ => None,
    }
}

#[tactic(auto, unfolding(crate::specs::Shapes::binary))]
fn binary(opcode: u8) -> Option<Insn>
    ensures { result ≡ table.binary opcode }
{
    rows!(opcode; 96 => Insn::Bin(Width::Int, BinOp::Add), 97 => Insn::Bin(Width::Long, BinOp::Add));
    rows!(opcode; 100 => Insn::Bin(Width::Int, BinOp::Sub), 101 => Insn::Bin(Width::Long, BinOp::Sub));
    rows!(opcode; 104 => Insn::Bin(Width::Int, BinOp::Mul), 105 => Insn::Bin(Width::Long, BinOp::Mul));
    rows!(opcode; 108 => Insn::Bin(Width::Int, BinOp::Div), 109 => Insn::Bin(Width::Long, BinOp::Div));
    rows!(opcode; 112 => Insn::Bin(Width::Int, BinOp::Rem), 113 => Insn::Bin(Width::Long, BinOp::Rem));
    rows!(opcode; 126 => Insn::Bin(Width::Int, BinOp::And), 127 => Insn::Bin(Width::Long, BinOp::And));
    rows!(opcode; 128 => Insn::Bin(Width::Int, BinOp::Or), 129 => Insn::Bin(Width::Long, BinOp::Or));
    rows!(opcode; 130 => Insn::Bin(Width::Int, BinOp::Xor), 131 => Insn::Bin(Width::Long, BinOp::Xor));
    None
}

#[tactic(auto, unfolding(crate::specs::Shapes::unary_or_shift))]
fn unary_or_shift(opcode: u8) -> Option<Insn>
    ensures { result ≡ table.unary_or_shift opcode }
{
    rows!(opcode; 116 => Insn::Neg(Width::Int), 117 => Insn::Neg(Width::Long));
    rows!(opcode; 120 => Insn::Shift(Width::Int, ShiftOp::Left), 121 => Insn::Shift(Width::Long, ShiftOp::Left));
    rows!(opcode; 122 => Insn::Shift(Width::Int, ShiftOp::Right), 123 => Insn::Shift(Width::Long, ShiftOp::Right));
    rows!(opcode; 124 => Insn::Shift(Width::Int, ShiftOp::Unsigned), 125 => Insn::Shift(Width::Long, ShiftOp::Unsigned));
    rows!(opcode; 133 => Insn::Convert(Conv::IntLong), 136 => Insn::Convert(Conv::LongInt));
    rows!(opcode; 145 => Insn::Convert(Conv::IntByte), 146 => Insn::Convert(Conv::IntChar), 147 => Insn::Convert(Conv::IntShort));
    rows!(opcode; 148 => Insn::Lcmp);
    None
}

#[tactic(auto, unfolding(crate::specs::Shapes::control))]
fn control(opcode: u8) -> Option<Insn>
    ensures { result ≡ table.control opcode }
{
    rows!(opcode; 172 => Insn::Return(Some(Kind::Int)), 173 => Insn::Return(Some(Kind::Long)));
    rows!(opcode; 176 => Insn::Return(Some(Kind::Ref)), 177 => Insn::Return(None));
    rows!(opcode; 190 => Insn::ArrayLength, 191 => Insn::Athrow);
    None
}

/// The instruction of an opcode that stands alone.
#[tactic(auto, unfolding(crate::specs::Shapes::plain))]
pub(crate) fn plain(opcode: u8) -> Option<Insn>
    ensures { result ≡ table.plain opcode }
{
    match opcode {
        0..=53 => constant_or_load(opcode),
        54..=95 => store_or_stack(opcode),
        96..=115 => binary(opcode),
        116..=125 => unary_or_shift(opcode),
        126..=131 => binary(opcode),
        132..=148 => unary_or_shift(opcode),
        _ => control(opcode),
    }
}

/// A load or a store that names its local.
#[tactic(auto, unfolding(crate::specs::Shapes::local))]
pub(crate) fn local(opcode: u8, slot: u16) -> Insn
    ensures { result ≡ table.local opcode slot }
{
    match opcode {
        21 => Insn::Load(Kind::Int, slot),
        22 => Insn::Load(Kind::Long, slot),
        25 => Insn::Load(Kind::Ref, slot),
        54 => Insn::Store(Kind::Int, slot),
        55 => Insn::Store(Kind::Long, slot),
        _ => Insn::Store(Kind::Ref, slot),
    }
}

/// A condition by its place among six opcodes.
fn condition(n: u8) -> Cond
    ensures { result ≡ table.condition n }
{
    match n {
        0 => Cond::Eq,
        1 => Cond::Ne,
        2 => Cond::Lt,
        3 => Cond::Ge,
        4 => Cond::Gt,
        _ => Cond::Le,
    }
}

/// A branch to a target.
#[tactic(auto, unfolding(crate::specs::Shapes::branch))]
pub(crate) fn branch(opcode: u8, target: u32) -> Insn
    ensures { result ≡ table.branch opcode target }
{
    match opcode {
        153..=158 => Insn::If(condition(opcode - 153), target),
        159..=164 => Insn::IfInt(condition(opcode - 159), target),
        165 => Insn::IfRef(true, target),
        166 => Insn::IfRef(false, target),
        198 => Insn::IfNull(true, target),
        199 => Insn::IfNull(false, target),
        _ => Insn::Goto(target),
    }
}

/// The element type of `newarray`.
#[tactic(auto, unfolding(crate::specs::Shapes::element))]
pub(crate) fn element(code: u8) -> Option<Primitive>
    ensures { result ≡ table.element code }
{
    match code {
        4 => Some(Primitive::Boolean),
        5 => Some(Primitive::Char),
        6 => Some(Primitive::Float),
        7 => Some(Primitive::Double),
        8 => Some(Primitive::Byte),
        9 => Some(Primitive::Short),
        10 => Some(Primitive::Int),
        11 => Some(Primitive::Long),
        _ => None,
    }
}
