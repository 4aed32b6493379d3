//! The opcode of each symbolic instruction (JVMS 6.5), by its shape.

ghost use Rattle.std.specs.Prelude.{◌≡◌};
ghost use Rattle.insn_spelling.specs.OpcodeOf as opcode;

use class_model::{BinOp, Cond, Conv, Elem, InvokeKind, Kind, Primitive, ShiftOp, StackOp, Width};

// A number for each variant.
macro_rules! numbers {
    ($of:expr; $family:ident; $($variant:ident $number:literal),+ $(,)?) => {
        match $of {
            $($family::$variant => $number,)+
        }
    };
}

// An opcode for ints and one for longs, for each variant.
macro_rules! widths {
    ($width:expr, $of:expr; $family:ident; $($variant:ident $int:literal $long:literal),+ $(,)?) => {
        match $of {
            $($family::$variant => by_width($int, $long, $width),)+
        }
    };
}

/// `iload`, `lload` and `aload`.
pub(crate) fn load(kind: Kind) -> u8
    ensures { result ≡ opcode.load kind }
{
    numbers!(kind; Kind; Int 21, Long 22, Ref 25)
}

/// `iload_0`, `lload_0` and `aload_0`.
pub(crate) fn load_0(kind: Kind) -> u8
    ensures { result ≡ opcode.load_0 kind }
{
    numbers!(kind; Kind; Int 26, Long 30, Ref 42)
}

/// `istore`, `lstore` and `astore`.
pub(crate) fn store(kind: Kind) -> u8
    ensures { result ≡ opcode.store kind }
{
    numbers!(kind; Kind; Int 54, Long 55, Ref 58)
}

/// `istore_0`, `lstore_0` and `astore_0`.
pub(crate) fn store_0(kind: Kind) -> u8
    ensures { result ≡ opcode.store_0 kind }
{
    numbers!(kind; Kind; Int 59, Long 63, Ref 75)
}

pub(crate) fn array_load(elem: Elem) -> u8
    ensures { result ≡ opcode.array_load elem }
{
    numbers!(elem; Elem; Int 46, Long 47, Ref 50, Byte 51, Char 52, Short 53)
}

pub(crate) fn array_store(elem: Elem) -> u8
    ensures { result ≡ opcode.array_store elem }
{
    numbers!(elem; Elem; Int 79, Long 80, Ref 83, Byte 84, Char 85, Short 86)
}

/// The element type of `newarray`.
pub(crate) fn element_code(primitive: Primitive) -> u8
    ensures { result ≡ opcode.element_code primitive }
{
    numbers!(primitive; Primitive; Boolean 4, Char 5, Float 6, Double 7, Byte 8, Short 9, Int 10, Long 11)
}

pub(crate) fn stack_op(op: StackOp) -> u8
    ensures { result ≡ opcode.stack_op op }
{
    numbers!(op; StackOp; Pop 87, Pop2 88, Dup 89, DupX1 90, DupX2 91, Dup2 92, Dup2X1 93, Dup2X2 94, Swap 95)
}

fn by_width(int: u8, long: u8, width: Width) -> u8
    ensures { result ≡ opcode.by_width int long width }
{
    match width {
        Width::Int => int,
        Width::Long => long,
    }
}

pub(crate) fn bin(width: Width, op: BinOp) -> u8
    ensures { result ≡ opcode.bin width op }
{
    widths!(width, op; BinOp; Add 96 97, Sub 100 101, Mul 104 105, Div 108 109, Rem 112 113, And 126 127, Or 128 129, Xor 130 131)
}

pub(crate) fn neg(width: Width) -> u8
    ensures { result ≡ opcode.neg width }
{
    by_width(116, 117, width)
}

pub(crate) fn shift(width: Width, op: ShiftOp) -> u8
    ensures { result ≡ opcode.shift width op }
{
    widths!(width, op; ShiftOp; Left 120 121, Right 122 123, Unsigned 124 125)
}

pub(crate) fn convert(conv: Conv) -> u8
    ensures { result ≡ opcode.convert conv }
{
    numbers!(conv; Conv; IntLong 133, LongInt 136, IntByte 145, IntChar 146, IntShort 147)
}

/// `ifeq` to `ifle`.
pub(crate) fn if_zero(cond: Cond) -> u8
    ensures { result ≡ opcode.if_zero cond }
{
    numbers!(cond; Cond; Eq 153, Ne 154, Lt 155, Ge 156, Gt 157, Le 158)
}

/// `if_icmpeq` to `if_icmple`.
pub(crate) fn if_int(cond: Cond) -> u8
    ensures { result ≡ opcode.if_int cond }
{
    numbers!(cond; Cond; Eq 159, Ne 160, Lt 161, Ge 162, Gt 163, Le 164)
}

pub(crate) fn if_ref(same: bool) -> u8
    ensures { result ≡ opcode.if_ref same }
{
    if same { 165 } else { 166 }
}

pub(crate) fn if_null(null: bool) -> u8
    ensures { result ≡ opcode.if_null null }
{
    if null { 198 } else { 199 }
}

/// `goto_w` or `goto`.
pub(crate) fn goto(wide: bool) -> u8
    ensures { result ≡ opcode.goto wide }
{
    if wide { 200 } else { 167 }
}

pub(crate) fn return_(kind: Option<Kind>) -> u8
    ensures { result ≡ opcode.return kind }
{
    match kind {
        None => 177,
        Some(kind) => numbers!(kind; Kind; Int 172, Long 173, Ref 176),
    }
}

pub(crate) fn invoke(kind: InvokeKind) -> u8
    ensures { result ≡ opcode.invoke kind }
{
    numbers!(kind; InvokeKind; Virtual 182, Special 183, Static 184, Interface 185)
}
