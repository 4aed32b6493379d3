//! Arithmetic on ints and longs (JVMS 2.11, 6.5).

ghost use Rattle.std.specs.Prelude.{◌≡◌, ◌↔◌, IsTrue, true};
ghost use Rattle.run_state.specs.Numbers as numbers;
ghost use Rattle.machine_words.specs.Arith.{IsDefined};

use class_model::{BinOp, Cond, Conv, ShiftOp, Width};

/// An operation on two ints. A division has a divisor that is not 0.
pub fn int_of(op: BinOp, a: i32, b: i32) -> i32
    requires { IsDefined op b }
    ensures { result ≡ numbers.number_of Width.Int op a b }
{
    match op {
        BinOp::Add => a.wrapping_add(b),
        BinOp::Sub => a.wrapping_sub(b),
        BinOp::Mul => a.wrapping_mul(b),
        BinOp::Div => a.wrapping_div(b),
        BinOp::Rem => a.wrapping_rem(b),
        BinOp::And => a & b,
        BinOp::Or => a | b,
        BinOp::Xor => a ^ b,
    }
}

/// An operation on two longs. A division has a divisor that is not 0.
pub fn long_of(op: BinOp, a: i64, b: i64) -> i64
    requires { IsDefined op b }
    ensures { result ≡ numbers.number_of Width.Long op a b }
{
    match op {
        BinOp::Add => a.wrapping_add(b),
        BinOp::Sub => a.wrapping_sub(b),
        BinOp::Mul => a.wrapping_mul(b),
        BinOp::Div => a.wrapping_div(b),
        BinOp::Rem => a.wrapping_rem(b),
        BinOp::And => a & b,
        BinOp::Or => a | b,
        BinOp::Xor => a ^ b,
    }
}

/// A shift of an int by the lowest 5 bits of the count.
pub fn shift_int(op: ShiftOp, a: i32, count: i32) -> i32
    ensures { result ≡ numbers.shifted Width.Int op a count }
{
    let n = count.cast_unsigned() % 32;
    match op {
        ShiftOp::Left => a << n,
        ShiftOp::Right => a >> n,
        ShiftOp::Unsigned => (a.cast_unsigned() >> n).cast_signed(),
    }
}

/// A shift of a long by the lowest 6 bits of the count.
pub fn shift_long(op: ShiftOp, a: i64, count: i32) -> i64
    ensures { result ≡ numbers.shifted Width.Long op a count }
{
    let n = count.cast_unsigned() % 64;
    match op {
        ShiftOp::Left => a << n,
        ShiftOp::Right => a >> n,
        ShiftOp::Unsigned => (a.cast_unsigned() >> n).cast_signed(),
    }
}

/// The lowest 32 bits of a long.
pub fn long_to_int(v: i64) -> i32
    ensures { result ≡ numbers.converted Conv.LongInt v }
{
    ((v.cast_unsigned() % 4294967296) as u32).cast_signed()
}

/// The lowest 8 bits of an int, with their sign.
pub fn int_to_byte(v: i32) -> i32
    ensures { result ≡ numbers.as_byte v }
{
    i32::from(((v.cast_unsigned() % 256) as u8).cast_signed())
}

/// The lowest 16 bits of an int, without a sign.
pub fn int_to_char(v: i32) -> i32
    ensures { result ≡ numbers.as_char v }
{
    i32::from((v.cast_unsigned() % 65536) as u16)
}

/// The lowest 16 bits of an int, with their sign.
pub fn int_to_short(v: i32) -> i32
    ensures { result ≡ numbers.as_short v }
{
    i32::from(((v.cast_unsigned() % 65536) as u16).cast_signed())
}

/// What a boolean keeps of an int.
pub fn lowest_bit(v: i32) -> i32
    ensures { result ≡ numbers.as_boolean v }
{
    (v.cast_unsigned() % 2).cast_signed()
}

/// The byte that an int is on the console.
pub fn lowest_byte(v: i32) -> u8
    ensures { result ≡ numbers.low_byte v }
{
    (v.cast_unsigned() % 256) as u8
}

/// -1, 0 or 1, as the first long is less, the same or greater.
pub fn compare(a: i64, b: i64) -> i32
    ensures { result ≡ numbers.compared a b }
{
    if a < b {
        -1
    } else if b < a {
        1
    } else {
        0
    }
}

/// Whether two ints meet a condition.
pub fn holds(cond: Cond, a: i32, b: i32) -> bool
    ensures { result ≡ numbers.holds cond a b }
{
    match cond {
        Cond::Eq => a == b,
        Cond::Ne => a != b,
        Cond::Lt => a < b,
        Cond::Ge => a >= b,
        Cond::Gt => a > b,
        Cond::Le => a <= b,
    }
}
