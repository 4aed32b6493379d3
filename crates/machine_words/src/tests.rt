use crate::*;
use class_model::{BinOp, Cond, ShiftOp};
use std::alloc::{AllocError, Global};
use std::test::Fail;

fn int(word: Option<Word<i32>>) -> Option<i32> {
    match word {
        Some(word) => match word.shape {
            Shape::Num(v, _) => Some(v),
            _ => None,
        },
        None => None,
    }
}

#[test]
fn arithmetic_wraps_and_masks(rt: HostRuntime) {
    assert_eq!(rt; int_of(BinOp::Div, -2147483648, -1), -2147483648);
    assert_eq!(rt; int_of(BinOp::Rem, -7, 2), -1);
    assert_eq!(rt; long_of(BinOp::Rem, -9223372036854775808, -1), 0);
    assert_eq!(rt; shift_int(ShiftOp::Left, 1, 33), 2);
    assert_eq!(rt; shift_int(ShiftOp::Unsigned, -1, 28), 15);
    assert_eq!(rt; shift_long(ShiftOp::Right, -16, 66), -4);
    assert_eq!(rt; compare(-1, 1), -1);
    assert_eq!(rt; int_to_byte(384), -128);
    assert_eq!(rt; int_to_char(-1), 65535);
    assert_eq!(rt; int_to_short(32768), -32768);
    assert_eq!(rt; long_to_int(4294967297), 1);
    assert_eq!(rt; lowest_bit(-3), 1);
    assert_eq!(rt; lowest_byte(-1), 255);
    assert!(rt; holds(Cond::Le, 3, 3));
}

fn filled(alloc: Global) -> Result<Stack<i32>, AllocError> {
    let mut stack = Stack::with_room(alloc, 4)?;
    stack.push(Word::num(7, i32::none()))?;
    stack.push_value(Word::long(5, 1))?;
    stack.push_two(Word::null(), Word::reference(9))?;
    Ok(stack)
}

#[test]
fn stacks_hold_words(rt: HostRuntime) -> Result<(), Fail> {
    let mut stack = filled(rt.alloc())?;
    assert_eq!(rt; stack.len(), 5);
    assert!(rt; matches!(stack.long_at(2), Some((5, 1))));
    assert!(rt; stack.int_at(4).is_some());
    let top = stack.pop();
    assert!(rt; int(top).is_none());
    stack.clear();
    stack.push_long(Word::long(3, 0))?;
    assert!(rt; stack.peek(2).is_none());
    assert_eq!(rt; stack.len(), 2);
    Ok(())
}

#[test]
fn locals_hold_words(rt: HostRuntime) -> Result<(), Fail> {
    let mut locals = Locals::new(rt.alloc(), 3)?;
    locals.store(0, Word::num(4, 1));
    locals.store(1, Word::long(6, 2.join(1)?));
    assert_eq!(rt; int(locals.get(0)), Some(4));
    assert!(rt; int(locals.get(2)).is_none());
    assert!(rt; locals.get(3).is_none());
    Ok(())
}
