use super::*;
use class_input::{BadClass, BadKind, Input};
use class_model::{Constant, Insn};
use std::alloc::Global;
use std::process::Abort;
use std::test::Fail;

const POOL: [u8; 97] = [
    0, 22, // the count
    1, 0, 3, 97, 47, 66, // 1: "a/B"
    7, 0, 1, // 2: class a/B
    1, 0, 2, 91, 73, // 3: "[I"
    7, 0, 3, // 4: class [I
    1, 0, 1, 73, // 5: "I"
    1, 0, 3, 40, 41, 86, // 6: "()V"
    1, 0, 1, 120, // 7: "x"
    12, 0, 7, 0, 5, // 8: x, I
    12, 0, 7, 0, 6, // 9: x, ()V
    9, 0, 2, 0, 8, // 10: the field a/B.x
    10, 0, 4, 0, 9, // 11: the method x of [I
    11, 0, 2, 0, 9, // 12: the method x of the interface a/B
    3, 255, 255, 255, 254, // 13: -2
    5, 255, 255, 255, 255, 255, 255, 255, 253, // 14: -3
    8, 0, 7, // 16: the String "x"
    1, 0, 1, 59, // 17: ";"
    7, 0, 17, // 18: class ;
    12, 0, 7, 0, 17, // 19: x, ;
    9, 0, 2, 0, 19, // 20: a field with a bad type
    4, 63, 128, 0, 0, // 21: a Float
];

fn index(k: u8) -> [u8; 2] {
    [0, k]
}

fn pool(alloc: Global) -> Result<NamedPool, BadClass> {
    NamedPool::read(alloc, &mut Input::new(&POOL))
}

fn names_are_read(rt: &impl Abort, pool: &NamedPool) -> Result<(), Fail> {
    assert!(rt; next_name(pool, &mut Input::new(&index(7)))?.is("x"));
    assert!(rt; next_optional_name(pool, &mut Input::new(&index(0)))?.is_none());
    assert!(rt; next_bytes(pool, &mut Input::new(&index(3)))?.as_slice() == b"[I".as_slice());
    assert!(rt; next_class_name(pool, &mut Input::new(&index(18)))?.is(";"));
    let outer = next_optional_class_name(pool, &mut Input::new(&index(2)))?;
    assert!(rt; matches!(&outer, Some(name) if name.is("a/B")));
    Ok(())
}

fn types_are_read(rt: &impl Abort, pool: &NamedPool) -> Result<(), Fail> {
    let class = next_class_type(pool, &mut Input::new(&index(4)))?;
    assert_eq!(rt; class.depth, 1);
    let field = next_field_type(pool, &mut Input::new(&index(5)))?;
    assert_eq!(rt; field.depth, 0);
    let desc = next_method_desc(pool, &mut Input::new(&index(6)))?;
    assert!(rt; desc.params.is_empty() && desc.result.is_none());
    Ok(())
}

/// Each reader of a next index, once.
#[test]
fn next_ones(rt: HostRuntime) -> Result<(), Fail> {
    let alloc = rt.alloc();
    let pool = pool(alloc)?;
    names_are_read(&rt, &pool)?;
    types_are_read(&rt, &pool)?;
    let constant = next_constant(alloc, &pool, &mut Input::new(&index(14)))?;
    assert!(rt; matches!(&constant, Constant::Long(-3)));
    Ok(())
}

fn a_field_is_read(rt: &impl Abort, pool: &NamedPool) -> Result<(), Fail> {
    let field = next_field(pool, &mut Input::new(&index(10)))?;
    assert!(rt; field.class.is("a/B") && field.name.is("x") && field.ty.depth == 0);
    Ok(())
}

fn methods_are_read(rt: &impl Abort, pool: &NamedPool) -> Result<(), Fail> {
    let method = next_method(MethodEntry::OfClass, pool, &mut Input::new(&index(11)))?;
    assert!(rt; method.class.depth == 1 && method.name.is("x") && !method.in_interface);
    let method = method_at(MethodEntry::Either, pool, 0, 12)?;
    assert!(rt; method.class.depth == 0 && method.in_interface);
    Ok(())
}

#[test]
fn members(rt: HostRuntime) -> Result<(), Fail> {
    let pool = pool(rt.alloc())?;
    a_field_is_read(&rt, &pool)?;
    methods_are_read(&rt, &pool)
}

fn constants_are_read(rt: &impl Abort, alloc: Global, pool: &NamedPool) -> Result<(), Fail> {
    assert!(rt; matches!(&pushed_at(alloc, pool, 0, 13)?, Insn::PushInt(-2)));
    let text = pushed_at(alloc, pool, 0, 16)?;
    assert!(rt; matches!(&text, Insn::PushString(text) if text.as_slice() == [120].as_slice()));
    assert_eq!(rt; long_at(pool, 0, 14)?, -3);
    assert!(rt; string_at(alloc, pool, 0, 16)?.as_slice() == [120].as_slice());
    Ok(())
}

#[test]
fn constants(rt: HostRuntime) -> Result<(), Fail> {
    let pool = pool(rt.alloc())?;
    constants_are_read(&rt, rt.alloc(), &pool)
}

fn is_bad<T: Drop>(answer: Result<T, BadClass>, kind: BadKind) -> bool {
    matches!(&answer, Err(BadClass::Bad { place: 9, kind: told }) if *told == kind)
}

/// What is refused, at the place of the field that holds the index.
#[test]
fn refusals(rt: HostRuntime) -> Result<(), Fail> {
    let alloc = rt.alloc();
    let pool = pool(alloc)?;
    assert!(rt; is_bad(text_at(alloc, &pool, 9, 0), BadKind::PoolIndex(0)));
    assert!(rt; is_bad(long_at(&pool, 9, 15), BadKind::PoolIndex(15)));
    assert!(rt; is_bad(class_name_at(&pool, 9, 22), BadKind::PoolIndex(22)));
    assert!(rt; is_bad(class_name_at(&pool, 9, 1), BadKind::PoolKind(1)));
    assert!(rt; is_bad(class_type_at(&pool, 9, 18), BadKind::Descriptor));
    assert!(rt; is_bad(field_at(&pool, 9, 20), BadKind::Descriptor));
    assert!(rt; is_bad(pushed_at(alloc, &pool, 9, 2), BadKind::PoolKind(2)));
    assert!(rt; is_bad(pushed_at(alloc, &pool, 9, 14), BadKind::PoolKind(14)));
    assert!(rt; is_bad(constant_at(alloc, &pool, 9, 21), BadKind::PoolKind(21)));
    let of_class = method_at(MethodEntry::OfClass, &pool, 9, 12);
    assert!(rt; is_bad(of_class, BadKind::PoolKind(12)));
    let of_interface = method_at(MethodEntry::OfInterface, &pool, 9, 11);
    assert!(rt; is_bad(of_interface, BadKind::PoolKind(11)));
    Ok(())
}
