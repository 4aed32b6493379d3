use crate::read_insns;
use class_input::{BadClass, BadKind, Input};
use class_model::{Cond, Insn};
use class_names::NamedPool;
use std::alloc::Global;
use std::process::Abort;
use std::test::Fail;

/// The number of instructions, or the first bad place.
fn read(alloc: Global, code: &[u8]) -> Result<usize, BadClass> {
    let pool = NamedPool::read(alloc, &mut Input::new(&[0, 1]))?;
    let mut input = Input::new(code);
    if code.len() > 65535 {
        return Err(BadClass::Memory);
    }
    let (insns, starts) = read_insns(alloc, &pool, code.len(), &mut input)?;
    if starts.size() == code.len() {
        Ok(insns.len())
    } else {
        Err(BadClass::Memory)
    }
}

fn refuses(rt: &impl Abort, alloc: Global, code: &[u8], place: usize, kind: BadKind) {
    assert_eq!(rt; read(alloc, code), Err(BadClass::Bad { place, kind }));
}

#[test]
fn branches(rt: HostRuntime) -> Result<(), BadClass> {
    let alloc = rt.alloc();
    let pool = NamedPool::read(alloc, &mut Input::new(&[0, 1]))?;
    // iconst_0, ifne to itself, goto_w to iconst_0.
    let code = [0x03, 0x9a, 0x00, 0x00, 0xc8, 0xff, 0xff, 0xff, 0xfc];
    let (insns, starts) = read_insns(alloc, &pool, 9, &mut Input::new(&code))?;
    let want = [Insn::PushInt(0), Insn::If(Cond::Ne, 1), Insn::Goto(0)];
    assert_eq!(rt; insns.as_slice(), want.as_slice());
    assert_eq!(rt; starts.number(4), Some(2));
    assert_eq!(rt; starts.number(5), None);
    Ok(())
}

#[test]
fn first_bad_places(rt: HostRuntime) {
    let alloc = rt.alloc();
    // A branch into another's operand, behind the code, and before it.
    refuses(
        &rt,
        alloc,
        &[0x00, 0xa7, 0xff, 0xff, 0xa7, 0x00, 0x01],
        4,
        BadKind::Target,
    );
    refuses(&rt, alloc, &[0xa7, 0x00, 0x03], 0, BadKind::Target);
    refuses(&rt, alloc, &[0xa7, 0xff, 0xff], 0, BadKind::Target);
    // A branch is judged once the code has ended.
    refuses(&rt, alloc, &[0xa7, 0x00, 0x01, 0x0b], 3, BadKind::Code(11));
    refuses(&rt, alloc, &[0xa7, 0x00, 0x01, 0x10], 4, BadKind::Short);
    // `wide` of another opcode, and an index that names nothing.
    refuses(&rt, alloc, &[0xc4, 0x60], 1, BadKind::Operand);
    refuses(&rt, alloc, &[0xb9, 0x00, 0x07], 1, BadKind::PoolIndex(7));
    // Padding that is missing, and keys that do not ascend.
    refuses(&rt, alloc, &[0xaa, 0x00], 2, BadKind::Short);
    let keys = [
        0xab, 9, 9, 9, 0, 0, 0, 0, 0, 0, 0, 2, 0, 0, 0, 5, 0, 0, 0, 0, 0, 0, 0, 5,
    ];
    refuses(&rt, alloc, &keys, 20, BadKind::Operand);
}
