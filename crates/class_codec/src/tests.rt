//! The class file of a small program, and code with every kind of table.

use super::*;
use class_model::{
    ClassDef, CodeDef, Frame, Handler, Insn, Kind, MethodDef, MethodDesc, StackOp, VType,
};
use class_shape::is_shaped;
use lists::{Name, Seq};
use std::alloc::{AllocError, Global};
use std::test::Fail;

/// Class `A` of major 52, whose `main` reads two bytes, adds them and writes the sum.
const SUM: [u8; 193] = [
    202, 254, 186, 190, 0, 0, 0, 52, 0, 18, 1, 0, 1, 65, 7, 0, 1, 1, 0, 16, 106, 97, 118, 97, 47,
    108, 97, 110, 103, 47, 79, 98, 106, 101, 99, 116, 7, 0, 3, 1, 0, 4, 109, 97, 105, 110, 1, 0,
    22, 40, 91, 76, 106, 97, 118, 97, 47, 108, 97, 110, 103, 47, 83, 116, 114, 105, 110, 103, 59,
    41, 86, 1, 0, 4, 67, 111, 100, 101, 1, 0, 10, 115, 121, 115, 47, 78, 97, 116, 105, 118, 101, 7,
    0, 8, 1, 0, 4, 114, 101, 97, 100, 1, 0, 3, 40, 41, 73, 12, 0, 10, 0, 11, 10, 0, 9, 0, 12, 1, 0,
    5, 119, 114, 105, 116, 101, 1, 0, 4, 40, 73, 41, 86, 12, 0, 14, 0, 15, 10, 0, 9, 0, 16, 0, 33,
    0, 2, 0, 4, 0, 0, 0, 0, 0, 1, 0, 9, 0, 5, 0, 6, 0, 1, 0, 7, 0, 0, 0, 23, 0, 2, 0, 1, 0, 0, 0,
    11, 184, 0, 13, 184, 0, 13, 96, 184, 0, 17, 177, 0, 0, 0, 0, 0, 0,
];

/// The entries stand in the order in which the class needs them, so the bytes come back.
#[test]
fn a_class(rt: HostRuntime) -> Result<(), Fail> {
    let alloc = rt.alloc();
    let class = decode_class(alloc, &SUM)?;
    assert!(rt; is_shaped(&class));
    let again = encode_class(alloc, &class)?;
    assert!(rt; again.as_slice() == SUM.as_slice());
    Ok(())
}

fn insns(alloc: Global) -> Result<Seq<Insn>, AllocError> {
    let mut insns = Seq::new(alloc);
    insns.push(Insn::PushInt(70_000))?;
    insns.push(Insn::Store(Kind::Int, 300))?;
    insns.push(Insn::Iinc(300, 1_000))?;
    insns.push(Insn::Load(Kind::Int, 300))?;
    insns.push(Insn::TableSwitch {
        low: 1,
        default: 6,
        targets: Seq::from_vec(Vec::from_slice(alloc, &[5, 6])?),
    })?;
    insns.push(Insn::Goto(6))?;
    insns.push(Insn::New(Name::from_str(alloc, "A")?))?;
    insns.push(Insn::Stack(StackOp::Pop))?;
    insns.push(Insn::PushLong(5))?;
    insns.push(Insn::Return(None))?;
    Ok(insns)
}

fn frame(alloc: Global, local: VType, stack: Option<VType>) -> Result<Frame, AllocError> {
    let mut frame = Frame {
        locals: Seq::new(alloc),
        stack: Seq::new(alloc),
    };
    frame.locals.push(local)?;
    if let Some(top) = stack {
        frame.stack.push(top)?;
    }
    Ok(frame)
}

fn code(alloc: Global) -> Result<CodeDef, AllocError> {
    let mut code = CodeDef {
        max_stack: 2,
        max_locals: 301,
        insns: insns(alloc)?,
        handlers: Seq::new(alloc),
        frames: Seq::new(alloc),
        lines: Seq::new(alloc),
    };
    code.handlers.push(Handler {
        start: 4,
        end: 10,
        target: 9,
        caught: Some(Name::from_str(alloc, "E")?),
    })?;
    code.frames.push((6, frame(alloc, VType::Long, None)?))?;
    code.frames
        .push((7, frame(alloc, VType::Top, Some(VType::Uninit(6)))?))?;
    code.lines.push((9, 7))?;
    code.lines.push((0, 8))?;
    Ok(code)
}

fn class(alloc: Global) -> Result<ClassDef, AllocError> {
    let mut class = ClassDef {
        minor: 0,
        major: 52,
        flags: 0x21,
        name: Name::from_str(alloc, "A")?,
        super_name: Some(Name::from_str(alloc, "java/lang/Object")?),
        interfaces: Seq::new(alloc),
        fields: Seq::new(alloc),
        methods: Seq::new(alloc),
        source: None,
        inner: Seq::new(alloc),
    };
    class.methods.push(MethodDef {
        flags: 8,
        name: Name::from_str(alloc, "m")?,
        desc: MethodDesc {
            params: Seq::new(alloc),
            result: None,
        },
        throws: Seq::new(alloc),
        code: Some(code(alloc)?),
    })?;
    Ok(class)
}

/// Switches, wide forms, entries of the pool, handlers, frames and lines read back.
#[test]
fn tables_of_code(rt: HostRuntime) -> Result<(), Fail> {
    let alloc = rt.alloc();
    let class = class(alloc)?;
    assert!(rt; is_shaped(&class));
    let bytes = encode_class(alloc, &class)?;
    let again = decode_class(alloc, bytes.as_slice())?;
    assert!(rt; again == class);
    Ok(())
}
