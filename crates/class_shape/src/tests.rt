use crate::is_shaped;
use class_model::{
    BaseType, ClassDef, CodeDef, Cond, Frame, Handler, Insn, InvokeKind, JType, MethodDef,
    MethodDesc, MethodRef, Primitive, VType,
};
use lists::{Name, Seq};
use std::alloc::Global;
use std::test::Fail;

fn code(alloc: Global, insns: Vec<Insn>) -> CodeDef {
    CodeDef {
        max_stack: 0,
        max_locals: 0,
        insns: Seq::from_vec(insns),
        handlers: Seq::new(alloc),
        frames: Seq::new(alloc),
        lines: Seq::new(alloc),
    }
}

/// Whether a class is shaped that has one method, with this code.
fn is_shaped_with(alloc: Global, code: CodeDef) -> Result<bool, Fail> {
    let method = MethodDef {
        flags: 8,
        name: Name::from_str(alloc, "m")?,
        desc: MethodDesc {
            params: Seq::new(alloc),
            result: None,
        },
        throws: Seq::new(alloc),
        code: Some(code),
    };
    let name = Name::from_str(alloc, "A")?;
    let class = ClassDef {
        minor: 0,
        major: 52,
        flags: 33,
        name,
        super_name: None,
        interfaces: Seq::new(alloc),
        fields: Seq::new(alloc),
        methods: Seq::from_vec(vec![in alloc; method]?),
        source: None,
        inner: Seq::new(alloc),
    };
    Ok(is_shaped(&class))
}

/// Whether the code of one instruction is shaped.
fn is_shaped_one(alloc: Global, insn: Insn) -> Result<bool, Fail> {
    is_shaped_with(alloc, code(alloc, vec![in alloc; insn]?))
}

fn class_type(alloc: Global, name: &str) -> Result<JType, Fail> {
    Ok(JType {
        depth: 0,
        base: BaseType::Class(Name::from_str(alloc, name)?),
    })
}

fn int(depth: u8) -> JType {
    JType {
        depth,
        base: BaseType::Primitive(Primitive::Int),
    }
}

/// A call of a method with so many ints as parameters.
fn call(alloc: Global, kind: InvokeKind, in_interface: bool, ints: u32) -> Result<Insn, Fail> {
    let mut params = Seq::new(alloc);
    for _ in 0..ints {
        params.push(int(0))?;
    }
    let class = class_type(alloc, "A")?;
    let name = Name::from_str(alloc, "m")?;
    let desc = MethodDesc {
        params,
        result: None,
    };
    Ok(Insn::Invoke(
        kind,
        MethodRef {
            class,
            name,
            desc,
            in_interface,
        },
    ))
}

fn table(alloc: Global, low: i32, targets: Vec<u32>) -> Insn {
    let _alloc = alloc;
    Insn::TableSwitch {
        low,
        default: 0,
        targets: Seq::from_vec(targets),
    }
}

#[test]
fn empty_code_is_shaped(rt: HostRuntime) -> Result<(), Fail> {
    let alloc = rt.alloc();
    assert!(rt; is_shaped_with(alloc, code(alloc, Vec::new(alloc)))?);
    Ok(())
}

#[test]
fn branches_lead_to_instructions(rt: HostRuntime) -> Result<(), Fail> {
    let alloc = rt.alloc();
    assert!(rt; is_shaped_one(alloc, Insn::Goto(0))?);
    assert!(rt; !is_shaped_one(alloc, Insn::Goto(1))?);
    assert!(rt; !is_shaped_one(alloc, Insn::If(Cond::Eq, 1))?);
    Ok(())
}

#[test]
fn switches_end_within_32_bits_and_ascend(rt: HostRuntime) -> Result<(), Fail> {
    let alloc = rt.alloc();
    let greatest = i32::MAX;
    assert!(rt; is_shaped_one(alloc, table(alloc, greatest, vec![in alloc; 0]?))?);
    assert!(rt; !is_shaped_one(alloc, table(alloc, greatest, vec![in alloc; 0, 0]?))?);
    assert!(rt; !is_shaped_one(alloc, table(alloc, 0, Vec::new(alloc)))?);
    for (second, want) in [(5, true), (4, false), (3, false)] {
        let lookup = Insn::LookupSwitch {
            default: 0,
            rows: Seq::from_vec(vec![in alloc; (4, 0), (second, 0)]?),
        };
        assert_eq!(rt; is_shaped_one(alloc, lookup)?, want, "{second}");
    }
    Ok(())
}

#[test]
fn calls_name_the_entry_that_they_take(rt: HostRuntime) -> Result<(), Fail> {
    let alloc = rt.alloc();
    let rows = [
        (InvokeKind::Virtual, false, 300, true),
        (InvokeKind::Virtual, true, 0, false),
        (InvokeKind::Special, true, 0, true),
        (InvokeKind::Static, false, 0, true),
        (InvokeKind::Interface, false, 0, false),
        (InvokeKind::Interface, true, 254, true),
        (InvokeKind::Interface, true, 255, false),
    ];
    for (kind, in_interface, ints, want) in rows {
        let insn = call(alloc, kind, in_interface, ints)?;
        assert_eq!(rt; is_shaped_one(alloc, insn)?, want, "{ints}");
    }
    Ok(())
}

#[test]
fn arrays_and_casts_name_classes_or_arrays(rt: HostRuntime) -> Result<(), Fail> {
    let alloc = rt.alloc();
    assert!(rt; is_shaped_one(alloc, Insn::CheckCast(int(1)))?);
    assert!(rt; !is_shaped_one(alloc, Insn::CheckCast(int(0)))?);
    assert!(rt; is_shaped_one(alloc, Insn::InstanceOf(class_type(alloc, "a/B")?))?);
    assert!(rt; !is_shaped_one(alloc, Insn::InstanceOf(class_type(alloc, "a;B")?))?);
    assert!(rt; !is_shaped_one(alloc, Insn::ANewArray(class_type(alloc, "")?))?);
    assert!(rt; is_shaped_one(alloc, Insn::MultiNewArray(int(2), 3))?);
    assert!(rt; !is_shaped_one(alloc, Insn::MultiNewArray(int(2), 0))?);
    Ok(())
}

/// Code of a `new` and a return, with a frame at each of these places that has an object which is not initialised.
fn with_frames(alloc: Global, places: &[u32], made_at: u32) -> Result<CodeDef, Fail> {
    let new = Insn::New(Name::from_str(alloc, "A")?);
    let mut code = code(alloc, vec![in alloc; new, Insn::Return(None)]?);
    for place in places {
        let locals = Seq::from_vec(vec![in alloc; VType::Uninit(made_at)]?);
        let frame = Frame {
            locals,
            stack: Seq::new(alloc),
        };
        code.frames.push((*place, frame))?;
    }
    Ok(code)
}

#[test]
fn frames_ascend_and_name_what_is_made(rt: HostRuntime) -> Result<(), Fail> {
    let alloc = rt.alloc();
    assert!(rt; is_shaped_with(alloc, with_frames(alloc, [0, 1].as_slice(), 0)?)?);
    assert!(rt; !is_shaped_with(alloc, with_frames(alloc, [1, 1].as_slice(), 0)?)?);
    assert!(rt; !is_shaped_with(alloc, with_frames(alloc, [2].as_slice(), 0)?)?);
    assert!(rt; !is_shaped_with(alloc, with_frames(alloc, [1].as_slice(), 1)?)?);
    Ok(())
}

#[test]
fn a_handler_covers_an_instruction(rt: HostRuntime) -> Result<(), Fail> {
    let alloc = rt.alloc();
    for (start, end, target, want) in [
        (0, 1, 0, true),
        (0, 0, 0, false),
        (0, 2, 0, false),
        (0, 1, 1, false),
    ] {
        let mut code = code(alloc, vec![in alloc; Insn::Return(None)]?);
        code.handlers.push(Handler {
            start,
            end,
            target,
            caught: None,
        })?;
        assert_eq!(rt;
            is_shaped_with(alloc, code)?,
            want,
            "{start} {end} {target}"
        );
    }
    Ok(())
}
