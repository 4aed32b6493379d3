use crate::{EncodeKind, EncodeStop, Layout, check_limits, code_size, size_at, uses_wide_goto};
use class_model::{ClassDef, CodeDef, Cond, Insn, MethodDef, MethodDesc};
use lists::{Name, Seq};
use std::alloc::Global;
use std::test::Fail;

fn code(alloc: Global, insns: Vec<Insn>) -> CodeDef {
    CodeDef {
        max_stack: 0,
        max_locals: 0,
        insns: Seq::from_vec(insns),
        handlers: Seq::new(alloc),
        frames: Seq::new(alloc),
        lines: Seq::new(alloc),
    }
}

/// A class with one method, of this code.
fn class(alloc: Global, code: CodeDef) -> Result<ClassDef, Fail> {
    let method = MethodDef {
        flags: 8,
        name: Name::from_str(alloc, "m")?,
        desc: MethodDesc {
            params: Seq::new(alloc),
            result: None,
        },
        throws: Seq::new(alloc),
        code: Some(code),
    };
    let name = Name::from_str(alloc, "A")?;
    Ok(ClassDef {
        minor: 0,
        major: 52,
        flags: 33,
        name,
        super_name: None,
        interfaces: Seq::new(alloc),
        fields: Seq::new(alloc),
        methods: Seq::from_vec(vec![in alloc; method]?),
        source: None,
        inner: Seq::new(alloc),
    })
}

/// Instructions that do nothing, between these two.
fn nops(alloc: Global, first: Insn, count: u32, last: Insn) -> Result<Vec<Insn>, Fail> {
    let mut insns = vec![in alloc; first]?;
    for _ in 0..count {
        insns.push(Insn::Nop)?;
    }
    insns.push(last)?;
    Ok(insns)
}

fn limit(kind: EncodeKind, number: u64) -> Result<(), EncodeStop> {
    Err(EncodeStop::Limit(kind, number))
}

#[test]
fn sizes_are_those_of_the_shortest_forms(rt: HostRuntime) -> Result<(), Fail> {
    let alloc = rt.alloc();
    let targets = Seq::from_vec(vec![in alloc; 0, 0]?);
    let table = Insn::TableSwitch {
        low: 0,
        default: 0,
        targets,
    };
    assert_eq!(rt; size_at(false, 0, &table), 24);
    assert_eq!(rt; size_at(false, 1, &table), 23);
    assert_eq!(rt; size_at(false, 3, &table), 21);
    let rows = [
        (Insn::PushInt(-1), 1),
        (Insn::PushInt(6), 2),
        (Insn::PushInt(-129), 3),
        (Insn::PushInt(32_768), 3),
        (Insn::PushLong(1), 1),
        (Insn::PushLong(2), 3),
        (Insn::Iinc(255, 127), 3),
        (Insn::Iinc(256, 1), 6),
        (Insn::Iinc(0, 128), 6),
        (Insn::Goto(0), 3),
    ];
    for (insn, size) in rows {
        assert_eq!(rt; size_at(false, 0, &insn), size);
    }
    assert_eq!(rt; size_at(true, 0, &Insn::Goto(0)), 5);
    Ok(())
}

#[test]
fn goto_is_wide_in_long_code(rt: HostRuntime) -> Result<(), Fail> {
    let alloc = rt.alloc();
    let short = code(alloc, nops(alloc, Insn::Goto(0), 32_763, Insn::Nop)?);
    assert_eq!(rt; code_size(&short), 32_767);
    assert!(rt; !uses_wide_goto(&short));
    let long = code(alloc, nops(alloc, Insn::Goto(0), 32_764, Insn::Nop)?);
    assert_eq!(rt; code_size(&long), 32_770);
    assert!(rt; uses_wide_goto(&long));
    Ok(())
}

/// The offsets of the instructions of code, and of its end.
fn offsets(alloc: Global, code: &CodeDef) -> Result<Seq<u32>, Fail> {
    let mut offsets = Seq::new(alloc);
    if code_size(code) <= 65_535 {
        let layout = Layout::of(alloc, code)?;
        for number in 0..=3 {
            offsets.push(layout.offset(number))?;
        }
    }
    Ok(offsets)
}

#[test]
fn a_layout_has_the_offsets(rt: HostRuntime) -> Result<(), Fail> {
    let alloc = rt.alloc();
    let code = code(alloc, nops(alloc, Insn::Goto(0), 1, Insn::PushInt(100))?);
    let want = vec![in alloc; 0, 3, 4, 6]?;
    assert_eq!(rt; offsets(alloc, &code)?, Seq::from_vec(want));
    Ok(())
}

#[test]
fn a_small_class_passes_no_limit(rt: HostRuntime) -> Result<(), Fail> {
    let alloc = rt.alloc();
    let class = class(alloc, code(alloc, vec![in alloc; Insn::Return(None)]?))?;
    assert_eq!(rt; check_limits(alloc, &class), Ok(()));
    Ok(())
}

#[test]
fn empty_code_and_long_code_are_told(rt: HostRuntime) -> Result<(), Fail> {
    let alloc = rt.alloc();
    let empty = class(alloc, code(alloc, Vec::new(alloc)))?;
    assert_eq!(rt; check_limits(alloc, &empty), limit(EncodeKind::Code, 0));
    let long = nops(alloc, Insn::Nop, 65_534, Insn::Nop)?;
    let long = class(alloc, code(alloc, long))?;
    assert_eq!(rt; check_limits(alloc, &long), limit(EncodeKind::Code, 65_536));
    Ok(())
}

#[test]
fn a_branch_that_leads_too_far_is_told(rt: HostRuntime) -> Result<(), Fail> {
    let alloc = rt.alloc();
    for (count, want) in [
        (32_764, Ok(())),
        (32_765, limit(EncodeKind::Branch, 32_768)),
    ] {
        let insns = nops(alloc, Insn::If(Cond::Eq, count + 1), count, Insn::Nop)?;
        let class = class(alloc, code(alloc, insns))?;
        assert_eq!(rt; check_limits(alloc, &class), want);
    }
    for (count, want) in [
        (32_767, Ok(())),
        (32_768, limit(EncodeKind::Branch, 32_769)),
    ] {
        let insns = nops(alloc, Insn::Nop, count, Insn::If(Cond::Eq, 0))?;
        let class = class(alloc, code(alloc, insns))?;
        assert_eq!(rt; check_limits(alloc, &class), want);
    }
    Ok(())
}

#[test]
fn texts_are_told_before_counts(rt: HostRuntime) -> Result<(), Fail> {
    let alloc = rt.alloc();
    let mut class = class(alloc, code(alloc, vec![in alloc; Insn::Return(None)]?))?;
    for _ in 0..65_536 {
        class.interfaces.push(Name::from_str(alloc, "I")?)?;
    }
    assert_eq!(rt;
        check_limits(alloc, &class),
        limit(EncodeKind::Count, 65_536)
    );
    let mut text = Vec::new(alloc);
    for _ in 0..21_846 {
        text.push(0x20ac)?;
    }
    class.super_name = Some(Name::from_vec(alloc, text)?);
    assert_eq!(rt;
        check_limits(alloc, &class),
        limit(EncodeKind::Text, 65_538)
    );
    Ok(())
}
