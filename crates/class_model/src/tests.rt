use crate::*;
use lists::{Name, Seq};
use std::alloc::{AllocError, Global};
use std::test::Fail;

fn class(alloc: Global, name: &str) -> Result<JType, AllocError> {
    Ok(JType {
        depth: 0,
        base: BaseType::Class(Name::from_str(alloc, name)?),
    })
}

fn primitive(primitive: Primitive) -> JType {
    JType {
        depth: 0,
        base: BaseType::Primitive(primitive),
    }
}

/// The example of JVMS 4.3.3.
fn example(alloc: Global) -> Result<MethodDesc, AllocError> {
    let thread = class(alloc, "java/lang/Thread")?;
    let params = vec![in alloc;
        primitive(Primitive::Int),
        primitive(Primitive::Double),
        thread,
    ]?;
    let params = Seq::from_vec(params);
    Ok(MethodDesc {
        params,
        result: Some(class(alloc, "java/lang/Object")?),
    })
}

#[test]
fn the_descriptor_of_the_standard(rt: HostRuntime) -> Result<(), Fail> {
    let alloc = rt.alloc();
    let text = Name::from_str(alloc, "(IDLjava/lang/Thread;)Ljava/lang/Object;")?;
    let desc = parse_desc(alloc, text.as_units())?;
    assert_eq!(rt; desc, example(alloc)?);
    Ok(())
}

#[test]
fn descriptors_are_printed_as_they_were_read(rt: HostRuntime) -> Result<(), Fail> {
    let alloc = rt.alloc();
    let table = [
        ("()V", 0),
        ("(BCDFIJSZ)V", 10),
        ("([J[[D)J", 2),
        ("(LI;[Lx/y;J)[[Lz;", 4),
    ];
    for (text, count) in table {
        let name = Name::from_str(alloc, text)?;
        let desc = parse_desc(alloc, name.as_units())?;
        assert_eq!(rt; print_desc(alloc, &desc)?, name, "{text}");
        assert!(rt; desc.params.len() < 100);
        assert_eq!(rt; words(&desc, false), count, "{text}");
        assert_eq!(rt; words(&desc, true), count + 1, "{text}");
    }
    Ok(())
}

#[test]
fn types_are_printed_as_they_were_read(rt: HostRuntime) -> Result<(), Fail> {
    let alloc = rt.alloc();
    let table = [
        ("I", true),
        ("Z", true),
        ("[I", false),
        ("Ljava/lang/Object;", false),
        ("[[[D", false),
    ];
    for (text, want) in table {
        let name = Name::from_str(alloc, text)?;
        let ty = parse_type(alloc, name.as_units())?;
        assert_eq!(rt; print_type(alloc, &ty)?, name, "{text}");
        assert_eq!(rt; is_primitive(&ty), want, "{text}");
    }
    Ok(())
}

#[test]
fn bad_texts_are_refused_behind_their_longest_prefix(rt: HostRuntime) -> Result<(), Fail> {
    let alloc = rt.alloc();
    let descs = [
        ("", 0),
        ("(", 1),
        ("()", 2),
        ("(I", 2),
        ("I", 0),
        ("(V)V", 1),
        ("(Q)V", 1),
        ("(i)V", 1),
        ("([)V", 2),
        ("([V)V", 2),
        ("(L;)V", 2),
        ("(L[I;)V", 2),
        ("(Lx[;)V", 3),
        ("(Lx", 3),
        ("(Lx)V", 5),
        ("()[V", 3),
        ("()II", 3),
        ("()VI", 3),
        ("()Lx;;", 5),
    ];
    for (text, place) in descs {
        let name = Name::from_str(alloc, text)?;
        assert_eq!(rt;
            parse_desc(alloc, name.as_units()),
            Err(DescStop::Bad(place)),
            "{text}"
        );
    }
    let types = [
        ("", 0),
        ("V", 0),
        ("[", 1),
        ("[V", 1),
        ("II", 1),
        ("L", 1),
        ("L;", 1),
        ("Lx", 2),
        ("()V", 0),
    ];
    for (text, place) in types {
        let name = Name::from_str(alloc, text)?;
        assert_eq!(rt;
            parse_type(alloc, name.as_units()),
            Err(DescStop::Bad(place)),
            "{text}"
        );
    }
    Ok(())
}

#[test]
fn an_array_has_at_most_255_dimensions(rt: HostRuntime) -> Result<(), Fail> {
    let alloc = rt.alloc();
    let mut text = Vec::new(alloc);
    for _ in 0..255 {
        text.push(u16::from(b'['))?;
    }
    text.push(u16::from(b'I'))?;
    let want = JType {
        depth: 255,
        base: BaseType::Primitive(Primitive::Int),
    };
    assert_eq!(rt; parse_type(alloc, text.as_slice())?, want);
    text.insert(0, u16::from(b'['))?;
    assert_eq!(rt; parse_type(alloc, text.as_slice()), Err(DescStop::Bad(255)));
    Ok(())
}

fn name(alloc: Global, text: &str) -> Result<Name, AllocError> {
    Name::from_str(alloc, text)
}

fn code(alloc: Global) -> Result<CodeDef, AllocError> {
    let targets = Seq::from_vec(vec![in alloc; 1, 0]?);
    let switch = Insn::TableSwitch {
        low: -1,
        default: 1,
        targets,
    };
    Ok(CodeDef {
        max_stack: 2,
        max_locals: 1,
        insns: Seq::from_vec(vec![in alloc; switch, Insn::Return(None)]?),
        handlers: Seq::new(alloc),
        frames: Seq::new(alloc),
        lines: Seq::new(alloc),
    })
}

fn method(alloc: Global) -> Result<MethodDef, AllocError> {
    let name = name(alloc, "m")?;
    Ok(MethodDef {
        flags: 9,
        name,
        desc: MethodDesc {
            params: Seq::new(alloc),
            result: None,
        },
        throws: Seq::new(alloc),
        code: Some(code(alloc)?),
    })
}

fn sample(alloc: Global) -> Result<ClassDef, AllocError> {
    let name = name(alloc, "A")?;
    Ok(ClassDef {
        minor: 0,
        major: 52,
        flags: 33,
        name,
        super_name: None,
        interfaces: Seq::new(alloc),
        fields: Seq::new(alloc),
        methods: Seq::from_vec(vec![in alloc; method(alloc)?]?),
        source: None,
        inner: Seq::new(alloc),
    })
}

#[test]
fn a_class_is_copied_as_it_is(rt: HostRuntime) -> Result<(), Fail> {
    let alloc = rt.alloc();
    let class = sample(alloc)?;
    assert_eq!(rt; class.clone()?, class);
    Ok(())
}

#[test]
fn stops_are_printed(rt: HostRuntime) -> Result<(), Fail> {
    let alloc = rt.alloc();
    let bad = format!(in alloc; "{}", DescStop::Bad(7))?;
    assert_eq!(rt; bad.as_str(), "no descriptor from unit 7 on");
    let memory = format!(in alloc; "{}", DescStop::Memory)?;
    assert_eq!(rt; memory.as_str(), "out of memory");
    Ok(())
}
