use crate::{LimitKind, LimitStop, check_limits, weight};
use class_model::{
    BaseType, ClassDef, CodeDef, FieldDef, Insn, JType, MethodDef, MethodDesc, Primitive, StackOp,
};
use lists::{Name, Seq};
use run_state::{Config, Listed};
use std::alloc::Global;
use std::test::Fail;

/// So many times a push and a pop, then a return.
fn pairs(alloc: Global, count: u32) -> Result<CodeDef, Fail> {
    let mut insns = Seq::new(alloc);
    for _ in 0..count {
        insns.push(Insn::PushInt(0))?;
        insns.push(Insn::Stack(StackOp::Pop))?;
    }
    insns.push(Insn::Return(None))?;
    Ok(CodeDef {
        max_stack: 1,
        max_locals: 0,
        insns,
        handlers: Seq::new(alloc),
        frames: Seq::new(alloc),
        lines: Seq::new(alloc),
    })
}

/// A class with one static method, of so many ints and this code.
fn class(alloc: Global, ints: u32, code: CodeDef) -> Result<ClassDef, Fail> {
    let mut params = Seq::new(alloc);
    for _ in 0..ints {
        params.push(JType {
            depth: 0,
            base: BaseType::Primitive(Primitive::Int),
        })?;
    }
    let method = MethodDef {
        flags: 8,
        name: Name::from_str(alloc, "f")?,
        desc: MethodDesc {
            params,
            result: None,
        },
        throws: Seq::new(alloc),
        code: Some(code),
    };
    let name = Name::from_str(alloc, "F")?;
    Ok(ClassDef {
        minor: 0,
        major: 52,
        flags: 33,
        name,
        super_name: None,
        interfaces: Seq::new(alloc),
        fields: Seq::new(alloc),
        methods: Seq::from_vec(vec![in alloc; method]?),
        source: None,
        inner: Seq::new(alloc),
    })
}

/// What is told of the one class.
fn judged(alloc: Global, class: ClassDef) -> Result<Result<(), LimitStop>, Fail> {
    let config = Config {
        sources: Listed::new(alloc),
        sinks: Listed::new(alloc),
    };
    let classes = vec![in alloc; class]?;
    if classes.len() > 1 {
        return Ok(Ok(()));
    }
    Ok(check_limits(alloc, classes.as_slice(), &config))
}

/// A limit of the one method, or of the class itself.
fn limit_at(kind: LimitKind, method: Option<u32>, number: u64) -> Result<(), LimitStop> {
    Err(LimitStop::Limit {
        kind,
        class: 0,
        method,
        number,
    })
}

fn limit(kind: LimitKind, number: u64) -> Result<(), LimitStop> {
    limit_at(kind, Some(0), number)
}

/// A class with so many int fields.
fn with_fields(alloc: Global, count: u32) -> Result<ClassDef, Fail> {
    let mut fields = Seq::new(alloc);
    for _ in 0..count {
        fields.push(FieldDef {
            flags: 0,
            name: Name::from_str(alloc, "x")?,
            ty: JType {
                depth: 0,
                base: BaseType::Primitive(Primitive::Int),
            },
            constant: None,
        })?;
    }
    let mut class = class(alloc, 0, pairs(alloc, 1)?)?;
    class.fields = fields;
    Ok(class)
}

/// A class with a name of so many letters.
fn with_name(alloc: Global, letters: u32) -> Result<ClassDef, Fail> {
    let mut name = String::new(alloc);
    for _ in 0..letters {
        name.push('F')?;
    }
    let mut class = class(alloc, 0, pairs(alloc, 1)?)?;
    class.name = Name::from_str(alloc, name.as_str())?;
    Ok(class)
}

/// A class whose method has these maxima.
fn with_maxima(alloc: Global, max_locals: u16, max_stack: u16) -> Result<ClassDef, Fail> {
    let mut code = pairs(alloc, 1)?;
    code.max_locals = max_locals;
    code.max_stack = max_stack;
    class(alloc, 0, code)
}

#[test]
fn code_of_65530_passes_and_of_65539_does_not(rt: HostRuntime) -> Result<(), Fail> {
    let alloc = rt.alloc();
    let short = pairs(alloc, 7_262)?;
    assert_eq!(rt; weight(&short), 65_530);
    assert_eq!(rt; judged(alloc, class(alloc, 0, short)?)?, Ok(()));
    let long = pairs(alloc, 7_263)?;
    assert_eq!(rt; weight(&long), 65_539);
    assert_eq!(rt;
        judged(alloc, class(alloc, 0, long)?)?,
        limit(LimitKind::CodeTooLong, 65_539)
    );
    Ok(())
}

#[test]
fn ints_127_pass_and_128_do_not(rt: HostRuntime) -> Result<(), Fail> {
    let alloc = rt.alloc();
    let many = class(alloc, 127, pairs(alloc, 1)?)?;
    assert_eq!(rt; judged(alloc, many)?, Ok(()));
    let more = class(alloc, 128, pairs(alloc, 1)?)?;
    assert_eq!(rt; judged(alloc, more)?, limit(LimitKind::ParamsTooMany, 256));
    Ok(())
}

#[test]
fn parameters_are_told_before_code(rt: HostRuntime) -> Result<(), Fail> {
    let alloc = rt.alloc();
    let both = class(alloc, 128, pairs(alloc, 7_263)?)?;
    assert_eq!(rt; judged(alloc, both)?, limit(LimitKind::ParamsTooMany, 256));
    Ok(())
}

#[test]
fn each_other_bound_of_a_class(rt: HostRuntime) -> Result<(), Fail> {
    let alloc = rt.alloc();
    let text = LimitKind::TextTooLong;
    assert_eq!(rt; judged(alloc, with_name(alloc, 16_000)?)?, Ok(()));
    assert_eq!(rt;
        judged(alloc, with_name(alloc, 16_001)?)?,
        limit_at(text, None, 16_001)
    );
    let pool = LimitKind::PoolFull;
    assert_eq!(rt; judged(alloc, with_fields(alloc, 2_704)?)?, Ok(()));
    assert_eq!(rt;
        judged(alloc, with_fields(alloc, 2_705)?)?,
        limit_at(pool, None, 65_548)
    );
    let members = LimitKind::MembersTooMany;
    assert_eq!(rt;
        judged(alloc, with_fields(alloc, 32_767)?)?,
        limit_at(pool, None, 787_036)
    );
    assert_eq!(rt;
        judged(alloc, with_fields(alloc, 32_768)?)?,
        limit_at(members, None, 65_537)
    );
    Ok(())
}

#[test]
fn each_other_bound_of_a_method(rt: HostRuntime) -> Result<(), Fail> {
    let alloc = rt.alloc();
    let code = LimitKind::CodeTooLong;
    let locals = LimitKind::LocalsTooMany;
    assert_eq!(rt;
        judged(alloc, with_maxima(alloc, 32_763, 1)?)?,
        limit(code, 1_048_597)
    );
    assert_eq!(rt;
        judged(alloc, with_maxima(alloc, 32_764, 1)?)?,
        limit(locals, 65_537)
    );
    let stack = LimitKind::StackTooDeep;
    assert_eq!(rt;
        judged(alloc, with_maxima(alloc, 0, 32_759)?)?,
        limit(code, 262_245)
    );
    assert_eq!(rt;
        judged(alloc, with_maxima(alloc, 0, 32_760)?)?,
        limit(stack, 65_536)
    );
    Ok(())
}
