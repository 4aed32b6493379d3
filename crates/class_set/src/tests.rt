use crate::{ClassId, ClassSet, SetFault, are_counted};
use class_model::{
    BaseType, ClassDef, CodeDef, FieldDef, FieldRef, Insn, InvokeKind, JType, MethodDef, MethodRef,
    Primitive, parse_desc,
};
use lists::{Name, Seq};
use std::alloc::Global;
use std::process::Abort;
use std::test::Fail;

const PUBLIC: u16 = 0x0001;

const STATIC: u16 = 0x0008;

const FINAL: u16 = 0x0010;

const INTERFACE: u16 = 0x0600;

const ABSTRACT: u16 = 0x0400;

/// A class with no members.
fn bare(alloc: Global, flags: u16, name: &str, above: &str) -> Result<ClassDef, Fail> {
    Ok(ClassDef {
        minor: 0,
        major: 52,
        flags,
        name: Name::from_str(alloc, name)?,
        super_name: Some(Name::from_str(alloc, above)?),
        interfaces: Seq::new(alloc),
        fields: Seq::new(alloc),
        methods: Seq::new(alloc),
        source: None,
        inner: Seq::new(alloc),
    })
}

fn code(alloc: Global, insns: Seq<Insn>) -> CodeDef {
    CodeDef {
        max_stack: 2,
        max_locals: 2,
        insns,
        handlers: Seq::new(alloc),
        frames: Seq::new(alloc),
        lines: Seq::new(alloc),
    }
}

fn method(
    alloc: Global,
    flags: u16,
    name: &str,
    desc: &str,
    code: Option<CodeDef>,
) -> Result<MethodDef, Fail> {
    let text = Name::from_str(alloc, desc)?;
    Ok(MethodDef {
        flags,
        name: Name::from_str(alloc, name)?,
        desc: parse_desc(alloc, text.as_units())?,
        throws: Seq::new(alloc),
        code,
    })
}

/// A method whose code is one `return`.
fn returns(alloc: Global, flags: u16, name: &str) -> Result<MethodDef, Fail> {
    let mut insns = Seq::new(alloc);
    insns.push(Insn::Return(None))?;
    method(alloc, flags, name, "()V", Some(code(alloc, insns)))
}

fn object(alloc: Global) -> Result<ClassDef, Fail> {
    let mut class = bare(alloc, PUBLIC, "java/lang/Object", "java/lang/Object")?;
    class.super_name = None;
    class.methods.push(returns(alloc, PUBLIC, "<init>")?)?;
    Ok(class)
}

fn string(alloc: Global) -> Result<ClassDef, Fail> {
    let mut class = bare(
        alloc,
        PUBLIC | FINAL,
        "java/lang/String",
        "java/lang/Object",
    )?;
    class.fields.push(FieldDef {
        flags: 0,
        name: Name::from_str(alloc, "value")?,
        ty: JType {
            depth: 1,
            base: BaseType::Primitive(Primitive::Char),
        },
        constant: None,
    })?;
    Ok(class)
}

/// The core classes.
fn core(alloc: Global) -> Result<Seq<ClassDef>, Fail> {
    let mut classes = Seq::new(alloc);
    classes.push(object(alloc)?)?;
    classes.push(string(alloc)?)?;
    classes.push(bare(alloc, PUBLIC, "java/lang/Throwable", "java/lang/Object")?)?;
    for name in [
        "java/lang/ArithmeticException",
        "java/lang/ArrayIndexOutOfBoundsException",
        "java/lang/ArrayStoreException",
        "java/lang/ClassCastException",
        "java/lang/IncompatibleClassChangeError",
        "java/lang/NegativeArraySizeException",
        "java/lang/NullPointerException",
    ] {
        classes.push(bare(alloc, PUBLIC, name, "java/lang/Throwable")?)?;
    }
    Ok(classes)
}

/// The core classes and these.
fn with_core(alloc: Global, more: Seq<ClassDef>) -> Result<Seq<ClassDef>, Fail> {
    let mut classes = core(alloc)?;
    for class in more.into_vec() {
        classes.push(class)?;
    }
    Ok(classes)
}

fn one(alloc: Global, class: ClassDef) -> Result<Seq<ClassDef>, Fail> {
    let mut classes = Seq::new(alloc);
    classes.push(class)?;
    Ok(classes)
}

fn two(alloc: Global, first: ClassDef, second: ClassDef) -> Result<Seq<ClassDef>, Fail> {
    let mut classes = one(alloc, first)?;
    classes.push(second)?;
    Ok(classes)
}

/// Whether this fault is told of classes beside the core.
fn is_told(
    rt: &impl Abort,
    alloc: Global,
    more: Seq<ClassDef>,
    fault: SetFault,
) -> Result<(), Fail> {
    let classes = with_core(alloc, more)?;
    assert!(rt; are_counted(classes.as_slice()));
    match ClassSet::build(alloc, classes) {
        Ok(_) => assert!(rt; false),
        Err(told) => assert_eq!(rt; told, fault),
    }
    Ok(())
}

fn text(alloc: Global, text: &str) -> Result<Name, Fail> {
    Ok(Name::from_str(alloc, text)?)
}

fn class(alloc: Global, name: &str, above: &str) -> Result<ClassDef, Fail> {
    bare(alloc, PUBLIC, name, above)
}

/// A class `A` with a static method whose code is this instruction.
fn doing(alloc: Global, insn: Insn) -> Result<ClassDef, Fail> {
    let mut insns = Seq::new(alloc);
    insns.push(insn)?;
    let mut class = class(alloc, "A", "java/lang/Object")?;
    let run = method(
        alloc,
        PUBLIC | STATIC,
        "run",
        "()V",
        Some(code(alloc, insns)),
    )?;
    class.methods.push(run)?;
    Ok(class)
}

fn object_type(alloc: Global, name: &str) -> Result<JType, Fail> {
    Ok(JType {
        depth: 0,
        base: BaseType::Class(Name::from_str(alloc, name)?),
    })
}

fn call(alloc: Global, kind: InvokeKind, class: &str, name: &str) -> Result<Insn, Fail> {
    let desc = Name::from_str(alloc, "()V")?;
    Ok(Insn::Invoke(
        kind,
        MethodRef {
            class: object_type(alloc, class)?,
            name: Name::from_str(alloc, name)?,
            desc: parse_desc(alloc, desc.as_units())?,
            in_interface: false,
        },
    ))
}

fn int_field(alloc: Global, class: &str) -> Result<FieldRef, Fail> {
    Ok(FieldRef {
        class: Name::from_str(alloc, class)?,
        name: Name::from_str(alloc, "x")?,
        ty: JType {
            depth: 0,
            base: BaseType::Primitive(Primitive::Int),
        },
    })
}

fn twice(alloc: Global) -> Result<Seq<ClassDef>, Fail> {
    let mut classes = two(
        alloc,
        class(alloc, "A", "java/lang/Object")?,
        class(alloc, "B", "java/lang/Object")?,
    )?;
    classes.push(class(alloc, "B", "java/lang/Object")?)?;
    classes.push(class(alloc, "A", "java/lang/Object")?)?;
    Ok(classes)
}

fn absent_super(alloc: Global) -> Result<Seq<ClassDef>, Fail> {
    one(alloc, class(alloc, "A", "Y")?)
}

fn below_a_cycle(alloc: Global) -> Result<Seq<ClassDef>, Fail> {
    let mut classes = one(alloc, class(alloc, "C", "B")?)?;
    classes.push(class(alloc, "B", "A")?)?;
    classes.push(class(alloc, "A", "B")?)?;
    Ok(classes)
}

fn below_a_string(alloc: Global) -> Result<Seq<ClassDef>, Fail> {
    one(alloc, class(alloc, "A", "java/lang/String")?)
}

fn final_again(alloc: Global) -> Result<Seq<ClassDef>, Fail> {
    let mut high = class(alloc, "B", "java/lang/Object")?;
    high.methods.push(returns(alloc, PUBLIC | FINAL, "m")?)?;
    let mut low = class(alloc, "A", "B")?;
    low.methods.push(returns(alloc, PUBLIC, "m")?)?;
    two(alloc, low, high)
}

fn no_such_method(alloc: Global) -> Result<Seq<ClassDef>, Fail> {
    one(
        alloc,
        doing(alloc, call(alloc, InvokeKind::Static, "A", "m")?)?,
    )
}

fn no_such_field(alloc: Global) -> Result<Seq<ClassDef>, Fail> {
    one(
        alloc,
        doing(alloc, Insn::GetStatic(int_field(alloc, "A")?))?,
    )
}

fn virtual_call_of_a_static(alloc: Global) -> Result<Seq<ClassDef>, Fail> {
    one(
        alloc,
        doing(alloc, call(alloc, InvokeKind::Virtual, "A", "run")?)?,
    )
}

fn new_of_an_interface(alloc: Global) -> Result<Seq<ClassDef>, Fail> {
    let interface = bare(alloc, INTERFACE, "I", "java/lang/Object")?;
    two(
        alloc,
        doing(alloc, Insn::New(text(alloc, "I")?))?,
        interface,
    )
}

/// An interface with one method, a class below it without it, and a class below that one.
fn left_open(alloc: Global) -> Result<Seq<ClassDef>, Fail> {
    let mut interface = bare(alloc, INTERFACE, "I", "java/lang/Object")?;
    interface
        .methods
        .push(method(alloc, PUBLIC | ABSTRACT, "m", "()V", None)?)?;
    let mut high = class(alloc, "B", "java/lang/Object")?;
    high.interfaces.push(text(alloc, "I")?)?;
    let mut classes = two(alloc, class(alloc, "A", "B")?, high)?;
    classes.push(interface)?;
    Ok(classes)
}

#[test]
fn each_kind_of_fault(rt: HostRuntime) -> Result<(), Fail> {
    let alloc = rt.alloc();
    is_told(
        &rt,
        alloc,
        twice(alloc)?,
        SetFault::Duplicate(text(alloc, "A")?),
    )?;
    is_told(
        &rt,
        alloc,
        absent_super(alloc)?,
        SetFault::Missing(text(alloc, "Y")?),
    )?;
    is_told(
        &rt,
        alloc,
        below_a_cycle(alloc)?,
        SetFault::Cycle(text(alloc, "B")?),
    )?;
    is_told(
        &rt,
        alloc,
        below_a_string(alloc)?,
        SetFault::FinalSuper(text(alloc, "A")?),
    )?;
    is_told(
        &rt,
        alloc,
        final_again(alloc)?,
        SetFault::FinalSuper(text(alloc, "A")?),
    )?;
    is_told(
        &rt,
        alloc,
        left_open(alloc)?,
        SetFault::Abstract(text(alloc, "A")?),
    )
}

#[test]
fn references_that_cannot_be(rt: HostRuntime) -> Result<(), Fail> {
    let alloc = rt.alloc();
    is_told(
        &rt,
        alloc,
        no_such_method(alloc)?,
        SetFault::Unresolved(text(alloc, "A.m()V")?),
    )?;
    is_told(
        &rt,
        alloc,
        no_such_field(alloc)?,
        SetFault::Unresolved(text(alloc, "A.xI")?),
    )?;
    is_told(
        &rt,
        alloc,
        virtual_call_of_a_static(alloc)?,
        SetFault::WrongKind(text(alloc, "A.run()V")?),
    )?;
    is_told(
        &rt,
        alloc,
        new_of_an_interface(alloc)?,
        SetFault::WrongKind(text(alloc, "I")?),
    )
}

/// The name `C` and a number of five digits.
fn numbered(alloc: Global, number: u32) -> Result<Name, Fail> {
    let mut units = Vec::new(alloc);
    units.push(u16::from(b'C'))?;
    for place in [10_000u32, 1_000, 100, 10, 1] {
        units.push(u16::from(b'0') + (number / place % 10) as u16)?;
    }
    Ok(Name::from_vec(alloc, units)?)
}

/// Classes each of which extends the one before, and calls its `<init>`.
fn chain(alloc: Global, length: u32) -> Result<Seq<ClassDef>, Fail> {
    let mut classes = Seq::new(alloc);
    for number in 0..length {
        let mut low = class(alloc, "C", "java/lang/Object")?;
        if number > 0 {
            low.super_name = Some(numbered(alloc, number - 1)?);
        }
        low.name = numbered(alloc, number)?;
        low.methods.push(returns(alloc, PUBLIC, "<init>")?)?;
        low.methods.push(returns(alloc, PUBLIC, "m")?)?;
        classes.push(low)?;
    }
    Ok(classes)
}

#[test]
fn a_long_chain(rt: HostRuntime) -> Result<(), Fail> {
    let alloc = rt.alloc();
    let classes = with_core(alloc, chain(alloc, 2_000)?)?;
    assert!(rt; are_counted(classes.as_slice()));
    let set = ClassSet::build(alloc, classes)?;
    assert_eq!(rt; set.len(), 2_010);
    assert_eq!(rt; set.find("C01999"), Some(ClassId(2_009)));
    assert!(rt; set.subtype(ClassId(2_009), ClassId(0)));
    assert!(rt; !set.subtype(ClassId(0), ClassId(2_009)));
    Ok(())
}
