use crate::{Names, OutOfProfile, ProfileKind, ProfileStop, check_profile, is_counted};
use class_model::{
    BaseType, ClassDef, CodeDef, Constant, FieldDef, Insn, InvokeKind, JType, MethodDef,
    MethodDesc, MethodRef, Primitive, parse_desc,
};
use lists::{Name, Seq};
use std::alloc::Global;
use std::process::Abort;
use std::test::Fail;

/// A class of the profile with no members.
fn bare(alloc: Global, name: &str) -> Result<ClassDef, Fail> {
    let super_name = Name::from_str(alloc, "java/lang/Object")?;
    let name = Name::from_str(alloc, name)?;
    Ok(ClassDef {
        minor: 0,
        major: 52,
        flags: 0x0021,
        name,
        super_name: Some(super_name),
        interfaces: Seq::new(alloc),
        fields: Seq::new(alloc),
        methods: Seq::new(alloc),
        source: None,
        inner: Seq::new(alloc),
    })
}

fn version_53(alloc: Global) -> Result<ClassDef, Fail> {
    let mut class = bare(alloc, "demo/A")?;
    class.major = 53;
    Ok(class)
}

fn interface_not_abstract(alloc: Global) -> Result<ClassDef, Fail> {
    let mut class = bare(alloc, "demo/A")?;
    class.flags = 0x0200;
    Ok(class)
}

fn no_superclass(alloc: Global) -> Result<ClassDef, Fail> {
    let mut class = bare(alloc, "demo/A")?;
    class.super_name = None;
    Ok(class)
}

fn cloneable(alloc: Global) -> Result<ClassDef, Fail> {
    let interface = Name::from_str(alloc, "java/lang/Cloneable")?;
    let mut class = bare(alloc, "demo/A")?;
    class.interfaces.push(interface)?;
    Ok(class)
}

fn primitive(depth: u8, primitive: Primitive) -> JType {
    JType {
        depth,
        base: BaseType::Primitive(primitive),
    }
}

fn int_field(alloc: Global, flags: u16, constant: Option<Constant>) -> Result<FieldDef, Fail> {
    let name = Name::from_str(alloc, "x")?;
    Ok(FieldDef {
        flags,
        name,
        ty: primitive(0, Primitive::Int),
        constant,
    })
}

/// A class with one int field of these flags.
fn one_field(alloc: Global, flags: u16, constant: Option<Constant>) -> Result<ClassDef, Fail> {
    let field = int_field(alloc, flags, constant)?;
    let mut class = bare(alloc, "demo/A")?;
    class.fields.push(field)?;
    Ok(class)
}

fn field_twice(alloc: Global) -> Result<ClassDef, Fail> {
    let again = int_field(alloc, 0x0008, None)?;
    let mut class = one_field(alloc, 0x0002, None)?;
    class.fields.push(again)?;
    Ok(class)
}

fn descriptor(alloc: Global, text: &str) -> Result<MethodDesc, Fail> {
    Ok(parse_desc(alloc, Name::from_str(alloc, text)?.as_units())?)
}

fn code(insns: Seq<Insn>, alloc: Global) -> CodeDef {
    CodeDef {
        max_stack: 1,
        max_locals: 1,
        insns,
        handlers: Seq::new(alloc),
        frames: Seq::new(alloc),
        lines: Seq::new(alloc),
    }
}

/// A class with one method.
fn one_method(
    alloc: Global,
    flags: u16,
    name: &str,
    desc: MethodDesc,
    code: Option<CodeDef>,
) -> Result<ClassDef, Fail> {
    let name = Name::from_str(alloc, name)?;
    let mut class = bare(alloc, "demo/A")?;
    class.methods.push(MethodDef {
        flags,
        name,
        desc,
        throws: Seq::new(alloc),
        code,
    })?;
    Ok(class)
}

/// A class with one method of empty code.
fn one_coded(alloc: Global, flags: u16, name: &str, desc: &str) -> Result<ClassDef, Fail> {
    let desc = descriptor(alloc, desc)?;
    one_method(alloc, flags, name, desc, Some(code(Seq::new(alloc), alloc)))
}

fn native_method(alloc: Global) -> Result<ClassDef, Fail> {
    one_method(alloc, 0x0109, "x", descriptor(alloc, "()V")?, None)
}

fn method_in_interface(alloc: Global) -> Result<ClassDef, Fail> {
    let mut class = one_coded(alloc, 0x0009, "x", "()V")?;
    class.flags = 0x0600;
    Ok(class)
}

/// A method of a receiver and 128 longs.
fn words_257(alloc: Global) -> Result<ClassDef, Fail> {
    let mut desc = descriptor(alloc, "()V")?;
    for _ in 0..128 {
        desc.params.push(primitive(0, Primitive::Long))?;
    }
    one_method(alloc, 0x0001, "x", desc, Some(code(Seq::new(alloc), alloc)))
}

fn clone_of_array(alloc: Global) -> Result<Insn, Fail> {
    let name = Name::from_str(alloc, "clone")?;
    Ok(Insn::Invoke(
        InvokeKind::Virtual,
        MethodRef {
            class: primitive(1, Primitive::Int),
            name,
            desc: descriptor(alloc, "()Ljava/lang/Object;")?,
            in_interface: false,
        },
    ))
}

fn array_member(alloc: Global) -> Result<ClassDef, Fail> {
    let mut insns = Seq::new(alloc);
    insns.push(clone_of_array(alloc)?)?;
    let desc = descriptor(alloc, "()V")?;
    one_method(alloc, 0x0009, "x", desc, Some(code(insns, alloc)))
}

/// Whether this kind is told of a class, at this place.
fn is_told(
    rt: &impl Abort,
    alloc: Global,
    class: Result<ClassDef, Fail>,
    kind: ProfileKind,
    member: Option<u32>,
    at: Option<u32>,
) -> Result<(), Fail> {
    let class = class?;
    assert!(rt; is_counted(&class));
    let wanted = Err(ProfileStop::Out(OutOfProfile { kind, member, at }));
    assert_eq!(rt; check_profile(alloc, &class, Names::Source), wanted);
    Ok(())
}

#[test]
fn each_kind_of_a_header(rt: HostRuntime) -> Result<(), Fail> {
    let alloc = rt.alloc();
    is_told(
        &rt,
        alloc,
        version_53(alloc),
        ProfileKind::Version(53),
        None,
        None,
    )?;
    is_told(
        &rt,
        alloc,
        interface_not_abstract(alloc),
        ProfileKind::ClassFlags,
        None,
        None,
    )?;
    is_told(
        &rt,
        alloc,
        bare(alloc, "../x"),
        ProfileKind::BadName,
        None,
        None,
    )?;
    is_told(
        &rt,
        alloc,
        no_superclass(alloc),
        ProfileKind::Super,
        None,
        None,
    )?;
    is_told(
        &rt,
        alloc,
        cloneable(alloc),
        ProfileKind::OutName,
        None,
        None,
    )
}

#[test]
fn each_kind_of_a_field(rt: HostRuntime) -> Result<(), Fail> {
    let alloc = rt.alloc();
    is_told(
        &rt,
        alloc,
        one_field(alloc, 3, None),
        ProfileKind::FieldFlags,
        Some(0),
        None,
    )?;
    let long = Some(Constant::Long(1));
    is_told(
        &rt,
        alloc,
        one_field(alloc, 24, long),
        ProfileKind::Constant,
        Some(0),
        None,
    )?;
    is_told(
        &rt,
        alloc,
        field_twice(alloc),
        ProfileKind::TwiceMember,
        Some(1),
        None,
    )
}

#[test]
fn each_kind_of_a_method(rt: HostRuntime) -> Result<(), Fail> {
    let alloc = rt.alloc();
    let kind = ProfileKind::MethodFlags;
    is_told(
        &rt,
        alloc,
        one_coded(alloc, 0x0029, "x", "()V"),
        kind,
        Some(0),
        None,
    )?;
    let kind = ProfileKind::FloatType;
    is_told(
        &rt,
        alloc,
        one_coded(alloc, 0x0009, "x", "(F)V"),
        kind,
        Some(0),
        None,
    )?;
    let kind = ProfileKind::CodeShape;
    is_told(
        &rt,
        alloc,
        one_coded(alloc, 0x0401, "x", "()V"),
        kind,
        Some(0),
        None,
    )?;
    let kind = ProfileKind::Initializer;
    is_told(
        &rt,
        alloc,
        one_coded(alloc, 0x0001, "<init>", "()I"),
        kind,
        Some(0),
        None,
    )?;
    is_told(
        &rt,
        alloc,
        native_method(alloc),
        ProfileKind::Native,
        Some(0),
        None,
    )?;
    let kind = ProfileKind::InterfaceMethod;
    is_told(&rt, alloc, method_in_interface(alloc), kind, Some(0), None)?;
    is_told(
        &rt,
        alloc,
        words_257(alloc),
        ProfileKind::Params,
        Some(0),
        None,
    )?;
    is_told(
        &rt,
        alloc,
        array_member(alloc),
        ProfileKind::ArrayMember,
        Some(0),
        Some(0),
    )
}

#[test]
fn names_of_written_classes(rt: HostRuntime) -> Result<(), Fail> {
    let alloc = rt.alloc();
    let kind = ProfileKind::Reserved(Name::from_str(alloc, "main$$PHOSPHOR")?);
    is_told(
        &rt,
        alloc,
        one_coded(alloc, 0x0009, "main$$PHOSPHOR", "()V"),
        kind,
        Some(0),
        None,
    )?;
    let written = one_coded(alloc, 0x0009, "main$$PHOSPHOR", "()V")?;
    assert!(rt; is_counted(&written));
    assert_eq!(rt; check_profile(alloc, &written, Names::Written), Ok(()));
    Ok(())
}
