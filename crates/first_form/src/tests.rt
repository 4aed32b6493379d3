//! The natives, the names that a class may have, and the sets that are built.

ghost use Rattle.std.specs.Prelude.{IfOk};
ghost use Rattle.first_form.specs.FirstSet.{HasObject};

use super::*;
use class_model::{BaseType, ClassDef, CodeDef, Insn, JType, MethodDef, MethodDesc};
use lists::{Name, Seq};
use profile_check::Names;
use small_base::small_base;
use std::alloc::{AllocError, Global};
use std::test::Fail;

#[test]
fn class_of_reports(rt: HostRuntime) -> Result<(), Fail> {
    let reports = report_class(rt.alloc())?;
    assert!(rt; reports.name.is("phosphor/Report"));
    Ok(())
}

#[test]
fn natives(rt: HostRuntime) -> Result<(), Fail> {
    for native in [Native::Read, Native::Write, Native::Report] {
        let method = native_ref(rt.alloc(), native)?;
        assert_eq!(rt; native_of(&method), Some(native));
    }
    Ok(())
}

/// A class of this name, whose `main` does nothing.
fn class_of_name(alloc: Global, name: &str) -> Result<ClassDef, AllocError> {
    let mut insns = Seq::new(alloc);
    insns.push(Insn::Return(None))?;
    let mut params = Seq::new(alloc);
    params.push(JType {
        depth: 1,
        base: BaseType::Class(Name::from_str(alloc, "java/lang/String")?),
    })?;
    let mut methods = Seq::new(alloc);
    methods.push(MethodDef {
        flags: 9,
        name: Name::from_str(alloc, "main")?,
        desc: MethodDesc {
            params,
            result: None,
        },
        throws: Seq::new(alloc),
        code: Some(CodeDef {
            max_stack: 0,
            max_locals: 1,
            insns,
            handlers: Seq::new(alloc),
            frames: Seq::new(alloc),
            lines: Seq::new(alloc),
        }),
    })?;
    Ok(ClassDef {
        minor: 0,
        major: 50,
        flags: 1,
        name: Name::from_str(alloc, name)?,
        super_name: Some(Name::from_str(alloc, "java/lang/Object")?),
        interfaces: Seq::new(alloc),
        fields: Seq::new(alloc),
        methods,
        source: None,
        inner: Seq::new(alloc),
    })
}

#[test]
fn names_of_users(rt: HostRuntime) -> Result<(), Fail> {
    let rows = [
        ("A", true),
        ("a/b$c", true),
        ("", false),
        ("a//b", false),
        ("a.b", false),
        ("../x", false),
        ("phosphor/A", false),
        ("a$$PHOSPHOR", false),
        ("sys/Native", false),
        ("java/lang/Error", false),
    ];
    for (name, holds) in rows {
        let class = class_of_name(rt.alloc(), name)?;
        let source = is_form_one(rt.alloc(), &class, Names::Source)?;
        assert_eq!(rt; source, holds, "{name}");
        let written = is_form_one(rt.alloc(), &class, Names::Written)?;
        assert!(rt; written, "{name}");
    }
    Ok(())
}

/// Classes with the small base behind them.
fn with_base(alloc: Global, mut classes: Vec<ClassDef>) -> Result<Vec<ClassDef>, AllocError>
    ensures { IfOk result (λ set. HasObject set.items) }
{
    classes.append(&mut small_base(alloc)?)?;
    Ok(classes)
}

/// What is told of classes of these names before the small base.
fn told_of(alloc: Global, names: &[&str]) -> Result<Option<u32>, AllocError> {
    let mut classes = Vec::new(alloc);
    for name in names {
        classes.push(class_of_name(alloc, name)?)?;
    }
    first_not_built(alloc, &with_base(alloc, classes)?)
}

#[test]
fn first_class_not_built(rt: HostRuntime) -> Result<(), Fail> {
    assert_eq!(rt; told_of(rt.alloc(), &[])?, None);
    assert_eq!(rt; told_of(rt.alloc(), &["A"])?, None);
    assert_eq!(rt; told_of(rt.alloc(), &["phosphor/A"])?, Some(0));
    assert_eq!(rt; told_of(rt.alloc(), &["A", "B"])?, Some(1));
    assert_eq!(rt; told_of(rt.alloc(), &["java/lang/Object", "B"])?, Some(0));
    Ok(())
}
