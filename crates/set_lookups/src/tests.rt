use crate::{ClassId, Hierarchy, HierarchyFault, MethodId, are_counted, link_classes};
use class_model::{
    BaseType, ClassDef, FieldDef, FieldRef, JType, MethodDef, MethodRef, Primitive, parse_desc,
};
use lists::{Name, Seq};
use std::alloc::Global;
use std::process::Abort;
use std::test::Fail;

fn bare(alloc: Global, name: &str, above: Option<&str>) -> Result<ClassDef, Fail> {
    let super_name = match above {
        Some(text) => Some(Name::from_str(alloc, text)?),
        None => None,
    };
    Ok(ClassDef {
        minor: 0,
        major: 52,
        flags: 1,
        name: Name::from_str(alloc, name)?,
        super_name,
        interfaces: Seq::new(alloc),
        fields: Seq::new(alloc),
        methods: Seq::new(alloc),
        source: None,
        inner: Seq::new(alloc),
    })
}

fn int_type() -> JType {
    JType {
        depth: 0,
        base: BaseType::Primitive(Primitive::Int),
    }
}

fn method(alloc: Global, flags: u16, name: &str) -> Result<MethodDef, Fail> {
    let desc = Name::from_str(alloc, "()V")?;
    Ok(MethodDef {
        flags,
        name: Name::from_str(alloc, name)?,
        desc: parse_desc(alloc, desc.as_units())?,
        throws: Seq::new(alloc),
        code: None,
    })
}

fn fields(alloc: Global) -> Result<Seq<FieldDef>, Fail> {
    let mut fields = Seq::new(alloc);
    fields.push(FieldDef {
        flags: 0,
        name: Name::from_str(alloc, "x")?,
        ty: int_type(),
        constant: None,
    })?;
    Ok(fields)
}

/// Methods of one name, by their flags.
fn methods(alloc: Global, name: &str, flags: &[u16]) -> Result<Seq<MethodDef>, Fail> {
    let mut methods = Seq::new(alloc);
    for flags in flags {
        methods.push(method(alloc, *flags, name)?)?;
    }
    Ok(methods)
}

/// The class `A` with a field `x` and methods `m`, of which the first is private.
fn high(alloc: Global) -> Result<ClassDef, Fail> {
    let mut class = bare(alloc, "A", None)?;
    class.fields = fields(alloc)?;
    class.methods = methods(alloc, "m", &[2, 1])?;
    Ok(class)
}

/// The class `B` below it, with the interface `I`.
fn low(alloc: Global) -> Result<ClassDef, Fail> {
    let mut class = bare(alloc, "B", Some("A"))?;
    class.interfaces.push(Name::from_str(alloc, "I")?)?;
    Ok(class)
}

/// The interface `I`, which has a method `n`.
fn interface(alloc: Global) -> Result<ClassDef, Fail> {
    let mut class = bare(alloc, "I", Some("A"))?;
    class.methods = methods(alloc, "n", &[1])?;
    Ok(class)
}

/// `B`, `A` and `I`, in this order.
fn family(rt: &impl Abort, alloc: Global) -> Result<Hierarchy, Fail> {
    let mut classes = Seq::new(alloc);
    classes.push(low(alloc)?)?;
    classes.push(high(alloc)?)?;
    classes.push(interface(alloc)?)?;
    assert!(rt; are_counted(classes.as_slice()));
    Ok(link_classes(alloc, classes)?)
}

fn method_ref(alloc: Global, name: &str) -> Result<MethodRef, Fail> {
    let desc = Name::from_str(alloc, "()V")?;
    Ok(MethodRef {
        class: JType {
            depth: 0,
            base: BaseType::Class(Name::from_str(alloc, "B")?),
        },
        name: Name::from_str(alloc, name)?,
        desc: parse_desc(alloc, desc.as_units())?,
        in_interface: false,
    })
}

fn field_ref(alloc: Global) -> Result<FieldRef, Fail> {
    Ok(FieldRef {
        class: Name::from_str(alloc, "B")?,
        name: Name::from_str(alloc, "x")?,
        ty: int_type(),
    })
}

#[test]
fn classes_by_name_and_their_subtypes(rt: HostRuntime) -> Result<(), Fail> {
    let set = family(&rt, rt.alloc())?;
    assert_eq!(rt; set.len(), 3);
    assert_eq!(rt; set.find("I"), Some(ClassId(2)));
    assert!(rt; set.subtype(ClassId(0), ClassId(2)));
    assert!(rt; !set.subtype(ClassId(1), ClassId(2)));
    Ok(())
}

#[test]
fn a_field_of_a_superclass(rt: HostRuntime) -> Result<(), Fail> {
    let field = field_ref(rt.alloc())?;
    let set = family(&rt, rt.alloc())?;
    assert_eq!(rt; set.resolve_field(&field), Some((ClassId(1), 0)));
    Ok(())
}

#[test]
fn methods_of_a_superclass_and_an_interface(rt: HostRuntime) -> Result<(), Fail> {
    let m = method_ref(rt.alloc(), "m")?;
    let n = method_ref(rt.alloc(), "n")?;
    let set = family(&rt, rt.alloc())?;
    let first = MethodId { class: 1, index: 0 };
    let second = MethodId { class: 1, index: 1 };
    let third = MethodId { class: 2, index: 0 };
    assert_eq!(rt; set.resolve_method(&m), Some(first));
    assert_eq!(rt; set.select(ClassId(0), second), Some(second));
    assert_eq!(rt; set.resolve_method(&n), Some(third));
    Ok(())
}

/// Whether this fault is told of classes.
fn is_told(
    rt: &impl Abort,
    alloc: Global,
    classes: Seq<ClassDef>,
    fault: HierarchyFault,
) -> Result<(), Fail> {
    assert!(rt; are_counted(classes.as_slice()));
    match link_classes(alloc, classes) {
        Ok(_) => assert!(rt; false),
        Err(told) => assert_eq!(rt; told, fault),
    }
    Ok(())
}

fn twice(alloc: Global) -> Result<Seq<ClassDef>, Fail> {
    let mut classes = Seq::new(alloc);
    classes.push(bare(alloc, "A", None)?)?;
    classes.push(bare(alloc, "B", None)?)?;
    classes.push(bare(alloc, "B", None)?)?;
    classes.push(bare(alloc, "A", None)?)?;
    Ok(classes)
}

fn below_a_cycle(alloc: Global) -> Result<Seq<ClassDef>, Fail> {
    let mut classes = Seq::new(alloc);
    classes.push(bare(alloc, "C", Some("B"))?)?;
    classes.push(bare(alloc, "B", Some("A"))?)?;
    classes.push(bare(alloc, "A", Some("B"))?)?;
    Ok(classes)
}

fn absent(alloc: Global) -> Result<Seq<ClassDef>, Fail> {
    let mut classes = Seq::new(alloc);
    classes.push(bare(alloc, "A", Some("Y"))?)?;
    Ok(classes)
}

#[test]
fn each_kind_of_fault(rt: HostRuntime) -> Result<(), Fail> {
    let alloc = rt.alloc();
    let name = Name::from_str(alloc, "A")?;
    is_told(&rt, alloc, twice(alloc)?, HierarchyFault::Duplicate(name))?;
    let name = Name::from_str(alloc, "Y")?;
    is_told(&rt, alloc, absent(alloc)?, HierarchyFault::Missing(name))?;
    let name = Name::from_str(alloc, "B")?;
    is_told(
        &rt,
        alloc,
        below_a_cycle(alloc)?,
        HierarchyFault::Cycle(name),
    )
}
