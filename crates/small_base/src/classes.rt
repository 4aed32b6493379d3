//! The classes of the base.

ghost use Rattle.std.specs.Prelude.{◌≡◌, [], ◌∷◌, Some, None, IfOk};
ghost use Rattle.lists.specs.Texts.{units_of};
ghost use Rattle.small_base.specs.Base as spec;

use crate::members::{
    gives_int, native_method, object_init, single, super_init, takes_arrays, takes_int, value_field,
};
use class_model::{ClassDef, FieldDef, MethodDef};
use lists::{Name, Seq};
use std::alloc::{AllocError, Global};

const PUBLIC: u16 = 0x0001;

const FINAL: u16 = 0x0010;

const SUPER: u16 = 0x0020;

const MAJOR: u16 = 52;

/// A class with these members.
fn class_with(
    alloc: Global,
    flags: u16,
    name: Name,
    super_name: Option<Name>,
    fields: Seq<FieldDef>,
    methods: Seq<MethodDef>,
) -> ClassDef
    ensures { result ≡ spec.class_with flags name super_name fields methods }
{
    ClassDef {
        minor: 0,
        major: MAJOR,
        flags,
        name,
        super_name,
        interfaces: Seq::new(alloc),
        fields,
        methods,
        source: None,
        inner: Seq::new(alloc),
    }
}

/// A public class with a superclass and these members.
pub fn class_below(
    alloc: Global,
    flags: u16,
    name: &str,
    above: &str,
    fields: Seq<FieldDef>,
    methods: Seq<MethodDef>,
) -> Result<ClassDef, AllocError>
    ensures { IfOk result (λ class. class ≡ spec.class_with flags (units_of name.now) (Some (units_of above.now)) fields methods) }
{
    let name = Name::from_str(alloc, name)?;
    let above = Name::from_str(alloc, above)?;
    Ok(class_with(alloc, flags, name, Some(above), fields, methods))
}

/// `java/lang/Object`, with its constructor alone.
pub(crate) fn object_class(alloc: Global) -> Result<ClassDef, AllocError>
    ensures { IfOk result (λ class. class ≡ spec.object_class) }
{
    let methods = single(alloc, object_init(alloc)?)?;
    let name = Name::from_str(alloc, "java/lang/Object")?;
    Ok(class_with(alloc, PUBLIC | SUPER, name, None, Seq::new(alloc), methods))
}

/// `java/lang/String`, with its characters alone.
pub(crate) fn string_class(alloc: Global) -> Result<ClassDef, AllocError>
    ensures { IfOk result (λ class. class ≡ spec.string_class) }
{
    let fields = single(alloc, value_field(alloc)?)?;
    class_below(
        alloc,
        PUBLIC | FINAL | SUPER,
        "java/lang/String",
        "java/lang/Object",
        fields,
        Seq::new(alloc),
    )
}

/// `java/lang/System`, with `arraycopy` alone.
pub(crate) fn system_class(alloc: Global) -> Result<ClassDef, AllocError>
    ensures { IfOk result (λ class. class ≡ spec.system_class) }
{
    let arrays = takes_arrays(alloc)?;
    let methods = single(alloc, native_method(alloc, "arraycopy", arrays)?)?;
    class_below(
        alloc,
        PUBLIC | SUPER,
        "java/lang/System",
        "java/lang/Object",
        Seq::new(alloc),
        methods,
    )
}

/// The natives of `sys/Native`.
fn native_methods(alloc: Global) -> Result<Seq<MethodDef>, AllocError>
    ensures { IfOk result (λ methods. methods ≡ spec.native_methods) }
{
    let mut methods = Seq::new(alloc);
    methods.push(native_method(alloc, "read", gives_int(alloc))?)?;
    let int = takes_int(alloc)?;
    methods.push(native_method(alloc, "write", int)?)?;
    let int = takes_int(alloc)?;
    methods.push(native_method(alloc, "exit", int)?)?;
    Ok(methods)
}

/// `sys/Native`, with its three natives.
pub(crate) fn native_class(alloc: Global) -> Result<ClassDef, AllocError>
    ensures { IfOk result (λ class. class ≡ spec.native_class) }
{
    let methods = native_methods(alloc)?;
    class_below(
        alloc,
        PUBLIC | SUPER,
        "sys/Native",
        "java/lang/Object",
        Seq::new(alloc),
        methods,
    )
}

/// `java/lang/Throwable` or a class below it, with its constructor alone.
pub(crate) fn thrown_class(alloc: Global, name: &str, above: &str) -> Result<ClassDef, AllocError>
    ensures { IfOk result (λ class. class ≡ spec.thrown_class (units_of name.now) (units_of above.now)) }
{
    let methods = single(alloc, super_init(alloc, above)?)?;
    class_below(alloc, PUBLIC | SUPER, name, above, Seq::new(alloc), methods)
}
