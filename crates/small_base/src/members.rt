//! The members of the base's classes.

ghost use Rattle.std.specs.Prelude.{◌≡◌, [], ◌∷◌, IfOk};
ghost use Rattle.lists.specs.Texts.{units_of};
ghost use Rattle.small_base.specs.Members as spec;

use class_model::{
    BaseType, CodeDef, FieldDef, Insn, InvokeKind, JType, Kind, MethodDef, MethodDesc, MethodRef,
    Primitive,
};
use lists::{Name, Seq};
use std::alloc::{AllocError, Global};

const PUBLIC: u16 = 0x0001;

const PUBLIC_STATIC_NATIVE: u16 = 0x0109;

/// The list of one item.
pub fn single<T: Drop>(alloc: Global, item: T) -> Result<Seq<T>, AllocError>
    ensures { IfOk result (λ items. items ≡ item ∷ []) }
{
    let mut items = Seq::new(alloc);
    items.push(item)?;
    Ok(items)
}

/// The type `int`.
pub fn int_type() -> JType
    ensures { result ≡ spec.int_type }
{
    JType {
        depth: 0,
        base: BaseType::Primitive(Primitive::Int),
    }
}

fn class_type(alloc: Global, name: &str) -> Result<JType, AllocError>
    ensures { IfOk result (λ ty. ty ≡ spec.class_type (units_of name.now)) }
{
    Ok(JType {
        depth: 0,
        base: BaseType::Class(Name::from_str(alloc, name)?),
    })
}

/// The descriptor `()V`.
fn takes_nothing(alloc: Global) -> MethodDesc
    ensures { result ≡ spec.takes_nothing }
{
    MethodDesc {
        params: Seq::new(alloc),
        result: None,
    }
}

/// The descriptor `()I`.
pub fn gives_int(alloc: Global) -> MethodDesc
    ensures { result ≡ spec.gives_int }
{
    MethodDesc {
        params: Seq::new(alloc),
        result: Some(int_type()),
    }
}

/// The descriptor `(I)V`.
pub fn takes_int(alloc: Global) -> Result<MethodDesc, AllocError>
    ensures { IfOk result (λ desc. desc ≡ spec.takes_int) }
{
    let params = single(alloc, int_type())?;
    Ok(MethodDesc {
        params,
        result: None,
    })
}

/// The descriptor of `arraycopy`: an array with a position, another with a position, and a length.
pub(crate) fn takes_arrays(alloc: Global) -> Result<MethodDesc, AllocError>
    ensures { IfOk result (λ desc. desc ≡ spec.takes_arrays) }
{
    let mut params = Seq::new(alloc);
    params.push(class_type(alloc, "java/lang/Object")?)?;
    params.push(int_type())?;
    params.push(class_type(alloc, "java/lang/Object")?)?;
    params.push(int_type())?;
    params.push(int_type())?;
    Ok(MethodDesc {
        params,
        result: None,
    })
}

/// A public static native.
pub fn native_method(alloc: Global, name: &str, desc: MethodDesc) -> Result<MethodDef, AllocError>
    ensures { IfOk result (λ method. method ≡ spec.native_method (units_of name.now) desc) }
{
    Ok(MethodDef {
        flags: PUBLIC_STATIC_NATIVE,
        name: Name::from_str(alloc, name)?,
        desc,
        throws: Seq::new(alloc),
        code: None,
    })
}

/// Code without frames, handlers and lines.
fn straight_code(alloc: Global, max_stack: u16, insns: Seq<Insn>) -> CodeDef
    ensures { result ≡ spec.straight_code max_stack insns }
{
    CodeDef {
        max_stack,
        max_locals: 1,
        insns,
        handlers: Seq::new(alloc),
        frames: Seq::new(alloc),
        lines: Seq::new(alloc),
    }
}

/// A constructor without parameters.
fn init_method(alloc: Global, code: CodeDef) -> Result<MethodDef, AllocError>
    ensures { IfOk result (λ method. method ≡ spec.init_method code) }
{
    Ok(MethodDef {
        flags: PUBLIC,
        name: Name::from_str(alloc, "<init>")?,
        desc: takes_nothing(alloc),
        throws: Seq::new(alloc),
        code: Some(code),
    })
}

/// The constructor of `java/lang/Object`.
pub(crate) fn object_init(alloc: Global) -> Result<MethodDef, AllocError>
    ensures { IfOk result (λ method. method ≡ spec.object_init) }
{
    let insns = single(alloc, Insn::Return(None))?;
    init_method(alloc, straight_code(alloc, 0, insns))
}

/// The constructor of a superclass, as code names it.
fn init_ref(alloc: Global, above: &str) -> Result<MethodRef, AllocError>
    ensures { IfOk result (λ method. method ≡ spec.init_ref (units_of above.now)) }
{
    Ok(MethodRef {
        class: class_type(alloc, above)?,
        name: Name::from_str(alloc, "<init>")?,
        desc: takes_nothing(alloc),
        in_interface: false,
    })
}

/// A constructor that calls the one of its superclass.
pub(crate) fn super_init(alloc: Global, above: &str) -> Result<MethodDef, AllocError>
    ensures { IfOk result (λ method. method ≡ spec.super_init (units_of above.now)) }
{
    let mut insns = Seq::new(alloc);
    insns.push(Insn::Load(Kind::Ref, 0))?;
    insns.push(Insn::Invoke(InvokeKind::Special, init_ref(alloc, above)?))?;
    insns.push(Insn::Return(None))?;
    init_method(alloc, straight_code(alloc, 1, insns))
}

/// The characters of `java/lang/String`.
pub(crate) fn value_field(alloc: Global) -> Result<FieldDef, AllocError>
    ensures { IfOk result (λ field. field ≡ spec.value_field) }
{
    Ok(FieldDef {
        flags: 0,
        name: Name::from_str(alloc, "value")?,
        ty: JType {
            depth: 1,
            base: BaseType::Primitive(Primitive::Char),
        },
        constant: None,
    })
}
