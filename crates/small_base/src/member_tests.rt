//! Tests of members: whether they are those of the base's classes.

ghost use Rattle.std.specs.Prelude.{◌≡◌, [], ◌∷◌, Some, None, ◌↔◌, IsTrue};
ghost use Rattle.lists.specs.Texts.{units_of};
ghost use Rattle.class_model.specs.declared.insn.Insn.TheVariants.{Invoke, Load, Return};
ghost use Rattle.class_model.specs.declared.insn.Kind.TheVariants as kinds;
ghost use Rattle.class_model.specs.declared.insn.InvokeKind.TheVariants as invokes;
ghost use Rattle.small_base.specs.Members as spec;

use class_model::{
    BaseType, CodeDef, FieldDef, Insn, InvokeKind, JType, Kind, MethodDef, MethodDesc, MethodRef,
    Primitive,
};

const PUBLIC: u16 = 0x0001;

const PUBLIC_STATIC_NATIVE: u16 = 0x0109;

/// Whether a type is `int`.
pub fn is_int(ty: &JType) -> bool
    ensures { IsTrue result ↔ (ty.now ≡ spec.int_type) }
{
    ty.depth == 0 && matches!(ty.base, BaseType::Primitive(Primitive::Int))
}

/// Whether a type is the class of this name.
pub fn is_class(ty: &JType, name: &str) -> bool
    ensures { IsTrue result ↔ (ty.now ≡ spec.class_type (units_of name.now)) }
{
    match &ty.base {
        BaseType::Class(class) => ty.depth == 0 && class.is(name),
        BaseType::Primitive(_) => false,
    }
}

fn is_object(ty: &JType) -> bool
    ensures { IsTrue result ↔ (ty.now ≡ spec.class_type spec.object_name) }
{
    is_class(ty, "java/lang/Object")
}

/// Whether a descriptor is `()V`.
fn does_take_nothing(desc: &MethodDesc) -> bool
    ensures { IsTrue result ↔ (desc.now ≡ spec.takes_nothing) }
{
    desc.params.is_empty() && desc.result.is_none()
}

/// Whether a descriptor is `()I`.
pub fn does_give_int(desc: &MethodDesc) -> bool
    ensures { IsTrue result ↔ (desc.now ≡ spec.gives_int) }
{
    match &desc.result {
        Some(result) => is_int(result) && desc.params.is_empty(),
        None => false,
    }
}

/// Whether a descriptor is `(I)V`.
pub fn does_take_int(desc: &MethodDesc) -> bool
    ensures { IsTrue result ↔ (desc.now ≡ spec.takes_int) }
{
    match desc.params.as_slice() {
        [param] => is_int(param) && desc.result.is_none(),
        _ => false,
    }
}

/// Whether a descriptor is that of `arraycopy`.
pub(crate) fn does_take_arrays(desc: &MethodDesc) -> bool
    ensures { IsTrue result ↔ (desc.now ≡ spec.takes_arrays) }
{
    match desc.params.as_slice() {
        [from, at, to, place, count] => {
            is_object(from)
                && is_int(at)
                && is_object(to)
                && is_int(place)
                && is_int(count)
                && desc.result.is_none()
        }
        _ => false,
    }
}

/// Whether everything of a method but its descriptor is that of a native of this name.
pub(crate) fn is_native(method: &MethodDef, name: &str) -> bool
    ensures { IsTrue result ↔ (method.now ≡ spec.native_method (units_of name.now) method.now.desc) }
{
    method.flags == PUBLIC_STATIC_NATIVE
        && method.name.is(name)
        && method.throws.is_empty()
        && method.code.is_none()
}

/// Whether everything of code but its instructions is that of a constructor of the base.
fn is_straight(code: &CodeDef, max_stack: u16) -> bool
    ensures { IsTrue result ↔ (code.now ≡ spec.straight_code max_stack code.now.insns) }
{
    code.max_stack == max_stack
        && code.max_locals == 1
        && code.handlers.is_empty()
        && code.frames.is_empty()
        && code.lines.is_empty()
}

/// Whether everything of a method but its code is that of a constructor of the base.
fn is_init(method: &MethodDef) -> bool
    ensures { IsTrue result ↔ (method.now ≡ record (spec.init_method (spec.straight_code 0 [])) { code = method.now.code }) }
{
    method.flags == PUBLIC
        && method.name.is("<init>")
        && does_take_nothing(&method.desc)
        && method.throws.is_empty()
}

/// Whether an instruction returns nothing.
fn is_return(insn: &Insn) -> bool
    ensures { IsTrue result ↔ (insn.now ≡ Return None) }
{
    matches!(insn, Insn::Return(None))
}

/// Whether an instruction loads the receiver.
fn is_load(insn: &Insn) -> bool
    ensures { IsTrue result ↔ (insn.now ≡ Load kinds.Ref 0) }
{
    matches!(insn, Insn::Load(Kind::Ref, 0))
}

/// Whether a reference names the constructor of this class.
fn is_init_ref(method: &MethodRef, above: &str) -> bool
    ensures { IsTrue result ↔ (method.now ≡ spec.init_ref (units_of above.now)) }
{
    !method.in_interface
        && is_class(&method.class, above)
        && method.name.is("<init>")
        && does_take_nothing(&method.desc)
}

/// Whether an instruction calls the constructor of this class.
fn is_init_call(insn: &Insn, above: &str) -> bool
    ensures { IsTrue result ↔ (insn.now ≡ Invoke invokes.Special (spec.init_ref (units_of above.now))) }
{
    match insn {
        Insn::Invoke(InvokeKind::Special, method) => is_init_ref(method, above),
        _ => false,
    }
}

/// Whether code is that of the constructor of `java/lang/Object`.
fn is_object_code(code: &CodeDef) -> bool
    ensures { IsTrue result ↔ (code.now ≡ spec.straight_code 0 (Return None ∷ [])) }
{
    match code.insns.as_slice() {
        [last] => is_straight(code, 0) && is_return(last),
        _ => false,
    }
}

/// Whether code calls the constructor of this class and returns.
fn is_super_code(code: &CodeDef, above: &str) -> bool
    ensures { IsTrue result ↔ (code.now ≡ spec.straight_code 1 (Load kinds.Ref 0 ∷ Invoke invokes.Special (spec.init_ref (units_of above.now)) ∷ Return None ∷ [])) }
{
    match code.insns.as_slice() {
        [receiver, call, last] => {
            is_straight(code, 1)
                && is_load(receiver)
                && is_init_call(call, above)
                && is_return(last)
        }
        _ => false,
    }
}

/// Whether a method is the constructor of `java/lang/Object`.
pub(crate) fn is_object_init(method: &MethodDef) -> bool
    ensures { IsTrue result ↔ (method.now ≡ spec.object_init) }
{
    match &method.code {
        Some(code) => is_init(method) && is_object_code(code),
        None => false,
    }
}

/// Whether a method is the constructor of a class that extends this one.
pub(crate) fn is_super_init(method: &MethodDef, above: &str) -> bool
    ensures { IsTrue result ↔ (method.now ≡ spec.super_init (units_of above.now)) }
{
    match &method.code {
        Some(code) => is_init(method) && is_super_code(code, above),
        None => false,
    }
}

/// Whether a field is the characters of `java/lang/String`.
pub(crate) fn is_value_field(field: &FieldDef) -> bool
    ensures { IsTrue result ↔ (field.now ≡ spec.value_field) }
{
    field.flags == 0
        && field.name.is("value")
        && field.ty.depth == 1
        && matches!(field.ty.base, BaseType::Primitive(Primitive::Char))
        && field.constant.is_none()
}
