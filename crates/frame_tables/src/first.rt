//! The first frame of a method's code.

ghost use Rattle.std.specs.Prelude.{◌≡◌, IfOk};
ghost use Rattle.lists.specs.Texts.{units_of};
ghost use Rattle.frame_tables.specs.FirstFrame as first;

use class_file::MethodHead;
use class_model::{BaseType, JType, Primitive, VType};
use lists::{Name, Seq};
use std::alloc::{AllocError, Global};

/// ACC_STATIC (JVMS 4.6).
const STATIC: u16 = 0x0008;

fn is_static(head: &MethodHead) -> bool
    ensures { result ≡ first.is_static head.now }
{
    head.flags & STATIC != 0
}

#[tactic(auto, using(crate::proofs::FirstLaws::same_exact))]
fn is_name(name: &Name, text: &str) -> bool
    ensures { result ≡ first.same_name name.now (units_of text.now) }
{
    name.is(text)
}

/// Whether a method begins with an object on which no other `<init>` has run.
fn begins_uninit(class: &Name, head: &MethodHead) -> bool
    ensures { result ≡ first.begins_uninit class.now head.now }
{
    is_name(&head.name, "<init>") && !is_name(class, "java/lang/Object")
}

fn receiver_type(class: &Name, head: &MethodHead) -> Result<VType, AllocError>
    ensures { IfOk result (λ ty. ty ≡ first.receiver_type class.now head.now) }
{
    if begins_uninit(class, head) {
        return Ok(VType::UninitThis);
    }
    Ok(VType::Ref(JType {
        depth: 0,
        base: BaseType::Class(class.clone()?),
    }))
}

fn receiver(alloc: Global, class: &Name, head: &MethodHead) -> Result<Seq<VType>, AllocError>
    ensures { IfOk result (λ types. types ≡ first.receiver class.now head.now) }
{
    let mut types = Seq::new(alloc);
    if !is_static(head) {
        types.push(receiver_type(class, head)?)?;
    }
    Ok(types)
}

fn primitive_type(primitive: Primitive) -> VType
    ensures { result ≡ first.primitive_type primitive }
{
    match primitive {
        Primitive::Boolean
        | Primitive::Byte
        | Primitive::Char
        | Primitive::Short
        | Primitive::Int => VType::Int,
        Primitive::Long => VType::Long,
        Primitive::Float | Primitive::Double => VType::Top,
    }
}

fn param_type(ty: &JType) -> Result<VType, AllocError>
    ensures { IfOk result (λ param. param ≡ first.param_type ty.now) }
{
    match &ty.base {
        BaseType::Primitive(primitive) if ty.depth == 0 => Ok(primitive_type(*primitive)),
        _ => Ok(VType::Ref(ty.clone()?)),
    }
}

/// The locals of the first frame of a method of a class (JVMS 4.10.1.6), a long as one entry: the receiver, which in
/// `<init>` is not initialized (but in that of `java/lang/Object`) and which a static method does not have, and the
/// parameters. Float and double, which are left out elsewhere, are one entry `Top` each.
#[tactic(auto, unfolding(crate::specs::FirstFrame::first_types))]
pub fn first_types(alloc: Global, class: &Name, head: &MethodHead) -> Result<Seq<VType>, AllocError>
    ensures { IfOk result (λ types. types ≡ first.first_types class.now head.now) }
{
    let mut types = receiver(alloc, class, head)?;
    for param in head.desc.params.as_slice() {
        types.push(param_type(param)?)?;
    }
    Ok(types)
}
