//! The first frame of a method.

ghost use Rattle.std.specs.Prelude.{◌≡◌, ◌++◌, map, IfOk, OnOk};
ghost use Rattle.set_lookups.specs.Above.{same_name};
ghost use Rattle.set_lookups.specs.Lookups.{object_name};
ghost use Rattle.class_set.specs.Assignable.{type_of};
ghost use Rattle.type_rows.specs.Method.{init_name};
ghost use Rattle.verifier.specs.First.{starts_uninit, this_type, receiver, first_frame};

use class_model::{Frame, JType, VType};
use lists::{Name, Seq};
use std::alloc::{AllocError, Global};
use type_rows::{Checked, class_ref, type_of};

#[tactic(auto, using(class_set::proofs::Assigned::same_exact))]
fn is_init(name: &Name) -> bool
    ensures { result ≡ same_name name.now init_name }
{
    name.is("<init>")
}

#[tactic(auto, using(class_set::proofs::Assigned::same_exact))]
fn is_object(name: &Name) -> bool
    ensures { result ≡ same_name name.now object_name }
{
    name.is("java/lang/Object")
}

/// Whether the object is not initialised at the start.
fn starts_uninit(method: &Checked) -> bool
    ensures { result ≡ starts_uninit method.now }
{
    is_init(&method.method().name) && !is_object(&method.class().name)
}

/// The type of the object of a method.
fn this_type(method: &Checked) -> Result<VType, AllocError>
    ensures { IfOk result (λ ty. ty ≡ this_type method.now) }
{
    if starts_uninit(method) {
        return Ok(VType::UninitThis);
    }
    class_ref(&method.class().name)
}

/// The object of a method, where it is not static.
fn receiver(alloc: Global, method: &Checked) -> Result<Seq<VType>, AllocError>
    ensures { IfOk result (λ types. types ≡ receiver method.now) }
{
    let mut types = Seq::new(alloc);
    if method.method().flags & 0x0008 == 0 {
        types.push(this_type(method)?)?;
    }
    Ok(types)
}

/// Puts the types of parameters behind others.
#[tactic(auto, using(crate::proofs::Words::map_types_more))]
fn push_params(types: &mut Seq<VType>, params: &[JType]) -> Result<(), AllocError>
    ensures { OnOk result (types.new ≡ types.old ++ map type_of params.now) }
{
    for ty in params {
        types.push(type_of(ty)?)?;
    }
    Ok(())
}

/// The first frame (JVMS 4.10.1.6): the object, that of a constructor not initialised but for Object's, and the parameters.
pub fn first_frame(alloc: Global, method: &Checked) -> Result<Frame, AllocError>
    ensures { IfOk result (λ frame. frame ≡ first_frame method.now) }
{
    let mut locals = receiver(alloc, method)?;
    push_params(&mut locals, method.method().desc.params.as_slice())?;
    Ok(Frame {
        locals,
        stack: Seq::new(alloc),
    })
}
