//! The natives that straight-line code calls.

ghost use Rattle.std.specs.Prelude.{◌≡◌, ◌≢◌, ◌↔◌, IsTrue, IfOk, MatchOption, replicate};
ghost use Rattle.lists.specs.Texts.{units_of};
ghost use Rattle.small_base.specs.Members.{int_type};
ghost use Rattle.first_form.specs.declared.natives.Native as declared;
ghost use Rattle.first_form.specs.Natives as spec;

use class_model::{BaseType, JType, MethodDesc, MethodRef};
use lists::{Name, Seq};
use small_base::{does_give_int, does_take_int, gives_int, int_type, is_class, is_int, takes_int};
use std::alloc::{AllocError, Global};

/// A native that straight-line code calls.
#[derive(Clone, Copy, Debug, PartialEq, Eq)]
pub enum Native {
    /// `sys/Native.read()I`: the next byte of the input, or -1 at its end.
    Read,
    /// `sys/Native.write(I)V`: writes the lowest byte to the console.
    Write,
    /// `phosphor/Report.tag(III)V`: reports a tag, with the sink and the argument. Only written code
    /// calls it.
    Report,
}

/// The class that declares a native.
fn class_of(native: Native) -> &'static str
    ensures { units_of result.now ≡ spec.class_of native }
{
    match native {
        Native::Read | Native::Write => "sys/Native",
        Native::Report => "phosphor/Report",
    }
}

fn name_of(native: Native) -> &'static str
    ensures { units_of result.now ≡ spec.name_of native }
{
    match native {
        Native::Read => "read",
        Native::Write => "write",
        Native::Report => "tag",
    }
}

/// So many ints, as the types of parameters.
#[tactic(auto, using(std::proofs::lemmas::List::replicate_more))]
fn ints(alloc: Global, count: usize) -> Result<Seq<JType>, AllocError>
    ensures { IfOk result (λ types. types ≡ replicate count int_type) }
{
    let mut types = Seq::new(alloc);
    for _ in 0..count {
        types.push(int_type())?;
    }
    Ok(types)
}

/// The descriptor of a native.
pub(crate) fn native_desc(alloc: Global, native: Native) -> Result<MethodDesc, AllocError>
    ensures { IfOk result (λ desc. desc ≡ spec.desc_of native) }
{
    match native {
        Native::Read => Ok(gives_int(alloc)),
        Native::Write => takes_int(alloc),
        Native::Report => Ok(MethodDesc {
            params: ints(alloc, 3)?,
            result: None,
        }),
    }
}

/// The reference by which code calls a native.
pub fn native_ref(alloc: Global, native: Native) -> Result<MethodRef, AllocError>
    ensures { IfOk result (λ method. method ≡ spec.ref_of native) }
{
    Ok(MethodRef {
        class: JType {
            depth: 0,
            base: BaseType::Class(Name::from_str(alloc, class_of(native))?),
        },
        name: Name::from_str(alloc, name_of(native))?,
        desc: native_desc(alloc, native)?,
        in_interface: false,
    })
}

/// Whether a descriptor is `(III)V`.
fn takes_three(desc: &MethodDesc) -> bool
    ensures { IsTrue result ↔ (desc.now ≡ spec.takes_three) }
{
    match desc.params.as_slice() {
        [sink, argument, tag] => {
            is_int(sink) && is_int(argument) && is_int(tag) && desc.result.is_none()
        }
        _ => false,
    }
}

/// Whether a descriptor is that of a native.
fn is_desc_of(desc: &MethodDesc, native: Native) -> bool
    ensures { IsTrue result ↔ (desc.now ≡ spec.desc_of native) }
{
    match native {
        Native::Read => does_give_int(desc),
        Native::Write => does_take_int(desc),
        Native::Report => takes_three(desc),
    }
}

/// Whether a reference names a native.
fn is_ref_of(method: &MethodRef, native: Native) -> bool
    ensures { IsTrue result ↔ (method.now ≡ spec.ref_of native) }
{
    !method.in_interface
        && is_class(&method.class, class_of(native))
        && method.name.is(name_of(native))
        && is_desc_of(&method.desc, native)
}

/// The native that a reference names, where it names one of them.
pub fn native_of(method: &MethodRef) -> Option<Native>
    ensures { MatchOption result ((native : declared.Native) → method.now ≢ spec.ref_of native) (λ native. method.now ≡ spec.ref_of native) }
{
    if is_ref_of(method, Native::Read) {
        Some(Native::Read)
    } else if is_ref_of(method, Native::Write) {
        Some(Native::Write)
    } else if is_ref_of(method, Native::Report) {
        Some(Native::Report)
    } else {
        None
    }
}
