//! Members and classes.

ghost use Rattle.std.specs.Prelude.{◌↔◌, IsTrue, All, IfSome};
ghost use Rattle.class_shape.specs.Shaped as shape;
ghost use Rattle.class_shape.specs.Shaped.{Shaped};

use crate::code::is_shaped_code;
use crate::types::{is_field_type, is_method_type};
use class_model::{ClassDef, CodeDef, FieldDef, MethodDef};
use lists::Bytes;
use modified_utf8::wrong_place;

fn are_shaped_fields(fields: &[FieldDef]) -> bool
    ensures { IsTrue result ↔ All shape.ShapedField fields.now }
{
    fields.iter().all(|field| is_field_type(&field.ty))
}

fn is_absent_or_shaped(code: &Option<CodeDef>) -> bool
    ensures { IsTrue result ↔ IfSome code.now shape.ShapedCode }
{
    match code {
        Some(code) => is_shaped_code(code),
        None => true,
    }
}

fn is_shaped_method(method: &MethodDef) -> bool
    ensures { IsTrue result ↔ shape.ShapedMethod method.now }
{
    is_method_type(&method.desc) && is_absent_or_shaped(&method.code)
}

fn are_shaped_methods(methods: &[MethodDef]) -> bool
    ensures { IsTrue result ↔ All shape.ShapedMethod methods.now }
{
    methods.iter().all(|method| is_shaped_method(method))
}

#[tactic(auto, using(modified_utf8::proofs::Texts::text_not_wrong))]
fn spells_text(bytes: &[u8]) -> bool
    ensures { IsTrue result ↔ shape.SpellText bytes.now }
{
    wrong_place(bytes).is_none()
}

fn is_absent_or_text(source: &Option<Bytes>) -> bool
    ensures { IsTrue result ↔ IfSome source.now shape.SpellText }
{
    match source {
        Some(bytes) => spells_text(bytes.as_slice()),
        None => true,
    }
}

/// Whether a class is shaped: whether some bytes are that class (JVMS 4), sizes aside.
///
/// Branches, handlers, frames and lines name instructions; frames and the keys of switches ascend strictly; a
/// handler's range is not empty; a table of a switch is not empty and ends within 32 bits; types are of the grammar
/// of descriptors, and no class name in them has `;` or `[`; an array is made with one dimension or more; an object
/// that is not initialised names the `new` that made it; a frame, a cast, a creation of arrays and a call name a
/// class or an array; and a call names the kind of entry that its opcode takes, `invokeinterface` with at most 255
/// words. Names are any units. Empty code is shaped: how long it is, is a size.
pub fn is_shaped(class: &ClassDef) -> bool
    ensures { IsTrue result ↔ Shaped class.now }
{
    are_shaped_fields(class.fields.as_slice())
        && are_shaped_methods(class.methods.as_slice())
        && is_absent_or_text(&class.source)
}
