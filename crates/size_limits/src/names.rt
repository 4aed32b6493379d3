//! The longest name of a class: of class names, member names and descriptors.

ghost use Rattle.std.specs.Prelude.{◌≡◌};
ghost use Rattle.class_limits.specs.Limits.{told};
ghost use Rattle.size_limits.specs.Numbers as numbers;

use crate::measure::{Measure, larger, most_of, of_some};
use class_limits::{class_size, desc_size, text_size, type_size};
use class_model::{
    ClassDef, CodeDef, FieldDef, FieldRef, Frame, Handler, InnerRow, Insn, MethodDef, MethodRef,
    VType,
};
use lists::Name;

/// What gives the bytes of the longest name in a thing.
pub(crate) struct Longest;

fn name_length(name: &Name) -> u64
    ensures { result ≡ told (numbers.name_length name.now) }
{
    text_size(name.as_units())
}

fn field_ref_length(field: &FieldRef) -> u64
    ensures { result ≡ told (numbers.field_ref_length field.now) }
{
    let member = larger(name_length(&field.class), name_length(&field.name));
    larger(member, type_size(&field.ty))
}

fn method_ref_length(method: &MethodRef) -> u64
    ensures { result ≡ told (numbers.method_ref_length method.now) }
{
    let member = larger(class_size(&method.class), name_length(&method.name));
    larger(member, desc_size(&method.desc))
}

impl Measure<Name> for Longest {
    ghost measure = { λ name. numbers.name_length name };

    fn measure(&self, name: &Name) -> u64 {
        name_length(name)
    }
}

impl Measure<Insn> for Longest {
    ghost measure = { numbers.insn_length };

    #[tactic(auto, unfolding(crate::specs::Numbers::insn_length))]
    fn measure(&self, insn: &Insn) -> u64 {
        match insn {
            Insn::GetStatic(field)
            | Insn::PutStatic(field)
            | Insn::GetField(field)
            | Insn::PutField(field) => field_ref_length(field),
            Insn::Invoke(_, method) => method_ref_length(method),
            Insn::New(class) => name_length(class),
            Insn::ANewArray(ty)
            | Insn::CheckCast(ty)
            | Insn::InstanceOf(ty)
            | Insn::MultiNewArray(ty, _) => class_size(ty),
            _ => 0,
        }
    }
}

impl Measure<Handler> for Longest {
    ghost measure = { numbers.handler_length };

    #[tactic(auto, unfolding(crate::specs::Numbers::handler_length))]
    fn measure(&self, handler: &Handler) -> u64 {
        of_some(self, &handler.caught)
    }
}

impl Measure<VType> for Longest {
    ghost measure = { numbers.vtype_length };

    #[tactic(auto, unfolding(crate::specs::Numbers::vtype_length))]
    fn measure(&self, ty: &VType) -> u64 {
        match ty {
            VType::Ref(ty) => class_size(ty),
            _ => 0,
        }
    }
}

impl Measure<(u32, Frame)> for Longest {
    ghost measure = { numbers.frame_length };

    #[tactic(auto, unfolding(crate::specs::Numbers::frame_length))]
    fn measure(&self, row: &(u32, Frame)) -> u64 {
        let locals = most_of(self, row.1.locals.as_slice());
        larger(locals, most_of(self, row.1.stack.as_slice()))
    }
}

impl Measure<CodeDef> for Longest {
    ghost measure = { numbers.code_length };

    #[tactic(auto, unfolding(crate::specs::Numbers::code_length))]
    fn measure(&self, code: &CodeDef) -> u64 {
        let insns = most_of(self, code.insns.as_slice());
        let handlers = most_of(self, code.handlers.as_slice());
        let frames = most_of(self, code.frames.as_slice());
        larger(larger(insns, handlers), frames)
    }
}

impl Measure<FieldDef> for Longest {
    ghost measure = { numbers.field_length };

    #[tactic(auto, unfolding(crate::specs::Numbers::field_length))]
    fn measure(&self, field: &FieldDef) -> u64 {
        larger(name_length(&field.name), type_size(&field.ty))
    }
}

impl Measure<MethodDef> for Longest {
    ghost measure = { numbers.method_length };

    #[tactic(auto, unfolding(crate::specs::Numbers::method_length))]
    fn measure(&self, method: &MethodDef) -> u64 {
        let head = larger(name_length(&method.name), desc_size(&method.desc));
        let code = of_some(self, &method.code);
        larger(larger(head, code), most_of(self, method.throws.as_slice()))
    }
}

impl Measure<InnerRow> for Longest {
    ghost measure = { numbers.row_length };

    #[tactic(auto, unfolding(crate::specs::Numbers::row_length))]
    fn measure(&self, row: &InnerRow) -> u64 {
        larger(name_length(&row.inner), of_some(self, &row.outer))
    }
}

#[tactic(auto, unfolding(crate::specs::Numbers::header_length))]
fn header_length(class: &ClassDef) -> u64
    ensures { result ≡ told (numbers.header_length class.now) }
{
    let name = name_length(&class.name);
    let super_name = of_some(&Longest, &class.super_name);
    let interfaces = most_of(&Longest, class.interfaces.as_slice());
    larger(larger(name, super_name), interfaces)
}

/// The bytes of the longest name in a class.
#[tactic(auto, unfolding(crate::specs::Numbers::text_number))]
pub(crate) fn text_number(class: &ClassDef) -> u64
    ensures { result ≡ told (numbers.text_number class.now) }
{
    let header = header_length(class);
    let fields = most_of(&Longest, class.fields.as_slice());
    let methods = most_of(&Longest, class.methods.as_slice());
    let rows = most_of(&Longest, class.inner.as_slice());
    larger(larger(larger(header, fields), methods), rows)
}
