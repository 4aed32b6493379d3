//! Texts of over 65,535 bytes (JVMS 4.4.7), in the order in which the body of the file wants them.

ghost use Rattle.std.specs.Prelude.{◌≡◌, ◌↔◌, nat_lt, List, Option, None, Some, flat_map, option_to_list, if◌then◌else◌};
ghost use Rattle.class_limits.specs.Limits.{first, long_text};
ghost use Rattle.class_limits.specs.Texts as texts;

use crate::finder::{Finder, find_if, find_in};
use crate::text_bounds::{class_bound, desc_bound, text_bound, type_bound};
use crate::text_sizes::{class_size, desc_size, text_size, type_size};
use class_model::{
    ClassDef, CodeDef, Constant, FieldDef, FieldRef, Frame, Handler, InnerRow, Insn, JType,
    MethodDef, MethodDesc, MethodRef, VType,
};
use lists::{Bytes, Name, Units};

/// The most bytes of a text.
const MOST: u64 = 65_535;

/// What finds the first text that is too long.
pub(crate) struct Texts;

fn if_long(bytes: u64) -> Option<u64>
    ensures { result ≡ (if nat_lt 65535 bytes then Some bytes else None) }
{
    if bytes > MOST { Some(bytes) } else { None }
}

#[tactic(auto, unfolding(crate::specs::Texts::name_texts), using(crate::proofs::TextSizes::long_if, crate::proofs::TextSizes::not_long))]
fn long_name(units: &[u16]) -> Option<u64>
    ensures { result ≡ long_text (texts.name_texts units.now) }
{
    if text_bound(units) <= MOST {
        return None;
    }
    if_long(text_size(units))
}

#[tactic(auto, unfolding(crate::specs::Texts::name_texts), using(crate::proofs::TextSizes::long_if, crate::proofs::TextSizes::not_long))]
fn long_type(ty: &JType) -> Option<u64>
    ensures { result ≡ long_text (texts.type_texts ty.now) }
{
    if type_bound(ty) <= MOST {
        return None;
    }
    if_long(type_size(ty))
}

#[tactic(auto, unfolding(crate::specs::Texts::name_texts), using(crate::proofs::TextSizes::long_if, crate::proofs::TextSizes::not_long))]
fn long_class(ty: &JType) -> Option<u64>
    ensures { result ≡ long_text (texts.class_texts_of ty.now) }
{
    if class_bound(ty) <= MOST {
        return None;
    }
    if_long(class_size(ty))
}

#[tactic(auto, unfolding(crate::specs::Texts::name_texts), using(crate::proofs::TextSizes::long_if, crate::proofs::TextSizes::not_long))]
fn long_desc(desc: &MethodDesc) -> Option<u64>
    ensures { result ≡ long_text (texts.desc_texts desc.now) }
{
    if desc_bound(desc) <= MOST {
        return None;
    }
    if_long(desc_size(desc))
}

#[tactic(auto, using(crate::proofs::First::long_append))]
fn long_field_ref(field: &FieldRef) -> Option<u64>
    ensures { result ≡ long_text (texts.field_ref_texts field.now) }
{
    long_name(field.class.as_units())
        .or(long_name(field.name.as_units()))
        .or(long_type(&field.ty))
}

#[tactic(auto, using(crate::proofs::First::long_append))]
fn long_method_ref(method: &MethodRef) -> Option<u64>
    ensures { result ≡ long_text (texts.method_ref_texts method.now) }
{
    long_class(&method.class)
        .or(long_name(method.name.as_units()))
        .or(long_desc(&method.desc))
}

impl Finder<Name> for Texts {
    ghost found = { λ name. long_text (texts.name_texts name) };

    fn find(&self, name: &Name) -> Option<u64> {
        long_name(name.as_units())
    }
}

impl Finder<Insn> for Texts {
    ghost found = { λ insn. long_text (texts.insn_texts insn) };

    #[tactic(auto, using(crate::proofs::First::long_none))]
    fn find(&self, insn: &Insn) -> Option<u64> {
        match insn {
            Insn::PushString(text) => long_name(text.as_slice()),
            Insn::GetStatic(field)
            | Insn::PutStatic(field)
            | Insn::GetField(field)
            | Insn::PutField(field) => long_field_ref(field),
            Insn::Invoke(_, method) => long_method_ref(method),
            Insn::New(class) => long_name(class.as_units()),
            Insn::ANewArray(ty)
            | Insn::CheckCast(ty)
            | Insn::InstanceOf(ty)
            | Insn::MultiNewArray(ty, _) => long_class(ty),
            _ => None,
        }
    }
}

impl Finder<Handler> for Texts {
    ghost found = { λ handler. long_text (texts.handler_texts handler) };

    #[tactic(auto, using(crate::proofs::First::long_flat))]
    fn find(&self, handler: &Handler) -> Option<u64> {
        find_if(self, &handler.caught)
    }
}

impl Finder<VType> for Texts {
    ghost found = { λ ty. long_text (texts.vtype_texts ty) };

    #[tactic(auto, using(crate::proofs::First::long_none))]
    fn find(&self, ty: &VType) -> Option<u64> {
        match ty {
            VType::Ref(ty) => long_class(ty),
            _ => None,
        }
    }
}

impl Finder<(u32, Frame)> for Texts {
    ghost found = { λ row. long_text (texts.frame_texts row) };

    #[tactic(auto, using(crate::proofs::First::long_append, crate::proofs::First::long_flat))]
    fn find(&self, row: &(u32, Frame)) -> Option<u64> {
        find_in(self, row.1.locals.as_slice()).or(find_in(self, row.1.stack.as_slice()))
    }
}

impl Finder<CodeDef> for Texts {
    ghost found = { λ code. long_text (texts.code_texts code) };

    #[tactic(auto, using(crate::proofs::First::long_append, crate::proofs::First::long_flat))]
    fn find(&self, code: &CodeDef) -> Option<u64> {
        find_in(self, code.insns.as_slice())
            .or(find_in(self, code.handlers.as_slice()))
            .or(find_in(self, code.frames.as_slice()))
    }
}

impl Finder<Constant> for Texts {
    ghost found = { λ constant. long_text (texts.constant_texts constant) };

    #[tactic(auto, using(crate::proofs::First::long_none))]
    fn find(&self, constant: &Constant) -> Option<u64> {
        match constant {
            Constant::Text(text) => long_name(text.as_slice()),
            Constant::Int(_) | Constant::Long(_) => None,
        }
    }
}

impl Finder<FieldDef> for Texts {
    ghost found = { λ field. long_text (texts.field_texts field) };

    #[tactic(auto, using(crate::proofs::First::long_append, crate::proofs::First::long_flat))]
    fn find(&self, field: &FieldDef) -> Option<u64> {
        long_name(field.name.as_units())
            .or(long_type(&field.ty))
            .or(find_if(self, &field.constant))
    }
}

impl Finder<MethodDef> for Texts {
    ghost found = { λ method. long_text (texts.method_texts method) };

    #[tactic(auto, using(crate::proofs::First::long_append, crate::proofs::First::long_flat))]
    fn find(&self, method: &MethodDef) -> Option<u64> {
        long_name(method.name.as_units())
            .or(long_desc(&method.desc))
            .or(find_if(self, &method.code))
            .or(find_in(self, method.throws.as_slice()))
    }
}

impl Finder<Bytes> for Texts {
    ghost found = { λ source. long_text (texts.source_texts source) };

    #[tactic(auto, using(crate::proofs::TextSizes::long_if))]
    fn find(&self, source: &Bytes) -> Option<u64> {
        if_long(source.len() as u64)
    }
}

impl Finder<InnerRow> for Texts {
    ghost found = { λ row. long_text (texts.inner_texts row) };

    #[tactic(auto, using(crate::proofs::First::long_append, crate::proofs::First::long_flat))]
    fn find(&self, row: &InnerRow) -> Option<u64> {
        long_name(row.inner.as_units())
            .or(find_if(self, &row.outer))
            .or(find_if(self, &row.name))
    }
}

#[tactic(auto, unfolding(crate::specs::Texts::header_texts), using(crate::proofs::First::long_append, crate::proofs::First::long_flat))]
fn long_in_header(class: &ClassDef) -> Option<u64>
    ensures { result ≡ long_text (texts.header_texts class.now) }
{
    long_name(class.name.as_units())
        .or(find_if(&Texts, &class.super_name))
        .or(find_in(&Texts, class.interfaces.as_slice()))
}

#[tactic(auto, unfolding(crate::specs::Texts::member_texts), using(crate::proofs::First::long_append, crate::proofs::First::long_flat))]
fn long_in_members(class: &ClassDef) -> Option<u64>
    ensures { result ≡ long_text (texts.member_texts class.now) }
{
    find_in(&Texts, class.fields.as_slice()).or(find_in(&Texts, class.methods.as_slice()))
}

#[tactic(auto, unfolding(crate::specs::Texts::attribute_texts), using(crate::proofs::First::long_append, crate::proofs::First::long_flat))]
fn long_in_attributes(class: &ClassDef) -> Option<u64>
    ensures { result ≡ long_text (texts.attribute_texts class.now) }
{
    find_if(&Texts, &class.source).or(find_in(&Texts, class.inner.as_slice()))
}

/// The bytes of the first text of a class that is too long.
#[tactic(auto, unfolding(crate::specs::Texts::class_texts), using(crate::proofs::First::long_append))]
pub(crate) fn long_in_class(class: &ClassDef) -> Option<u64>
    ensures { result ≡ long_text (texts.class_texts class.now) }
{
    long_in_header(class)
        .or(long_in_members(class))
        .or(long_in_attributes(class))
}
