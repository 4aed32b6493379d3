//! The classes that a class file names and that have to be there.
#![tactic(auto, using(crate::proofs::Lists::first_append), unfolding(crate::specs::First::first))]

ghost use Rattle.std.specs.Prelude.{◌≡◌, List, ℕ, option_copied, flat_map, option_to_list};
ghost use Rattle.std.specs.Option.{option_or};
ghost use Rattle.set_lookups.specs.First.{first};
ghost use Rattle.set_lookups.specs.Needed as table;

use class_model::{
    BaseType, ClassDef, CodeDef, FieldDef, FieldRef, Frame, Handler, Insn, JType, MethodDef,
    MethodDesc, MethodRef, VType,
};
use indexmap::IndexSet;
use lists::{Name, Seq};

/// What names classes that have to be there.
pub trait Needs {
    ghost names: { Self → List (List ℕ) };

    /// The first class that is named and is not among these.
    fn missing<'a>(&'a self, present: &IndexSet<Name>) -> Option<&'a Name>
        ensures { option_copied result ≡ first (table.if_absent present.now.keys) (names self.now) };
}

/// The first of two answers.
fn either<'a>(first: Option<&'a Name>, second: Option<&'a Name>) -> Option<&'a Name>
    ensures { option_copied result ≡ option_or (option_copied first.entry) (option_copied second.entry) }
{
    match first {
        Some(name) => Some(name),
        None => second,
    }
}

impl Needs for Name {
    ghost names = { table.one_name };

    fn missing<'a>(&'a self, present: &IndexSet<Name>) -> Option<&'a Name> {
        if present.contains(self) {
            None
        } else {
            Some(self)
        }
    }
}

impl<T: Needs> Needs for Seq<T> {
    ghost names = { λ items. flat_map T.names items };

    fn missing<'a>(&'a self, present: &IndexSet<Name>) -> Option<&'a Name> {
        for item in self.as_slice() {
            if let Some(name) = item.missing(present) {
                return Some(name);
            }
        }
        None
    }
}

impl<T: Needs> Needs for Option<T> {
    ghost names = { λ item. flat_map T.names (option_to_list item) };

    fn missing<'a>(&'a self, present: &IndexSet<Name>) -> Option<&'a Name> {
        match self {
            Some(item) => item.missing(present),
            None => None,
        }
    }
}

impl Needs for JType {
    ghost names = { table.type_names };

    fn missing<'a>(&'a self, present: &IndexSet<Name>) -> Option<&'a Name> {
        match &self.base {
            BaseType::Class(name) => name.missing(present),
            BaseType::Primitive(_) => None,
        }
    }
}

impl Needs for MethodDesc {
    ghost names = { table.desc_names };

    fn missing<'a>(&'a self, present: &IndexSet<Name>) -> Option<&'a Name> {
        either(self.params.missing(present), self.result.missing(present))
    }
}

impl Needs for FieldRef {
    ghost names = { table.field_ref_names };

    fn missing<'a>(&'a self, present: &IndexSet<Name>) -> Option<&'a Name> {
        either(self.class.missing(present), self.ty.missing(present))
    }
}

impl Needs for MethodRef {
    ghost names = { table.method_ref_names };

    fn missing<'a>(&'a self, present: &IndexSet<Name>) -> Option<&'a Name> {
        either(self.class.missing(present), self.desc.missing(present))
    }
}

impl Needs for Insn {
    ghost names = { table.insn_names };

    fn missing<'a>(&'a self, present: &IndexSet<Name>) -> Option<&'a Name> {
        match self {
            Insn::GetStatic(field)
            | Insn::PutStatic(field)
            | Insn::GetField(field)
            | Insn::PutField(field) => field.missing(present),
            Insn::Invoke(_, method) => method.missing(present),
            Insn::New(class) => class.missing(present),
            Insn::ANewArray(ty)
            | Insn::CheckCast(ty)
            | Insn::InstanceOf(ty)
            | Insn::MultiNewArray(ty, _) => ty.missing(present),
            _ => None,
        }
    }
}

impl Needs for VType {
    ghost names = { table.vtype_names };

    fn missing<'a>(&'a self, present: &IndexSet<Name>) -> Option<&'a Name> {
        match self {
            VType::Ref(ty) => ty.missing(present),
            _ => None,
        }
    }
}

impl Needs for Frame {
    ghost names = { table.frame_names };

    fn missing<'a>(&'a self, present: &IndexSet<Name>) -> Option<&'a Name> {
        either(self.locals.missing(present), self.stack.missing(present))
    }
}

impl Needs for (u32, Frame) {
    ghost names = { table.row_names };

    fn missing<'a>(&'a self, present: &IndexSet<Name>) -> Option<&'a Name> {
        self.1.missing(present)
    }
}

impl Needs for Handler {
    ghost names = { table.handler_names };

    fn missing<'a>(&'a self, present: &IndexSet<Name>) -> Option<&'a Name> {
        self.caught.missing(present)
    }
}

impl Needs for CodeDef {
    ghost names = { table.code_names };

    fn missing<'a>(&'a self, present: &IndexSet<Name>) -> Option<&'a Name> {
        let rows = either(self.handlers.missing(present), self.frames.missing(present));
        either(self.insns.missing(present), rows)
    }
}

impl Needs for FieldDef {
    ghost names = { table.field_names };

    fn missing<'a>(&'a self, present: &IndexSet<Name>) -> Option<&'a Name> {
        self.ty.missing(present)
    }
}

impl Needs for MethodDef {
    ghost names = { table.method_names };

    fn missing<'a>(&'a self, present: &IndexSet<Name>) -> Option<&'a Name> {
        either(self.desc.missing(present), self.code.missing(present))
    }
}

impl Needs for ClassDef {
    ghost names = { table.needed };

    fn missing<'a>(&'a self, present: &IndexSet<Name>) -> Option<&'a Name> {
        let members = either(self.fields.missing(present), self.methods.missing(present));
        let above = either(self.interfaces.missing(present), members);
        either(self.super_name.missing(present), above)
    }
}
