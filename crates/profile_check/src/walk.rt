//! The walk over what a class names, in the order of its file.

ghost use Rattle.std.specs.Prelude.{◌≡◌, ◌+◌, ◌≤◌, ◌<◌, None, map, flat_map, length, option_to_list};
ghost use Rattle.profile_check.specs.Answer.{Tells};
ghost use Rattle.profile_check.specs.First.{first, flat_from};
ghost use Rattle.profile_check.specs.Mentions as mention;
ghost use Rattle.profile_check.specs.Walks.{fault_if, kind_of, judge};

use crate::profile::{OutOfProfile, ProfileKind, ProfileStop};
use crate::rule::{Place, Rule};
use class_model::{
    BaseType, ClassDef, FieldDef, FieldRef, Frame, Handler, InnerRow, Insn, JType, MethodDef,
    MethodDesc, MethodRef, Primitive, VType,
};
use lists::Name;

/// One row on its way, and where it stands.
#[derive(Clone, Copy)]
pub struct Walk {
    pub rule: Rule,
    pub place: Place,
}

impl Walk {
    /// The refusal of a name, where it is refused.
    fn refuse(&self, refused: bool, name: &Name) -> Result<(), ProfileStop>
        ensures { Tells result (fault_if refused (kind_of self.now.rule name.now) self.now.place) }
    {
        if !refused {
            return Ok(());
        }
        Err(ProfileStop::Out(OutOfProfile {
            kind: self.rule.kind(name)?,
            member: self.place.member,
            at: self.place.at,
        }))
    }

    #[tactic(auto, unfolding(crate::specs::Walks::judge))]
    pub fn class_name(&self, name: &Name) -> Result<(), ProfileStop>
        ensures { Tells result (judge self.now.rule self.now.place (mention.ClassName name.now)) }
    {
        self.refuse(self.rule.refuses_class(name), name)
    }

    #[tactic(auto, unfolding(crate::specs::Walks::judge))]
    pub fn used_class(&self, name: &Name) -> Result<(), ProfileStop>
        ensures { Tells result (judge self.now.rule self.now.place (mention.UsedClass name.now)) }
    {
        self.refuse(self.rule.refuses_used(name), name)
    }

    #[tactic(auto, unfolding(crate::specs::Walks::judge))]
    pub fn field_name(&self, name: &Name) -> Result<(), ProfileStop>
        ensures { Tells result (judge self.now.rule self.now.place (mention.FieldName name.now)) }
    {
        self.refuse(self.rule.refuses_field(name), name)
    }

    #[tactic(auto, unfolding(crate::specs::Walks::judge))]
    pub fn method_name(&self, name: &Name) -> Result<(), ProfileStop>
        ensures { Tells result (judge self.now.rule self.now.place (mention.MethodName name.now)) }
    {
        self.refuse(self.rule.refuses_method(name), name)
    }

    #[tactic(auto, unfolding(crate::specs::Walks::judge))]
    fn called_name(&self, class: &JType, name: &Name) -> Result<(), ProfileStop>
        ensures { Tells result (judge self.now.rule self.now.place (mention.CalledName class.now name.now)) }
    {
        self.refuse(self.rule.refuses_called(class, name), name)
    }

    #[tactic(auto, unfolding(crate::specs::Walks::judge))]
    fn simple_name(&self, name: &Name) -> Result<(), ProfileStop>
        ensures { Tells result (judge self.now.rule self.now.place (mention.SimpleName name.now)) }
    {
        self.refuse(self.rule.refuses_simple(name), name)
    }

    /// A type with a primitive at its base: the only row that refuses one is that of float types.
    #[tactic(auto, unfolding(crate::specs::Walks::judge))]
    fn primitive(&self, depth: u8, primitive: Primitive) -> Result<(), ProfileStop>
        ensures { Tells result (judge self.now.rule self.now.place (mention.TypeUsed (mention.primitive_type depth primitive))) }
    {
        if !self.rule.refuses_primitive(primitive) {
            return Ok(());
        }
        Err(ProfileStop::Out(OutOfProfile {
            kind: ProfileKind::FloatType,
            member: self.place.member,
            at: self.place.at,
        }))
    }

    #[tactic(auto, unfolding(crate::specs::Walks::judge))]
    fn type_used(&self, ty: &JType) -> Result<(), ProfileStop>
        ensures { Tells result (judge self.now.rule self.now.place (mention.TypeUsed ty.now)) }
    {
        match &ty.base {
            BaseType::Primitive(primitive) => self.primitive(ty.depth, *primitive),
            BaseType::Class(name) => self.refuse(self.rule.refuses_base_class(name), name),
        }
    }

    fn types(&self, types: &[JType]) -> Result<(), ProfileStop>
        ensures { Tells result (first (judge self.now.rule self.now.place) (map mention.TypeUsed types.now)) }
    {
        for ty in types {
            self.type_used(ty)?;
        }
        Ok(())
    }

    fn given(&self, given: &Option<JType>) -> Result<(), ProfileStop>
        ensures { Tells result (first (judge self.now.rule self.now.place) (map mention.TypeUsed (option_to_list given.now))) }
    {
        match given {
            Some(ty) => self.type_used(ty),
            None => Ok(()),
        }
    }

    pub fn descriptor(&self, desc: &MethodDesc) -> Result<(), ProfileStop>
        ensures { Tells result (first (judge self.now.rule self.now.place) (mention.descriptor_mentions desc.now)) }
    {
        self.types(desc.params.as_slice())?;
        self.given(&desc.result)
    }

    fn field_ref(&self, field: &FieldRef) -> Result<(), ProfileStop>
        ensures { Tells result (first (judge self.now.rule self.now.place) (mention.field_ref_mentions field.now)) }
    {
        self.used_class(&field.class)?;
        self.field_name(&field.name)?;
        self.type_used(&field.ty)
    }

    fn method_ref(&self, method: &MethodRef) -> Result<(), ProfileStop>
        ensures { Tells result (first (judge self.now.rule self.now.place) (mention.method_ref_mentions method.now)) }
    {
        self.type_used(&method.class)?;
        self.called_name(&method.class, &method.name)?;
        self.descriptor(&method.desc)
    }

    #[tactic(auto, using(crate::proofs::First::first_nil, crate::proofs::First::first_one))]
    pub fn insn(&self, insn: &Insn) -> Result<(), ProfileStop>
        ensures { Tells result (first (judge self.now.rule self.now.place) (mention.insn_mentions insn.now)) }
    {
        match insn {
            Insn::GetStatic(field)
            | Insn::PutStatic(field)
            | Insn::GetField(field)
            | Insn::PutField(field) => self.field_ref(field),
            Insn::Invoke(_, method) => self.method_ref(method),
            Insn::New(class) => self.used_class(class),
            Insn::NewArray(primitive) => self.primitive(1, *primitive),
            Insn::ANewArray(ty)
            | Insn::CheckCast(ty)
            | Insn::InstanceOf(ty)
            | Insn::MultiNewArray(ty, _) => self.type_used(ty),
            _ => Ok(()),
        }
    }

    fn handler(&self, handler: &Handler) -> Result<(), ProfileStop>
        ensures { Tells result (first (judge self.now.rule self.now.place) (mention.handler_mentions handler.now)) }
    {
        match &handler.caught {
            Some(class) => self.used_class(class),
            None => Ok(()),
        }
    }

    pub fn handlers(&self, handlers: &[Handler]) -> Result<(), ProfileStop>
        ensures { Tells result (first (judge self.now.rule self.now.place) (flat_map mention.handler_mentions handlers.now)) }
    {
        for handler in handlers {
            self.handler(handler)?;
        }
        Ok(())
    }

    #[tactic(auto, using(crate::proofs::First::first_nil, crate::proofs::First::first_one))]
    fn vtype(&self, ty: &VType) -> Result<(), ProfileStop>
        ensures { Tells result (first (judge self.now.rule self.now.place) (mention.vtype_mentions ty.now)) }
    {
        match ty {
            VType::Ref(ty) => self.type_used(ty),
            _ => Ok(()),
        }
    }

    fn vtypes(&self, types: &[VType]) -> Result<(), ProfileStop>
        ensures { Tells result (first (judge self.now.rule self.now.place) (flat_map mention.vtype_mentions types.now)) }
    {
        for ty in types {
            self.vtype(ty)?;
        }
        Ok(())
    }

    fn frame(&self, row: &(u32, Frame)) -> Result<(), ProfileStop>
        ensures { Tells result (first (judge self.now.rule self.now.place) (mention.frame_mentions row.now)) }
    {
        self.vtypes(row.1.locals.as_slice())?;
        self.vtypes(row.1.stack.as_slice())
    }

    pub fn frames(&self, frames: &[(u32, Frame)]) -> Result<(), ProfileStop>
        ensures { Tells result (first (judge self.now.rule self.now.place) (flat_map mention.frame_mentions frames.now)) }
    {
        for row in frames {
            self.frame(row)?;
        }
        Ok(())
    }

    pub fn class_names(&self, names: &[Name]) -> Result<(), ProfileStop>
        ensures { Tells result (first (judge self.now.rule self.now.place) (map mention.ClassName names.now)) }
    {
        for name in names {
            self.class_name(name)?;
        }
        Ok(())
    }

    pub fn used_classes(&self, names: &[Name]) -> Result<(), ProfileStop>
        ensures { Tells result (first (judge self.now.rule self.now.place) (map mention.UsedClass names.now)) }
    {
        for name in names {
            self.used_class(name)?;
        }
        Ok(())
    }

    /// A class name that may be absent.
    pub fn optional_class(&self, name: &Option<Name>) -> Result<(), ProfileStop>
        ensures { Tells result (first (judge self.now.rule self.now.place) (map mention.ClassName (option_to_list name.now))) }
    {
        match name {
            Some(name) => self.class_name(name),
            None => Ok(()),
        }
    }

    fn optional_simple(&self, name: &Option<Name>) -> Result<(), ProfileStop>
        ensures { Tells result (first (judge self.now.rule self.now.place) (map mention.SimpleName (option_to_list name.now))) }
    {
        match name {
            Some(name) => self.simple_name(name),
            None => Ok(()),
        }
    }

    fn inner(&self, row: &InnerRow) -> Result<(), ProfileStop>
        ensures { Tells result (first (judge self.now.rule self.now.place) (mention.inner_mentions row.now)) }
    {
        self.class_name(&row.inner)?;
        self.optional_class(&row.outer)?;
        self.optional_simple(&row.name)
    }

    pub fn inner_rows(&self, rows: &[InnerRow]) -> Result<(), ProfileStop>
        ensures { Tells result (first (judge self.now.rule self.now.place) (flat_map mention.inner_mentions rows.now)) }
    {
        for row in rows {
            self.inner(row)?;
        }
        Ok(())
    }

    pub fn field(&self, field: &FieldDef) -> Result<(), ProfileStop>
        ensures { Tells result (first (judge self.now.rule self.now.place) (mention.field_mentions field.now)) }
    {
        self.field_name(&field.name)?;
        self.type_used(&field.ty)
    }

    /// The name of a method, and its descriptor.
    pub fn method(&self, method: &MethodDef) -> Result<(), ProfileStop>
        ensures { Tells result (first (judge self.now.rule self.now.place) (mention.method_head method.now)) }
    {
        self.method_name(&method.name)?;
        self.descriptor(&method.desc)
    }

    /// What stands before the members of a class.
    pub fn header(&self, class: &ClassDef) -> Result<(), ProfileStop>
        ensures { Tells result (first (judge self.now.rule self.now.place) (mention.header_mentions class.now)) }
    {
        self.class_name(&class.name)?;
        self.optional_class(&class.super_name)?;
        self.used_classes(class.interfaces.as_slice())
    }
}
