//! Methods, looked up by name and descriptor.

ghost use Rattle.std.specs.Prelude.{◌≡◌, ◌&&◌, is_some, option_copied, option_and_then};
ghost use Rattle.set_lookups.specs.Above.{find_class};
ghost use Rattle.set_lookups.specs.First.{first};
ghost use Rattle.set_lookups.specs.Flags.{is_final, is_inherited};
ghost use Rattle.set_lookups.specs.Lookups as look;
ghost use Rattle.set_lookups.specs.Wanted.{passes};

use crate::hierarchy::Hierarchy;
use crate::ids::{ClassId, MethodId};
use crate::members::Wanted;
use class_model::{BaseType, JType, MethodDef, MethodDesc, MethodRef};
use lists::Name;

impl Hierarchy {
    /// The first wanted method of a name and a descriptor that a class declares.
    pub(super) fn declared(
        &self,
        at: u32,
        name: &Name,
        desc: &MethodDesc,
        wanted: Wanted,
    ) -> Option<MethodId>
        ensures { result ≡ look.declared self.now name.now desc.now (passes wanted) at }
    {
        match self.index().members.method(at, name, desc, wanted) {
            Some(index) => Some(MethodId { class: at, index }),
            None => None,
        }
    }

    /// Whether a class declares a final method of a name and a descriptor that classes below cannot have again.
    pub fn declares_final(&self, at: u32, name: &Name, desc: &MethodDesc) -> bool
        ensures { result ≡ is_some (look.declared self.now name.now desc.now (λ method. is_final method.flags && is_inherited method) at) }
    {
        self.declared(at, name, desc, Wanted::Final).is_some()
    }

    /// The first wanted method of a name and a descriptor that a class or one of its superclasses upwards
    /// declares.
    pub(super) fn find_up(
        &self,
        start: u32,
        name: &Name,
        desc: &MethodDesc,
        wanted: Wanted,
    ) -> Option<MethodId>
        ensures { result ≡ first (look.declared self.now name.now desc.now (passes wanted)) (look.supers self.now start) }
    {
        let _ = &self.parts.ranks;
        let mut at = start;
        loop {
            if let Some(found) = self.declared(at, name, desc, wanted) {
                return Some(found);
            }
            match self.superclass(at) {
                Some(next) => at = next,
                None => return None,
            }
        }
    }

    /// The method of a number.
    pub fn method(&self, id: MethodId) -> Option<&MethodDef>
        ensures { option_copied result ≡ look.method_at self.now id }
    {
        match self.parts.classes.get(id.class as usize) {
            Some(class) => class.methods.get(id.index as usize),
            None => None,
        }
    }

    /// The method that a receiver of a class has for a method, by its name and descriptor: the first up the
    /// superclasses that is neither static nor private. `None` where there is none.
    #[tactic(auto, unfolding(crate::specs::Lookups::select, crate::specs::Lookups::select_by))]
    pub fn select(&self, class: ClassId, target: MethodId) -> Option<MethodId>
        ensures { result ≡ look.select self.now class.0 target }
    {
        match self.method(target) {
            Some(method) => self.find_up(class.0, &method.name, &method.desc, Wanted::Inherited),
            None => None,
        }
    }

    /// The method that a receiver of a class has for a name and a descriptor.
    #[tactic(auto, unfolding(crate::specs::Lookups::select_by))]
    pub fn select_named(&self, class: u32, name: &Name, desc: &MethodDesc) -> Option<MethodId>
        ensures { result ≡ look.select_by self.now name.now desc.now class }
    {
        self.find_up(class, name, desc, Wanted::Inherited)
    }

    /// The class whose methods a reference on a class or an array sees.
    fn receiver(&self, ty: &JType) -> Option<u32>
        ensures { result ≡ option_and_then (find_class self.now) (look.receiver_name ty.now) }
    {
        if ty.depth != 0 {
            return self.number_of_text("java/lang/Object");
        }
        match &ty.base {
            BaseType::Class(name) => self.number(name),
            BaseType::Primitive(_) => None,
        }
    }

    /// The method that a reference names (JVMS 5.4.3.3 and 5.4.3.4, by name and descriptor alone). A method
    /// of an array is one of `java/lang/Object`. `None` where there is none.
    #[tactic(auto, unfolding(crate::specs::Lookups::resolve_method, crate::specs::Lookups::method_from))]
    pub fn resolve_method(&self, target: &MethodRef) -> Option<MethodId>
        ensures { result ≡ look.resolve_method self.now target.now }
    {
        match self.receiver(&target.class) {
            Some(at) => self.find_method(at, &target.name, &target.desc),
            None => None,
        }
    }

    /// The method of a name and a descriptor that a class has, whether by a superclass or by an interface.
    fn find_method(&self, at: u32, name: &Name, desc: &MethodDesc) -> Option<MethodId>
        ensures { result ≡ look.method_from self.now name.now desc.now at }
    {
        match self.find_up(at, name, desc, Wanted::Any) {
            Some(found) => Some(found),
            None => self.find_in_interfaces(at, name, desc),
        }
    }
}
