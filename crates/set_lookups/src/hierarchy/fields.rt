//! Fields, looked up by name and type.

ghost use Rattle.std.specs.Prelude.{◌≡◌, ℕ, true, None, Some, IfSome, IfNone, is_some, length, slice_get, option_copied, option_map, option_and_then};
ghost use Rattle.set_lookups.specs.Above.{Direct};
ghost use Rattle.set_lookups.specs.First.{first};
ghost use Rattle.set_lookups.specs.Lookups as look;
ghost use Rattle.set_lookups.specs.Rows.{Ranked};

use crate::hierarchy::Hierarchy;
use crate::hierarchy::reached::ClassTest;
use crate::ids::{ClassId, MethodId};
use class_model::{FieldDef, FieldRef};

/// To declare the field that a reference names.
#[derive(Drop)]
struct HasField<'a> {
    set: &'a Hierarchy,
    target: &'a FieldRef,
}

impl ClassTest for HasField<'_> {
    ghost passes = { λ test number. is_some (look.declared_field test.set.now test.target.now number) };

    fn passes(&self, number: u32) -> bool {
        self.set.declared_field(number, self.target).is_some()
    }
}

impl Hierarchy {
    /// The field of a number.
    pub fn field(&self, id: MethodId) -> Option<&FieldDef>
        ensures { option_copied result ≡ look.field_at self.now id }
    {
        match self.parts.classes.get(id.class as usize) {
            Some(class) => class.fields.get(id.index as usize),
            None => None,
        }
    }

    /// The field that a reference names among those of one class.
    fn declared_field(&self, at: u32, target: &FieldRef) -> Option<MethodId>
        ensures { result ≡ look.declared_field self.now target.now at }
    {
        match self.index().members.field(at, target) {
            Some(index) => Some(MethodId { class: at, index }),
            None => None,
        }
    }

    /// Whether a class or one that is above it has the field that a reference names.
    fn has_field(&self, at: u32, target: &FieldRef) -> bool
        ensures { result ≡ is_some (look.field_from (length self.now) self.now target.now at) }
    {
        self.meets(at, &HasField { set: self, target })
    }

    /// The first of some classes that has the field, or has it from above.
    fn find_owner(&self, numbers: &[u32], target: &FieldRef) -> Option<u32>
        ensures none { IfNone result (first (look.field_from (length self.now) self.now target.now) numbers.now ≡ None) }
        ensures there { IfSome result (λ next. (k : ℕ) × (slice_get numbers.now k ≡ Some next)) }
        ensures same { IfSome result (λ next. first (look.field_from (length self.now) self.now target.now) numbers.now ≡ look.field_from (length self.now) self.now target.now next) }
        ensures has { IfSome result (λ next. is_some (look.field_from (length self.now) self.now target.now next) ≡ true) }
    {
        for number in numbers {
            if self.has_field(*number, target) {
                return Some(*number);
            }
        }
        None
    }

    /// The field that a class has: its own, else the first of its superinterfaces, else that of its superclass, each by
    /// the same rule. Each turn goes on to the one class above that has it.
    fn find_field(&self, ranks: &[u32], start: u32, target: &FieldRef) -> Option<MethodId>
        requires { Ranked self.now ranks.now }
        ensures { result ≡ look.field_from (length self.now) self.now target.now start }
    {
        let mut at = start;
        loop {
            if let Some(found) = self.declared_field(at, target) {
                return Some(found);
            }
            match self.find_above(at, target) {
                Some(next) => at = next,
                None => return None,
            }
        }
    }

    /// The class directly above from which a class has the field, where it declares none.
    fn find_above(&self, at: u32, target: &FieldRef) -> Option<u32>
        ensures only { look.declared_field self.now target.now at ≡ None → look.field_from (length self.now) self.now target.now at ≡ option_and_then (look.field_from (length self.now) self.now target.now) result }
        ensures above { IfSome result (λ next. Direct self.now at next) }
    {
        let _ = &self.parts.ranks;
        match self.find_owner(self.interfaces(at), target) {
            Some(next) => Some(next),
            None => self.superclass(at),
        }
    }

    /// The field that a reference names (JVMS 5.4.3.2): its class, and its number there. `None` where there
    /// is none.
    #[tactic(auto, unfolding(crate::specs::Lookups::resolve_field))]
    pub fn resolve_field(&self, target: &FieldRef) -> Option<(ClassId, u32)>
        ensures { result ≡ option_map look.field_id (look.resolve_field self.now target.now) }
    {
        let Some(start) = self.number(&target.class) else {
            return None;
        };
        match self.find_field(self.parts.ranks.as_slice(), start, target) {
            Some(found) => Some((ClassId(found.class), found.index)),
            None => None,
        }
    }
}
