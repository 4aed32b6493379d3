//! Methods of superinterfaces, in breadth order.

ghost use Rattle.std.specs.Prelude.{◌≡◌, ℕ, List, length};
ghost use Rattle.set_lookups.specs.First.{first};
ghost use Rattle.set_lookups.specs.Level as table;
ghost use Rattle.set_lookups.specs.Levels.{IsLevels, list_at};
ghost use Rattle.set_lookups.specs.Lookups as look;

use crate::hierarchy::Hierarchy;
use crate::ids::MethodId;
use crate::levels::Levels;
use crate::members::Wanted;
use crate::near::{Near, closer, found_in};
use class_model::MethodDesc;
use lists::Name;

impl Hierarchy {
    /// The first method of a name and a descriptor that some classes declare in turn.
    fn find_in_each(&self, numbers: &[u32], name: &Name, desc: &MethodDesc) -> Option<MethodId>
        ensures { result ≡ first (look.declared self.now name.now desc.now look.any_method) numbers.now }
    {
        for number in numbers {
            if let Some(found) = self.declared(*number, name, desc, Wanted::Any) {
                return Some(found);
            }
        }
        None
    }

    /// The same, with its level.
    fn find_level(
        &self,
        level: u32,
        numbers: &[u32],
        name: &Name,
        desc: &MethodDesc,
    ) -> Option<Near>
        ensures { result ≡ table.lifted level (table.here (first (look.declared self.now name.now desc.now look.any_method) numbers.now)) }
    {
        match self.find_in_each(numbers, name, desc) {
            Some(found) => Some(Near { level, found }),
            None => None,
        }
    }

    /// The first method of a name and a descriptor from a list of levels on.
    fn find_from(
        &self,
        levels: &Levels,
        start: usize,
        name: &Name,
        desc: &MethodDesc,
    ) -> Option<Near>
        ensures { (up : ℕ → List ℕ) → IsLevels up levels.now → result ≡ table.nearest (length self.now) up (look.declared self.now name.now desc.now look.any_method) (list_at levels.now start) }
    {
        let steps = self.len();
        let mut at = start;
        for level in 0..steps {
            let numbers = levels.list(at);
            let near = self.find_level(level, numbers, name, desc);
            if near.is_some() || numbers.is_empty() {
                return near;
            }
            at = levels.next(at);
        }
        self.find_level(steps, levels.list(at), name, desc)
    }

    /// The first method of a name and a descriptor that the superinterfaces of one class have.
    fn find_nearest(&self, at: u32, name: &Name, desc: &MethodDesc) -> Option<Near>
        ensures { result ≡ table.nearest (length self.now) (look.interfaces_at self.now) (look.declared self.now name.now desc.now look.any_method) (look.interfaces_at self.now at) }
    {
        let index = self.index();
        let start = index.breadth.start(at);
        self.find_from(&index.breadth.levels, start, name, desc)
    }

    /// The first method of a name and a descriptor among the superinterfaces of a class, in breadth order: of those
    /// that the class and its superclasses have, the one at the lowest level.
    pub(super) fn find_in_interfaces(
        &self,
        start: u32,
        name: &Name,
        desc: &MethodDesc,
    ) -> Option<MethodId>
        ensures { result ≡ first (look.declared self.now name.now desc.now look.any_method) (look.superinterfaces self.now start) }
    {
        let _ = &self.parts.ranks;
        let mut best = None;
        let mut at = start;
        loop {
            best = closer(best, self.find_nearest(at, name, desc));
            match self.superclass(at) {
                Some(next) => at = next,
                None => return found_in(best),
            }
        }
    }
}
