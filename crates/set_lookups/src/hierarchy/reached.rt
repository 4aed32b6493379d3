//! What is met on the ways up from a class.

ghost use Rattle.std.specs.Prelude.{◌≡◌, ℕ, List, Bool, length};
ghost use Rattle.std.specs.List.{list_any};
ghost use Rattle.set_lookups.specs.Levels.{IsLevels, any_levels, list_at};
ghost use Rattle.set_lookups.specs.Lookups as look;
ghost use Rattle.set_lookups.specs.Meets.{meets};

use crate::hierarchy::Hierarchy;
use crate::levels::Levels;

/// What is asked of classes, by their numbers.
pub trait ClassTest {
    ghost passes: { Self → ℕ → Bool };

    fn passes(&self, number: u32) -> bool
        ensures { result ≡ passes self.now number };
}

/// Whether one of some classes passes a test.
fn any_passes<T: ClassTest>(test: &T, numbers: &[u32]) -> bool
    ensures { result ≡ list_any (T.passes test.now) numbers.now }
{
    for number in numbers {
        if test.passes(*number) {
            return true;
        }
    }
    false
}

/// Whether a class passes a test from a list of levels on, in at most so many steps.
fn any_above<T: ClassTest>(levels: &Levels, start: usize, steps: u32, test: &T) -> bool
    ensures { (up : ℕ → List ℕ) → IsLevels up levels.now → result ≡ any_levels steps up (T.passes test.now) (list_at levels.now start) }
{
    let mut at = start;
    for _ in 0..steps {
        let numbers = levels.list(at);
        if any_passes(test, numbers) {
            return true;
        }
        if numbers.is_empty() {
            return false;
        }
        at = levels.next(at);
    }
    any_passes(test, levels.list(at))
}

impl Hierarchy {
    /// Whether one of the superinterfaces of a class passes a test, those aside that only its superclasses have.
    pub fn any_superinterface<T: ClassTest>(&self, at: u32, test: &T) -> bool
        ensures { result ≡ list_any (T.passes test.now) (look.levels (length self.now) self.now (look.interfaces_at self.now at)) }
    {
        let index = self.index();
        let start = index.breadth.start(at);
        any_above(&index.breadth.levels, start, self.len(), test)
    }

    /// Whether one of what stands above the interfaces of a class, or of these, passes a test.
    fn any_reached<T: ClassTest>(&self, at: u32, test: &T) -> bool
        ensures { result ≡ list_any (meets (length self.now) self.now (T.passes test.now)) (look.interfaces_at self.now at) }
    {
        let index = self.index();
        let start = index.reached.start(at);
        any_above(&index.reached.levels, start, self.len(), test)
    }

    /// Whether a class or one that is above it passes a test. The superclasses are taken in turn.
    pub(crate) fn meets<T: ClassTest>(&self, start: u32, test: &T) -> bool
        ensures { result ≡ meets (length self.now) self.now (T.passes test.now) start }
    {
        let _ = &self.parts.ranks;
        let mut at = start;
        loop {
            if test.passes(at) {
                return true;
            }
            if self.any_reached(at, test) {
                return true;
            }
            match self.superclass(at) {
                Some(next) => at = next,
                None => return false,
            }
        }
    }
}
