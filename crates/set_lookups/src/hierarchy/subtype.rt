//! Which class is below which.

ghost use Rattle.std.specs.Prelude.{◌≡◌, ◌↔◌, ◌==◌, IsTrue};
ghost use Rattle.set_lookups.specs.Above.{Subtype, is_subtype};

use crate::hierarchy::Hierarchy;
use crate::hierarchy::reached::ClassTest;
use crate::ids::ClassId;

/// To be the class of a number.
#[derive(Drop)]
struct IsClass {
    number: u32,
}

impl ClassTest for IsClass {
    ghost passes = { λ test number. number == test.number };

    fn passes(&self, number: u32) -> bool {
        number == self.number
    }
}

impl Hierarchy {
    /// Whether a class is the other or below it (JVMS 4.10).
    pub fn subtype(&self, low: ClassId, high: ClassId) -> bool
        ensures exact { IsTrue result ↔ Subtype self.now low.0 high.0 }
        ensures value { result ≡ is_subtype self.now low.0 high.0 }
    {
        let _ = &self.parts.ranks;
        self.meets(low.0, &IsClass { number: high.0 })
    }
}
