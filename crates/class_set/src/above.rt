//! What stands above a class, by number.

ghost use Rattle.std.specs.Prelude.{◌≡◌, ◌∷◌, [], flat_map, MatchOption};
ghost use Rattle.set_lookups.specs.Lookups.{supers, super_at};
ghost use Rattle.class_set.specs.Upwards as table;

use class_model::MethodDef;
use set_lookups::{ClassId, Hierarchy};
use std::marker::Model;

/// The classes that are left of a way up the superclasses, which contracts see as a list of numbers.
#[derive(Drop)]
pub struct SuperWalk<'a> {
    set: &'a Hierarchy,
    at: Option<u32>,
    /// No way up has more steps than there are classes.
    left: u32,
}

impl<'a> Model for SuperWalk<'a> {
    ghost use Rattle.std.specs.Prelude.{ℕ, List, flat_map, option_to_list};
    ghost use Rattle.set_lookups.specs.Lookups.{chain};

    ghost Value = { List ℕ };

    ghost view = { λ walk. flat_map (chain walk.left walk.set.now) (option_to_list walk.at) };
}

impl<'a> SuperWalk<'a> {
    /// A class and its superclasses upwards.
    pub fn from_class(set: &'a Hierarchy, number: u32) -> SuperWalk<'a>
        ensures { result ≡ supers set.now number }
    {
        SuperWalk {
            set,
            at: Some(number),
            left: set.len(),
        }
    }

    /// The superclasses of a class upwards, the class itself left out.
    pub fn above_class(set: &'a Hierarchy, number: u32) -> SuperWalk<'a>
        ensures { result ≡ flat_map (supers set.now) (super_at set.now number) }
    {
        SuperWalk {
            set,
            at: set.superclass(number),
            left: set.len(),
        }
    }

    /// The next class upwards.
    pub fn next(&mut self) -> Option<u32>
        ensures { MatchOption result ((self.old ≡ []) × (self.new ≡ [])) (λ number. self.old ≡ number ∷ self.new) }
    {
        let Some(number) = self.at else {
            return None;
        };
        if self.left == 0 {
            self.at = None;
        } else {
            self.left -= 1;
            self.at = self.set.superclass(number);
        }
        Some(number)
    }
}

/// The methods of the class of a number.
pub fn methods_of(set: &Hierarchy, number: u32) -> &[MethodDef]
    ensures { result.now ≡ table.methods_of set.now number }
{
    match set.class_at(ClassId(number)) {
        Some(class) => class.methods.as_slice(),
        None => &[],
    }
}
