//! Names, as UTF-16 units.

ghost use Rattle.std.specs.Prelude.{◌≡◌, [], length, ◌↔◌, IsTrue, IfOk, nat_eq};
ghost use Rattle.std.specs.Cmp.Lexicographic.{pointwise, same_text};
ghost use Rattle.std.specs.Cmp.{partial_equiv_from_equiv};
ghost use Rattle.std.proofs.Common.{ap, sym};
ghost use Rattle.std.proofs.lemmas.Cmp.{nat_list_eq_equiv};
ghost use Rattle.std.specs.Hash as fed;
ghost use Rattle.lists.specs.Texts.{units_of};

use crate::plain::{Plain, Same};
use crate::texts::{is_text, to_units};
use std::alloc::{AllocError, Global};
use std::hash::{Hash, Hasher};
use std::marker::Model;
use std::rc::Rc;

/// A name or another text of a class file, as its UTF-16 units, so that a surrogate without its
/// partner has a place (JVMS 4.4.7). Copies share the units.
#[derive(Debug, Drop)]
pub struct Name {
    units: Rc<Vec<u16>>,
}

impl Model for Name {
    ghost use Rattle.std.specs.Prelude.{List, ℕ};

    ghost Value = { List ℕ };

    ghost view = { λ n. n.units.value.items };
}

impl Name {
    /// The name that these units spell.
    pub fn from_vec(alloc: Global, units: Vec<u16>) -> Result<Name, AllocError>
        ensures { IfOk result (λ n. n ≡ units.items) }
    {
        Ok(Name {
            units: Rc::new(alloc, units)?,
        })
    }

    /// A copy of these units.
    pub fn from_units(alloc: Global, units: &[u16]) -> Result<Name, AllocError>
        ensures { IfOk result (λ n. n ≡ units.now) }
    {
        Name::from_vec(alloc, Vec::from_slice(alloc, units)?)
    }

    /// The units of a text.
    pub fn from_str(alloc: Global, text: &str) -> Result<Name, AllocError>
        ensures { IfOk result (λ n. n ≡ units_of text.now) }
    {
        Name::from_vec(alloc, to_units(alloc, text)?)
    }

    pub fn as_units(&self) -> &[u16]
        ensures { result.now ≡ self.now }
    {
        self.units.as_ref().as_slice()
    }

    /// The number of units.
    pub fn len(&self) -> usize
        ensures { result ≡ length self.now }
    {
        self.as_units().len()
    }

    pub fn is_empty(&self) -> bool
        ensures { IsTrue result ↔ (self.now ≡ []) }
    {
        self.as_units().is_empty()
    }

    /// Whether this is the name that a text spells. Takes no memory.
    pub fn is(&self, text: &str) -> bool
        ensures { IsTrue result ↔ (self.now ≡ units_of text.now) }
    {
        is_text(self.as_units(), text)
    }
}

impl Clone for Name {
    ghost is_clone = { λ s t. t ≡ s };

    /// Takes no memory.
    fn clone(&self) -> Result<Name, AllocError> {
        Ok(Name {
            units: self.units.clone()?,
        })
    }
}

impl PartialEq for Name {
    ghost eq = { λ s t. pointwise nat_eq s t };

    ghost laws = { partial_equiv_from_equiv nat_list_eq_equiv };

    fn eq(&self, other: &Name) -> bool {
        self.as_units() == other.as_units()
    }
}

impl Eq for Name {
    ghost laws = { nat_list_eq_equiv };
}

impl Hash for Name {
    ghost hash_input = { λ s. fed.slice fed.u16 s };

    ghost respects_eq = { λ s t same. ap (fed.slice fed.u16) (same_text s t (sym same)) };

    fn hash<H: Hasher>(&self, state: &mut H) {
        self.as_units().hash(state);
    }
}

impl Plain for Name {
    ghost copies = { λ x y same. same };
}

impl Same for Name {
    fn same(&self, other: &Name) -> bool {
        self.as_units() == other.as_units()
    }
}
