//! Paths of files.

ghost use Rattle.std.specs.Prelude.{◌≡◌, ◌↔◌, IsTrue, IfOk, nat_eq, string_bytes, Some, refl};
ghost use Rattle.std.specs.Hash as fed;
ghost use Rattle.std.specs.Cmp.{partial_equiv_from_equiv};
ghost use Rattle.std.specs.Cmp.Lexicographic.{pointwise, same_text, slice_cmp, texts_po, texts_ties, nat_list_cmp_total};
ghost use Rattle.std.specs.Ordering.{nat_cmp};
ghost use Rattle.std.proofs.Common.{ap, sym};
ghost use Rattle.std.proofs.lemmas.Cmp.{nat_list_eq_equiv};

use crate::plain::{Plain, Same};
use std::alloc::{AllocError, Global};
use std::cmp::Ordering;
use std::hash::{Hash, Hasher};
use std::marker::Model;

/// The path of a file, parts joined by `/`. Contracts see its bytes in UTF-8, by which paths are ordered.
#[derive(Debug, Drop)]
pub struct Path {
    text: String,
}

impl Model for Path {
    ghost use Rattle.std.specs.Prelude.{List, ℕ, string_bytes};

    ghost Value = { List ℕ };

    ghost view = { λ p. string_bytes p.text };
}

impl Path {
    /// The path that a text spells. Takes no memory.
    pub fn from_string(text: String) -> Path
        ensures { result ≡ string_bytes text }
    {
        Path { text }
    }

    /// A copy of a text as a path.
    pub fn from_str(alloc: Global, text: &str) -> Result<Path, AllocError>
        ensures { IfOk result (λ p. p ≡ text.now) }
    {
        Ok(Path {
            text: String::from_str(alloc, text)?,
        })
    }

    /// The text of the path.
    pub fn as_str(&self) -> &str
        ensures { result.now ≡ self.now }
    {
        self.text.as_str()
    }
}

impl Clone for Path {
    ghost is_clone = { λ s t. t ≡ s };

    fn clone(&self) -> Result<Path, AllocError> {
        Ok(Path {
            text: self.text.clone()?,
        })
    }
}

impl Plain for Path {
    ghost copies = { λ x y same. same };
}

impl Same for Path {
    fn same(&self, other: &Path) -> bool {
        self.text == other.text
    }
}

impl PartialEq for Path {
    ghost eq = { λ s t. pointwise nat_eq s t };

    ghost laws = { partial_equiv_from_equiv nat_list_eq_equiv };

    fn eq(&self, other: &Path) -> bool {
        self.text == other.text
    }
}

impl Eq for Path {
    ghost laws = { nat_list_eq_equiv };
}

impl Hash for Path {
    ghost hash_input = { λ s. fed.str s };

    ghost respects_eq = { λ s t same. ap fed.str (same_text s t (sym same)) };

    fn hash<H: Hasher>(&self, state: &mut H) {
        self.as_str().hash(state);
    }
}

impl PartialOrd for Path {
    ghost partial_cmp = { λ s t. Some (slice_cmp nat_cmp s t) };

    ghost laws = { texts_po };

    fn partial_cmp(&self, other: &Path) -> Option<Ordering> {
        Some(self.cmp(other))
    }
}

impl Ord for Path {
    ghost cmp = { λ s t. slice_cmp nat_cmp s t };

    ghost total = { nat_list_cmp_total };

    ghost matches_partial_cmp = { λ x y. refl };

    ghost matches_eq = { texts_ties };

    fn cmp(&self, other: &Path) -> Ordering {
        self.text.cmp(&other.text)
    }
}
