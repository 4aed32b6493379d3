//! Lists of bounded length.

ghost use Rattle.std.specs.Prelude.{◌≡◌, [], ◌≤◌, ◌↔◌, length, IsTrue};
ghost use Rattle.std.specs.Cmp.Lexicographic.{pointwise, lists_per, lists_equiv};

use lists::{Plain, Seq};
use std::alloc::{AllocError, Global};
use std::marker::Model;

/// A list of at most 65,535 entries (this project's own bound). Contracts see the list itself.
#[derive(Debug, Drop)]
pub struct Listed<T> {
    entries: Seq<T>,
}

impl<T> Model for Listed<T> {
    ghost use Rattle.std.specs.Prelude.{List, ◌≤◌, length};
    ghost use Rattle.std.specs.Coded.{coded_list};

    ghost Value = { List T };

    ghost coded = { coded_list T.code };

    ghost view = { λ l. l.entries };

    ghost invariant = { λ l. length l.entries ≤ 65535 };
}

impl<T> Listed<T> {
    /// The empty list. Takes no memory.
    pub fn new(alloc: Global) -> Listed<T>
        ensures { result ≡ [] }
    {
        Listed {
            entries: Seq::new(alloc),
        }
    }

    /// The list of these entries. Takes no memory.
    pub fn from_seq(entries: Seq<T>) -> Listed<T>
        requires { length entries ≤ 65535 }
        ensures { result ≡ entries }
    {
        Listed { entries }
    }

    pub fn as_slice(&self) -> &[T]
        ensures same { result.now ≡ self.now }
        ensures bounded { length self.now ≤ 65535 }
    {
        self.entries.as_slice()
    }

    pub fn len(&self) -> usize
        ensures told { result ≡ length self.now }
        ensures bounded { result ≤ 65535 }
    {
        self.entries.len()
    }

    pub fn is_empty(&self) -> bool
        ensures { IsTrue result ↔ (self.now ≡ []) }
    {
        self.entries.is_empty()
    }
}

impl<T: Plain> Clone for Listed<T> {
    ghost is_clone = { λ s t. t ≡ s };

    fn clone(&self) -> Result<Listed<T>, AllocError> {
        Ok(Listed {
            entries: self.entries.clone()?,
        })
    }
}

impl<T: PartialEq> PartialEq for Listed<T> {
    ghost eq = { λ s t. pointwise T.eq s t };

    ghost laws = { lists_per T.laws };

    fn eq(&self, other: &Listed<T>) -> bool {
        self.entries == other.entries
    }
}

impl<T: Eq> Eq for Listed<T> {
    ghost laws = { lists_equiv T.Eq.laws };
}

impl<T: Plain> Plain for Listed<T> {
    ghost copies = { λ x y same. same };
}
