//! Lists.

ghost use Rattle.std.specs.Prelude.{◌≡◌, ◌≢◌, [], ◌∷◌, ◌++◌, ◌<◌, ◌≤◌, length, slice_get, slice_set, slice_index, take, ◌↔◌, IsTrue, IfOk, MatchOption, OnOk, OnErr, OnSome};
ghost use Rattle.std.specs.Option.{option_copied};
ghost use Rattle.std.specs.Hash as fed;
ghost use Rattle.std.specs.Hash.{items_Alike};
ghost use Rattle.std.specs.Cmp.Lexicographic.{pointwise, lists_per, lists_equiv};

use crate::plain::{Plain, Same};
use std::alloc::{AllocError, Global};
use std::hash::{Hash, Hasher};
use std::marker::Model;

/// A list of values. Contracts see the list itself, so that public types can hold it as plain data.
#[derive(Debug, Drop)]
pub struct Seq<T> {
    items: Vec<T>,
}

impl<T> Model for Seq<T> {
    ghost use Rattle.std.specs.Prelude.{List};
    ghost use Rattle.std.specs.Coded.{coded_list};

    ghost Value = { List T };

    ghost coded = { coded_list T.code };

    ghost view = { λ s. s.items.items };
}

impl<T> Seq<T> {
    /// The empty list. Takes no memory until an item comes.
    pub fn new(alloc: Global) -> Seq<T>
        ensures { result ≡ [] }
    {
        Seq {
            items: Vec::new(alloc),
        }
    }

    /// The empty list, with room for so many items.
    pub fn with_capacity(alloc: Global, room: usize) -> Result<Seq<T>, AllocError>
        ensures { IfOk result (λ items. items ≡ []) }
    {
        Ok(Seq {
            items: Vec::with_capacity(alloc, room)?,
        })
    }

    /// The list of these items. Takes no memory.
    pub fn from_vec(items: Vec<T>) -> Seq<T>
        ensures { result ≡ items.items }
    {
        Seq { items }
    }

    /// The items, given back. Takes no memory.
    pub fn into_vec(self) -> Vec<T>
        ensures { result.items ≡ self }
    {
        let Seq { items } = self;
        items
    }

    pub fn as_slice(&self) -> &[T]
        ensures { result.now ≡ self.now }
    {
        self.items.as_slice()
    }

    pub fn len(&self) -> usize
        ensures { result ≡ length self.now }
    {
        self.items.len()
    }

    pub fn is_empty(&self) -> bool
        ensures { IsTrue result ↔ (self.now ≡ []) }
    {
        self.items.is_empty()
    }

    /// The item at a place, or `None` past the end.
    pub fn get(&self, at: usize) -> Option<&T>
        ensures value { option_copied result ≡ slice_get self.now at }
        ensures within { OnSome result (at < length self.now) }
    {
        self.items.get(at)
    }

    /// The item at a place that is there.
    pub fn at(&self, at: usize) -> &T
        requires { at < length self.now }
        ensures { slice_get self.now at ≡ Some result.now }
    {
        &self.items[at]
    }

    /// Puts an item at the end. A refusal leaves the list as it was.
    pub fn push(&mut self, item: T) -> Result<(), AllocError>
    where
        T: Drop,
        ensures ok { OnOk result (self.new ≡ self.old ++ item ∷ []) }
        ensures err { OnErr result (self.new ≡ self.old) }
    {
        self.items.push(item)?;
        Ok(())
    }

    /// Puts an item in the place of another.
    pub fn set(&mut self, at: usize, item: T)
    where
        T: Drop,
        requires { at < length self.old }
        ensures { self.new ≡ slice_set self.old at item }
    {
        self.items[at] = item;
    }

    /// Keeps the first `len` items.
    pub fn truncate(&mut self, len: usize)
    where
        T: Drop,
        ensures { self.new ≡ take len self.old }
    {
        self.items.truncate(len);
    }
}

impl<T: Plain> Clone for Seq<T> {
    ghost is_clone = { λ s t. t ≡ s };

    fn clone(&self) -> Result<Seq<T>, AllocError> {
        Ok(Seq {
            items: self.items.clone()?,
        })
    }
}

impl<T: PartialEq> PartialEq for Seq<T> {
    ghost eq = { λ s t. pointwise T.eq s t };

    ghost laws = { lists_per T.laws };

    fn eq(&self, other: &Seq<T>) -> bool {
        self.items == other.items
    }
}

impl<T: Eq> Eq for Seq<T> {
    ghost laws = { lists_equiv T.Eq.laws };
}

impl<T: Plain> Plain for Seq<T> {
    ghost copies = { λ x y same. same };
}

#[tactic(auto, using(std::proofs::lemmas::List::take_more_same))]
fn same_items<T: Same>(a: &[T], b: &[T]) -> bool
    ensures { IsTrue result ↔ (a.now ≡ b.now) }
{
    if a.len() != b.len() {
        return false;
    }
    for (i, x) in a.iter().enumerate() {
        if !x.same(&b[i]) {
            return false;
        }
    }
    true
}

impl<T: Same> Same for Seq<T> {
    fn same(&self, other: &Seq<T>) -> bool {
        same_items(self.as_slice(), other.as_slice())
    }
}

impl<T: Hash> Hash for Seq<T> {
    ghost hash_input = { λ s. fed.slice T.hash_input s };

    ghost respects_eq = { (items_Alike (record { fed = T.respects_eq })).fed };

    fn hash<H: Hasher>(&self, state: &mut H) {
        self.as_slice().hash(state);
    }
}
