//! A pool that grows.

ghost use Rattle.std.specs.Prelude.{◌≡◌, ◌+◌, [], length, Contains, Some, IfSome, IfNone, IfOk, OnErr};
ghost use Rattle.indexmap.specs.IndexMap.{keys};
ghost use Rattle.const_pool.specs.Pool as grammar;
ghost use Rattle.const_pool.specs.Editor.{Holds, Extends, AddsNew, FindsOld};
ghost use Rattle.const_pool.specs.declared.editor.PoolStop.TheVariants.{Memory};

use crate::encode::put_entries;
use crate::entry::Entry;
use indexmap::IndexMap;
use lists::{Bytes, Seq};
use std::alloc::{AllocError, AllocFailed, Global};
use std::marker::Model;
use thiserror::Error;

/// Why an entry was not put into a pool.
#[derive(Clone, Copy, Debug, PartialEq, Eq, Error)]
pub enum PoolStop {
    /// The entry is new, and its last index would be this one, past 65,534.
    #[error("an index of {0} in the constant pool")]
    Full(u64),
    #[error("out of memory")]
    Memory,
}

impl From<AllocError> for PoolStop {
    ghost from_gives = { λ _ stop. stop ≡ Memory };

    fn from(_: AllocError) -> PoolStop {
        PoolStop::Memory
    }
}

impl<T: Drop> From<AllocFailed<T>> for PoolStop {
    ghost from_gives = { λ _ stop. stop ≡ Memory };

    fn from(_: AllocFailed<T>) -> PoolStop {
        PoolStop::Memory
    }
}

/// The last index that an entry may take.
const LAST_INDEX: u64 = 65_534;

/// A constant pool (JVMS 4.4) under construction, in which each entry stands once. Contracts see the list of its
/// entries by their indices, as for `Pool`.
#[derive(Drop)]
pub struct PoolEditor {
    indices: IndexMap<Entry, u16>,
    taken: u16,
}

impl Model for PoolEditor {
    ghost use Rattle.std.specs.Prelude.{List, Option};
    ghost use Rattle.const_pool.specs.declared.entry.Entry.{Entry};
    ghost use Rattle.const_pool.specs.Editor.{IsEditor, pool_of_rows};

    ghost Value = { List (Option Entry) };

    ghost view = { λ p. pool_of_rows p.indices.entries };

    ghost invariant = { λ p. IsEditor p.indices.entries p.taken };
}

/// The number of indices that an entry takes.
fn width(entry: &Entry) -> u64
    ensures { result ≡ length (grammar.slots_of entry.now) }
{
    match entry {
        Entry::Long(_) | Entry::Double(_) => 2,
        _ => 1,
    }
}

/// The index of an equal entry, in constant time.
fn index_of(indices: &IndexMap<Entry, u16>, entry: &Entry) -> Option<u16>
    ensures found { IfSome result (λ index. Contains indices.now.entries (entry.now, index)) }
    ensures absent { IfNone result (Contains (keys indices.now) entry.now → ⊥) }
{
    match indices.get_full(entry) {
        None => None,
        Some((_, _, index)) => Some(*index),
    }
}

impl PoolEditor {
    /// An empty pool.
    pub fn new(alloc: Global) -> Result<PoolEditor, AllocError>
        ensures { IfOk result (λ pool. pool ≡ []) }
    {
        Ok(PoolEditor {
            indices: IndexMap::new(alloc),
            taken: 0,
        })
    }

    /// The index of an equal entry, else of a new last one, in constant time. What a Utf8 holds is modified
    /// UTF-8 of at most 65,535 bytes, and each index that an entry holds names an entry that is there, of the
    /// kind that is needed. `Full` where the entry is new and its last index would pass 65,534. A refusal leaves
    /// the pool as it was.
    pub fn add(&mut self, entry: Entry) -> Result<u16, PoolStop>
        requires text { grammar.HasText entry }
        requires refers { grammar.Refers self.old entry }

        ensures index { IfOk result (λ k. grammar.entry_at self.new k ≡ Some entry) }
        ensures found { Holds self.old entry → FindsOld self.old entry result self.new }
        ensures added { (Holds self.old entry → ⊥) → AddsNew self.old entry result self.new }

        // Old indices stay, and a refusal changes nothing.
        ensures kept { Extends self.old self.new }
        ensures err { OnErr result (self.new ≡ self.old) }
    {
        if let Some(index) = index_of(&self.indices, &entry) {
            return Ok(index);
        }
        let last = u64::from(self.taken) + width(&entry);
        if last > LAST_INDEX {
            return Err(PoolStop::Full(last));
        }
        let index = self.taken + 1;
        self.indices.insert(entry, index)?;
        self.taken = last as u16;
        Ok(index)
    }

    /// The bytes of the pool, its count first.
    pub fn encode(&self) -> Result<Bytes, AllocError>
        ensures { IfOk result (λ bytes. grammar.IsPool bytes self.now) }
    {
        let mut bytes = Vec::new(*self.indices.allocator());
        bytes.extend_from_slice(&(self.taken + 1).to_be_bytes())?;
        put_entries(&mut bytes, self.indices.keys().as_slice())?;
        Ok(Seq::from_vec(bytes))
    }
}
