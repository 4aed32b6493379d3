//! A pool that is written.

ghost use Rattle.std.specs.Prelude.{◌≡◌, [], IfOk};
ghost use Rattle.const_pool.specs.Pool.{HasText, Refers, IsPool};
ghost use Rattle.pool_names.specs.Adding.{Puts, add_entry};

use const_pool::{Entry, PoolEditor, PoolStop};
use lists::Bytes;
use std::alloc::{AllocError, Global};
use std::marker::Model;

/// A constant pool under construction, in which each entry stands once, so that an entry has one index. Contracts
/// see the list of its entries by their indices.
#[derive(Drop)]
pub struct PoolWriter {
    editor: PoolEditor,
}

impl Model for PoolWriter {
    ghost use Rattle.std.specs.Prelude.{List, Option};
    ghost use Rattle.const_pool.specs.declared.entry.Entry.{Entry};
    ghost use Rattle.pool_names.specs.Adding.{IsDistinct};

    ghost Value = { List (Option Entry) };

    ghost view = { λ w. w.editor };

    ghost invariant = { λ w. IsDistinct w.editor };
}

impl PoolWriter {
    /// An empty pool.
    pub fn new(alloc: Global) -> Result<PoolWriter, AllocError>
        ensures { IfOk result (λ pool. pool ≡ []) }
    {
        Ok(PoolWriter {
            editor: PoolEditor::new(alloc)?,
        })
    }

    /// The index of an equal entry, else of a new last one, in constant time. What a Utf8 holds is modified
    /// UTF-8 of at most 65,535 bytes, and each index that an entry holds names an entry that is there, of the
    /// kind that is needed. `Full` where the entry is new and its last index would pass 65,534.
    pub fn add(&mut self, entry: Entry) -> Result<u16, PoolStop>
        requires text { HasText entry }
        requires refers { Refers self.old entry }
        ensures { Puts result self.new (add_entry entry self.old) }
    {
        self.editor.add(entry)
    }

    /// The bytes of the pool, its count first.
    pub fn encode(&self) -> Result<Bytes, AllocError>
        ensures { IfOk result (λ bytes. IsPool bytes self.now) }
    {
        self.editor.encode()
    }
}
