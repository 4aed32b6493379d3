//! Blocks of items.

ghost use Rattle.std.specs.Prelude.{◌≡◌, ◌<◌, [], ◌∷◌, ◌++◌, length, take, slice_get, slice_set, OnOk, OnErr, IfOk};
ghost use Rattle.std.specs.Option.{option_copied};
ghost use Rattle.machine_heap.specs.Blocks.{with_cell, with_own};

use crate::item::Item;
use machine_words::Word;
use std::alloc::{AllocError, Global};
use std::marker::Model;

/// A list of items that stay where they are while it has room.
#[derive(Drop)]
pub struct Block<T> {
    items: Vec<Item<T>>,
}

impl<T> Model for Block<T> {
    ghost use Rattle.std.specs.Prelude.{List};
    ghost use Rattle.machine_heap.specs.declared.item.Item.{Item};

    ghost Value = { List (Item T) };

    ghost view = { λ b. b.items.items };
}

impl<T: Copy + Drop> Block<T> {
    pub fn new(alloc: Global) -> Block<T>
        ensures { result ≡ [] }
    {
        Block {
            items: Vec::new(alloc),
        }
    }

    /// With room taken for so many items.
    pub fn with_room(alloc: Global, room: usize) -> Result<Block<T>, AllocError>
        ensures { IfOk result (λ b. b ≡ []) }
    {
        Ok(Block {
            items: Vec::with_capacity(alloc, room)?,
        })
    }

    pub fn len(&self) -> usize
        ensures { result ≡ length self.now }
    {
        self.items.len()
    }

    pub fn push(&mut self, item: Item<T>) -> Result<(), AllocError>
        ensures ok { OnOk result (self.new ≡ self.old ++ item ∷ []) }
        ensures err { OnErr result (self.new ≡ self.old) }
    {
        self.items.push(item)?;
        Ok(())
    }

    pub fn get(&self, at: usize) -> Option<&Item<T>>
        ensures { option_copied result ≡ slice_get self.now at }
    {
        self.items.get(at)
    }

    /// Writes a field or an element of an item, where it is there.
    pub fn set_cell(&mut self, at: usize, index: usize, cell: Word<T>)
        requires { at < length self.old }
        ensures written { (x : Item T) → slice_get self.old at ≡ Some x → self.new ≡ slice_set self.old at (with_cell x index cell) }
        ensures as_long { length self.new ≡ length self.old }
    {
        self.items[at].set_cell(index, cell);
    }

    /// Writes an item's own tag.
    pub fn set_own(&mut self, at: usize, own: T)
        requires { at < length self.old }
        ensures written { (x : Item T) → slice_get self.old at ≡ Some x → self.new ≡ slice_set self.old at (with_own x own) }
        ensures as_long { length self.new ≡ length self.old }
    {
        self.items[at].own = own;
    }

    /// Keeps the first `len` items.
    pub fn shorten(&mut self, len: usize)
        ensures { self.new ≡ take len self.old }
    {
        self.items.truncate(len);
    }
}
