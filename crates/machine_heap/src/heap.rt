//! The heap.

ghost use Rattle.std.specs.Prelude.{◌≡◌, ◌<◌, ◌≤◌, [], ◌∷◌, ◌++◌, length, take, slice_get, slice_set, OnOk, OnErr, IfOk};
ghost use Rattle.std.specs.Option.{option_copied};
ghost use Rattle.machine_heap.specs.Blocks.{with_cell, with_own};

use crate::block::Block;
use crate::item::Item;
use machine_words::Word;
use std::alloc::{AllocError, Global};
use std::marker::Model;
use std::mem;

/// How many items a block has.
const BLOCK: usize = 1024;

/// How many blocks there are at most, so that places stay numbers of 64 bits.
const BLOCKS: usize = 4503599627370496;

/// Objects and arrays by their places. It grows without copying items, and finds one in constant time: the items stand in
/// blocks of one size, and the last of them behind these.
#[derive(Drop)]
pub struct Heap<T> {
    alloc: Global,
    full: Vec<Block<T>>,
    last: Block<T>,
}

impl<T> Model for Heap<T> {
    ghost use Rattle.std.specs.Prelude.{List};
    ghost use Rattle.machine_heap.specs.declared.item.Item.{Item};

    ghost Value = { List (Item T) };

    ghost use Rattle.machine_heap.specs.Blocks.{followed_by, Laid};

    ghost view = { λ h. followed_by h.full.items h.last };

    ghost invariant = { λ h. Laid h.full.items h.last };
}

impl<T: Copy + Drop> Heap<T> {
    /// The empty heap. Takes no memory until an item comes.
    pub fn new(alloc: Global) -> Heap<T>
        ensures { result ≡ [] }
    {
        Heap {
            alloc,
            full: Vec::new(alloc),
            last: Block::new(alloc),
        }
    }

    /// The number of items.
    #[tactic(auto, using(crate::proofs::Joined::length_followed))]
    pub fn len(&self) -> u64
        ensures { result ≡ length self.now }
    {
        (self.full.len() * BLOCK + self.last.len()) as u64
    }

    /// The item at a place, or `None` past the last.
    #[tactic(auto, using(crate::proofs::Joined::item_in_block, crate::proofs::Joined::item_in_last))]
    pub fn item(&self, place: u64) -> Option<&Item<T>>
        ensures { option_copied result ≡ slice_get self.now place }
    {
        let at = place as usize;
        let block = at / BLOCK;
        if block < self.full.len() {
            self.full[block].get(at % BLOCK)
        } else {
            self.last.get(at - self.full.len() * BLOCK)
        }
    }

    /// Puts an item at the end, and answers its place, which is the old length. A refusal leaves the heap as it was.
    pub fn add(&mut self, item: Item<T>) -> Result<u64, AllocError>
        ensures ok { IfOk result (λ place. (place ≡ length self.old) × (self.new ≡ self.old ++ item ∷ [])) }
        ensures err { OnErr result (self.new ≡ self.old) }
    {
        let place = self.len();
        if self.last.len() < BLOCK {
            self.last.push(item)?;
        } else {
            self.add_behind_block(item)?;
        }
        Ok(place)
    }

    /// Writes a field or an element, where it is there. All else stays.
    pub fn set_cell(&mut self, place: u64, index: usize, cell: Word<T>)
        requires { place < length self.old }
        ensures { (x : Item T) → slice_get self.old place ≡ Some x → self.new ≡ slice_set self.old place (with_cell x index cell) }
    {
        let at = place as usize;
        let block = at / BLOCK;
        if block < self.full.len() {
            self.full[block].set_cell(at % BLOCK, index, cell);
        } else {
            let start = self.full.len() * BLOCK;
            self.last.set_cell(at - start, index, cell);
        }
    }

    /// Writes an item's own tag. All else stays.
    pub fn set_own(&mut self, place: u64, own: T)
        requires { place < length self.old }
        ensures { (x : Item T) → slice_get self.old place ≡ Some x → self.new ≡ slice_set self.old place (with_own x own) }
    {
        let at = place as usize;
        let block = at / BLOCK;
        if block < self.full.len() {
            self.full[block].set_own(at % BLOCK, own);
        } else {
            let start = self.full.len() * BLOCK;
            self.last.set_own(at - start, own);
        }
    }

    /// Keeps the first `len` items. Takes no memory.
    pub fn shorten(&mut self, len: u64)
        requires { len ≤ length self.old }
        ensures { self.new ≡ take len self.old }
    {
        let at = len as usize;
        let block = at / BLOCK;
        if block < self.full.len() {
            self.full.truncate(block + 1);
            if let Some(mut last) = self.full.pop() {
                last.shorten(at % BLOCK);
                self.last = last;
            }
        } else {
            let start = self.full.len() * BLOCK;
            self.last.shorten(at - start);
        }
    }

    /// The last items fill a block, which becomes the last full one; the item begins the next.
    fn add_behind_block(&mut self, item: Item<T>) -> Result<(), AllocError>
        ensures ok { OnOk result (self.new ≡ self.old ++ item ∷ []) }
        ensures err { OnErr result (self.new ≡ self.old) }
    {
        if self.last.len() != BLOCK || self.full.len() >= BLOCKS {
            return Err(AllocError);
        }
        let mut fresh = Block::with_room(self.alloc, BLOCK)?;
        fresh.push(item)?;
        let filled = mem::replace(&mut self.last, fresh);
        if let Err(refused) = self.full.push(filled) {
            self.last = refused.value;
            return Err(AllocError);
        }
        Ok(())
    }
}
