//! Objects and arrays.

ghost use Rattle.std.specs.Prelude.{◌≡◌};
ghost use Rattle.machine_heap.specs.Blocks.{with_cell};

use lists::Seq;
use machine_words::Word;

/// An object or an array (JVMS 2.7): the number of its type, its own tag, and its fields or elements, one word each.
#[derive(Drop)]
pub struct Item<T> {
    pub ty: u32,
    pub own: T,
    pub cells: Seq<Word<T>>,
}

impl<T: Copy + Drop> Item<T> {
    /// Writes a field or an element, where it is there.
    pub fn set_cell(&mut self, index: usize, cell: Word<T>)
        ensures { self.new ≡ with_cell self.old index cell }
    {
        if index < self.cells.len() {
            self.cells.set(index, cell);
        }
    }
}
