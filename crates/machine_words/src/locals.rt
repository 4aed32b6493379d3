//! Local variables.

ghost use Rattle.std.specs.Prelude.{◌≡◌, ◌<◌, ◌^◌, [], ◌∷◌, slice_get, slice_set, replicate, IfOk};
ghost use Rattle.run_state.specs.Words as words;

use crate::word::{Shape, Word};
use std::alloc::{AllocError, Global};
use std::marker::Model;

/// The local variables of a frame (JVMS 2.6.1).
#[derive(Drop)]
pub struct Locals<T> {
    words: Vec<Word<T>>,
}

impl<T> Model for Locals<T> {
    ghost use Rattle.std.specs.Prelude.{List};
    ghost use Rattle.run_state.specs.Words.{Word};

    ghost Value = { List (Word T) };

    ghost view = { λ s. s.words.items };
}

impl<T: Copy + Drop> Locals<T> {
    /// So many locals, none of them set.
    pub fn new(alloc: Global, count: usize) -> Result<Locals<T>, AllocError>
        ensures { IfOk result (λ ls. ls ≡ replicate count words.Empty) }
    {
        Ok(Locals {
            words: vec![in alloc; Word::empty(); count]?,
        })
    }

    /// The word of a local, or `None` past the last.
    pub fn get(&self, at: usize) -> Option<Word<T>>
        ensures { result ≡ slice_get self.now at }
    {
        self.words.get(at).copied()
    }

    /// Writes a local, if there is one.
    pub fn set(&mut self, at: usize, word: Word<T>)
        ensures { self.new ≡ slice_set self.old at word }
    {
        if at < self.words.len() {
            self.words[at] = word;
        }
    }

    /// Writes a value into a local, where it is there. A long takes the next local too, for its half.
    pub fn store(&mut self, at: usize, value: Word<T>)
        requires { at < 2 ^ 32 }
        ensures { self.new ≡ words.stored self.old at value }
    {
        self.set(at, value);
        if let Shape::Long(..) = value.shape {
            self.set(at + 1, Word::half());
        }
    }
}
