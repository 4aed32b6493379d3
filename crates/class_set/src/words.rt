//! Locals word by word.

ghost use Rattle.std.specs.Prelude.{◌≡◌, []};
ghost use Rattle.class_set.specs.Assignable.{assignable, in_words};
ghost use Rattle.class_set.specs.Walk.{first_word, later_words, words_behind};

use crate::class_set::ClassSet;
use crate::types::is_long;
use class_model::VType;
use std::marker::Model;

/// The words that are left of locals, which contracts see as a list.
#[derive(Drop)]
pub struct WordWalk<'a> {
    entries: &'a [VType],
    /// The next word is the second one of a long.
    in_long: bool,
}

impl<'a> Model for WordWalk<'a> {
    ghost use Rattle.std.specs.Prelude.{List};
    ghost use Rattle.class_model.specs.declared.class.VType.{VType};
    ghost use Rattle.class_set.specs.Walk.{words_left};

    ghost Value = { List VType };

    ghost view = { λ walk. words_left walk.in_long walk.entries.now };
}

impl<'a> WordWalk<'a> {
    /// All words of the locals.
    pub fn new(entries: &'a [VType]) -> WordWalk<'a>
        ensures { result ≡ in_words entries.now }
    {
        WordWalk {
            entries,
            in_long: false,
        }
    }

    /// Whether the next word, Top where none is left, goes to a type.
    pub fn first_goes(&self, set: &ClassSet, wanted: &VType) -> bool
        ensures { result ≡ assignable set.now (first_word self.now) wanted.now }
    {
        if self.in_long {
            return set.assignable(&VType::Top, wanted);
        }
        match self.entries.first() {
            None => set.assignable(&VType::Top, wanted),
            Some(ty) => set.assignable(ty, wanted),
        }
    }

    /// Passes over a word.
    fn step(&mut self)
        ensures { self.new ≡ later_words self.old }
    {
        if self.in_long {
            self.in_long = false;
            return;
        }
        let Some(ty) = self.entries.first() else {
            return;
        };
        self.in_long = is_long(ty);
        self.entries = &self.entries[1..];
    }

    /// Passes over as many words as an entry has.
    pub fn pass(&mut self, entry: &VType)
        ensures { self.new ≡ words_behind entry.now self.old }
    {
        self.step();
        if is_long(entry) {
            self.step();
        }
    }
}
