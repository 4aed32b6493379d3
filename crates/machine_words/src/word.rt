//! Words.

ghost use Rattle.std.specs.Prelude.{◌≡◌};
ghost use Rattle.run_state.specs.Words as words;

use std::marker::Model;

/// What a word holds: nothing yet, an int or a long beside its tag, the half of a long that has nothing of its own, null, or
/// the place of an object or array in the heap.
#[derive(Clone, Copy, Debug)]
pub enum Shape<T> {
    Empty,
    Num(i32, T),
    Long(i64, T),
    Half,
    Null,
    Ref(u64),
}

/// A word of a local or of the operand stack (JVMS 2.6.1, 2.6.2). A long takes two: the number, and a half. Contracts see the
/// word of the definitions.
#[derive(Clone, Copy, Debug)]
pub struct Word<T> {
    pub shape: Shape<T>,
}

impl<T> Model for Word<T> {
    ghost use Rattle.run_state.specs.Words.{Word};

    ghost Value = { Word T };

    ghost use Rattle.std.proofs.Common.{ap};
    ghost use Rattle.machine_words.specs.Shapes.{word_of, shape_of, shape_of_word_of};

    ghost view = { λ w. word_of w.shape };

    ghost inverse = { λ v. record { shape = shape_of v } };

    ghost inverse_ok = { λ a h. ap (λ s. record { shape = s }) (shape_of_word_of a.shape) };
}

impl<T> Word<T> {
    /// A word that nothing was put into.
    pub fn empty() -> Word<T>
        ensures { result ≡ words.Empty }
    {
        Word {
            shape: Shape::Empty,
        }
    }

    /// An int and its tag.
    pub fn num(v: i32, tag: T) -> Word<T>
        ensures { result ≡ words.Num v tag }
    {
        Word {
            shape: Shape::Num(v, tag),
        }
    }

    /// A long and its tag. Its half goes above it.
    pub fn long(v: i64, tag: T) -> Word<T>
        ensures { result ≡ words.Long v tag }
    {
        Word {
            shape: Shape::Long(v, tag),
        }
    }

    /// The second word of a long.
    pub fn half() -> Word<T>
        ensures { result ≡ words.Half }
    {
        Word { shape: Shape::Half }
    }

    pub fn null() -> Word<T>
        ensures { result ≡ words.Null }
    {
        Word { shape: Shape::Null }
    }

    /// The object or array at a place of the heap.
    pub fn reference(place: u64) -> Word<T>
        ensures { result ≡ words.Ref place }
    {
        Word {
            shape: Shape::Ref(place),
        }
    }
}
