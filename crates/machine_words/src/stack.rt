//! Operand stacks.

ghost use Rattle.std.specs.Prelude.{◌≡◌, ◌≤◌, ◌<◌, ◌+◌, ◌^◌, [], ◌∷◌, length, drop, slice_get, slice_set, OnOk, OnErr, IfOk, MatchOption};
ghost use Rattle.run_state.specs.Words as words;
ghost use Rattle.machine_words.specs.Tops.{as_int, as_long};

use crate::word::{Shape, Word};
use std::alloc::{AllocError, Global};
use std::marker::Model;

/// An operand stack (JVMS 2.6.2), seen with its top first.
#[derive(Drop)]
pub struct Stack<T> {
    words: Vec<Word<T>>,
}

impl<T> Model for Stack<T> {
    ghost use Rattle.std.specs.Prelude.{List, reverse};
    ghost use Rattle.run_state.specs.Words.{Word};

    ghost Value = { List (Word T) };

    ghost view = { λ s. reverse s.words.items };
}

impl<T: Copy + Drop> Stack<T> {
    /// The empty stack. Takes no memory until a word comes.
    pub fn new(alloc: Global) -> Stack<T>
        ensures { result ≡ [] }
    {
        Stack {
            words: Vec::new(alloc),
        }
    }

    /// The empty stack, with room taken for so many words.
    pub fn with_room(alloc: Global, room: usize) -> Result<Stack<T>, AllocError>
        ensures { IfOk result (λ s. s ≡ []) }
    {
        Ok(Stack {
            words: Vec::with_capacity(alloc, room)?,
        })
    }

    pub fn len(&self) -> usize
        ensures { result ≡ length self.now }
    {
        self.words.len()
    }

    /// Puts a word on top. A refusal leaves the stack as it was.
    pub fn push(&mut self, word: Word<T>) -> Result<(), AllocError>
        ensures ok { OnOk result (self.new ≡ word ∷ self.old) }
        ensures err { OnErr result (self.new ≡ self.old) }
    {
        self.words.push(word)?;
        Ok(())
    }

    /// Takes the topmost word.
    pub fn pop(&mut self) -> Option<Word<T>>
        ensures { MatchOption result (self.old ≡ []) (λ w. self.old ≡ w ∷ self.new) }
    {
        self.words.pop()
    }

    /// The word that has so many others above it.
    pub fn peek(&self, depth: usize) -> Option<Word<T>>
        ensures { result ≡ slice_get self.now depth }
    {
        let n = self.words.len();
        if depth < n {
            Some(self.words[n - 1 - depth])
        } else {
            None
        }
    }

    /// Puts a word in the place of the one that has so many others above it.
    #[tactic(auto, using(crate::proofs::Reversed::set_within))]
    pub fn set(&mut self, depth: usize, word: Word<T>)
        requires { depth < length self.old }
        ensures { self.new ≡ slice_set self.old depth word }
    {
        let n = self.words.len();
        self.words[n - 1 - depth] = word;
    }

    /// Takes the topmost word off.
    pub fn drop_top(&mut self)
        ensures { self.new ≡ drop 1 self.old }
    {
        let _top = self.words.pop();
    }

    /// Takes so many words off.
    #[tactic(auto, using(crate::proofs::Reversed::drop_tops))]
    pub fn drop_tops(&mut self, count: usize)
        requires { count ≤ length self.old }
        ensures { self.new ≡ drop count self.old }
    {
        let n = self.words.len();
        self.words.truncate(n - count);
    }

    /// Takes all words off. The room stays.
    pub fn clear(&mut self)
        ensures { self.new ≡ [] }
    {
        self.words.clear();
    }

    /// Puts two words on top. A refusal leaves the stack as it was.
    pub fn push_two(&mut self, below: Word<T>, top: Word<T>) -> Result<(), AllocError>
        ensures ok { OnOk result (self.new ≡ top ∷ below ∷ self.old) }
        ensures err { OnErr result (self.new ≡ self.old) }
    {
        self.push(below)?;
        if let Err(refused) = self.push(top) {
            self.drop_top();
            return Err(refused);
        }
        Ok(())
    }

    /// Puts a long and its half on top. A refusal leaves the stack as it was.
    pub fn push_long(&mut self, word: Word<T>) -> Result<(), AllocError>
        ensures ok { OnOk result (self.new ≡ words.Half ∷ word ∷ self.old) }
        ensures err { OnErr result (self.new ≡ self.old) }
    {
        self.push_two(word, Word::half())
    }

    /// Puts a value on top, a long with its half. A refusal leaves the stack as it was.
    pub fn push_value(&mut self, value: Word<T>) -> Result<(), AllocError>
        ensures ok { OnOk result (self.new ≡ words.pushed value self.old) }
        ensures err { OnErr result (self.new ≡ self.old) }
    {
        match value.shape {
            Shape::Long(..) => self.push_long(value),
            _ => self.push(value),
        }
    }

    /// The int that has so many words above it.
    pub fn int_at(&self, depth: usize) -> Option<(i32, T)>
        ensures { result ≡ as_int (slice_get self.now depth) }
    {
        let Some(word) = self.peek(depth) else {
            return None;
        };
        match word.shape {
            Shape::Num(v, t) => Some((v, t)),
            _ => None,
        }
    }

    /// The long whose half has so many words above it.
    pub fn long_at(&self, depth: usize) -> Option<(i64, T)>
        requires { depth < 2 ^ 32 }
        ensures { result ≡ as_long (slice_get self.now depth) (slice_get self.now (depth + 1)) }
    {
        let (Some(half), Some(below)) = (self.peek(depth), self.peek(depth + 1)) else {
            return None;
        };
        match (half.shape, below.shape) {
            (Shape::Half, Shape::Long(v, t)) => Some((v, t)),
            _ => None,
        }
    }

    /// Puts an int, or another single word, in the place of so many words, which are one or more.
    #[tactic(auto, using(crate::proofs::Reversed::replaced))]
    pub fn replace(&mut self, count: usize, word: Word<T>)
        requires some { 1 ≤ count }
        requires there { count ≤ length self.old }
        ensures { self.new ≡ word ∷ drop count self.old }
    {
        self.drop_tops(count - 1);
        self.set(0, word);
    }

    /// Puts a long and its half in the place of so many words, which are two or more.
    #[tactic(auto, using(crate::proofs::Reversed::replaced_two))]
    pub fn replace_long(&mut self, count: usize, word: Word<T>)
        requires some { 2 ≤ count }
        requires there { count ≤ length self.old }
        ensures { self.new ≡ words.Half ∷ word ∷ drop count self.old }
    {
        self.drop_tops(count - 2);
        self.set(1, word);
        self.set(0, Word::half());
    }
}
