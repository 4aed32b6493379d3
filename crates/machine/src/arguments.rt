//! The arguments of a call.

ghost use Rattle.std.specs.Prelude.{◌≡◌, ◌<◌, ◌≤◌, ◌++◌, Some, drop, length, reverse, slice_get, take};

use machine_words::{Locals, Stack, Tag, Word};

/// The word that has so many others above it.
#[tactic(auto, using(crate::proofs::TakenArguments::none_within))]
fn word_at<T: Tag>(stack: &Stack<T>, depth: usize) -> Word<T>
    requires { depth < length stack.now }
    ensures { slice_get stack.now depth ≡ Some result }
{
    match stack.peek(depth) {
        Some(word) => word,
        None => Word::empty(),
    }
}

/// Copies so many of the topmost words into the first locals, in the order in which they lie from below (JVMS 2.6.1).
pub fn copy_arguments<T: Tag>(stack: &Stack<T>, locals: &mut Locals<T>, words: usize)
    requires there { words ≤ length stack.now }
    requires fit { words ≤ length locals.old }
    ensures { locals.new ≡ reverse (take words stack.now) ++ drop words locals.old }
{
    for k in 0..words {
        locals.set(words - 1 - k, word_at(stack, k));
    }
}
