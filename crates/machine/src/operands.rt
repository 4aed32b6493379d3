//! Operands that are references.

ghost use Rattle.std.specs.Prelude.{◌≡◌, ◌≤◌, [], ◌∷◌, drop, length, OnOk, OnErr};
ghost use Rattle.run_state.specs.Words as words;
ghost use Rattle.machine.specs.Held.{held_by};

use machine_words::{Shape, Stack, Tag, Word};
use std::alloc::AllocError;

/// What a word holds where a reference is wanted: the place of an item of the heap, null, or nothing of that kind.
#[derive(Clone, Copy, Debug)]
pub enum Held {
    Nothing,
    Null,
    Item(u64),
}

pub fn holding<T: Tag>(word: Option<Word<T>>) -> Held
    ensures { result ≡ held_by word }
{
    let Some(word) = word else {
        return Held::Nothing;
    };
    match word.shape {
        Shape::Null => Held::Null,
        Shape::Ref(place) => Held::Item(place),
        _ => Held::Nothing,
    }
}

/// Puts a value in the place of the topmost word. A refusal leaves the stack as it was.
pub fn put_value<T: Tag>(stack: &mut Stack<T>, value: Word<T>) -> Result<(), AllocError>
    requires { 1 ≤ length stack.old }
    ensures ok { OnOk result (stack.new ≡ words.pushed value (drop 1 stack.old)) }
    ensures err { OnErr result (stack.new ≡ stack.old) }
{
    match value.shape {
        Shape::Long(..) => {
            stack.push(Word::half())?;
            stack.set(1, value);
        }
        _ => stack.replace(1, value),
    }
    Ok(())
}

/// Puts a value in the place of the two topmost words.
pub fn put_value_for_two<T: Tag>(stack: &mut Stack<T>, value: Word<T>)
    requires { 2 ≤ length stack.old }
    ensures { stack.new ≡ words.pushed value (drop 2 stack.old) }
{
    match value.shape {
        Shape::Long(..) => stack.replace_long(2, value),
        _ => stack.replace(2, value),
    }
}
