//! Values of the three kinds.

ghost use Rattle.std.specs.Prelude.{◌≡◌, MatchOption};
ghost use Rattle.machine_frames.specs.Acts.{HasKind, HasRef, LacksKind, LacksRef};

use class_model::Kind;
use machine_words::{Shape, Stack, Tag, Word};

/// Takes the topmost value, which is of a kind: an int, a long with its half, or a reference.
pub fn pop_kind<T: Tag>(stack: &mut Stack<T>, kind: Kind) -> Option<Word<T>>
    ensures { MatchOption result (LacksKind kind stack.old) (λ w. HasKind kind stack.old w stack.new) }
{
    match kind {
        Kind::Int => pop_int(stack),
        Kind::Long => pop_long(stack),
        Kind::Ref => pop_ref(stack),
    }
}

fn pop_int<T: Tag>(stack: &mut Stack<T>) -> Option<Word<T>>
    ensures { MatchOption result (LacksKind Kind.Int stack.old) (λ w. HasKind Kind.Int stack.old w stack.new) }
{
    let Some(top) = stack.pop() else {
        return None;
    };
    match top.shape {
        Shape::Num(v, t) => Some(Word::num(v, t)),
        _ => None,
    }
}

fn pop_long<T: Tag>(stack: &mut Stack<T>) -> Option<Word<T>>
    ensures { MatchOption result (LacksKind Kind.Long stack.old) (λ w. HasKind Kind.Long stack.old w stack.new) }
{
    match stack.long_at(0) {
        Some((v, t)) => {
            stack.drop_tops(2);
            Some(Word::long(v, t))
        }
        None => None,
    }
}

fn pop_ref<T: Tag>(stack: &mut Stack<T>) -> Option<Word<T>>
    ensures { MatchOption result (LacksKind Kind.Ref stack.old) (λ w. HasKind Kind.Ref stack.old w stack.new) }
{
    let Some(top) = stack.pop() else {
        return None;
    };
    match top.shape {
        Shape::Null => Some(Word::null()),
        Shape::Ref(place) => Some(Word::reference(place)),
        _ => None,
    }
}

/// Takes the topmost reference, and tells its place, or none of null.
pub fn pop_place<T: Tag>(stack: &mut Stack<T>) -> Option<Option<u64>>
    ensures { MatchOption result (LacksRef stack.old) (λ place. HasRef stack.old place stack.new) }
{
    let Some(top) = stack.pop() else {
        return None;
    };
    match top.shape {
        Shape::Null => Some(None),
        Shape::Ref(place) => Some(Some(place)),
        _ => None,
    }
}
