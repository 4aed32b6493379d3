//! Values of a kind, and what a type keeps of them.

ghost use Rattle.std.specs.Prelude.{◌≡◌, ◌≤◌, drop, length, MatchOption};
ghost use Rattle.run_state.specs.Calls as calls;
ghost use Rattle.linked_code.specs.Kept.{kept_by};
ghost use Rattle.machine_frames.specs.Acts.{HasKind, LacksKind};
ghost use Rattle.machine.specs.Held.{kind_words};

use crate::operands::{Held, holding};
use class_model::Kind;
use linked_code::Narrowing;
use machine_words::{Shape, Stack, Tag, Word, int_to_byte, int_to_char, int_to_short, lowest_bit};

/// How many words a value of a kind takes.
pub fn words_of(kind: Kind) -> usize
    ensures { result ≡ kind_words kind }
{
    match kind {
        Kind::Int => 1,
        Kind::Long => 2,
        Kind::Ref => 1,
    }
}

/// The topmost value, where it is of a kind.
pub fn kind_at<T: Tag>(stack: &Stack<T>, kind: Kind) -> Option<Word<T>>
    ensures value { MatchOption result (LacksKind kind stack.now) (λ w. HasKind kind stack.now w (drop (kind_words kind) stack.now)) }
    ensures there { MatchOption result (⊥ → ⊥) (λ w. kind_words kind ≤ length stack.now) }
{
    match kind {
        Kind::Int => int_top(stack),
        Kind::Long => long_top(stack),
        Kind::Ref => ref_top(stack),
    }
}

#[tactic(auto, using(crate::proofs::KindTops::int_there, crate::proofs::KindTops::int_missing, crate::proofs::KindTops::int_room))]
fn int_top<T: Tag>(stack: &Stack<T>) -> Option<Word<T>>
    ensures value { MatchOption result (LacksKind Kind.Int stack.now) (λ w. HasKind Kind.Int stack.now w (drop 1 stack.now)) }
    ensures there { MatchOption result (⊥ → ⊥) (λ w. 1 ≤ length stack.now) }
{
    match stack.int_at(0) {
        Some((v, t)) => Some(Word::num(v, t)),
        None => None,
    }
}

#[tactic(auto, using(crate::proofs::KindTops::long_there, crate::proofs::KindTops::long_missing, crate::proofs::KindTops::long_room))]
fn long_top<T: Tag>(stack: &Stack<T>) -> Option<Word<T>>
    ensures value { MatchOption result (LacksKind Kind.Long stack.now) (λ w. HasKind Kind.Long stack.now w (drop 2 stack.now)) }
    ensures there { MatchOption result (⊥ → ⊥) (λ w. 2 ≤ length stack.now) }
{
    match stack.long_at(0) {
        Some((v, t)) => Some(Word::long(v, t)),
        None => None,
    }
}

#[tactic(auto, using(crate::proofs::KindTops::null_there, crate::proofs::KindTops::item_there, crate::proofs::KindTops::ref_missing, crate::proofs::KindTops::item_room, crate::proofs::KindTops::null_room))]
fn ref_top<T: Tag>(stack: &Stack<T>) -> Option<Word<T>>
    ensures value { MatchOption result (LacksKind Kind.Ref stack.now) (λ w. HasKind Kind.Ref stack.now w (drop 1 stack.now)) }
    ensures there { MatchOption result (⊥ → ⊥) (λ w. 1 ≤ length stack.now) }
{
    match holding(stack.peek(0)) {
        Held::Nothing => None,
        Held::Null => Some(Word::null()),
        Held::Item(place) => Some(Word::reference(place)),
    }
}

/// An int, where a value is one, as a type keeps it.
pub fn narrowed<T: Tag>(narrowing: Narrowing, value: Word<T>) -> Word<T>
    ensures { result ≡ calls.narrowed (kept_by narrowing) value }
{
    match value.shape {
        Shape::Num(v, t) => Word::num(narrowed_int(narrowing, v), t),
        _ => value,
    }
}

fn narrowed_int(narrowing: Narrowing, v: i32) -> i32
    ensures { result ≡ kept_by narrowing v }
{
    match narrowing {
        Narrowing::Whole => v,
        Narrowing::Byte => int_to_byte(v),
        Narrowing::Char => int_to_char(v),
        Narrowing::Short => int_to_short(v),
        Narrowing::Boolean => lowest_bit(v),
    }
}
