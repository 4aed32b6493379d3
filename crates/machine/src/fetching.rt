//! The instruction at hand.

ghost use Rattle.std.specs.Prelude.{◌≡◌, ◌<◌, List, ℕ, true, slice_get, MatchOption};
ghost use Rattle.linked_code.specs.World.{World};
ghost use Rattle.linked_code.specs.Links.{Links};
ghost use Rattle.machine.specs.Fetched.{Fetches, FetchesNone};

use linked_code::{Op, Program};
use machine_frames::Frame;
use machine_words::Tag;

/// The linked instruction that a frame is at, or `None` where its code has ended.
#[tactic(auto, using(crate::proofs::LinkedCode::nothing_at, crate::proofs::LinkedCode::op_at))]
pub fn fetch<T: Tag>(program: &Program<T>, frame: &Frame<T>) -> Option<Op>
    ensures found { MatchOption result ((w : World T) → Links T.none_of w program.now → FetchesNone w frame.now) (λ op. (w : World T) → Links T.none_of w program.now → Fetches w program.now frame.now op) }
    ensures room { MatchOption result (⊥ → ⊥) (λ op. frame.now.next < usize.MAX) }
{
    let method = program.method(frame.method);
    if frame.next >= method.code.len() {
        return None;
    }
    Some(*method.code.at(frame.next))
}
