//! Throws (JVMS 2.10, 6.5 athrow).

ghost use Rattle.std.specs.Prelude.{◌≡◌, [], ◌∷◌, List, ℕ, true};
ghost use Rattle.run_state.specs.Words as words;
ghost use Rattle.linked_code.specs.World.{World};
ghost use Rattle.linked_code.specs.Links.{Links};
ghost use Rattle.machine.specs.Shown.{shown};
ghost use Rattle.machine.specs.Unwound.{thrown_at};

use crate::catching::{Verdict, judge};
use crate::state::{Ending, Machine};
use linked_code::Program;
use machine_words::{Stack, Tag};

/// The object at a place, of a class, is thrown at the top frame's instruction, and goes down the frames to the first that
/// catches it, whose stack then is the one handed in, of the object alone. Where none does, the run ends. Takes no memory.
#[tactic(auto, using(crate::proofs::Landings::lands, crate::proofs::Landings::fails))]
pub fn unwind<T: Tag>(
    machine: &mut Machine<T>,
    program: &Program<T>,
    class: u32,
    place: u64,
    landing: Stack<T>,
)
    requires framed { machine.old.framed ≡ true }
    requires running { machine.old.ending ≡ Ending.Running }
    requires alone { landing ≡ words.Ref place ∷ [] }
    ensures ok { (w : World T) (more : List ℕ) → Links T.none_of w program.now → shown w machine.new more ≡ thrown_at w (w.class class) place machine.old.top.next machine.old more }
    ensures fed { machine.new.fed ≡ machine.old.fed }
{
    let mut at = machine.top.next;
    loop {
        match judge(program, machine.top.method, class, at) {
            Verdict::Lands(target) => {
                machine.top.next = target as usize;
                machine.top.stack = landing;
                return;
            }
            Verdict::Fails(begun) => {
                machine.framed = false;
                machine.ending = Ending::InitFailed(begun, class);
                return;
            }
            Verdict::Passes => {}
        }
        match machine.below.pop() {
            Some(caller) => {
                at = caller.next.saturating_sub(1);
                machine.top = caller;
            }
            None => {
                machine.framed = false;
                machine.ending = Ending::Uncaught(class);
                return;
            }
        }
    }
}
