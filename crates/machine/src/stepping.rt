//! One instruction of the top frame.

ghost use Rattle.std.specs.Prelude.{◌≡◌, ◌<◌, List, ℕ, true, false, OnOk, OnErr};
ghost use Rattle.class_model.specs.declared.insn.Insn.{Insn};
ghost use Rattle.linked_code.specs.World.{World};
ghost use Rattle.linked_code.specs.Linked.{Linked};
ghost use Rattle.linked_code.specs.Links.{Links};
ghost use Rattle.machine.specs.Acted.{IsThrow};
ghost use Rattle.machine.specs.Shown.{shown};
ghost use Rattle.machine.specs.Unwound.{done_at, led_at};

use crate::acting::act_frame;
use crate::faults::raise;
use crate::state::{Ending, Machine};
use linked_code::Program;
use machine_frames::{Flow, FrameOp};
use machine_words::Tag;
use std::alloc::AllocError;

/// The end of a run at an operand that is missing.
pub fn stop<T: Tag>(machine: &mut Machine<T>)
    ensures { machine.new ≡ record machine.old { framed = false; ending = Ending.Stuck } }
{
    machine.framed = false;
    machine.ending = Ending::Stuck;
}

/// Goes where an instruction leads that has turned the top frame and the areas into what they are now.
#[tactic(auto, using(crate::proofs::Steps::next_led))]
pub fn follow<T: Tag>(
    machine: &mut Machine<T>,
    program: &Program<T>,
    flow: Flow,
) -> Result<(), AllocError>
    requires framed { machine.old.framed ≡ true }
    requires running { machine.old.ending ≡ Ending.Running }
    ensures ok { OnOk result ((w : World T) (more : List ℕ) → Links T.none_of w program.now → shown w machine.new more ≡ led_at T.none_of T.join_of w flow machine.old more) }
    ensures err { OnErr result (machine.new ≡ machine.old) }
    ensures only { OnErr result (IsThrow flow) }
    ensures fed { machine.new.fed ≡ machine.old.fed }
{
    match flow {
        Flow::Next => Ok(()),
        Flow::Stuck => {
            stop(machine);
            Ok(())
        }
        Flow::Throws(fault) => raise(machine, program, fault),
    }
}
