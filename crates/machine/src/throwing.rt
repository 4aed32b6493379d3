//! Throws of the program's own (JVMS 6.5 athrow).

ghost use Rattle.std.specs.Prelude.{◌≡◌, List, ℕ, true, OnOk, OnErr};
ghost use Rattle.class_model.specs.declared.insn.Insn.TheVariants as insn;
ghost use Rattle.linked_code.specs.World.{World};
ghost use Rattle.linked_code.specs.Links.{Links};
ghost use Rattle.machine.specs.Shown.{shown};
ghost use Rattle.machine.specs.Unwound.{done_at};

use crate::faults::raise;
use crate::operands::{Held, holding};
use crate::state::{Ending, Machine};
use crate::stepping::stop;
use crate::unwinding::unwind;
use linked_code::Program;
use machine_frames::Fault;
use machine_words::{Stack, Tag, Word};
use std::alloc::AllocError;

/// The topmost object is thrown. A refusal leaves the machine as it was.
pub fn throw<T: Tag>(machine: &mut Machine<T>, program: &Program<T>) -> Result<(), AllocError>
    requires framed { machine.old.framed ≡ true }
    requires running { machine.old.ending ≡ Ending.Running }
    ensures ok { OnOk result ((w : World T) (more : List ℕ) → Links T.none_of w program.now → shown w machine.new more ≡ done_at T.none_of T.join_of w insn.Athrow machine.old more) }
    ensures err { OnErr result (machine.new ≡ machine.old) }
    ensures fed { machine.new.fed ≡ machine.old.fed }
{
    let at = match holding(machine.top.stack.peek(0)) {
        Held::Item(at) => at,
        Held::Null => return raise(machine, program, Fault::NullPointer),
        Held::Nothing => {
            stop(machine);
            return Ok(());
        }
    };
    let Some(item) = machine.areas.heap.item(at) else {
        stop(machine);
        return Ok(());
    };
    let class = program.ty(item.ty).base;
    let mut landing = Stack::new(machine.alloc);
    landing.push(Word::reference(at))?;
    unwind(machine, program, class, at, landing);
    Ok(())
}
