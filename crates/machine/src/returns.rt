//! Returns (JVMS 6.5, return to areturn).

ghost use Rattle.std.specs.Prelude.{◌≡◌, List, ℕ, true, None, Some, OnOk, OnErr};
ghost use Rattle.class_model.specs.declared.insn.Insn.TheVariants as insn;
ghost use Rattle.linked_code.specs.World.{World};
ghost use Rattle.linked_code.specs.Links.{Links};
ghost use Rattle.machine.specs.Shown.{shown};
ghost use Rattle.machine.specs.Unwound.{done_at};

use crate::state::{Ending, Machine, Phase};
use crate::stepping::stop;
use crate::values::{kind_at, narrowed};
use class_model::Kind;
use linked_code::Program;
use machine_words::Tag;
use std::alloc::AllocError;

/// A return of no value: the frame below goes on; where there is none, the root frame does.
pub fn leave<T: Tag>(machine: &mut Machine<T>)
    requires framed { machine.old.framed ≡ true }
    requires running { machine.old.ending ≡ Ending.Running }
    ensures ok { (w : World T) (more : List ℕ) → shown w machine.new more ≡ done_at T.none_of T.join_of w (insn.Return None) machine.old more }
    ensures fed { machine.new.fed ≡ machine.old.fed }
{
    match machine.below.pop() {
        Some(caller) => machine.top = caller,
        None => {
            machine.framed = false;
            if machine.phase == Phase::Waits {
                machine.ending = Ending::Returned;
            }
        }
    }
}

/// A return of a value of a kind: the frame below goes on with what the method's type keeps of it. A
/// refusal leaves the machine as it was.
pub fn give_back<T: Tag>(
    machine: &mut Machine<T>,
    program: &Program<T>,
    kind: Kind,
) -> Result<(), AllocError>
    requires framed { machine.old.framed ≡ true }
    requires running { machine.old.ending ≡ Ending.Running }
    ensures ok { OnOk result ((w : World T) (more : List ℕ) → Links T.none_of w program.now → shown w machine.new more ≡ done_at T.none_of T.join_of w (insn.Return (Some kind)) machine.old more) }
    ensures err { OnErr result (machine.new ≡ machine.old) }
    ensures fed { machine.new.fed ≡ machine.old.fed }
{
    let Some(value) = kind_at(&machine.top.stack, kind) else {
        stop(machine);
        return Ok(());
    };
    let value = narrowed(program.method(machine.top.method).narrowing, value);
    machine.below.give(value)?;
    match machine.below.pop() {
        Some(caller) => machine.top = caller,
        None => stop(machine),
    }
    Ok(())
}
