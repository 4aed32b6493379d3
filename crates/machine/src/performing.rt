//! Steps of the top frame.

ghost use Rattle.std.specs.Prelude.{◌≡◌, ◌<◌, List, ℕ, true, false, IfOk, OnErr};
ghost use Rattle.class_model.specs.declared.insn.Insn.{Insn};
ghost use Rattle.run_state.specs.Step.{step};
ghost use Rattle.linked_code.specs.World.{World, tags_of};
ghost use Rattle.linked_code.specs.Links.{Links};
ghost use Rattle.linked_code.specs.Linked.{Linked};
ghost use Rattle.machine.specs.Shown.{shown};
ghost use Rattle.machine.specs.Turned.{Answers, Behind, Prepares, Rests};
ghost use Rattle.machine.specs.Unwound.{done_at};

use crate::acting::act;
use crate::beginning::{begin, needed};
use crate::calling::follow_call;
use crate::fetching::fetch;
use crate::invoking::aim_of;
use crate::returns::{give_back, leave};
use crate::state::{Ending, Machine, Turn};
use crate::stepping::{follow, stop};
use crate::throwing::throw;
use linked_code::{Op, Program};
use machine_words::Tag;
use std::alloc::AllocError;

/// An instruction that needs no further class begun. A refusal leaves the machine as it was.
fn perform<T: Tag>(
    machine: &mut Machine<T>,
    program: &Program<T>,
    op: Op,
    closed: bool,
) -> Result<Turn, AllocError>
    requires framed { machine.old.framed ≡ true }
    requires running { machine.old.ending ≡ Ending.Running }
    requires room { machine.old.top.next < usize.MAX }
    ensures ok { IfOk result (λ turn. (w : World T) (more : List ℕ) (i : Insn) → Links T.none_of w program.now → Linked w program.now i op → Behind closed more
        → Answers w machine.old machine.new more turn (done_at T.none_of T.join_of w i machine.old more)) }
    ensures rests { IfOk result (λ turn. Rests closed machine.old machine.new turn) }
    ensures err { OnErr result (machine.new ≡ machine.old) }
{
    match op {
        Op::Return => leave(machine),
        Op::ReturnValue(kind) => give_back(machine, program, kind)?,
        Op::Throw => throw(machine, program)?,
        Op::InvokeStatic(_)
        | Op::InvokeSpecial(_)
        | Op::InvokeVirtual(_)
        | Op::InvokeInterface(_) => {
            let aim = aim_of(program, &machine.top, &machine.areas, op);
            return follow_call(machine, program, aim, closed);
        }
        _ => {
            let flow = act(
                machine.alloc,
                program,
                &mut machine.top,
                &mut machine.areas,
                op,
            )?;
            follow(machine, program, flow)?;
        }
    }
    Ok(Turn::Went)
}

/// Begins those of the classes that an instruction needs which have not begun. Answers whether there was one.
fn begin_needed<T: Tag>(
    machine: &mut Machine<T>,
    program: &Program<T>,
    op: Op,
) -> Result<bool, AllocError>
    requires framed { machine.old.framed ≡ true }
    requires running { machine.old.ending ≡ Ending.Running }
    ensures kept { IfOk result (λ begins. begins ≡ false → machine.new ≡ machine.old) }
    ensures ok { IfOk result (λ begins. (w : World T) (more : List ℕ) (i : Insn) → Links T.none_of w program.now → Linked w program.now i op
        → Prepares T.none_of T.join_of w i machine.old machine.new more begins) }
    ensures err { OnErr result (machine.new ≡ machine.old) }
    ensures fed { machine.new.fed ≡ machine.old.fed }
{
    match needed(program, op) {
        Some(class) => begin(machine, program, program.class(class).starts.as_slice()),
        None => Ok(false),
    }
}

/// One step of a machine that has a top frame: the classes that its instruction needs begin, or it is done. A refusal leaves the
/// machine as it was.
pub fn step_framed<T: Tag>(
    machine: &mut Machine<T>,
    program: &Program<T>,
    closed: bool,
) -> Result<Turn, AllocError>
    requires framed { machine.old.framed ≡ true }
    requires running { machine.old.ending ≡ Ending.Running }
    ensures ok { IfOk result (λ turn. (w : World T) (more : List ℕ) → Links T.none_of w program.now → Behind closed more
        → Answers w machine.old machine.new more turn (step (tags_of T.none_of T.join_of w) w.looks (shown w machine.old more))) }
    ensures rests { IfOk result (λ turn. Rests closed machine.old machine.new turn) }
    ensures err { OnErr result (machine.new ≡ machine.old) }
{
    let Some(op) = fetch(program, &machine.top) else {
        stop(machine);
        return Ok(Turn::Went);
    };
    let begins = begin_needed(machine, program, op)?;
    if begins {
        return Ok(Turn::Went);
    }
    perform(machine, program, op, closed)
}
