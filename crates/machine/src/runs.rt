//! Steps and runs of a machine.

ghost use Rattle.std.specs.Prelude.{◌≡◌, ◌≢◌, ◌↔◌, ◌<◌, ◌≤◌, List, ℕ, true, false, IfOk, MatchOption, OnErr};
ghost use Rattle.run_state.specs.Step.{step};
ghost use Rattle.linked_code.specs.World.{World, tags_of};
ghost use Rattle.linked_code.specs.Links.{Links};
ghost use Rattle.machine.specs.Reached.{Reaches, ReachesWithin};
ghost use Rattle.machine.specs.Shown.{shown};
ghost use Rattle.machine.specs.Turned.{Answers, Behind, FedOn, IsAtRest, IsWaiting, Rests};

use crate::frame_runs::run_frame;
use crate::performing::step_framed;
use crate::roots::step_root;
use crate::state::{Ending, Machine, Turn};
use crate::stepping::stop;
use linked_code::Program;
use machine_words::Tag;
use std::alloc::AllocError;

/// A step. `closed` tells that nothing comes behind the byte that is fed. Where the run waits for a byte of its input, or has
/// ended, nothing changes: it waits exactly where the next step takes a byte which is not known. A refusal leaves the machine as it
/// was.
pub fn step<T: Tag>(
    machine: &mut Machine<T>,
    program: &Program<T>,
    closed: bool,
) -> Result<Turn, AllocError>
    ensures ok { IfOk result (λ turn. (w : World T) (more : List ℕ) → Links T.none_of w program.now → Behind closed more
        → Answers w machine.old machine.new more turn (step (tags_of T.none_of T.join_of w) w.looks (shown w machine.old more))) }
    ensures rests { IfOk result (λ turn. Rests closed machine.old machine.new turn) }
    ensures ended { IfOk result (λ turn. turn ≡ Turn.Ended ↔ (machine.old.ending ≢ Ending.Running)) }
    ensures wants { IfOk result (λ turn. (w : World T) → Links T.none_of w program.now → (turn ≡ Turn.Wants ↔ IsWaiting T.none_of T.join_of w closed machine.old)) }
    ensures err { OnErr result (machine.new ≡ machine.old) }
{
    if machine.ending != Ending::Running {
        return Ok(Turn::Ended);
    }
    if machine.framed {
        return step_framed(machine, program, closed);
    }
    step_root(machine, program)?;
    Ok(Turn::Went)
}

/// Makes at most so many steps of the top frame alone, and answers how many it made.
fn run_top<T: Tag>(
    machine: &mut Machine<T>,
    program: &Program<T>,
    closed: bool,
    limit: u64,
) -> Result<u64, AllocError>
    ensures ok { IfOk result (λ made. (made ≤ limit) × Reaches T.none_of T.join_of program.now closed machine.old machine.new made) }
    ensures err { OnErr result (ReachesWithin T.none_of T.join_of program.now closed machine.old machine.new limit) }
    ensures fed { machine.new.fed ≡ machine.old.fed }
{
    if !machine.framed || machine.ending != Ending::Running {
        return Ok(0);
    }
    let code = program.method(machine.top.method).code.as_slice();
    let ran = run_frame(&mut machine.top, code, limit)?;
    if ran.stuck {
        stop(machine);
    }
    Ok(ran.steps)
}

/// Makes at least one and at most so many steps, and answers how many; none where the run waits for input or has ended.
fn go<T: Tag>(
    machine: &mut Machine<T>,
    program: &Program<T>,
    closed: bool,
    limit: u64,
) -> Result<u64, AllocError>
    ensures rests { IfOk result (λ made. made ≡ 0 → 0 < limit → IsAtRest T.none_of T.join_of program.now closed machine.new) }
    ensures ok { IfOk result (λ made. (made ≤ limit) × Reaches T.none_of T.join_of program.now closed machine.old machine.new made) }
    ensures err { OnErr result (ReachesWithin T.none_of T.join_of program.now closed machine.old machine.new limit) }
    ensures fed { FedOn machine.old.fed machine.new.fed }
{
    let made = run_top(machine, program, closed, limit)?;
    if made == limit {
        return Ok(made);
    }
    let turn = step(machine, program, closed)?;
    match turn {
        Turn::Went => Ok(made + 1),
        Turn::Wants => Ok(made),
        Turn::Ended => Ok(made),
    }
}

/// Makes so many steps, and fewer only where the run waits for input or has ended. Answers how many were made. A refusal leaves the
/// machine behind some of these steps.
pub fn run<T: Tag>(
    machine: &mut Machine<T>,
    program: &Program<T>,
    closed: bool,
    steps: u64,
) -> Result<u64, AllocError>
    ensures rests { IfOk result (λ made. made < steps → IsAtRest T.none_of T.join_of program.now closed machine.new) }
    ensures ok { IfOk result (λ made. (made ≤ steps) × Reaches T.none_of T.join_of program.now closed machine.old machine.new made) }
    ensures err { OnErr result (ReachesWithin T.none_of T.join_of program.now closed machine.old machine.new steps) }
    ensures fed { FedOn machine.old.fed machine.new.fed }
{
    let mut made = 0;
    while made < steps {
        let more = go(machine, program, closed, steps - made)?;
        if more == 0 {
            return Ok(made);
        }
        made += more;
    }
    Ok(made)
}
