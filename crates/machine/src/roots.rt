//! The root frame's own steps (this project's own): it begins the main class, makes an array of no texts, and calls `main` with it.

ghost use Rattle.std.specs.Prelude.{◌≡◌, [], ◌∷◌, List, ℕ, false, replicate, IfOk, OnOk, OnErr, ◌-◌};
ghost use Rattle.run_state.specs.Step.{step};
ghost use Rattle.run_state.specs.Words as words;
ghost use Rattle.linked_code.specs.World.{World, tags_of};
ghost use Rattle.linked_code.specs.Links.{Links};
ghost use Rattle.linked_code.specs.Numbered.{method_at};
ghost use Rattle.machine.specs.Shown.{shown};

use crate::beginning::begin;
use crate::callers::Callers;
use crate::calls::blank_frame;
use crate::state::{Ending, Machine, Phase};
use crate::stepping::stop;
use linked_code::Program;
use lists::Seq;
use machine_frames::Frame;
use machine_heap::Item;
use machine_words::{Tag, Word};
use std::alloc::AllocError;

/// The first step begins the main class, where it has not begun. A refusal leaves the machine as it was.
fn begin_main<T: Tag>(machine: &mut Machine<T>, program: &Program<T>) -> Result<(), AllocError>
    requires unframed { machine.old.framed ≡ false }
    requires running { machine.old.ending ≡ Ending.Running }
    requires phase { machine.old.phase ≡ Phase.Begins }
    ensures ok { OnOk result ((w : World T) (more : List ℕ) → Links T.none_of w program.now
        → shown w machine.new more ≡ step (tags_of T.none_of T.join_of w) w.looks (shown w machine.old more)) }
    ensures err { OnErr result (machine.new ≡ machine.old) }
    ensures fed { machine.new.fed ≡ machine.old.fed }
{
    let Some(main) = program.main else {
        machine.phase = Phase::Makes;
        return Ok(());
    };
    let class = program.class(program.method(main).class);
    begin(machine, program, class.starts.as_slice())?;
    machine.phase = Phase::Makes;
    Ok(())
}

/// The second makes the array. A refusal leaves the machine as it was.
fn make_array<T: Tag>(machine: &mut Machine<T>, program: &Program<T>) -> Result<(), AllocError>
    requires unframed { machine.old.framed ≡ false }
    requires running { machine.old.ending ≡ Ending.Running }
    requires phase { machine.old.phase ≡ Phase.Makes }
    ensures ok { OnOk result ((w : World T) (more : List ℕ) → Links T.none_of w program.now
        → shown w machine.new more ≡ step (tags_of T.none_of T.join_of w) w.looks (shown w machine.old more)) }
    ensures err { OnErr result (machine.new ≡ machine.old) }
    ensures fed { machine.new.fed ≡ machine.old.fed }
{
    let item = Item {
        ty: program.arguments,
        own: T::none(),
        cells: Seq::new(machine.alloc),
    };
    machine.areas.heap.add(item)?;
    machine.phase = Phase::Calls;
    Ok(())
}

/// A frame of `main` with the array of a place.
fn main_frame<T: Tag>(
    machine: &Machine<T>,
    program: &Program<T>,
    main: u32,
    place: u64,
) -> Result<Frame<T>, AllocError>
    ensures { IfOk result (λ f. f ≡ record { method = main; next = 0; locals = words.Ref place ∷ replicate ((method_at program.now main).locals - (method_at program.now main).params) words.Empty; stack = [] }) }
{
    let method = program.method(main);
    let locals = 1 + method.locals.saturating_sub(method.params) as usize;
    let mut frame = blank_frame(machine.alloc, main, locals, method.room)?;
    frame.locals.set(0, Word::reference(place));
    Ok(frame)
}

/// The third calls `main`. A refusal leaves the machine as it was.
fn call_main<T: Tag>(machine: &mut Machine<T>, program: &Program<T>) -> Result<(), AllocError>
    requires unframed { machine.old.framed ≡ false }
    requires running { machine.old.ending ≡ Ending.Running }
    requires phase { machine.old.phase ≡ Phase.Calls }
    ensures ok { OnOk result ((w : World T) (more : List ℕ) → Links T.none_of w program.now
        → shown w machine.new more ≡ step (tags_of T.none_of T.join_of w) w.looks (shown w machine.old more)) }
    ensures err { OnErr result (machine.new ≡ machine.old) }
    ensures fed { machine.new.fed ≡ machine.old.fed }
{
    let Some(main) = program.main else {
        stop(machine);
        return Ok(());
    };
    let place = machine.areas.heap.len().saturating_sub(1);
    let frame = main_frame(machine, program, main, place)?;
    machine.top = frame;
    machine.below.clear();
    machine.framed = true;
    machine.phase = Phase::Waits;
    Ok(())
}

/// A step of the root frame. A refusal leaves the machine as it was.
pub fn step_root<T: Tag>(machine: &mut Machine<T>, program: &Program<T>) -> Result<(), AllocError>
    requires unframed { machine.old.framed ≡ false }
    requires running { machine.old.ending ≡ Ending.Running }
    ensures ok { OnOk result ((w : World T) (more : List ℕ) → Links T.none_of w program.now
        → shown w machine.new more ≡ step (tags_of T.none_of T.join_of w) w.looks (shown w machine.old more)) }
    ensures err { OnErr result (machine.new ≡ machine.old) }
    ensures fed { machine.new.fed ≡ machine.old.fed }
{
    match machine.phase {
        Phase::Begins => begin_main(machine, program),
        Phase::Makes => make_array(machine, program),
        Phase::Calls => call_main(machine, program),
        Phase::Waits => {
            stop(machine);
            Ok(())
        }
    }
}
