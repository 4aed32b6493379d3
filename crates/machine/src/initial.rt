//! The machine before its first step.

ghost use Rattle.std.specs.Prelude.{◌≡◌, [], None, List, ℕ, IfOk};
ghost use Rattle.run_state.specs.State as state;
ghost use Rattle.linked_code.specs.World.{World};
ghost use Rattle.machine.specs.Shown.{shown};

use crate::begun::Begun;
use crate::callers::Callers;
use crate::calls::blank_frame;
use crate::state::{Areas, Ending, Machine, Phase};
use linked_code::Program;
use lists::Seq;
use machine_heap::Heap;
use machine_words::{Locals, Tag, Word};
use std::alloc::{AllocError, Global};

/// A copy of these words.
fn laid_out<T: Tag>(alloc: Global, words: &[Word<T>]) -> Result<Locals<T>, AllocError>
    ensures { IfOk result (λ copy. copy ≡ words.now) }
{
    let mut copy = Locals::new(alloc, words.len())?;
    for (k, word) in words.iter().enumerate() {
        copy.set(k, *word);
    }
    Ok(copy)
}

/// The machine before its first step: it is the root frame's turn, the static fields hold what they hold at the start, and all else
/// is empty.
pub fn start<T: Tag>(alloc: Global, program: &Program<T>) -> Result<Machine<T>, AllocError>
    ensures shows { IfOk result (λ machine. (w : World T) (more : List ℕ) → shown w machine more ≡ record {
      frames = [];
      areas = record { heap = []; statics = program.now.statics; literals = [] };
      outside = record { input = more; console = []; reports = []; begun = []; phase = state.Begins };
      ending = state.Running;
    }) }
    ensures fed { IfOk result (λ machine. machine.fed ≡ None) }
{
    Ok(Machine {
        alloc,
        framed: false,
        top: blank_frame(alloc, 0, 0, 0)?,
        below: Callers::new(alloc),
        areas: Areas {
            heap: Heap::new(alloc),
            statics: laid_out(alloc, program.statics.as_slice())?,
            literals: Seq::new(alloc),
        },
        begun: Begun::new(alloc, program.classes.len())?,
        phase: Phase::Begins,
        fed: None,
        console: Seq::new(alloc),
        reports: Seq::new(alloc),
        ending: Ending::Running,
    })
}
