//! Calls of methods that have code (JVMS 2.6, 6.5 invokestatic to invokeinterface).

ghost use Rattle.std.specs.Prelude.{◌≡◌, ◌<◌, List, ℕ, true, IfOk, OnOk, OnErr};
ghost use Rattle.linked_code.specs.World.{World};
ghost use Rattle.linked_code.specs.Links.{Links};
ghost use Rattle.machine.specs.Shown.{shown};
ghost use Rattle.machine.specs.Called.{blank, enter_at};

use crate::arguments::copy_arguments;
use crate::state::{Ending, Machine};
use crate::stepping::stop;
use linked_code::Program;
use machine_frames::Frame;
use machine_words::{Locals, Stack, Tag};
use std::alloc::{AllocError, Global};

/// A frame of a method at its first instruction, with so many locals and room for so many operands.
pub fn blank_frame<T: Tag>(
    alloc: Global,
    method: u32,
    locals: usize,
    room: u32,
) -> Result<Frame<T>, AllocError>
    ensures { IfOk result (λ f. f ≡ blank method locals) }
{
    Ok(Frame {
        method,
        next: 0,
        locals: Locals::new(alloc, locals)?,
        stack: Stack::with_room(alloc, room as usize)?,
    })
}

/// Enters a method with the topmost words as its arguments. A refusal leaves the machine as it was.
pub fn enter<T: Tag>(
    machine: &mut Machine<T>,
    program: &Program<T>,
    callee: u32,
    words: u32,
) -> Result<(), AllocError>
    requires framed { machine.old.framed ≡ true }
    requires running { machine.old.ending ≡ Ending.Running }
    requires room { machine.old.top.next < usize.MAX }
    ensures ok { OnOk result ((w : World T) (more : List ℕ) → Links T.none_of w program.now → shown w machine.new more ≡ enter_at T.none_of T.join_of w machine.old more callee words) }
    ensures err { OnErr result (machine.new ≡ machine.old) }
    ensures fed { machine.new.fed ≡ machine.old.fed }
{
    if words as usize > machine.top.stack.len() {
        stop(machine);
        return Ok(());
    }
    let method = program.method(callee);
    let locals = words as usize + method.locals.saturating_sub(method.params) as usize;
    let mut frame = blank_frame(machine.alloc, callee, locals, method.room)?;
    copy_arguments(&machine.top.stack, &mut frame.locals, words as usize);
    machine.below.push(frame)?;
    machine.top.stack.drop_tops(words as usize);
    machine.top.next += 1;
    machine.below.exchange(&mut machine.top);
    Ok(())
}
