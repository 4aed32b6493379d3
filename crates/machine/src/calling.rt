//! Calls of methods, natives among them.

ghost use Rattle.std.specs.Prelude.{◌≡◌, ◌<◌, ◌≤◌, List, ℕ, length, true, IfOk, OnErr};
ghost use Rattle.linked_code.specs.World.{World};
ghost use Rattle.linked_code.specs.Links.{Links, native_of};
ghost use Rattle.machine.specs.Called.{call_at, native_at};
ghost use Rattle.machine.specs.Turned.{Answers, Behind, Rests};
ghost use Rattle.machine.specs.Unwound.{aimed_at};

use crate::calls::enter;
use crate::copying::copy;
use crate::faults::raise;
use crate::invoking::Aim;
use crate::natives::{exit, read, report, write};
use crate::state::{Ending, Machine, Turn};
use crate::stepping::stop;
use linked_code::{Native, Program};
use machine_words::Tag;
use std::alloc::AllocError;

/// A native does its work.
fn carry_out<T: Tag>(
    machine: &mut Machine<T>,
    program: &Program<T>,
    native: Native,
    words: usize,
    closed: bool,
) -> Result<Turn, AllocError>
    requires framed { machine.old.framed ≡ true }
    requires running { machine.old.ending ≡ Ending.Running }
    requires room { machine.old.top.next < usize.MAX }
    requires there { words ≤ length machine.old.top.stack }
    ensures ok { IfOk result (λ turn. (w : World T) (more : List ℕ) (n : ℕ) → Links T.none_of w program.now → Behind closed more
        → Answers w machine.old machine.new more turn (native_at T.none_of T.join_of w machine.old more (native_of native) n words)) }
    ensures rests { IfOk result (λ turn. Rests closed machine.old machine.new turn) }
    ensures err { OnErr result (machine.new ≡ machine.old) }
{
    match native {
        Native::Read => return read(machine, program, words, closed),
        Native::Write => write(machine, words)?,
        Native::Exit => exit(machine, words),
        Native::ArrayCopy => copy(machine, program, words)?,
        Native::Report => report(machine, words)?,
    }
    Ok(Turn::Went)
}

/// The method of a number is called with the topmost words as its arguments. A refusal leaves the machine as it was.
pub fn call<T: Tag>(
    machine: &mut Machine<T>,
    program: &Program<T>,
    callee: u32,
    words: u32,
    closed: bool,
) -> Result<Turn, AllocError>
    requires framed { machine.old.framed ≡ true }
    requires running { machine.old.ending ≡ Ending.Running }
    requires room { machine.old.top.next < usize.MAX }
    ensures ok { IfOk result (λ turn. (w : World T) (more : List ℕ) → Links T.none_of w program.now → Behind closed more
        → Answers w machine.old machine.new more turn (call_at T.none_of T.join_of w machine.old more callee words)) }
    ensures rests { IfOk result (λ turn. Rests closed machine.old machine.new turn) }
    ensures err { OnErr result (machine.new ≡ machine.old) }
{
    let Some(native) = program.method(callee).native else {
        enter(machine, program, callee, words)?;
        return Ok(Turn::Went);
    };
    if words as usize > machine.top.stack.len() {
        stop(machine);
        return Ok(Turn::Went);
    }
    carry_out(machine, program, native, words as usize, closed)
}

/// Goes where a call leads. A refusal leaves the machine as it was.
pub fn follow_call<T: Tag>(
    machine: &mut Machine<T>,
    program: &Program<T>,
    aim: Aim,
    closed: bool,
) -> Result<Turn, AllocError>
    requires framed { machine.old.framed ≡ true }
    requires running { machine.old.ending ≡ Ending.Running }
    requires room { machine.old.top.next < usize.MAX }
    ensures ok { IfOk result (λ turn. (w : World T) (more : List ℕ) → Links T.none_of w program.now → Behind closed more
        → Answers w machine.old machine.new more turn (aimed_at T.none_of T.join_of w aim machine.old more)) }
    ensures rests { IfOk result (λ turn. Rests closed machine.old machine.new turn) }
    ensures err { OnErr result (machine.new ≡ machine.old) }
{
    match aim {
        Aim::Enters(callee, words) => return call(machine, program, callee, words, closed),
        Aim::Throws(fault) => raise(machine, program, fault)?,
        Aim::Nowhere => stop(machine),
    }
    Ok(Turn::Went)
}
