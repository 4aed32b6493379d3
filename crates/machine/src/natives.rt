//! The methods that the machine itself carries out (this project's own). Each does its work in the one step of its call.

ghost use Rattle.std.specs.Prelude.{◌≡◌, ◌<◌, ◌≤◌, ◌∷◌, List, ℕ, drop, length, true, IfOk, OnOk, OnErr};
ghost use Rattle.run_state.specs.Natives as natives;
ghost use Rattle.linked_code.specs.World.{World};
ghost use Rattle.linked_code.specs.Links.{Links};
ghost use Rattle.machine_words.specs.Tops.{as_int};
ghost use Rattle.machine.specs.Called.{argument, input_read, native_at};
ghost use Rattle.machine.specs.Shown.{shown};
ghost use Rattle.machine.specs.Turned.{Answers, Behind, Rests};

use crate::state::{Ending, Machine, Turn};
use crate::stepping::stop;
use linked_code::Program;
use machine_words::{Stack, Tag, Word, lowest_byte};
use run_state::Report;
use std::alloc::AllocError;

/// The argument of a number, where it is an int, of a call whose arguments are the topmost words.
#[tactic(auto, using(crate::proofs::NativeRows::argument_at, crate::proofs::NativeRows::argument_past))]
pub fn int_argument<T: Tag>(stack: &Stack<T>, words: usize, number: usize) -> Option<(i32, T)>
    requires { words ≤ length stack.now }
    ensures { result ≡ as_int (argument stack.now words number) }
{
    if number >= words {
        return None;
    }
    stack.int_at(words - 1 - number)
}

/// Puts a word in the place of so many. A refusal leaves the stack as it was.
pub fn put_for<T: Tag>(stack: &mut Stack<T>, words: usize, word: Word<T>) -> Result<(), AllocError>
    requires { words ≤ length stack.old }
    ensures ok { OnOk result (stack.new ≡ word ∷ drop words stack.old) }
    ensures err { OnErr result (stack.new ≡ stack.old) }
{
    if words == 0 {
        return stack.push(word);
    }
    stack.replace(words, word);
    Ok(())
}

/// What a read gives: the next byte, or -1 at the end; `None` where neither is known.
fn next_input(fed: Option<u8>, closed: bool) -> Option<i32>
    ensures { result ≡ input_read fed closed }
{
    match fed {
        Some(byte) => Some(i32::from(byte)),
        None => { if closed { Some(-1) } else { None } }
    }
}

/// `read`: a byte of the input, or -1 at its end, where it is `closed`; where the next byte is not known yet, the run waits for it.
pub fn read<T: Tag>(
    machine: &mut Machine<T>,
    program: &Program<T>,
    words: usize,
    closed: bool,
) -> Result<Turn, AllocError>
    requires framed { machine.old.framed ≡ true }
    requires running { machine.old.ending ≡ Ending.Running }
    requires room { machine.old.top.next < usize.MAX }
    requires there { words ≤ length machine.old.top.stack }
    ensures ok { IfOk result (λ turn. (w : World T) (more : List ℕ) (n : ℕ) → Links T.none_of w program.now → Behind closed more
        → Answers w machine.old machine.new more turn (native_at T.none_of T.join_of w machine.old more natives.Read n words)) }
    ensures rests { IfOk result (λ turn. Rests closed machine.old machine.new turn) }
    ensures err { OnErr result (machine.new ≡ machine.old) }
{
    let Some(value) = next_input(machine.fed, closed) else {
        return Ok(Turn::Wants);
    };
    put_for(&mut machine.top.stack, words, Word::num(value, T::none()))?;
    machine.top.next += 1;
    machine.fed = None;
    Ok(Turn::Went)
}

/// `write`: the lowest byte of an int goes to the console.
pub fn write<T: Tag>(machine: &mut Machine<T>, words: usize) -> Result<(), AllocError>
    requires framed { machine.old.framed ≡ true }
    requires running { machine.old.ending ≡ Ending.Running }
    requires room { machine.old.top.next < usize.MAX }
    requires there { words ≤ length machine.old.top.stack }
    ensures ok { OnOk result ((w : World T) (more : List ℕ) (n : ℕ) → shown w machine.new more ≡ native_at T.none_of T.join_of w machine.old more natives.Write n words) }
    ensures err { OnErr result (machine.new ≡ machine.old) }
    ensures fed { machine.new.fed ≡ machine.old.fed }
{
    let Some((v, _)) = int_argument(&machine.top.stack, words, 0) else {
        stop(machine);
        return Ok(());
    };
    machine.console.push(lowest_byte(v))?;
    machine.top.stack.drop_tops(words);
    machine.top.next += 1;
    Ok(())
}

/// `exit`: the run ends.
pub fn exit<T: Tag>(machine: &mut Machine<T>, words: usize)
    requires there { words ≤ length machine.old.top.stack }
    ensures ok { (w : World T) (more : List ℕ) (n : ℕ) → shown w machine.new more ≡ native_at T.none_of T.join_of w machine.old more natives.Exit n words }
    ensures fed { machine.new.fed ≡ machine.old.fed }
{
    let Some((status, _)) = int_argument(&machine.top.stack, words, 0) else {
        stop(machine);
        return;
    };
    machine.framed = false;
    machine.ending = Ending::Exit(status);
}

/// `tag`: a report of three ints.
pub fn report<T: Tag>(machine: &mut Machine<T>, words: usize) -> Result<(), AllocError>
    requires framed { machine.old.framed ≡ true }
    requires running { machine.old.ending ≡ Ending.Running }
    requires room { machine.old.top.next < usize.MAX }
    requires there { words ≤ length machine.old.top.stack }
    ensures ok { OnOk result ((w : World T) (more : List ℕ) (n : ℕ) → shown w machine.new more ≡ native_at T.none_of T.join_of w machine.old more natives.Report n words) }
    ensures err { OnErr result (machine.new ≡ machine.old) }
    ensures fed { machine.new.fed ≡ machine.old.fed }
{
    let Some((sink, _)) = int_argument(&machine.top.stack, words, 0) else {
        stop(machine);
        return Ok(());
    };
    let Some((argument, _)) = int_argument(&machine.top.stack, words, 1) else {
        stop(machine);
        return Ok(());
    };
    let Some((tag, _)) = int_argument(&machine.top.stack, words, 2) else {
        stop(machine);
        return Ok(());
    };
    machine.reports.push(Report {
        sink,
        argument,
        tag,
    })?;
    machine.top.stack.drop_tops(words);
    machine.top.next += 1;
    Ok(())
}
