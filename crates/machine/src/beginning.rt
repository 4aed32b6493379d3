//! The beginning of classes (JVMS 5.5).

ghost use Rattle.std.specs.Prelude.{◌≡◌, ◌≢◌, [], List, ℕ, true, false, IfOk, OnOk, OnErr};
ghost use Rattle.machine.specs.Beginning as beginning;
ghost use Rattle.machine.specs.Stacked.{Begins, BeginsWith};

use crate::begun::Begun;
use crate::callers::Callers;
use crate::calls::blank_frame;
use crate::state::Machine;
use linked_code::{Op, Program};
use lists::Seq;
use machine_frames::Frame;
use machine_words::Tag;
use std::alloc::{AllocError, Global};

/// The class that an instruction needs begun: new needs its class, getstatic and putstatic the one that declares the field,
/// invokestatic the one that declares the method.
pub fn needed<T: Tag>(program: &Program<T>, op: Op) -> Option<u32>
    ensures { result ≡ beginning.needed_by program.now op }
{
    match op {
        Op::InvokeStatic(number) => Some(program.method(number).class),
        Op::New(class) => Some(class),
        Op::GetStatic(class, _) => Some(class),
        Op::GetText(class, _) => Some(class),
        Op::PutStatic(class, _, _, _) => Some(class),
        _ => None,
    }
}

fn has_begun(begun: &Begun, class: Option<u32>) -> bool
    ensures { result ≡ beginning.has_begun begun.now class }
{
    match class {
        None => true,
        Some(class) => begun.contains(class),
    }
}

/// Those of the initializers whose classes have not begun. Takes no memory where there is none.
fn waiting<T: Tag>(
    alloc: Global,
    program: &Program<T>,
    begun: &Begun,
    starts: &[u32],
) -> Result<Seq<u32>, AllocError>
    ensures { IfOk result (λ ns. ns ≡ beginning.waiting program.now begun.now starts.now) }
{
    let mut waiting = Seq::new(alloc);
    for number in starts {
        if !has_begun(begun, program.method(*number).begins) {
            waiting.push(*number)?;
        }
    }
    Ok(waiting)
}

/// The frames of these initializers, the last of them first.
#[tactic(auto, using(crate::proofs::Laying::blanks_over))]
fn blank_frames<T: Tag>(
    alloc: Global,
    program: &Program<T>,
    numbers: &[u32],
) -> Result<Vec<Frame<T>>, AllocError>
    ensures { IfOk result (λ fs. fs.items ≡ beginning.with_blanks program.now numbers.now []) }
{
    let mut frames = Vec::with_capacity(alloc, numbers.len())?;
    for behind in 0..numbers.len() {
        let number = numbers[numbers.len() - 1 - behind];
        let method = program.method(number);
        let frame = blank_frame(alloc, number, method.locals as usize, method.room)?;
        frames.push(frame)?;
    }
    Ok(frames)
}

/// The classes of these initializers.
fn classes_of<T: Tag>(
    alloc: Global,
    program: &Program<T>,
    numbers: &[u32],
) -> Result<Seq<u32>, AllocError>
    ensures { IfOk result (λ cs. cs ≡ beginning.with_classes program.now numbers.now []) }
{
    let mut classes = Seq::new(alloc);
    for number in numbers {
        if let Some(class) = program.method(*number).begins {
            classes.push(class)?;
        }
    }
    Ok(classes)
}

/// Puts frames above the top one, and marks classes.
fn begin_above<T: Tag>(
    machine: &mut Machine<T>,
    frames: Vec<Frame<T>>,
    classes: &[u32],
) -> Result<(), AllocError>
    requires framed { machine.old.framed ≡ true }
    ensures ok { OnOk result (BeginsWith machine.old machine.new frames.items classes.now) }
    ensures err { OnErr result (machine.new ≡ machine.old) }
    ensures fed { machine.new.fed ≡ machine.old.fed }
{
    let count = frames.len();
    machine.below.lay(&mut machine.top, frames)?;
    if let Err(refused) = machine.begun.mark_all(classes) {
        machine.below.take_off(&mut machine.top, count);
        return Err(refused);
    }
    Ok(())
}

/// The same where there is no top frame.
fn begin_first<T: Tag>(
    machine: &mut Machine<T>,
    frames: Vec<Frame<T>>,
    classes: &[u32],
) -> Result<(), AllocError>
    requires unframed { machine.old.framed ≡ false }
    requires some { frames.items ≢ [] }
    ensures ok { OnOk result (BeginsWith machine.old machine.new frames.items classes.now) }
    ensures err { OnErr result (machine.new ≡ machine.old) }
    ensures fed { machine.new.fed ≡ machine.old.fed }
{
    let mut frames = frames;
    let Some(mut top) = frames.pop() else {
        return Ok(());
    };
    let mut below = Callers::new(machine.alloc);
    below.lay(&mut top, frames)?;
    machine.begun.mark_all(classes)?;
    machine.top = top;
    machine.below = below;
    machine.framed = true;
    Ok(())
}

/// Puts frames on top, and marks classes.
fn begin_with<T: Tag>(
    machine: &mut Machine<T>,
    frames: Vec<Frame<T>>,
    classes: &[u32],
) -> Result<(), AllocError>
    requires some { frames.items ≢ [] }
    ensures ok { OnOk result (BeginsWith machine.old machine.new frames.items classes.now) }
    ensures err { OnErr result (machine.new ≡ machine.old) }
    ensures fed { machine.new.fed ≡ machine.old.fed }
{
    if machine.framed {
        begin_above(machine, frames, classes)
    } else {
        begin_first(machine, frames, classes)
    }
}

/// Begins those of the classes of these initializers that have not begun: their frames go on top, and what needed them is tried
/// again when they have returned. Answers whether there was one. A refusal leaves the machine as it was.
pub fn begin<T: Tag>(
    machine: &mut Machine<T>,
    program: &Program<T>,
    starts: &[u32],
) -> Result<bool, AllocError>
    ensures ok { IfOk result (λ begins. Begins program.now starts.now machine.old begins machine.new) }
    ensures err { OnErr result (machine.new ≡ machine.old) }
    ensures fed { machine.new.fed ≡ machine.old.fed }
{
    let waiting = waiting(machine.alloc, program, &machine.begun, starts)?;
    if waiting.is_empty() {
        return Ok(false);
    }
    let frames = blank_frames(machine.alloc, program, waiting.as_slice())?;
    let classes = classes_of(machine.alloc, program, waiting.as_slice())?;
    begin_with(machine, frames, classes.as_slice())?;
    Ok(true)
}
