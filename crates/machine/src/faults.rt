//! What the machine itself throws.

ghost use Rattle.std.specs.Prelude.{◌≡◌, List, ℕ, true, OnOk, OnErr, IfOk};
ghost use Rattle.linked_code.specs.World.{World};
ghost use Rattle.linked_code.specs.Links.{Links, class_of_fault};
ghost use Rattle.machine.specs.Shown.{shown};
ghost use Rattle.machine.specs.Readied.{IsReady};
ghost use Rattle.machine.specs.Unwound.{fault_at};

use crate::state::{Ending, Machine};
use crate::unwinding::unwind;
use linked_code::{FaultClasses, Program};
use lists::Seq;
use machine_frames::Fault;
use machine_heap::Item;
use machine_words::{Stack, Tag, Word};
use std::alloc::{AllocError, Global};

/// The number of the class of a fault.
fn class_of(classes: &FaultClasses, fault: Fault) -> u32
    ensures { result ≡ class_of_fault classes.now fault }
{
    match fault {
        Fault::Arithmetic => classes.arithmetic,
        Fault::NullPointer => classes.null_pointer,
        Fault::IncompatibleChange => classes.incompatible_change,
        Fault::NegativeSize => classes.negative_size,
        Fault::ClassCast => classes.class_cast,
        Fault::ArrayIndex => classes.array_index,
        Fault::ArrayStore => classes.array_store,
    }
}

/// A copy of these words.
pub fn copied<T: Tag>(alloc: Global, words: &[Word<T>]) -> Result<Seq<Word<T>>, AllocError>
    ensures { IfOk result (λ s. s ≡ words.now) }
{
    let mut copy = Vec::with_capacity(alloc, words.len())?;
    for word in words {
        copy.push(*word)?;
    }
    Ok(Seq::from_vec(copy))
}

/// A fault that is ready to be thrown: its class, the place of the fresh object, and a stack of that alone.
#[derive(Drop)]
pub struct Ready<T> {
    pub class: u32,
    pub place: u64,
    pub landing: Stack<T>,
}

/// Makes the object of a fault, by no constructor. A refusal leaves the machine as it was.
pub fn ready_fault<T: Tag>(
    machine: &mut Machine<T>,
    program: &Program<T>,
    fault: Fault,
) -> Result<Ready<T>, AllocError>
    ensures ok { IfOk result (λ ready. IsReady T.none_of program.now fault machine.old machine.new ready) }
    ensures err { OnErr result (machine.new ≡ machine.old) }
{
    let number = class_of(&program.faults, fault);
    let class = program.class(number);
    let place = machine.areas.heap.len();
    let mut landing = Stack::new(machine.alloc);
    landing.push(Word::reference(place))?;
    let item = Item {
        ty: class.ty,
        own: T::none(),
        cells: copied(machine.alloc, class.fresh.as_slice())?,
    };
    machine.areas.heap.add(item)?;
    Ok(Ready {
        class: number,
        place,
        landing,
    })
}

/// The machine throws at the top frame's instruction: a fresh object. A refusal leaves the machine as it was.
pub fn raise<T: Tag>(
    machine: &mut Machine<T>,
    program: &Program<T>,
    fault: Fault,
) -> Result<(), AllocError>
    requires framed { machine.old.framed ≡ true }
    requires running { machine.old.ending ≡ Ending.Running }
    ensures ok { OnOk result ((w : World T) (more : List ℕ) → Links T.none_of w program.now → shown w machine.new more ≡ fault_at T.none_of T.join_of w fault machine.old more) }
    ensures err { OnErr result (machine.new ≡ machine.old) }
    ensures fed { machine.new.fed ≡ machine.old.fed }
{
    let ready = ready_fault(machine, program, fault)?;
    unwind(machine, program, ready.class, ready.place, ready.landing);
    Ok(())
}
