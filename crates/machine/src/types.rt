//! Type tests (JVMS 6.5, checkcast and instanceof).

ghost use Rattle.std.specs.Prelude.{◌≡◌, ◌<◌};
ghost use Rattle.machine.specs.Acted.{Acts, Stays};
ghost use Rattle.machine.specs.Referred.{refers_by};

use crate::catching::is_among;
use crate::operands::{Held, holding};
use crate::state::Areas;
use linked_code::{Op, Program};
use machine_frames::{Fault, Flow, Frame};
use machine_heap::Heap;
use machine_words::{Tag, Word};

/// Whether what a word holds is of the type of a number; `null` is the answer where it is no item.
pub fn refers<T: Tag>(program: &Program<T>, heap: &Heap<T>, ty: u32, null: bool, held: Held) -> bool
    ensures { result ≡ refers_by program.now heap.now ty null held }
{
    let Held::Item(place) = held else {
        return null;
    };
    match heap.item(place) {
        Some(item) => is_among(program.ty(item.ty).fits.as_slice(), ty),
        None => null,
    }
}

/// Lets a reference of a type pass, and null.
#[tactic(auto, using(crate::proofs::TypeRows::cast_of_nothing, crate::proofs::TypeRows::cast_refused, crate::proofs::TypeRows::cast))]
pub fn check_cast<T: Tag>(
    program: &Program<T>,
    frame: &mut Frame<T>,
    areas: &Areas<T>,
    ty: u32,
) -> Flow
    requires { frame.old.next < usize.MAX }
    ensures ok { Acts T.none_of T.join_of program.now (Op.CheckCast ty) frame.old areas.now result frame.new areas.now }
    ensures kept { Stays result frame.old areas.now frame.new areas.now }
{
    let held = holding(frame.stack.peek(0));
    if let Held::Nothing = held {
        return Flow::Stuck;
    }
    if !refers(program, &areas.heap, ty, true, held) {
        return Flow::Throws(Fault::ClassCast);
    }
    frame.next += 1;
    Flow::Next
}

/// Puts 1 in the place of a reference to an item of a type, and 0 in that of any other.
#[tactic(auto, using(crate::proofs::TypeRows::question_of_nothing, crate::proofs::TypeRows::question))]
pub fn instance_of<T: Tag>(
    program: &Program<T>,
    frame: &mut Frame<T>,
    areas: &Areas<T>,
    ty: u32,
) -> Flow
    requires { frame.old.next < usize.MAX }
    ensures ok { Acts T.none_of T.join_of program.now (Op.InstanceOf ty) frame.old areas.now result frame.new areas.now }
    ensures kept { Stays result frame.old areas.now frame.new areas.now }
{
    let held = holding(frame.stack.peek(0));
    if let Held::Nothing = held {
        return Flow::Stuck;
    }
    let is = i32::from(refers(program, &areas.heap, ty, false, held));
    frame.stack.replace(1, Word::num(is, T::none()));
    frame.next += 1;
    Flow::Next
}
