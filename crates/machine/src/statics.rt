//! Static fields (JVMS 6.5, getstatic and putstatic), once their class has begun.

ghost use Rattle.std.specs.Prelude.{◌≡◌, ◌<◌, OnErr, IfOk};
ghost use Rattle.linked_code.specs.declared.program.Program.{Program as AProgram};
ghost use Rattle.machine.specs.Acted.{Acts, Stays};

use crate::state::Areas;
use crate::values::{kind_at, narrowed, words_of};
use class_model::Kind;
use linked_code::{Narrowing, Op};
use machine_frames::{Flow, Frame};
use machine_words::Tag;
use std::alloc::AllocError;

/// Pushes the value of a static field of a class. A refusal leaves the frame as it was.
#[tactic(auto, using(crate::proofs::StaticRows::read_none, crate::proofs::StaticRows::read))]
pub fn get_static<T: Tag>(
    frame: &mut Frame<T>,
    areas: &Areas<T>,
    class: u32,
    place: u32,
) -> Result<Flow, AllocError>
    requires { frame.old.next < usize.MAX }
    ensures ok { IfOk result (λ flow. (p : AProgram T) → Acts T.none_of T.join_of p (Op.GetStatic class place) frame.old areas.now flow frame.new areas.now) }
    ensures kept { IfOk result (λ flow. Stays flow frame.old areas.now frame.new areas.now) }
    ensures err { OnErr result (frame.new ≡ frame.old) }
{
    let Some(value) = areas.statics.get(place as usize) else {
        return Ok(Flow::Stuck);
    };
    frame.stack.push_value(value)?;
    frame.next += 1;
    Ok(Flow::Next)
}

/// Writes the topmost value, which is of a kind, into a static field of a class.
#[tactic(auto, using(crate::proofs::StaticRows::write_none, crate::proofs::StaticRows::write))]
pub fn put_static<T: Tag>(
    frame: &mut Frame<T>,
    areas: &mut Areas<T>,
    class: u32,
    place: u32,
    kind: Kind,
    narrowing: Narrowing,
) -> Flow
    requires { frame.old.next < usize.MAX }
    ensures ok { (p : AProgram T) → Acts T.none_of T.join_of p (Op.PutStatic class place kind narrowing) frame.old areas.old result frame.new areas.new }
    ensures kept { Stays result frame.old areas.old frame.new areas.new }
{
    let Some(value) = kind_at(&frame.stack, kind) else {
        return Flow::Stuck;
    };
    frame.stack.drop_tops(words_of(kind));
    areas
        .statics
        .set(place as usize, narrowed(narrowing, value));
    frame.next += 1;
    Flow::Next
}
