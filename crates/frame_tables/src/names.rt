//! What the numbers of a frame name.

ghost use Rattle.std.specs.Prelude.{◌≡◌, ◌≤◌, IfOk};
ghost use Rattle.class_input.specs.Reading.{Answers};
ghost use Rattle.frame_tables.specs.FrameReading as reading;

use class_input::{BadClass, BadKind};
use class_model::Insn;
use insn_code::Starts;
use lists::Seq;

/// The instructions of code, with the offsets at which they begin.
pub type Code = (Seq<Insn>, Starts);

fn bad(place: usize, kind: BadKind) -> BadClass
    ensures { result ≡ BadClass.Bad place kind }
{
    BadClass::Bad { place, kind }
}

/// The number of the instruction at the offset of a frame.
pub fn frame_start(code: &Code, place: usize, offset: u32) -> Result<u32, BadClass>
    ensures start { Answers (λ number. number) result (reading.frame_start code.now place offset) }
    ensures small { IfOk result (λ number. offset ≤ 65535) }
{
    if offset > 65_535 {
        return Err(bad(place, BadKind::Frame(0)));
    }
    code.1
        .number(i64::from(offset))
        .ok_or(bad(place, BadKind::Target))
}

/// The number of the `new` at an offset.
fn new_number(code: &Code, offset: u16) -> Option<u32>
    ensures { result ≡ reading.new_number code.now offset }
{
    let number = code.1.number(i64::from(offset))?;
    match code.0.get(number as usize) {
        Some(Insn::New(_)) => Some(number),
        _ => None,
    }
}

/// The number of the `new` at an offset that stands at a place.
pub fn new_at(code: &Code, place: usize, offset: u16) -> Result<u32, BadClass>
    ensures { Answers (λ number. number) result (reading.new_at code.now place offset) }
{
    new_number(code, offset).ok_or(bad(place, BadKind::Target))
}
