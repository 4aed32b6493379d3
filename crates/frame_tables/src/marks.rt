//! The deltas, class indices and offsets of `new` of a table, judged in the order of the bytes.

ghost use Rattle.std.specs.Prelude.{◌≡◌, ◌+◌, ◌≤◌, IfOk, MatchResult, ⊤};
ghost use Rattle.class_input.specs.declared.bad_class.BadClass.TheVariants.{Memory};
ghost use Rattle.class_input.specs.Reading.{Answers};
ghost use Rattle.frame_tables.specs.FrameReading as reading;

use crate::names::{Code, frame_start, new_at};
use class_input::BadClass;
use class_names::{NamedPool, class_type_at};
use stack_maps::{FrameMark, Mark};
use std::alloc::Global;

/// The place in the file of what stands at a place of a table. No file passes the memory that there is.
pub fn placed(start: usize, place: usize) -> Result<usize, BadClass>
    ensures { MatchResult result (λ at. at ≡ start + place) (λ stop. stop ≡ Memory) }
{
    match start.checked_add(place) {
        Some(at) => Ok(at),
        None => Err(BadClass::Memory),
    }
}

/// A mark of a table that begins at a place of the file, where the offset of the next frame is at least `next`; and what
/// it is at least behind the mark.
fn judge_mark(
    pool: &NamedPool,
    code: &Code,
    start: usize,
    next: u32,
    mark: &FrameMark,
) -> Result<u32, BadClass>
    requires { next ≤ 65536 }
    ensures judged { Answers (λ next. next) result (reading.mark_judged pool.now code.now (start + mark.now.place) next mark.now.mark) }
    ensures small { IfOk result (λ next. next ≤ 65536) }
{
    let place = placed(start, mark.place)?;
    match mark.mark {
        Mark::Delta(delta) => {
            let offset = next + u32::from(delta);
            frame_start(code, place, offset)?;
            Ok(offset + 1)
        }
        Mark::Object(index) => {
            class_type_at(pool, place, index)?;
            Ok(next)
        }
        Mark::Uninit(offset) => {
            new_at(code, place, offset)?;
            Ok(next)
        }
    }
}

/// The marks of a table that begins at a place of the file.
#[tactic(auto, using(crate::proofs::Loops::marks_go_on, crate::proofs::Loops::marks_end, crate::proofs::Loops::marks_are_done))]
pub fn judge_marks(
    pool: &NamedPool,
    code: &Code,
    start: usize,
    marks: &[FrameMark],
) -> Result<(), BadClass>
    ensures { Answers (λ _. tt) result (reading.marks_judged pool.now code.now start 0 marks.now) }
{
    let mut next = 0;
    for mark in marks {
        next = judge_mark(pool, code, start, next, mark)?;
    }
    Ok(())
}
