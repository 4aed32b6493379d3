//! Reading the bytes of a table.

ghost use Rattle.std.specs.Prelude.{◌≡◌, ◌<◌, ◌^◌, ◌++◌, List, ℕ, Ok, length, IfOk};
ghost use Rattle.class_input.specs.Reading.{seen};
ghost use Rattle.stack_maps.specs.declared.written.Written as frame;
ghost use Rattle.stack_maps.specs.Grammar.{IsTable};
ghost use Rattle.stack_maps.specs.Expand.{expanded};
ghost use Rattle.stack_maps.specs.Marks.{table_marks};
ghost use Rattle.stack_maps.specs.Reading as reading;
ghost use Rattle.stack_maps.specs.Reading.{Answers};
ghost use Rattle.stack_maps.specs.Table.{StandsFor, HasMarks};

use crate::expand::expand;
use crate::frame::{RawFrame, RawType};
use crate::frame_stop::FrameStop;
use crate::marks::{FrameMark, marks_of};
use crate::written::table;
use class_input::Input;
use lists::Seq;
use std::alloc::Global;

#[tactic(auto, unfolding(crate::specs::Reading::decoded))]
fn read_frames(alloc: Global, bytes: &[u8], first: &[RawType]) -> Result<Seq<RawFrame>, FrameStop>
    ensures { Answers result (reading.decoded first.now bytes.now) }
{
    let mut input = Input::new(bytes);
    let written = table(alloc, first.len(), &mut input)?;
    expand(alloc, first, &written)
}

#[tactic(auto, unfolding(crate::specs::Reading::marked))]
fn read_marks(
    alloc: Global,
    bytes: &[u8],
    known: usize,
) -> Result<(Seq<FrameMark>, usize), FrameStop>
    requires { known < 2 ^ 63 }
    ensures { Answers result (reading.marked known bytes.now) }
{
    let mut input = Input::new(bytes);
    let written = table(alloc, known, &mut input)?;
    let marks = marks_of(alloc, &written)?;
    Ok((marks, input.at))
}

/// Reads the table that bytes begin with, from number_of_entries on, and expands all its frames in full; `first` has the
/// locals of the first frame, from which they are expanded. Bytes after the last frame are passed over.
///
/// A refusal holds the first bad place, as an offset in the bytes: `Offset` is judged after all frames have their shape,
/// in frame order, and the others as the bytes are read.
///
/// Nothing is reserved by a count, and the locals of each frame are copied once. Yet a hostile table of 65,535 append
/// frames, of less than 400,000 bytes, expands to more than six thousand million types: only memory bounds that.
pub fn decode_frames(
    alloc: Global,
    bytes: &[u8],
    first: &[RawType],
) -> Result<Seq<RawFrame>, FrameStop>
    ensures found { IfOk result (λ frames. StandsFor first.now bytes.now frames) }
    ensures only { (text rest : List ℕ) (written : List frame.Written) → IsTable (length first.now) 0 text written → bytes.now ≡ text ++ rest → Answers result (expanded 0 first.now written) }
    ensures exact { Answers result (reading.decoded first.now bytes.now) }
{
    read_frames(alloc, bytes, first)
}

/// Every offset delta, class index and offset of a `new` instruction of the table that bytes begin with, in the order of
/// the bytes, and how many bytes the table takes. Refuses as `decode_frames` does, but no offset: the sum of deltas is
/// left to the caller.
pub fn frame_marks(
    alloc: Global,
    bytes: &[u8],
    first: &[RawType],
) -> Result<(Seq<FrameMark>, usize), FrameStop>
    ensures found { IfOk result (λ read. HasMarks (length first.now) bytes.now read.0 read.1) }
    ensures only { (text rest : List ℕ) (written : List frame.Written) → IsTable (length first.now) 0 text written → bytes.now ≡ text ++ rest → Answers result (Ok (table_marks 0 written, length text)) }
    ensures exact { Answers result (reading.marked (length first.now) bytes.now) }
{
    read_marks(alloc, bytes, first.len())
}
