//! The content of a StackMapTable.

ghost use Rattle.std.specs.Prelude.{◌≡◌, ◌+◌, ◌++◌, ◌≤◌, ℕ, List, length, IfOk, MatchResult};
ghost use Rattle.class_input.specs.declared.bad_class.BadClass.TheVariants.{Memory};
ghost use Rattle.class_input.specs.Grammar.{IsBytes};
ghost use Rattle.class_input.specs.Reading.{Answers, Gives, seen};
ghost use Rattle.class_model.specs.declared.class.Frame as model;
ghost use Rattle.stack_maps.specs.Reading.{decoded, marked};
ghost use Rattle.frame_tables.specs.FrameTable as grammar;
ghost use Rattle.frame_tables.specs.FrameTable.{AreFrames};
ghost use Rattle.frame_tables.specs.FrameReading as reading;

use crate::full::frames;
use crate::marks::{judge_marks, placed};
use crate::names::Code;
use class_input::{BadClass, BadKind, Input};
use class_model::{Frame, VType};
use class_names::NamedPool;
use lists::Seq;
use stack_maps::{FrameMark, FrameStop, RawFrame, RawType, decode_frames, frame_marks};
use std::alloc::Global;

/// What a slice holds are bytes.
fn are_bytes(text: &[u8])
    ensures { IsBytes text.now }
{
    let _text = text;
}

/// The entries of the first frame by their numbers. No descriptor has so many parameters that a number would pass
/// 65,535: its text has at most 65,535 bytes.
#[tactic(auto, using(crate::proofs::Loops::numbers_go_on, crate::proofs::Loops::numbers_are_done))]
fn numbered(alloc: Global, first: &[VType]) -> Result<Seq<RawType>, BadClass>
    ensures { MatchResult result (λ types. types ≡ grammar.numbered 0 first.now) (λ stop. stop ≡ Memory) }
{
    let mut types = Seq::new(alloc);
    for (number, _) in first.iter().enumerate() {
        match u16::try_from(number) {
            Ok(number) => types.push(RawType::First(number))?,
            Err(_) => return Err(BadClass::Memory),
        }
    }
    Ok(types)
}

fn refusal(start: usize, place: usize, kind: BadKind) -> BadClass
    ensures { reading.Told result (start + place) kind }
{
    match placed(start, place) {
        Ok(place) => BadClass::Bad { place, kind },
        Err(stop) => stop,
    }
}

/// The refusal of a table that begins at a place of the file.
fn refused(start: usize, stop: FrameStop) -> BadClass
    ensures { reading.TellsStop result start stop }
{
    match stop {
        FrameStop::Short(place) => refusal(start, place, BadKind::Short),
        FrameStop::Reserved(place, byte) | FrameStop::BadTag(place, byte) => {
            refusal(start, place, BadKind::Frame(byte))
        }
        FrameStop::Underflow(place) | FrameStop::Offset(place) => {
            refusal(start, place, BadKind::Frame(0))
        }
        FrameStop::Memory => BadClass::Memory,
    }
}

/// The marks of the table that bytes begin with, which stand at a place of the file, and how many bytes it takes.
#[tactic(auto, using(crate::proofs::ShapeLaws::stop_told, crate::proofs::ShapeLaws::taken_fits))]
fn shape(
    alloc: Global,
    start: usize,
    bytes: &[u8],
    first: &[RawType],
) -> Result<(Seq<FrameMark>, usize), BadClass>
    ensures marks { Answers (λ read. read) result (reading.placed start (marked (length first.now) bytes.now)) }
    ensures taken { IfOk result (λ read. read.1 ≤ length bytes.now) }
{
    match frame_marks(alloc, bytes, first) {
        Ok(read) => Ok(read),
        Err(stop) => Err(refused(start, stop)),
    }
}

/// The frames of the table that bytes begin with, which stand at a place of the file, expanded in full.
#[tactic(auto, using(crate::proofs::ShapeLaws::stop_told))]
fn expanded(
    alloc: Global,
    start: usize,
    bytes: &[u8],
    first: &[RawType],
) -> Result<Seq<RawFrame>, BadClass>
    ensures { Answers (λ frames. frames) result (reading.placed start (decoded first.now bytes.now)) }
{
    match decode_frames(alloc, bytes, first) {
        Ok(frames) => Ok(frames),
        Err(stop) => Err(refused(start, stop)),
    }
}

#[tactic(auto, unfolding(crate::specs::FrameReading::frames, crate::specs::FrameReading::frames_in_full))]
fn table(
    alloc: Global,
    pool: &NamedPool,
    code: &Code,
    first: &Seq<VType>,
    input: &mut Input,
) -> Result<Seq<(u32, Frame)>, BadClass>
    ensures { Gives result input.new (reading.frames pool.now code.now first.now (seen input.old)) }
{
    let start = input.at;
    let bytes = input.rest;
    let entries = numbered(alloc, first.as_slice())?;
    let (marks, taken) = shape(alloc, start, bytes, entries.as_slice())?;
    judge_marks(pool, code, start, marks.as_slice())?;
    let raw = expanded(alloc, start, bytes, entries.as_slice())?;
    let frames = frames(alloc, pool, code, first.as_slice(), start, raw.as_slice())?;
    input.skip(taken);
    Ok(frames)
}

/// The content of a StackMapTable of code (JVMS 4.7.4), from its count on, by the locals of the first frame. It is read
/// whatever the version of the class file.
///
/// All frames have their shape first: `Short`, or `Frame` with the type byte or the tag that is reserved or left out, or
/// with 0 for a frame that chops more locals than there are. Then the deltas, the class indices and the offsets of `new`
/// are judged in the order of the bytes: `Frame` with 0 for a delta that brings an offset past 65,535, `Target` for an
/// offset that begins no instruction, or no `new`, and what `class_type_at` refuses.
pub fn read_frames(
    alloc: Global,
    pool: &NamedPool,
    code: &Code,
    first: &Seq<VType>,
    input: &mut Input,
) -> Result<Seq<(u32, Frame)>, BadClass>
    // What is read is what the bytes are.
    ensures found { IfOk result (λ frames. (text : List ℕ) × (input.old.rest.now ≡ text ++ input.new.rest.now) × AreFrames pool.now code.now first.now text frames) }
    // What the bytes are is read, unless memory runs out.
    ensures only { (text rest : List ℕ) (frames : List (ℕ × model.Frame)) → input.old.rest.now ≡ text ++ rest → AreFrames pool.now code.now first.now text frames → MatchResult result (λ read. read ≡ frames) (λ stop. stop ≡ Memory) }
    // Where the first bad place is, and of which kind.
    ensures exact { Gives result input.new (reading.frames pool.now code.now first.now (seen input.old)) }
{
    are_bytes(input.rest);
    table(alloc, pool, code, first, input)
}
