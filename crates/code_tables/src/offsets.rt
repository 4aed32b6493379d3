//! Offsets into code, by the numbers of instructions.

ghost use Rattle.std.specs.Prelude.{◌≡◌};
ghost use Rattle.class_input.specs.Grammar.{IsBytes};
ghost use Rattle.class_input.specs.Reading.{Answers, Gives, seen};
ghost use Rattle.class_names.specs.Steps.{at_index};
ghost use Rattle.code_tables.specs.CodeTables as grammar;
ghost use Rattle.code_tables.specs.TableReading as reading;

use class_input::{BadClass, BadKind, Input};
use insn_code::Starts;

/// What a slice holds are bytes.
pub(crate) fn are_bytes(text: &[u8])
    ensures { IsBytes text.now }
{
    let _text = text;
}

fn bad_target(place: usize) -> BadClass
    ensures { result ≡ BadClass.Bad place BadKind.Target }
{
    BadClass::Bad {
        place,
        kind: BadKind::Target,
    }
}

/// The number of the instruction at the offset that comes next.
#[tactic(auto, unfolding(class_names::specs::Steps::at_index))]
pub(crate) fn next_start(starts: &Starts, input: &mut Input) -> Result<u32, BadClass>
    ensures { Gives result input.new (at_index (reading.start_at starts.now) (seen input.old)) }
{
    let place = input.at;
    let offset = input.u16()?;
    starts.number(i64::from(offset)).ok_or(bad_target(place))
}

/// The number behind the last instruction before an offset, which may be the length of the code.
fn end_number(starts: &Starts, offset: u16) -> Option<u32>
    ensures { result ≡ grammar.end_number starts.now offset }
{
    if usize::from(offset) == starts.size() {
        Some(starts.count())
    } else {
        starts.number(i64::from(offset))
    }
}

/// An end behind a start, by an offset that stands at a place.
#[tactic(auto, unfolding(crate::specs::TableReading::end_at))]
fn end_at(starts: &Starts, start: u32, place: usize, offset: u16) -> Result<u32, BadClass>
    ensures { Answers (λ end. end) result (reading.end_at starts.now start place offset) }
{
    let end = end_number(starts, offset).ok_or(bad_target(place))?;
    if start < end {
        Ok(end)
    } else {
        Err(bad_target(place))
    }
}

/// The number behind the last instruction before the offset that comes next.
#[tactic(auto, unfolding(class_names::specs::Steps::at_index))]
pub(crate) fn next_end(starts: &Starts, start: u32, input: &mut Input) -> Result<u32, BadClass>
    ensures { Gives result input.new (at_index (reading.end_at starts.now start) (seen input.old)) }
{
    let place = input.at;
    let offset = input.u16()?;
    end_at(starts, start, place, offset)
}
