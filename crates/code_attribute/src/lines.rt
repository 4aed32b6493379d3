//! The rows of line numbers of a method's code.

ghost use Rattle.std.specs.Prelude.{◌≡◌, ◌++◌, ◌≤◌, IfOk, OnOk, length};
ghost use Rattle.class_input.specs.Reading.{Gives, seen};
ghost use Rattle.class_attributes.specs.AttributeReading.{content};
ghost use Rattle.code_attribute.specs.CodeContentReading as reading;

use class_attributes::twice;
use class_input::{BadClass, Input};
use code_tables::read_lines;
use insn_code::Starts;
use lists::Seq;
use std::alloc::{AllocError, Global};

/// Numbers of instructions with numbers of lines.
pub type Lines = Seq<(u32, u16)>;

fn join(lines: &mut Lines, more: &Lines) -> Result<(), AllocError>
    ensures { OnOk result (lines.new ≡ lines.old ++ more.now) }
{
    for row in more.as_slice() {
        lines.push(*row)?;
    }
    Ok(())
}

/// The rows of one LineNumberTable more, from its count on, behind others.
#[tactic(auto, unfolding(crate::specs::CodeContentReading::more_rows, class_names::specs::Steps::table))]
fn more_rows(
    alloc: Global,
    starts: &Starts,
    lines: Lines,
    input: &mut Input,
) -> Result<Lines, BadClass>
    ensures { Gives result input.new (reading.more_rows starts.now lines (seen input.old)) }
{
    let place = input.at;
    let mut ahead = *input;
    let count = usize::from(ahead.u16()?);
    if lines.len() + count > 65_535 {
        return Err(twice(place));
    }
    let more = read_lines(alloc, starts, input)?;
    let mut lines = lines;
    join(&mut lines, &more)?;
    Ok(lines)
}

/// The rows of one LineNumberTable more, behind the index of its name.
#[tactic(auto, unfolding(class_attributes::specs::AttributeReading::content, class_input::specs::Reading::within))]
pub fn line_content(
    alloc: Global,
    starts: &Starts,
    lines: Lines,
    input: &mut Input,
) -> Result<Lines, BadClass>
    ensures { Gives result input.new (content (reading.more_rows starts.now lines) (seen input.old)) }
{
    let len = input.u32()? as usize;
    let mut inner = input.part(len);
    let lines = more_rows(alloc, starts, lines, &mut inner)?;
    input.close(len, inner)?;
    Ok(lines)
}
