//! Line numbers.

ghost use Rattle.std.specs.Prelude.{◌≡◌, ◌++◌, ℕ, List, IfOk, MatchResult};
ghost use Rattle.class_input.specs.declared.bad_class.BadClass.TheVariants.{Memory};
ghost use Rattle.class_input.specs.Reading.{Gives, many, seen};
ghost use Rattle.code_tables.specs.CodeTables.{AreLines};
ghost use Rattle.code_tables.specs.TableReading as reading;

use crate::offsets::{are_bytes, next_start};
use class_input::{BadClass, Input};
use insn_code::Starts;
use lists::Seq;
use std::alloc::Global;

#[tactic(auto, unfolding(crate::specs::TableReading::line))]
fn line(starts: &Starts, input: &mut Input) -> Result<(u32, u16), BadClass>
    ensures { Gives result input.new (reading.line starts.now (seen input.old)) }
{
    let start = next_start(starts, input)?;
    let line = input.u16()?;
    Ok((start, line))
}

#[tactic(auto, using(class_input::proofs::Loops::many_goes_on, class_input::proofs::Loops::many_ends, class_input::proofs::Loops::each_is_done))]
fn line_rows(
    alloc: Global,
    starts: &Starts,
    count: u16,
    input: &mut Input,
) -> Result<Seq<(u32, u16)>, BadClass>
    ensures { Gives result input.new (many count (reading.line starts.now) (seen input.old)) }
{
    let mut lines = Seq::new(alloc);
    for _ in 0..count {
        let line = line(starts, input)?;
        lines.push(line)?;
    }
    Ok(lines)
}

#[tactic(auto, unfolding(class_names::specs::Steps::table))]
fn line_table(
    alloc: Global,
    starts: &Starts,
    input: &mut Input,
) -> Result<Seq<(u32, u16)>, BadClass>
    ensures { Gives result input.new (reading.lines starts.now (seen input.old)) }
{
    let count = input.u16()?;
    line_rows(alloc, starts, count, input)
}

/// The content of a LineNumberTable (JVMS 4.7.12), from its count on. `Target` stands at the offset of a row that
/// names no instruction.
pub fn read_lines(
    alloc: Global,
    starts: &Starts,
    input: &mut Input,
) -> Result<Seq<(u32, u16)>, BadClass>
    // What is read is what the bytes are.
    ensures found { IfOk result (λ lines. (text : List ℕ) × (input.old.rest.now ≡ text ++ input.new.rest.now) × AreLines starts.now text lines) }
    // What the bytes are is read, unless memory runs out.
    ensures only { (text rest : List ℕ) (lines : List (ℕ × ℕ)) → input.old.rest.now ≡ text ++ rest → AreLines starts.now text lines → MatchResult result (λ read. read ≡ lines) (λ stop. stop ≡ Memory) }
    // Where the first bad place is, and of which kind.
    ensures exact { Gives result input.new (reading.lines starts.now (seen input.old)) }
{
    are_bytes(input.rest);
    line_table(alloc, starts, input)
}
