//! The exception table.

ghost use Rattle.std.specs.Prelude.{◌≡◌, ◌++◌, ℕ, List, IfOk, MatchResult};
ghost use Rattle.class_input.specs.declared.bad_class.BadClass.TheVariants.{Memory};
ghost use Rattle.class_input.specs.Reading.{Gives, many, seen};
ghost use Rattle.class_model.specs.declared.class.Handler.{Handler};
ghost use Rattle.code_tables.specs.CodeTables.{AreHandlers};
ghost use Rattle.code_tables.specs.TableReading as reading;

use crate::offsets::{are_bytes, next_end, next_start};
use class_input::{BadClass, Input};
use class_model::Handler;
use class_names::{NamedPool, next_optional_class_name};
use insn_code::Starts;
use lists::Seq;
use std::alloc::Global;

#[tactic(auto, unfolding(crate::specs::TableReading::handler))]
fn handler(pool: &NamedPool, starts: &Starts, input: &mut Input) -> Result<Handler, BadClass>
    ensures { Gives result input.new (reading.handler pool.now starts.now (seen input.old)) }
{
    let start = next_start(starts, input)?;
    let end = next_end(starts, start, input)?;
    let target = next_start(starts, input)?;
    let caught = next_optional_class_name(pool, input)?;
    Ok(Handler {
        start,
        end,
        target,
        caught,
    })
}

#[tactic(auto, using(class_input::proofs::Loops::many_goes_on, class_input::proofs::Loops::many_ends, class_input::proofs::Loops::each_is_done))]
fn handler_rows(
    alloc: Global,
    pool: &NamedPool,
    starts: &Starts,
    count: u16,
    input: &mut Input,
) -> Result<Seq<Handler>, BadClass>
    ensures { Gives result input.new (many count (reading.handler pool.now starts.now) (seen input.old)) }
{
    let mut handlers = Seq::new(alloc);
    for _ in 0..count {
        let handler = handler(pool, starts, input)?;
        handlers.push(handler)?;
    }
    Ok(handlers)
}

#[tactic(auto, unfolding(class_names::specs::Steps::table))]
fn handler_table(
    alloc: Global,
    pool: &NamedPool,
    starts: &Starts,
    input: &mut Input,
) -> Result<Seq<Handler>, BadClass>
    ensures { Gives result input.new (reading.handlers pool.now starts.now (seen input.old)) }
{
    let count = input.u16()?;
    handler_rows(alloc, pool, starts, count, input)
}

/// The exception table of code (JVMS 4.7.3), from its count on. `Target` stands at the field that names no
/// instruction, or at an end that is not behind its start; an end may be the length of the code.
pub fn read_handlers(
    alloc: Global,
    pool: &NamedPool,
    starts: &Starts,
    input: &mut Input,
) -> Result<Seq<Handler>, BadClass>
    // What is read is what the bytes are.
    ensures found { IfOk result (λ handlers. (text : List ℕ) × (input.old.rest.now ≡ text ++ input.new.rest.now) × AreHandlers pool.now starts.now text handlers) }
    // What the bytes are is read, unless memory runs out.
    ensures only { (text rest : List ℕ) (handlers : List Handler) → input.old.rest.now ≡ text ++ rest → AreHandlers pool.now starts.now text handlers → MatchResult result (λ read. read ≡ handlers) (λ stop. stop ≡ Memory) }
    // Where the first bad place is, and of which kind.
    ensures exact { Gives result input.new (reading.handlers pool.now starts.now (seen input.old)) }
{
    are_bytes(input.rest);
    handler_table(alloc, pool, starts, input)
}
