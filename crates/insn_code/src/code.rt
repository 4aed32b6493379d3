//! The bytes of code.

ghost use Rattle.std.specs.Prelude.{◌≡◌, ◌+◌, ◌≤◌, ◌++◌, ℕ, List, length, IfOk, MatchResult};
ghost use Rattle.class_input.specs.declared.bad_class.BadClass.TheVariants.{Memory};
ghost use Rattle.class_input.specs.Grammar.{IsBytes};
ghost use Rattle.class_input.specs.Reading.{Gives, each, seen};
ghost use Rattle.insn_code.specs.Linking.{Code, IsCode};
ghost use Rattle.insn_code.specs.CodeReading as reading;

use crate::insn::insn;
use crate::link::link;
use crate::operands::Read;
use crate::starts::Starts;
use crate::unlinked::Unlinked;
use class_input::{BadClass, BadKind, Input};
use class_model::Insn;
use class_names::NamedPool;
use lists::Seq;
use std::alloc::Global;

/// The instructions so far, each with the offset of its opcode.
#[derive(Drop)]
pub(crate) struct Run {
    placed: Seq<(u32, Unlinked)>,
    starts: Starts,
}

/// What a slice holds are bytes.
fn are_bytes(text: &[u8])
    ensures { IsBytes text.now }
{
    let _text = text;
}

/// One instruction more, where bytes are left.
#[tactic(auto, unfolding(crate::specs::CodeReading::next, crate::specs::CodeReading::sized))]
fn next(alloc: Global, pool: &NamedPool, run: Run, input: &mut Input) -> Read<Run>
    requires { run.starts.size + length input.old.rest.now ≤ 65535 }
    ensures reads { Gives result input.new (reading.next pool.now run (seen input.old)) }
    ensures room { IfOk result (λ run. run.starts.size + length input.new.rest.now ≤ 65535) }
{
    if input.rest.is_empty() {
        return Ok(run);
    }
    let Run { mut placed, starts } = run;
    let pc = starts.size();
    let before = input.rest;
    are_bytes(before);
    let one = insn(alloc, pool, pc, input)?;
    let size = before.len() - input.rest.len();
    placed.push((pc as u32, one))?;
    let starts = starts.with_insn(size)?;
    Ok(Run { placed, starts })
}

/// The instructions that so many bytes are. Each takes a byte or more.
#[tactic(auto, using(class_input::proofs::Loops::each_goes_on, class_input::proofs::Loops::each_ends, class_input::proofs::Loops::each_is_done))]
fn run_of(alloc: Global, pool: &NamedPool, len: usize, input: &mut Input) -> Read<Run>
    requires { length input.old.rest.now ≤ 65535 }
    ensures { Gives result input.new (each len (reading.next pool.now) reading.no_insn (seen input.old)) }
{
    let mut run = Run {
        placed: Seq::new(alloc),
        starts: Starts::new(alloc),
    };
    for _ in 0..len {
        run = next(alloc, pool, run, input)?;
    }
    Ok(run)
}

/// The instructions of code of so many bytes, before their branches are linked.
#[tactic(auto, unfolding(crate::specs::CodeReading::placed_in))]
fn placed_in(alloc: Global, pool: &NamedPool, len: usize, input: &mut Input) -> Read<Run>
    requires { len ≤ 65535 }
    ensures { Gives result input.new (reading.placed_in pool.now len (seen input.old)) }
{
    let mut inner = input.part(len);
    let run = run_of(alloc, pool, len, &mut inner)?;
    if input.rest.len() < len {
        return Err(BadClass::Bad {
            place: inner.at,
            kind: BadKind::Short,
        });
    }
    input.skip(len);
    Ok(run)
}

#[tactic(auto, unfolding(crate::specs::CodeReading::insns))]
fn linked_insns(
    alloc: Global,
    pool: &NamedPool,
    len: usize,
    input: &mut Input,
) -> Read<(Seq<Insn>, Starts)>
    requires { len ≤ 65535 }
    ensures { Gives result input.new (reading.insns pool.now len (seen input.old)) }
{
    let place = input.at;
    let Run { placed, starts } = placed_in(alloc, pool, len, input)?;
    let insns = link(alloc, place, &starts, placed)?;
    Ok((insns, starts))
}

/// The instructions of code of so many bytes, which begins where the reader stands: what the constant pool gives
/// by name, and each branch with the number of the instruction that it leads to (JVMS 4.7.3 and 6.5). With them
/// the offsets at which they begin.
///
/// Refused are the first bad field, front to back, and once all bytes are there the first instruction that leads
/// to no instruction, at its opcode. Code that ends in an instruction is `Short` at the first byte that is wanted.
pub fn read_insns(
    alloc: Global,
    pool: &NamedPool,
    len: usize,
    input: &mut Input,
) -> Result<(Seq<Insn>, Starts), BadClass>
    requires { len ≤ 65535 }
    // What is read is what the bytes are.
    ensures found { IfOk result (λ code. (text : List ℕ) × (input.old.rest.now ≡ text ++ input.new.rest.now) × IsCode pool.now len text code) }
    // What the bytes are is read, unless memory runs out.
    ensures only { (text rest : List ℕ) (code : Code) → input.old.rest.now ≡ text ++ rest → IsCode pool.now len text code → MatchResult result (λ read. read ≡ code) (λ stop. stop ≡ Memory) }
    // Where the first bad place is, and of which kind.
    ensures exact { Gives result input.new (reading.insns pool.now len (seen input.old)) }
{
    are_bytes(input.rest);
    linked_insns(alloc, pool, len, input)
}
