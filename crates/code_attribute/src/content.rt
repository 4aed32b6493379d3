//! The content of a Code attribute.

ghost use Rattle.std.specs.Prelude.{◌≡◌, ◌≤◌, ◌++◌, ℕ, List, IfOk, MatchResult};
ghost use Rattle.class_input.specs.declared.bad_class.BadClass.TheVariants.{Memory};
ghost use Rattle.class_input.specs.Grammar.{IsBytes};
ghost use Rattle.class_model.specs.declared.class.CodeDef as model;
ghost use Rattle.class_input.specs.Reading.{Gives, seen};
ghost use Rattle.class_file.specs.ClassBytes.{listed};
ghost use Rattle.code_attribute.specs.CodeContent.{IsCodeContent};
ghost use Rattle.code_attribute.specs.CodeContentReading as reading;

use crate::attributes::code_attributes;
use class_file::MethodHead;
use class_input::{BadClass, BadKind, Input};
use class_model::CodeDef;
use class_names::NamedPool;
use code_tables::read_handlers;
use frame_tables::first_types;
use insn_code::read_insns;
use lists::{Name, Seq};
use std::alloc::Global;

/// What a slice holds are bytes.
fn are_bytes(text: &[u8])
    ensures { IsBytes text.now }
{
    let _text = text;
}

/// The length of code in bytes, which is neither 0 nor over 65,535.
#[tactic(auto, unfolding(crate::specs::CodeContentReading::code_length))]
fn code_length(input: &mut Input) -> Result<usize, BadClass>
    ensures reads { Gives result input.new (reading.code_length (seen input.old)) }
    ensures small { IfOk result (λ len. len ≤ 65535) }
{
    let place = input.at;
    let len = input.u32()?;
    if len == 0 || len > 65_535 {
        return Err(BadClass::Bad {
            place,
            kind: BadKind::CodeLength,
        });
    }
    Ok(len as usize)
}

/// The items of an attribute, none where it is absent.
fn items<T>(alloc: Global, found: Option<Seq<T>>) -> Seq<T>
    ensures { result ≡ listed found }
{
    match found {
        Some(items) => items,
        None => Seq::new(alloc),
    }
}

#[tactic(auto, unfolding(crate::specs::CodeContentReading::code_content))]
fn code_content(
    alloc: Global,
    pool: &NamedPool,
    class: &Name,
    head: &MethodHead,
    input: &mut Input,
) -> Result<CodeDef, BadClass>
    ensures { Gives result input.new (reading.code_content pool.now class.now head.now (seen input.old)) }
{
    let max_stack = input.u16()?;
    let max_locals = input.u16()?;
    let len = code_length(input)?;
    let code = read_insns(alloc, pool, len, input)?;
    let handlers = read_handlers(alloc, pool, &code.1, input)?;
    let first = first_types(alloc, class, head)?;
    let (frames, lines) = code_attributes(alloc, pool, &code, &first, input)?;
    let (insns, _) = code;
    Ok(CodeDef {
        max_stack,
        max_locals,
        insns,
        handlers,
        frames: items(alloc, frames),
        lines,
    })
}

/// The content of a Code attribute (JVMS 4.7.3) of a method of a class: the maxima, the instructions, the exception
/// table, the frames of one StackMapTable, and the rows of all LineNumberTables; other attributes are dropped.
///
/// `CodeLength` for a length that is 0 or over 65,535. `Twice` for a second StackMapTable, at the index of its name, and
/// for a LineNumberTable that brings the rows past 65,535, at its count.
pub fn read_code(
    alloc: Global,
    pool: &NamedPool,
    class: &Name,
    head: &MethodHead,
    input: &mut Input,
) -> Result<CodeDef, BadClass>
    // What is read is what the bytes are.
    ensures found { IfOk result (λ code. (text : List ℕ) × (input.old.rest.now ≡ text ++ input.new.rest.now) × IsCodeContent pool.now class.now head.now text code) }
    // What the bytes are is read, unless memory runs out.
    ensures only { (text rest : List ℕ) (code : model.CodeDef) → input.old.rest.now ≡ text ++ rest → IsCodeContent pool.now class.now head.now text code → MatchResult result (λ read. read ≡ code) (λ stop. stop ≡ Memory) }
    // Where the first bad place is, and of which kind.
    ensures exact { Gives result input.new (reading.code_content pool.now class.now head.now (seen input.old)) }
{
    are_bytes(input.rest);
    code_content(alloc, pool, class, head, input)
}
