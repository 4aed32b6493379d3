//! Whole class files (JVMS 4.1).

ghost use Rattle.std.specs.Prelude.{◌≡◌, ℕ, List, IfOk, MatchResult};
ghost use Rattle.class_input.specs.Reading.{Gives, GivesBy, Answers, seen};
ghost use Rattle.class_model.specs.declared.class.ClassDef.{ClassDef};
ghost use Rattle.class_file.specs.ClassBytes.{ClassBytes};
ghost use Rattle.class_file.specs.ClassReading as reading;

use crate::field::fields;
use crate::method::{CodeReader, items, methods};
use class_attributes::{class_attributes, named_classes};
use class_input::{BadClass, BadKind, Input};
use class_model::ClassDef;
use class_names::{NamedPool, next_class_name, next_optional_class_name};
use std::alloc::Global;

#[tactic(auto, unfolding(crate::specs::ClassReading::magic))]
fn magic(input: &mut Input) -> Result<(), BadClass>
    ensures { GivesBy (λ _. tt) result input.new (reading.magic (seen input.old)) }
{
    let place = input.at;
    if input.u32()? != 0xCAFE_BABE {
        return Err(BadClass::Bad {
            place,
            kind: BadKind::Magic,
        });
    }
    Ok(())
}

/// A class behind its constant pool.
#[tactic(auto, unfolding(crate::specs::ClassReading::class_body))]
fn class_body<C: CodeReader>(
    alloc: Global,
    reader: &C,
    minor: u16,
    major: u16,
    pool: &NamedPool,
    input: &mut Input,
) -> Result<ClassDef, BadClass>
    ensures { Gives result input.new (reading.class_body C.code minor major pool.now (seen input.old)) }
{
    let flags = input.u16()?;
    let name = next_class_name(pool, input)?;
    let super_name = next_optional_class_name(pool, input)?;
    let interfaces = named_classes(alloc, pool, input)?;
    let fields = fields(alloc, pool, input)?;
    let methods = methods(alloc, reader, pool, &name, input)?;
    let (source, rows) = class_attributes(alloc, pool, input)?;
    Ok(ClassDef {
        minor,
        major,
        flags,
        name,
        super_name,
        interfaces,
        fields,
        methods,
        source,
        inner: items(alloc, rows),
    })
}

#[tactic(auto, unfolding(crate::specs::ClassReading::class_file))]
fn class_file<C: CodeReader>(
    alloc: Global,
    reader: &C,
    input: &mut Input,
) -> Result<ClassDef, BadClass>
    ensures { Gives result input.new (reading.class_file C.code (seen input.old)) }
{
    magic(input)?;
    let minor = input.u16()?;
    let major = input.u16()?;
    let pool = NamedPool::read(alloc, input)?;
    class_body(alloc, reader, minor, major, &pool, input)
}

#[tactic(auto, unfolding(crate::specs::ClassReading::file))]
fn file<C: CodeReader>(alloc: Global, reader: &C, bytes: &[u8]) -> Result<ClassDef, BadClass>
    ensures { Answers (λ c. c) result (reading.file C.code bytes.now) }
{
    let mut input = Input::new(bytes);
    let class = class_file(alloc, reader, &mut input)?;
    if !input.rest.is_empty() {
        return Err(BadClass::Bad {
            place: input.at,
            kind: BadKind::Trailing,
        });
    }
    Ok(class)
}

/// The class that the bytes are, all of the bytes, or the first bad place (JVMS 4.1).
pub fn read_class<C: CodeReader>(
    alloc: Global,
    reader: &C,
    bytes: &[u8],
) -> Result<ClassDef, BadClass>
    // What is read is what the bytes are.
    ensures found { IfOk result (λ c. ClassBytes C.is_code bytes.now c) }
    // What the bytes are is read, unless memory runs out.
    ensures only { (c : ClassDef) → ClassBytes C.is_code bytes.now c → MatchResult result (λ d. d ≡ c) (λ stop. stop ≡ BadClass.Memory) }
    // Where the first bad place is, and of which kind.
    ensures place { Answers (λ c. c) result (reading.file C.code bytes.now) }
{
    file(alloc, reader, bytes)
}

/// The law that bytes are at most one class. It does nothing when it runs.
pub fn one_class<C: CodeReader>(_reader: &C)
    ensures { (bytes : List ℕ) (c d : ClassDef) → ClassBytes C.is_code bytes c → ClassBytes C.is_code bytes d → c ≡ d }
{}
