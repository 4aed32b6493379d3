//! Methods (JVMS 4.6).

ghost use Rattle.std.specs.Prelude.{◌≡◌, ℕ, List, Option};
ghost use Rattle.const_pool.specs.declared.entry.Entry.{Entry};
ghost use Rattle.class_input.specs.Reading.{Reading, Gives, GivesBy, seen};
ghost use Rattle.class_input.proofs.Laws.{Exact};
ghost use Rattle.class_model.specs.declared.class.CodeDef.{CodeDef};
ghost use Rattle.class_names.specs.Steps.{table};
ghost use Rattle.class_attributes.specs.Attributes as grammar;
ghost use Rattle.class_attributes.specs.AttributeReading as attributes;
ghost use Rattle.class_file.specs.ClassBytes.{code_name, listed};
ghost use Rattle.class_file.specs.ClassReading as reading;
ghost use Rattle.class_file.specs.declared.method.MethodHead.{MethodHead};

use class_attributes::{drop_content, exceptions, twice};
use class_input::{BadClass, Input};
use class_model::{CodeDef, MethodDef, MethodDesc};
use class_names::{NamedPool, next_method_desc, next_name};
use lists::{Name, Seq};
use std::alloc::Global;

/// What stands before the attributes of a method.
#[derive(Debug, Drop)]
pub struct MethodHead {
    pub flags: u16,
    pub name: Name,
    pub desc: MethodDesc,
}

/// A reader of the contents of Code attributes (JVMS 4.7.3).
pub trait CodeReader {
    /// What the bytes of a content are, by the pool, the name of the class and the head of the method.
    ghost is_code: { List (Option Entry) → List ℕ → MethodHead → List ℕ → CodeDef → Type 0 };

    /// The reading order of a content.
    ghost code: { List (Option Entry) → List ℕ → MethodHead → Reading CodeDef };

    /// Reads a content, whose end is the end of what the reader sees; the length of the attribute is judged
    /// after it.
    fn read_code(
        &self,
        alloc: Global,
        pool: &NamedPool,
        class: &Name,
        head: &MethodHead,
        input: &mut Input,
    ) -> Result<CodeDef, BadClass>
        ensures { Gives result input.new (code pool.now class.now head.now (seen input.old)) };

    /// The reading takes exactly the bytes that are a content.
    ghost exact: { (p : List (Option Entry)) (class : List ℕ) (head : MethodHead) → Exact (is_code p class head) (code p class head) };
}

/// What the attributes of a method say: its code, and the classes of its Exceptions.
pub type MethodAttributes = (Option<CodeDef>, Option<Seq<Name>>);

#[tactic(auto, unfolding(crate::specs::ClassReading::method_head))]
fn method_head(pool: &NamedPool, input: &mut Input) -> Result<MethodHead, BadClass>
    ensures { Gives result input.new (reading.method_head pool.now (seen input.old)) }
{
    let flags = input.u16()?;
    let name = next_name(pool, input)?;
    let desc = next_method_desc(pool, input)?;
    Ok(MethodHead { flags, name, desc })
}

/// The code of a Code attribute, behind the index of its name.
#[tactic(auto, unfolding(class_attributes::specs::AttributeReading::content, class_input::specs::Reading::within))]
fn code_content<C: CodeReader>(
    alloc: Global,
    reader: &C,
    pool: &NamedPool,
    class: &Name,
    head: &MethodHead,
    input: &mut Input,
) -> Result<CodeDef, BadClass>
    ensures { Gives result input.new (attributes.content (C.code pool.now class.now head.now) (seen input.old)) }
{
    let len = input.u32()? as usize;
    let mut inner = input.part(len);
    let code = reader.read_code(alloc, pool, class, head, &mut inner)?;
    input.close(len, inner)?;
    Ok(code)
}

/// A Code whose name stands at a place, behind attributes that gave `found`.
#[tactic(auto, unfolding(class_attributes::specs::AttributeReading::once))]
fn one_code<C: CodeReader>(
    alloc: Global,
    reader: &C,
    pool: &NamedPool,
    class: &Name,
    head: &MethodHead,
    place: usize,
    found: MethodAttributes,
    input: &mut Input,
) -> Result<MethodAttributes, BadClass>
    ensures { Gives result input.new (attributes.once_first place (C.code pool.now class.now head.now) found (seen input.old)) }
{
    let (code, throws) = found;
    if code.is_some() {
        return Err(twice(place));
    }
    let code = code_content(alloc, reader, pool, class, head, input)?;
    Ok((Some(code), throws))
}

/// An Exceptions whose name stands at a place, behind attributes that gave `found`.
#[tactic(auto, unfolding(class_attributes::specs::AttributeReading::once))]
fn one_exceptions(
    alloc: Global,
    pool: &NamedPool,
    place: usize,
    found: MethodAttributes,
    input: &mut Input,
) -> Result<MethodAttributes, BadClass>
    ensures { Gives result input.new (attributes.once_second place (attributes.exceptions_content pool.now) found (seen input.old)) }
{
    let (code, throws) = found;
    if throws.is_some() {
        return Err(twice(place));
    }
    Ok((code, Some(exceptions(alloc, pool, input)?)))
}

/// One attribute of a method more, behind those that gave `found`.
#[tactic(auto, unfolding(class_attributes::specs::AttributeReading::two_attribute, class_names::specs::Steps::at_index, const_pool::specs::PoolReading::indexed))]
fn method_attribute<C: CodeReader>(
    alloc: Global,
    reader: &C,
    pool: &NamedPool,
    class: &Name,
    head: &MethodHead,
    found: MethodAttributes,
    input: &mut Input,
) -> Result<MethodAttributes, BadClass>
    ensures { Gives result input.new (attributes.two_attribute pool.now code_name (C.code pool.now class.now head.now) grammar.exceptions (attributes.exceptions_content pool.now) found (seen input.old)) }
{
    let place = input.at;
    let name = pool.next_text(input)?;
    if name.as_slice() == b"Code".as_slice() {
        return one_code(alloc, reader, pool, class, head, place, found, input);
    }
    if name.as_slice() == b"Exceptions".as_slice() {
        return one_exceptions(alloc, pool, place, found, input);
    }
    drop_content(input)?;
    Ok(found)
}

#[tactic(auto, unfolding(crate::specs::ClassReading::method_attributes, class_attributes::specs::AttributeReading::two_read), using(class_input::proofs::Loops::each_goes_on, class_input::proofs::Loops::each_ends, class_input::proofs::Loops::each_is_done))]
fn method_attributes<C: CodeReader>(
    alloc: Global,
    reader: &C,
    pool: &NamedPool,
    class: &Name,
    head: &MethodHead,
    input: &mut Input,
) -> Result<MethodAttributes, BadClass>
    ensures { Gives result input.new (reading.method_attributes C.code pool.now class.now head.now (seen input.old)) }
{
    let count = input.u16()?;
    let mut found = (None, None);
    for _ in 0..count {
        found = method_attribute(alloc, reader, pool, class, head, found, input)?;
    }
    Ok(found)
}

/// The items of an attribute, none where it is absent.
pub fn items<T>(alloc: Global, found: Option<Seq<T>>) -> Seq<T>
    ensures { result ≡ listed found }
{
    match found {
        Some(items) => items,
        None => Seq::new(alloc),
    }
}

#[tactic(auto, unfolding(crate::specs::ClassReading::method))]
fn read_method<C: CodeReader>(
    alloc: Global,
    reader: &C,
    pool: &NamedPool,
    class: &Name,
    input: &mut Input,
) -> Result<MethodDef, BadClass>
    ensures { Gives result input.new (reading.method C.code pool.now class.now (seen input.old)) }
{
    let head = method_head(pool, input)?;
    let (code, throws) = method_attributes(alloc, reader, pool, class, &head, input)?;
    let MethodHead { flags, name, desc } = head;
    Ok(MethodDef {
        flags,
        name,
        desc,
        throws: items(alloc, throws),
        code,
    })
}

#[tactic(auto, unfolding(class_names::specs::Steps::table), using(class_input::proofs::Loops::many_goes_on, class_input::proofs::Loops::many_ends, class_input::proofs::Loops::each_is_done))]
pub fn methods<C: CodeReader>(
    alloc: Global,
    reader: &C,
    pool: &NamedPool,
    class: &Name,
    input: &mut Input,
) -> Result<Seq<MethodDef>, BadClass>
    ensures { Gives result input.new (table (reading.method C.code pool.now class.now) (seen input.old)) }
{
    let count = input.u16()?;
    let mut methods = Seq::new(alloc);
    for _ in 0..count {
        let one = read_method(alloc, reader, pool, class, input)?;
        methods.push(one)?;
    }
    Ok(methods)
}
