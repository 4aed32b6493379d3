//! Reading a pool from left to right.

ghost use Rattle.std.specs.Prelude.{◌+◌, ◌<◌, ◌^◌, List, ℕ, length, All, IfOk, OnOk};
ghost use Rattle.class_input.specs.Reading.{Gives, GivesBy, Answers, bytes, seen};
ghost use Rattle.modified_utf8.specs.Text.{IsText};
ghost use Rattle.const_pool.specs.Pool as grammar;
ghost use Rattle.const_pool.specs.PoolReading as reading;

use crate::entry::Entry;
use class_input::{BadClass, BadKind, Input};
use lists::Seq;
use modified_utf8::wrong_place;
use std::alloc::Global;

/// An entry with the place of its tag, or the second index of a Long or a Double.
#[derive(Debug, Drop)]
pub struct Placed {
    pub place: usize,
    pub entry: Option<Entry>,
}

/// Judges bytes as text that stands at a place of the file.
#[tactic(auto, using(modified_utf8::proofs::Texts::text_read, modified_utf8::proofs::Texts::wrong_is_read), unfolding(crate::specs::PoolReading::judged_text))]
fn judge_text(place: usize, text: &[u8]) -> Result<(), BadClass>
    requires { place + length text.now < 2 ^ 63 }
    ensures judged { Answers (λ _. tt) result (reading.judged_text place text.now) }
    ensures text { OnOk result ((units : List ℕ) × IsText text.now units) }
{
    match wrong_place(text) {
        None => Ok(()),
        Some(wrong) => Err(BadClass::Bad {
            place: place + wrong,
            kind: BadKind::Text,
        }),
    }
}

#[tactic(auto, unfolding(crate::specs::PoolReading::utf8_body, class_input::specs::Reading::bytes))]
fn utf8(alloc: Global, input: &mut Input) -> Result<Entry, BadClass>
    ensures gives { Gives result input.new (reading.utf8_body (seen input.old)) }
    ensures text { IfOk result (λ entry. grammar.HasText entry) }
{
    let len = input.u16()?;
    let at = input.at;
    let text = input.bytes(len as usize)?;
    judge_text(at, text)?;
    Ok(Entry::Utf8(Seq::from_vec(Vec::from_slice(alloc, text)?)))
}

#[tactic(auto, unfolding(crate::specs::PoolReading::integer_body))]
fn integer(input: &mut Input) -> Result<Entry, BadClass>
    ensures gives { Gives result input.new (reading.integer_body (seen input.old)) }
    ensures text { IfOk result (λ entry. grammar.HasText entry) }
{
    let n = input.u32()?;
    Ok(Entry::Integer(n.cast_signed()))
}

/// A field of four bytes.
#[tactic(auto, using(crate::proofs::Bytes::four_items), unfolding(class_input::specs::Reading::bytes))]
fn four(input: &mut Input) -> Result<[u8; 4], BadClass>
    ensures { Gives result input.new (bytes 4 (seen input.old)) }
{
    let text = input.bytes(4)?;
    Ok([text[0], text[1], text[2], text[3]])
}

#[tactic(auto, unfolding(crate::specs::PoolReading::float_body))]
fn float(input: &mut Input) -> Result<Entry, BadClass>
    ensures gives { Gives result input.new (reading.float_body (seen input.old)) }
    ensures text { IfOk result (λ entry. grammar.HasText entry) }
{
    let bits = four(input)?;
    Ok(Entry::Float(bits))
}

/// Eight bytes, as two fields of four.
#[tactic(auto, using(crate::proofs::Bytes::joined_fours), unfolding(crate::specs::PoolReading::eight))]
fn eight(input: &mut Input) -> Result<[u8; 8], BadClass>
    ensures { Gives result input.new (reading.eight (seen input.old)) }
{
    let high = four(input)?;
    let low = four(input)?;
    Ok([
        high[0], high[1], high[2], high[3], low[0], low[1], low[2], low[3],
    ])
}

#[tactic(auto, unfolding(crate::specs::PoolReading::long_body))]
fn long(input: &mut Input) -> Result<Entry, BadClass>
    ensures gives { Gives result input.new (reading.long_body (seen input.old)) }
    ensures text { IfOk result (λ entry. grammar.HasText entry) }
{
    let text = eight(input)?;
    Ok(Entry::Long(i64::from_be_bytes(text)))
}

#[tactic(auto, unfolding(crate::specs::PoolReading::double_body))]
fn double(input: &mut Input) -> Result<Entry, BadClass>
    ensures gives { Gives result input.new (reading.double_body (seen input.old)) }
    ensures text { IfOk result (λ entry. grammar.HasText entry) }
{
    let bits = eight(input)?;
    Ok(Entry::Double(bits))
}

/// Two indices.
#[tactic(auto, unfolding(crate::specs::PoolReading::two_numbers))]
fn two(input: &mut Input) -> Result<(u16, u16), BadClass>
    ensures { Gives result input.new (reading.two_numbers (seen input.old)) }
{
    let first = input.u16()?;
    let second = input.u16()?;
    Ok((first, second))
}

#[tactic(auto, unfolding(crate::specs::PoolReading::handle_body))]
fn handle(input: &mut Input) -> Result<Entry, BadClass>
    ensures gives { Gives result input.new (reading.handle_body (seen input.old)) }
    ensures text { IfOk result (λ entry. grammar.HasText entry) }
{
    let kind = input.u8()?;
    let member = input.u16()?;
    Ok(Entry::Handle(kind, member))
}

/// An entry of indices behind its tag, which stands at a place.
#[tactic(auto, unfolding(crate::specs::PoolReading::references))]
fn references(at: usize, tag: u8, input: &mut Input) -> Result<Entry, BadClass>
    ensures gives { Gives result input.new (reading.references at tag (seen input.old)) }
    ensures text { IfOk result (λ entry. grammar.HasText entry) }
{
    match tag {
        7 => Ok(Entry::Class(input.u16()?)),
        8 => Ok(Entry::Text(input.u16()?)),
        9 => {
            let (class, member) = two(input)?;
            Ok(Entry::Field(class, member))
        }
        10 => {
            let (class, member) = two(input)?;
            Ok(Entry::Method(class, member))
        }
        11 => {
            let (class, member) = two(input)?;
            Ok(Entry::InterfaceMethod(class, member))
        }
        12 => {
            let (name, ty) = two(input)?;
            Ok(Entry::NameAndType(name, ty))
        }
        15 => handle(input),
        16 => Ok(Entry::MethodType(input.u16()?)),
        18 => {
            let (bootstrap, member) = two(input)?;
            Ok(Entry::Dynamic(bootstrap, member))
        }
        _ => Err(BadClass::Bad {
            place: at,
            kind: BadKind::PoolTag(tag),
        }),
    }
}

/// What stands behind a tag at a place, where so many indices are left.
#[tactic(auto, unfolding(crate::specs::PoolReading::body))]
fn body(
    alloc: Global,
    at: usize,
    room: usize,
    tag: u8,
    input: &mut Input,
) -> Result<Entry, BadClass>
    ensures gives { Gives result input.new (reading.body at room tag (seen input.old)) }
    ensures text { IfOk result (λ entry. grammar.HasText entry) }
{
    match tag {
        1 => utf8(alloc, input),
        3 => integer(input),
        4 => float(input),
        5 | 6 if room < 2 => Err(BadClass::Bad {
            place: at,
            kind: BadKind::PoolTag(tag),
        }),
        5 => long(input),
        6 => double(input),
        _ => references(at, tag, input),
    }
}

#[tactic(auto, unfolding(crate::specs::PoolReading::entry))]
fn entry(alloc: Global, room: usize, input: &mut Input) -> Result<Entry, BadClass>
    ensures gives { Gives result input.new (reading.entry room (seen input.old)) }
    ensures text { IfOk result (λ entry. grammar.HasText entry) }
{
    let at = input.at;
    let tag = input.u8()?;
    body(alloc, at, room, tag, input)
}

/// One entry more, where an index is left.
#[tactic(auto, unfolding(crate::specs::PoolReading::more))]
fn more(
    alloc: Global,
    count: usize,
    slots: &mut Vec<Placed>,
    input: &mut Input,
) -> Result<(), BadClass>
    requires { All reading.IsPlaced slots.old.items }
    ensures gives { GivesBy (λ _. slots.new.items) result input.new (reading.more count slots.old.items (seen input.old)) }
    ensures placed { OnOk result (All reading.IsPlaced slots.new.items) }
{
    if slots.len() >= count {
        return Ok(());
    }
    let place = input.at;
    let entry = entry(alloc, count - slots.len(), input)?;
    let wide = matches!(&entry, Entry::Long(_) | Entry::Double(_));
    slots.push(Placed {
        place,
        entry: Some(entry),
    })?;
    if wide {
        slots.push(Placed { place, entry: None })?;
    }
    Ok(())
}

/// The entries of so many indices. Memory is taken for what was read alone, whatever the count.
pub fn slots(alloc: Global, count: usize, input: &mut Input) -> Result<Vec<Placed>, BadClass>
    ensures gives { GivesBy (λ slots. slots.items) result input.new (reading.slots count (seen input.old)) }
    ensures placed { IfOk result (λ slots. All reading.IsPlaced slots.items) }
{
    let mut slots = Vec::new(alloc);
    for _ in 0..count {
        more(alloc, count, &mut slots, input)?;
    }
    Ok(slots)
}
