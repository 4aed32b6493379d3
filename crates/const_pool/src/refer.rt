//! What the indices of a pool name.

ghost use Rattle.std.specs.Prelude.{◌≡◌, ◌+◌, ◌<◌, ◌^◌, List, ℕ, All, IfOk, IfSome};
ghost use Rattle.std.specs.Option.{option_copied};
ghost use Rattle.class_input.specs.Reading.{Answers, checked};
ghost use Rattle.class_input.specs.declared.bad_class.BadClass.TheVariants.{Bad};
ghost use Rattle.class_input.specs.declared.bad_class.BadKind.TheVariants.{PoolIndex, PoolKind};
ghost use Rattle.modified_utf8.specs.Text.{IsText};
ghost use Rattle.const_pool.specs.Pool as grammar;
ghost use Rattle.const_pool.specs.PoolReading as reading;

use crate::decode::Placed;
use crate::entry::Entry;
use class_input::{BadClass, BadKind};
use lists::Bytes;

/// The entry that an index names, if any.
pub fn entry_at(slots: &[Placed], index: u16) -> Option<&Entry>
    ensures entry { option_copied result ≡ grammar.entry_at (reading.pool_of slots.now) index }
    ensures text { All reading.IsPlaced slots.now → IfSome result (λ entry. grammar.HasText entry.now) }
{
    let place = usize::from(index).checked_sub(1)?;
    slots.get(place)?.entry.as_ref()
}

/// The refusal of an index that names no entry.
fn no_entry(place: usize, index: u16) -> BadClass
    ensures { result ≡ Bad place (PoolIndex index) }
{
    BadClass::Bad {
        place,
        kind: BadKind::PoolIndex(index),
    }
}

/// The refusal of an index that names an entry of another kind than is needed.
fn wrong_kind(place: usize, index: u16) -> BadClass
    ensures { result ≡ Bad place (PoolKind index) }
{
    BadClass::Bad {
        place,
        kind: BadKind::PoolKind(index),
    }
}

/// The bytes of the Utf8 entry that an index names, which stands at a place.
#[tactic(auto, unfolding(crate::specs::PoolReading::named))]
pub fn text_at(slots: &[Placed], place: usize, index: u16) -> Result<&Bytes, BadClass>
    ensures named { Answers (λ text. text.now) result (reading.named grammar.as_text (reading.pool_of slots.now) place index) }
    ensures text { All reading.IsPlaced slots.now → IfOk result (λ text. (units : List ℕ) × IsText text.now units) }
{
    match entry_at(slots, index) {
        None => Err(no_entry(place, index)),
        Some(Entry::Utf8(text)) => Ok(text),
        Some(_) => Err(wrong_kind(place, index)),
    }
}

/// The index of the name of the class that an index names, which stands at a place.
#[tactic(auto, unfolding(crate::specs::PoolReading::named))]
pub fn class_at(slots: &[Placed], place: usize, index: u16) -> Result<u16, BadClass>
    ensures { Answers (λ name. name) result (reading.named grammar.as_class (reading.pool_of slots.now) place index) }
{
    match entry_at(slots, index) {
        None => Err(no_entry(place, index)),
        Some(Entry::Class(name)) => Ok(*name),
        Some(_) => Err(wrong_kind(place, index)),
    }
}

/// The indices of the name and the descriptor that an index names, which stands at a place.
#[tactic(auto, unfolding(crate::specs::PoolReading::named))]
pub fn name_and_type_at(slots: &[Placed], place: usize, index: u16) -> Result<(u16, u16), BadClass>
    ensures { Answers (λ pair. pair) result (reading.named grammar.as_name_and_type (reading.pool_of slots.now) place index) }
{
    match entry_at(slots, index) {
        None => Err(no_entry(place, index)),
        Some(Entry::NameAndType(name, ty)) => Ok((*name, *ty)),
        Some(_) => Err(wrong_kind(place, index)),
    }
}

/// Judges the indices of a class and of a name with a type, the first of which stands at a place.
fn judge_member(slots: &[Placed], place: usize, class: u16, member: u16) -> Result<(), BadClass>
    requires { place + 2 < 2 ^ 64 }
    ensures { Answers (λ _. tt) result (reading.judged_two grammar.as_class grammar.as_name_and_type (reading.pool_of slots.now) place class member) }
{
    class_at(slots, place, class)?;
    name_and_type_at(slots, place + 2, member)?;
    Ok(())
}

/// Judges the entry whose tag stands at a place.
#[tactic(auto, unfolding(crate::specs::PoolReading::judged_entry))]
fn judge_entry(slots: &[Placed], place: usize, entry: &Entry) -> Result<(), BadClass>
    requires { place < 2 ^ 63 }
    ensures { Answers (λ _. tt) result (reading.judged_entry (reading.pool_of slots.now) place entry.now) }
{
    match entry {
        Entry::Class(text) | Entry::Text(text) => {
            text_at(slots, place + 1, *text)?;
            Ok(())
        }
        Entry::Field(class, member)
        | Entry::Method(class, member)
        | Entry::InterfaceMethod(class, member) => {
            judge_member(slots, place + 1, *class, *member)
        }
        Entry::NameAndType(name, ty) => {
            text_at(slots, place + 1, *name)?;
            text_at(slots, place + 3, *ty)?;
            Ok(())
        }
        _ => Ok(()),
    }
}

fn judge_slot(slots: &[Placed], slot: &Placed) -> Result<(), BadClass>
    requires { reading.IsPlaced slot.now }
    ensures { Answers (λ _. tt) result (reading.judged_slot (reading.pool_of slots.now) slot.now) }
{
    match &slot.entry {
        None => Ok(()),
        Some(entry) => judge_entry(slots, slot.place, entry),
    }
}

/// Judges what each entry refers to, in the order of indices.
pub fn judge(slots: &[Placed]) -> Result<(), BadClass>
    requires { All reading.IsPlaced slots.now }
    ensures { Answers (λ _. tt) result (checked (reading.judged_slot (reading.pool_of slots.now)) slots.now) }
{
    for slot in slots {
        judge_slot(slots, slot)?;
    }
    Ok(())
}
