//! Fields and methods that indices name (JVMS 4.4.2).

ghost use Rattle.std.specs.Prelude.{◌≡◌};
ghost use Rattle.class_input.specs.declared.bad_class.BadClass.TheVariants.{Bad};
ghost use Rattle.class_input.specs.declared.bad_class.BadKind.TheVariants.{PoolIndex, PoolKind};
ghost use Rattle.class_input.specs.Reading.{Answers, Gives, seen};
ghost use Rattle.const_pool.specs.PoolReading.{named};
ghost use Rattle.class_names.specs.Names.{as_field, as_method};
ghost use Rattle.class_names.specs.Steps.{at_index};
ghost use Rattle.class_names.specs.NameReading as reading;

use crate::class::{class_name_at, class_type_at, field_type_at, method_desc_at};
use crate::named_pool::NamedPool;
use crate::text::name_at;
use class_input::{BadClass, BadKind, Input};
use class_model::{FieldRef, MethodRef};
use const_pool::Entry;

/// The entries by which a method is named at some place of a class file.
#[derive(Clone, Copy, Debug, PartialEq, Eq)]
pub enum MethodEntry {
    /// A Methodref alone.
    OfClass,
    /// An InterfaceMethodref alone.
    OfInterface,
    /// A Methodref or an InterfaceMethodref.
    Either,
}

/// The refusal of an index that names no entry.
pub fn no_entry(place: usize, index: u16) -> BadClass
    ensures { result ≡ Bad place (PoolIndex index) }
{
    BadClass::Bad {
        place,
        kind: BadKind::PoolIndex(index),
    }
}

/// The refusal of an index that names an entry of another kind than is needed.
pub fn wrong_kind(place: usize, index: u16) -> BadClass
    ensures { result ≡ Bad place (PoolKind index) }
{
    BadClass::Bad {
        place,
        kind: BadKind::PoolKind(index),
    }
}

/// The class and the name with its type of a field, by their indices.
#[tactic(auto, unfolding(const_pool::specs::PoolReading::named))]
fn field_parts(pool: &NamedPool, place: usize, index: u16) -> Result<(u16, u16), BadClass>
    ensures { Answers (λ parts. parts) result (named as_field pool.now place index) }
{
    match pool.get(index) {
        None => Err(no_entry(place, index)),
        Some(Entry::Field(class, pair)) => Ok((*class, *pair)),
        Some(_) => Err(wrong_kind(place, index)),
    }
}

/// The class and the name with its types of a method, by their indices, and whether the entry is an
/// InterfaceMethodref.
#[tactic(auto, unfolding(const_pool::specs::PoolReading::named))]
fn method_parts(
    kind: MethodEntry,
    pool: &NamedPool,
    place: usize,
    index: u16,
) -> Result<(u16, u16, bool), BadClass>
    ensures { Answers (λ parts. parts) result (named (as_method kind) pool.now place index) }
{
    match (kind, pool.get(index)) {
        (_, None) => Err(no_entry(place, index)),
        (MethodEntry::OfClass | MethodEntry::Either, Some(Entry::Method(class, pair))) => {
            Ok((*class, *pair, false))
        }
        (
            MethodEntry::OfInterface | MethodEntry::Either,
            Some(Entry::InterfaceMethod(class, pair)),
        ) => Ok((*class, *pair, true)),
        (_, Some(_)) => Err(wrong_kind(place, index)),
    }
}

/// The field that an index names, which stands at a place; its class is read as a name.
#[tactic(auto, unfolding(crate::specs::NameReading::field_at))]
pub fn field_at(pool: &NamedPool, place: usize, index: u16) -> Result<FieldRef, BadClass>
    ensures { Answers (λ field. field) result (reading.field_at pool.now place index) }
{
    let (class, pair) = field_parts(pool, place, index)?;
    let class = class_name_at(pool, place, class)?;
    let (name, ty) = pool.name_and_type_at(place, pair)?;
    let name = name_at(pool, place, name)?;
    let ty = field_type_at(pool, place, ty)?;
    Ok(FieldRef { class, name, ty })
}

/// The field that the next index names.
#[tactic(auto, unfolding(crate::specs::Steps::at_index))]
pub fn next_field(pool: &NamedPool, input: &mut Input) -> Result<FieldRef, BadClass>
    ensures { Gives result input.new (at_index (reading.field_at pool.now) (seen input.old)) }
{
    let place = input.at;
    let index = input.u16()?;
    field_at(pool, place, index)
}

/// The method that an index names, which stands at a place, by an entry of a kind that is taken there; its class
/// is read as a type.
#[tactic(auto, unfolding(crate::specs::NameReading::method_at))]
pub fn method_at(
    kind: MethodEntry,
    pool: &NamedPool,
    place: usize,
    index: u16,
) -> Result<MethodRef, BadClass>
    ensures { Answers (λ method. method) result (reading.method_at kind pool.now place index) }
{
    let (class, pair, in_interface) = method_parts(kind, pool, place, index)?;
    let class = class_type_at(pool, place, class)?;
    let (name, desc) = pool.name_and_type_at(place, pair)?;
    let name = name_at(pool, place, name)?;
    let desc = method_desc_at(pool, place, desc)?;
    Ok(MethodRef {
        class,
        name,
        desc,
        in_interface,
    })
}

/// The method that the next index names.
#[tactic(auto, unfolding(crate::specs::Steps::at_index))]
pub fn next_method(
    kind: MethodEntry,
    pool: &NamedPool,
    input: &mut Input,
) -> Result<MethodRef, BadClass>
    ensures { Gives result input.new (at_index (reading.method_at kind pool.now) (seen input.old)) }
{
    let place = input.at;
    let index = input.u16()?;
    method_at(kind, pool, place, index)
}
