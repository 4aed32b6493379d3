//! Rows of types.

ghost use Rattle.std.specs.Prelude.{◌≡◌, ◌<◌, [], Some, IfOk, length, slice_get};
ghost use Rattle.class_set.specs.Closed.{Closed};
ghost use Rattle.set_lookups.specs.First.{holds_of};
ghost use Rattle.run_state.specs.Calls.{narrowed_type};
ghost use Rattle.run_state.specs.Objects.{receiver_class};
ghost use Rattle.run_state.specs.Texts.{class_type, object_name};
ghost use Rattle.run_state.specs.Unwinding.{default_of};
ghost use Rattle.run_state.specs.SetLooks.{fits_base, fits_in};
ghost use Rattle.linked_code.specs.Kept as kept;
ghost use Rattle.std.specs.Prelude.{ℤ};
ghost use Rattle.program_links.specs.Each.{Numbered};
ghost use Rattle.program_links.specs.Picked.{AllPicked};
ghost use Rattle.program_links.specs.RowTo.{BaseTo, BaseAt, TypeTo, TypeRow};
ghost use Rattle.program_links.specs.WorldOf.{name_at, no_name};

use crate::cells::default_base;
use crate::fields::number;
use crate::keys::{TypeKey, letter};
use crate::kinds::narrowing_of_base;
use crate::natives::{is_object_base, is_object_name};
use crate::tables::Tables;
use class_model::{BaseType, Primitive};
use class_set::{ClassId, ClassSet};
use linked_code::{LinkedType, Narrowing};
use lists::Seq;
use machine_words::{Tag, Word};
use std::alloc::{AllocError, Global};

/// The number of a class without a name, as a primitive type has it: one past the last, unless a class has that name.
#[tactic(auto, using(crate::proofs::Typing::empty_name, crate::proofs::Typing::named_nothing, crate::proofs::Typing::nothing_named))]
pub fn nameless(set: &ClassSet) -> u32
    ensures { name_at set.now result ≡ [] }
{
    match set.find("") {
        Some(id) => id.0,
        None => set.len(),
    }
}

/// The number of the class that a type has without its dimensions. A closed set has each class that its code names.
fn base_class(set: &ClassSet, nameless: u32, base: &BaseType) -> Result<u32, AllocError>
    requires { name_at set.now nameless ≡ [] }
    ensures { IfOk result (BaseTo set.now base.now) }
{
    match base {
        BaseType::Primitive(_) => Ok(nameless),
        BaseType::Class(name) => match set.find_name(name) {
            Some(id) => Ok(id.0),
            None => Err(AllocError),
        },
    }
}

/// The number of the class of each type.
#[tactic(auto, using(crate::proofs::EachMore::numbered_more, crate::proofs::EachMore::none_numbered, crate::proofs::Typing::base_at))]
pub fn base_classes(alloc: Global, set: &ClassSet, tables: &Tables) -> Result<Seq<u32>, AllocError>
    ensures { IfOk result (λ bases. Numbered (BaseAt set.now tables.now) bases (length tables.now.types)) }
{
    let mut bases = Seq::new(alloc);
    let none = nameless(set);
    for at in 0..tables.count_types() {
        let base = base_class(set, none, &tables.type_at(at).base)?;
        bases.push(base)?;
    }
    Ok(bases)
}

#[tactic(auto, using(crate::proofs::Typing::bases_fit))]
fn bases_fit(
    set: &ClassSet,
    low: &BaseType,
    low_class: u32,
    high: &BaseType,
    high_class: u32,
) -> bool
    requires closed { Closed set.now }
    requires low_is { BaseTo set.now low.now low_class }
    requires high_is { BaseTo set.now high.now high_class }
    ensures { fits_base set.now low.now high.now ≡ result }
{
    match (low, high) {
        (BaseType::Primitive(low), BaseType::Primitive(high)) => letter(*low) == letter(*high),
        (BaseType::Class(_), BaseType::Class(name)) => {
            set.subtype(ClassId(low_class), ClassId(high_class)) || is_object_name(name)
        }
        _ => false,
    }
}

/// Whether a type is a subtype of another (JVMS 4.10, 6.5 checkcast): an array of more dimensions is one of an array of objects.
#[tactic(auto, using(crate::proofs::Typing::where_shallower, crate::proofs::Typing::where_equal, crate::proofs::Typing::where_deeper))]
fn fits(set: &ClassSet, low: &TypeKey, low_class: u32, high: &TypeKey, high_class: u32) -> bool
    requires closed { Closed set.now }
    requires low_is { BaseTo set.now low.now.base low_class }
    requires high_is { BaseTo set.now high.now.base high_class }
    ensures { fits_in set.now low.now high.now ≡ result }
{
    if low.depth < high.depth {
        return false;
    }
    if low.depth > high.depth {
        return is_object_base(&high.base);
    }
    bases_fit(set, &low.base, low_class, &high.base, high_class)
}

/// Whether a type is a subtype of one that was met.
#[tactic(auto, using(crate::proofs::Typing::base_of))]
fn fits_met(
    set: &ClassSet,
    tables: &Tables,
    bases: &Seq<u32>,
    low: &TypeKey,
    low_class: u32,
    high: usize,
) -> bool
    requires closed { Closed set.now }
    requires bases { Numbered (BaseAt set.now tables.now) bases.now (length tables.now.types) }
    requires low_is { BaseTo set.now low.now.base low_class }
    requires there { high < length tables.now.types }
    ensures { holds_of (fits_in set.now low.now) (slice_get tables.now.types high) ≡ result }
{
    fits(set, low, low_class, tables.type_at(high), *bases.at(high))
}

/// The types that were met and that a type is a subtype of, itself among them.
#[tactic(auto, using(crate::proofs::Picking::none_picked, crate::proofs::Picking::picked_more, crate::proofs::Picking::passed_over, crate::proofs::Picking::all_picked))]
fn types_above(
    alloc: Global,
    set: &ClassSet,
    tables: &Tables,
    bases: &Seq<u32>,
    low: &TypeKey,
    low_class: u32,
) -> Result<Seq<u32>, AllocError>
    requires closed { Closed set.now }
    requires bases { Numbered (BaseAt set.now tables.now) bases.now (length tables.now.types) }
    requires low_is { BaseTo set.now low.now.base low_class }
    ensures { IfOk result (AllPicked (fits_in set.now low.now) tables.now.types) }
{
    let mut picked = Seq::new(alloc);
    for high in 0..tables.count_types() {
        if fits_met(set, tables, bases, low, low_class, high) {
            picked.push(number(high)?)?;
        }
    }
    Ok(picked)
}

/// Whether a type that is not there is a subtype of one that was met.
#[tactic(auto, using(crate::proofs::Typing::past_fits))]
fn nothing_fits(set: &ClassSet, tables: &Tables, high: usize) -> bool
    requires closed { Closed set.now }
    requires there { high < length tables.now.types }
    ensures { holds_of (fits_in set.now (class_type (no_name set.now))) (slice_get tables.now.types high) ≡ result }
{
    let ty = tables.type_at(high);
    ty.depth == 0 && is_object_base(&ty.base)
}

/// The types that were met and that one that is not there is a subtype of.
#[tactic(auto, using(crate::proofs::Picking::none_picked, crate::proofs::Picking::picked_more, crate::proofs::Picking::passed_over, crate::proofs::Picking::all_picked))]
fn types_above_none(alloc: Global, set: &ClassSet, tables: &Tables) -> Result<Seq<u32>, AllocError>
    requires { Closed set.now }
    ensures { IfOk result (AllPicked (fits_in set.now (class_type (no_name set.now))) tables.now.types) }
{
    let mut picked = Seq::new(alloc);
    for high in 0..tables.count_types() {
        if nothing_fits(set, tables, high) {
            picked.push(number(high)?)?;
        }
    }
    Ok(picked)
}

fn base_number(base: &BaseType) -> Option<Primitive>
    ensures { kept.primitive_of base.now ≡ result }
{
    match base {
        BaseType::Primitive(primitive) => Some(*primitive),
        BaseType::Class(_) => None,
    }
}

/// Of which numbers an array is one.
fn numbers_of(ty: &TypeKey) -> Option<Primitive>
    ensures { kept.numbers_of ty.now ≡ result }
{
    if ty.depth == 1 {
        base_number(&ty.base)
    } else {
        None
    }
}

fn narrowing_of(ty: &TypeKey) -> Narrowing
    ensures { (v : ℤ) → narrowed_type ty.now v ≡ kept.kept_by result v }
{
    if ty.depth == 0 {
        narrowing_of_base(&ty.base)
    } else {
        Narrowing::Whole
    }
}

fn default_of<T: Tag>(ty: &TypeKey) -> Word<T>
    ensures { default_of T.none_of ty.now ≡ result }
{
    if ty.depth == 0 {
        default_base(&ty.base)
    } else {
        Word::null()
    }
}

/// The class whose methods a receiver of a type has: an array has those of `java/lang/Object`.
#[tactic(auto, using(crate::proofs::Typing::base_named))]
fn receiver_of(set: &ClassSet, object: u32, ty: &TypeKey, base: u32) -> u32
    requires object { name_at set.now object ≡ object_name }
    requires base { BaseTo set.now ty.now.base base }
    ensures { receiver_class ty.now ≡ name_at set.now result }
{
    if ty.depth == 0 { base } else { object }
}

/// The row of a type that was met.
#[tactic(auto, using(crate::proofs::Typing::base_of))]
fn type_row<T: Tag>(
    alloc: Global,
    set: &ClassSet,
    tables: &Tables,
    bases: &Seq<u32>,
    object: u32,
    at: usize,
) -> Result<LinkedType<T>, AllocError>
    requires closed { Closed set.now }
    requires bases { Numbered (BaseAt set.now tables.now) bases.now (length tables.now.types) }
    requires object { name_at set.now object ≡ object_name }
    requires there { at < length tables.now.types }
    ensures { IfOk result (TypeRow T.none_of set.now tables.now at) }
{
    let ty = tables.type_at(at);
    let base = *bases.at(at);
    let element = tables.element(at, ty)?;
    let fits = types_above(alloc, set, tables, bases, ty, base)?;
    Ok(LinkedType {
        is_array: ty.depth > 0,
        numbers: numbers_of(ty),
        element,
        narrowing: narrowing_of(ty),
        default: default_of(ty),
        receiver: receiver_of(set, object, ty, base),
        base,
        fits,
    })
}

/// The rows of the types that were met.
#[tactic(auto, using(crate::proofs::EachMore::numbered_more, crate::proofs::EachMore::none_numbered))]
pub fn type_rows<T: Tag>(
    alloc: Global,
    set: &ClassSet,
    tables: &Tables,
    bases: &Seq<u32>,
    object: u32,
) -> Result<Seq<LinkedType<T>>, AllocError>
    requires closed { Closed set.now }
    requires bases { Numbered (BaseAt set.now tables.now) bases.now (length tables.now.types) }
    requires object { name_at set.now object ≡ object_name }
    ensures { IfOk result (λ rows. Numbered (TypeRow T.none_of set.now tables.now) rows (length tables.now.types)) }
{
    let mut rows = Seq::new(alloc);
    for at in 0..tables.count_types() {
        rows.push(type_row(alloc, set, tables, bases, object, at)?)?;
    }
    Ok(rows)
}

/// The row of a type that is not there: of a class that is not there.
pub fn no_type<T: Tag>(
    alloc: Global,
    set: &ClassSet,
    tables: &Tables,
) -> Result<LinkedType<T>, AllocError>
    requires { Closed set.now }
    ensures { IfOk result (TypeTo T.none_of set.now tables.now (class_type (no_name set.now))) }
{
    let element = number(tables.count_types())?;
    let fits = types_above_none(alloc, set, tables)?;
    let none = set.len();
    Ok(LinkedType {
        is_array: false,
        numbers: None,
        element,
        narrowing: Narrowing::Whole,
        default: Word::null(),
        receiver: none,
        base: none,
        fits,
    })
}
