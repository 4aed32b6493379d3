//! What the machine itself knows of a set: the classes of what it throws, and the field of a String that holds its characters.

ghost use Rattle.std.specs.Prelude.{◌≡◌, Some, OnOk, IfOk, length, slice_get};
ghost use Rattle.lists.specs.Texts.{units_of};
ghost use Rattle.class_model.specs.declared.types.Primitive.TheVariants as primitive;
ghost use Rattle.set_lookups.specs.Above.{find_class};
ghost use Rattle.class_set.specs.Core.{thrown_names};
ghost use Rattle.class_set.specs.Closed.{Closed};
ghost use Rattle.machine_frames.specs.declared.flow.Fault.{Fault};
ghost use Rattle.machine_frames.specs.Acts.{exception_of};
ghost use Rattle.run_state.specs.Marks.{value_field};
ghost use Rattle.run_state.specs.Objects.{primitive_array};
ghost use Rattle.run_state.specs.Texts as texts;
ghost use Rattle.run_state.specs.SetLooks.{field_place};
ghost use Rattle.linked_code.specs.Links.{class_of_fault};
ghost use Rattle.program_links.specs.Before.{AreBefore};
ghost use Rattle.program_links.specs.Numbers.{Grows};
ghost use Rattle.program_links.specs.Ready.{FindsObjectField};
ghost use Rattle.program_links.specs.WorldOf.{name_at};

use crate::before::{Before, is_static};
use crate::fields::{find_field, object_place};
use crate::tables::Tables;
use class_model::{BaseType, FieldRef, JType, Primitive};
use class_set::ClassSet;
use linked_code::FaultClasses;
use lists::{Name, Seq};
use std::alloc::{AllocError, Global};

/// The class of an exception that an instruction throws.
#[tactic(auto, using(crate::proofs::Knowing::thrown_missing, crate::proofs::Knowing::thrown_found))]
fn thrown(set: &ClassSet, name: &str, _place: usize) -> u32
    requires closed { Closed set.now }
    requires known { slice_get thrown_names _place ≡ Some (units_of name.now) }
    ensures { name_at set.now result ≡ units_of name.now }
{
    match set.find(name) {
        Some(id) => id.0,
        None => unreachable!(),
    }
}

/// The classes of what the machine itself throws.
#[tactic(auto, using(crate::proofs::Knowing::faults_are))]
pub fn faults(set: &ClassSet) -> FaultClasses
    requires { Closed set.now }
    ensures { (k : Fault) → exception_of k ≡ name_at set.now (class_of_fault result k) }
{
    FaultClasses {
        arithmetic: thrown(set, "java/lang/ArithmeticException", 0),
        array_index: thrown(set, "java/lang/ArrayIndexOutOfBoundsException", 1),
        array_store: thrown(set, "java/lang/ArrayStoreException", 2),
        class_cast: thrown(set, "java/lang/ClassCastException", 3),
        incompatible_change: thrown(set, "java/lang/IncompatibleClassChangeError", 4),
        negative_size: thrown(set, "java/lang/NegativeArraySizeException", 5),
        null_pointer: thrown(set, "java/lang/NullPointerException", 6),
    }
}

/// The class `java/lang/Object`.
#[tactic(auto, using(crate::proofs::Knowing::object_missing, crate::proofs::Knowing::object_found))]
pub fn object_class(set: &ClassSet) -> u32
    requires { Closed set.now }
    ensures { name_at set.now result ≡ texts.object_name }
{
    match set.find("java/lang/Object") {
        Some(id) => id.0,
        None => unreachable!(),
    }
}

/// The class `java/lang/String`.
#[tactic(auto, using(crate::proofs::Knowing::string_missing, crate::proofs::Knowing::string_found))]
pub fn string_class(set: &ClassSet) -> u32
    requires { Closed set.now }
    ensures { texts.string_name ≡ name_at set.now result }
{
    match set.find("java/lang/String") {
        Some(id) => id.0,
        None => unreachable!(),
    }
}

#[tactic(auto, using(crate::proofs::Knowing::string_spelled))]
fn string_base(alloc: Global) -> Result<BaseType, AllocError>
    ensures { IfOk result (λ of. of ≡ texts.string_array.base) }
{
    Ok(BaseType::Class(Name::from_str(alloc, "java/lang/String")?))
}

/// The number of the type of the array that `main` is called with.
pub fn arguments_type(alloc: Global, tables: &mut Tables) -> Result<u32, AllocError>
    ensures grows { OnOk result (Grows tables.old tables.new) }
    ensures is { IfOk result (λ n. slice_get tables.new.types n ≡ Some texts.string_array) }
{
    let of = string_base(alloc)?;
    tables.ty(1, &of)
}

/// The number of the type of an array of characters.
pub fn chars_type(tables: &mut Tables) -> Result<u32, AllocError>
    ensures grows { OnOk result (Grows tables.old tables.new) }
    ensures is { IfOk result (λ n. slice_get tables.new.types n ≡ Some (primitive_array primitive.Char)) }
{
    tables.ty(1, &BaseType::Primitive(Primitive::Char))
}

#[tactic(auto, using(crate::proofs::Knowing::value_spelled))]
fn value_reference(alloc: Global) -> Result<FieldRef, AllocError>
    ensures { IfOk result (λ target. target ≡ value_field) }
{
    Ok(FieldRef {
        class: Name::from_str(alloc, "java/lang/String")?,
        name: Name::from_str(alloc, "value")?,
        ty: JType {
            depth: 1,
            base: BaseType::Primitive(Primitive::Char),
        },
    })
}

/// Whether a reference finds a field of an object.
#[tactic(auto, using(crate::proofs::Knowing::class_within, crate::proofs::Knowing::field_found))]
fn finds_object_field(set: &ClassSet, target: &FieldRef) -> bool
    ensures { FindsObjectField set.now target.now result }
{
    match set.resolve_field(target) {
        Some((class, index)) => match set.class(class).fields.get(index as usize) {
            Some(field) => !is_static(field.flags),
            None => false,
        },
        None => false,
    }
}

/// The place of the characters in a String. A class that is loaded has no two fields of one name and type, so the field that
/// is found is the one that a closed set has in `java/lang/String`.
pub fn value_place(
    alloc: Global,
    set: &ClassSet,
    before: &Seq<Before>,
) -> Result<Option<u32>, AllocError>
    requires closed { Closed set.now }
    requires rows { AreBefore set.now before.now (length set.now) }
    ensures { IfOk result (λ place. field_place set.now value_field ≡ place) }
{
    let target = value_reference(alloc)?;
    if !finds_object_field(set, &target) {
        return Err(AllocError);
    }
    let found = find_field(set, &target, false);
    Ok(Some(object_place(set, before, &target, &found)?))
}
