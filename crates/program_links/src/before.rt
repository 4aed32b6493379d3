//! How many methods and fields stand in front of those of each class.

ghost use Rattle.std.specs.Prelude.{◌≡◌, ◌<◌, ◌+◌, IfOk, filter, length};
ghost use Rattle.set_lookups.specs.Flags as table;
ghost use Rattle.look_laws.specs.Shown.{is_of_class, is_of_object, layout_above};
ghost use Rattle.program_links.specs.Before.{AreBefore};
ghost use Rattle.program_links.specs.Methods.{methods_before};

use class_model::{ClassDef, FieldDef};
use class_set::{ClassId, ClassSet};
use lists::Seq;
use std::alloc::{AllocError, Global};

/// The methods of the classes in front of a class, their static fields, and the fields of an object of its superclasses.
#[derive(Clone, Copy, Debug)]
pub struct Before {
    pub methods: usize,
    pub statics: usize,
    pub fields: usize,
}

pub fn is_static(flags: u16) -> bool
    ensures { result ≡ table.is_static flags }
{
    flags & 8 != 0
}

/// How many of some fields are static.
pub fn count_statics(fields: &[FieldDef]) -> usize
    ensures { result ≡ length (filter is_of_class fields.now) }
{
    fields.iter().filter(|field| is_static(field.flags)).count()
}

/// How many of some fields are an object's.
pub fn count_of_object(fields: &[FieldDef]) -> usize
    ensures { result ≡ length (filter is_of_object fields.now) }
{
    fields
        .iter()
        .filter(|field| !is_static(field.flags))
        .count()
}

pub fn sum(a: usize, b: usize) -> Result<usize, AllocError>
    ensures { IfOk result (λ s. s ≡ a + b) }
{
    match a.checked_add(b) {
        Some(sum) => Ok(sum),
        None => Err(AllocError),
    }
}

/// How many fields an object of the superclasses of a class has.
#[tactic(auto, using(crate::proofs::Counted::first_count, crate::proofs::Counted::no_more, crate::proofs::Counted::nowhere_more, crate::proofs::Counted::one_up, crate::proofs::Counted::at_end))]
fn count_above(set: &ClassSet, class: &ClassDef) -> Result<usize, AllocError>
    ensures { IfOk result (λ n. n ≡ length (layout_above set.now class.now)) }
{
    let mut next = class.super_name.as_ref();
    let mut count = 0;
    for _step in 0..set.len() {
        let Some(name) = next else {
            return Ok(count);
        };
        let Some(id) = set.find_name(name) else {
            return Ok(count);
        };
        let above = set.class(id);
        count = sum(count, count_of_object(above.fields.as_slice()))?;
        next = above.super_name.as_ref();
    }
    Ok(count)
}

/// What stands in front of each class's own.
#[tactic(auto, using(crate::proofs::Counted::before_more, crate::proofs::Counted::methods_more, crate::proofs::Counted::statics_more))]
pub fn count_before(alloc: Global, set: &ClassSet) -> Result<Seq<Before>, AllocError>
    ensures { IfOk result (λ rows. AreBefore set.now rows (length set.now)) }
{
    let mut rows = Seq::new(alloc);
    let mut methods = 0;
    let mut statics = 0;
    for number in 0..set.len() {
        let class = set.class(ClassId(number));
        let fields = count_above(set, class)?;
        rows.push(Before {
            methods,
            statics,
            fields,
        })?;
        methods = sum(methods, class.methods.len())?;
        statics = sum(statics, count_statics(class.fields.as_slice()))?;
    }
    Ok(rows)
}

/// How many methods the classes in front of a class have.
#[tactic(auto, using(crate::proofs::Counted::row_there, crate::proofs::Counted::methods_there))]
pub fn methods_in_front(_set: &ClassSet, before: &Seq<Before>, class: u32) -> usize
    requires rows { AreBefore _set.now before.now (length _set.now) }
    requires there { class < length _set.now }
    ensures { result ≡ methods_before _set.now class }
{
    before.at(class as usize).methods
}
