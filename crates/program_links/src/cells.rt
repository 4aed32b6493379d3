//! What fresh objects and the static fields hold.

ghost use Rattle.std.specs.Prelude.{◌≡◌, ◌<◌, ◌++◌, IfOk, OnOk, length, flat_map, map, filter, reverse, slice_get, if◌then◌else◌};
ghost use Rattle.std.specs.Option.{option_copied};
ghost use Rattle.run_state.specs.Words as words;
ghost use Rattle.run_state.specs.Unwinding as defaults;
ghost use Rattle.run_state.specs.SetLooks as looks;
ghost use Rattle.program_links.specs.Cells.{cell_of, own_cells, cells_of, static_cell, statics_of};
ghost use Rattle.program_links.specs.Upwards.{AreClasses};

use crate::before::is_static;
use class_model::{BaseType, ClassDef, Constant, FieldDef, JType, Primitive};
use class_set::{ClassId, ClassSet};
use lists::Seq;
use machine_words::{Tag, Word};
use std::alloc::{AllocError, Global};

fn default_primitive<T: Tag>(primitive: Primitive) -> Word<T>
    ensures { result ≡ defaults.default_primitive T.none_of primitive }
{
    match primitive {
        Primitive::Long => Word::long(0, T::none()),
        _ => Word::num(0, T::none()),
    }
}

/// The default value of a type without dimensions (JVMS 2.3, 2.4).
pub fn default_base<T: Tag>(base: &BaseType) -> Word<T>
    ensures { result ≡ defaults.default_base T.none_of base.now }
{
    match base {
        BaseType::Primitive(primitive) => default_primitive(*primitive),
        BaseType::Class(_) => Word::null(),
    }
}

fn default_word<T: Tag>(ty: &JType) -> Word<T>
    ensures { result ≡ defaults.default_of T.none_of ty.now }
{
    if ty.depth == 0 {
        default_base(&ty.base)
    } else {
        Word::null()
    }
}

/// What a static field holds at the start: its constant, or the default of its type (JVMS 4.7.2, 5.5).
fn first_word<T: Tag>(ty: &JType, constant: Option<&Constant>) -> Word<T>
    ensures { result ≡ looks.first_value T.none_of ty.now (option_copied constant.entry) }
{
    match constant {
        Some(Constant::Int(value)) => Word::num(*value, T::none()),
        Some(Constant::Long(value)) => Word::long(*value, T::none()),
        Some(Constant::Text(_)) => default_word(ty),
        None => default_word(ty),
    }
}

/// Puts the default of a field behind the others, if the field is an object's.
fn push_cell<T: Tag>(cells: &mut Seq<Word<T>>, field: &FieldDef) -> Result<(), AllocError>
    ensures { OnOk result (cells.new ≡ cells.old ++ cell_of T.none_of field.now) }
{
    if is_static(field.flags) {
        return Ok(());
    }
    cells.push(default_word(&field.ty))
}

/// Puts those of the fields of a class behind the others.
#[tactic(auto, using(crate::proofs::Gathered::onto_none, crate::proofs::Gathered::onto_more, crate::proofs::Gathered::all_onto))]
fn push_cells<T: Tag>(cells: &mut Seq<Word<T>>, fields: &Seq<FieldDef>) -> Result<(), AllocError>
    ensures { OnOk result (cells.new ≡ cells.old ++ flat_map (cell_of T.none_of) fields.now) }
{
    for at in 0..fields.len() {
        push_cell(cells, fields.at(at))?;
    }
    Ok(())
}

/// A list with its last item first.
fn backwards(alloc: Global, numbers: &Seq<u32>) -> Result<Seq<u32>, AllocError>
    ensures { IfOk result (λ back. back ≡ reverse numbers.now) }
{
    let mut items = Vec::from_slice(alloc, numbers.as_slice())?;
    items.reverse();
    Ok(Seq::from_vec(items))
}

#[tactic(auto, using(crate::proofs::Gathered::gathered_more, crate::proofs::Gathered::gathered_none, crate::proofs::Gathered::all_gathered, crate::proofs::Celled::class_cells))]
fn cells_along<T: Tag>(
    alloc: Global,
    set: &ClassSet,
    classes: &Seq<u32>,
) -> Result<Seq<Word<T>>, AllocError>
    requires { AreClasses set.now classes.now }
    ensures { IfOk result (λ cells. cells ≡ flat_map (cells_of T.none_of set.now) classes.now) }
{
    let mut cells = Seq::new(alloc);
    for at in 0..classes.len() {
        let class = set.class(ClassId(*classes.at(at)));
        push_cells(&mut cells, &class.fields)?;
    }
    Ok(cells)
}

/// What a fresh object holds of the fields of its class and of those above it, the uppermost class's first.
#[tactic(auto, using(crate::proofs::Celled::classes_back))]
pub fn fresh_cells<T: Tag>(
    alloc: Global,
    set: &ClassSet,
    classes: &Seq<u32>,
) -> Result<Seq<Word<T>>, AllocError>
    requires { AreClasses set.now classes.now }
    ensures { IfOk result (λ cells. cells ≡ flat_map (cells_of T.none_of set.now) (reverse classes.now)) }
{
    let back = backwards(alloc, classes)?;
    cells_along(alloc, set, &back)
}

fn push_static<T: Tag>(statics: &mut Seq<Word<T>>, field: &FieldDef) -> Result<(), AllocError>
    ensures { OnOk result (statics.new ≡ statics.old ++ static_cell T.none_of field.now) }
{
    if !is_static(field.flags) {
        return Ok(());
    }
    statics.push(first_word(&field.ty, field.constant.as_ref()))
}

#[tactic(auto, using(crate::proofs::Gathered::onto_none, crate::proofs::Gathered::onto_more, crate::proofs::Gathered::all_onto))]
fn push_statics<T: Tag>(
    statics: &mut Seq<Word<T>>,
    fields: &Seq<FieldDef>,
) -> Result<(), AllocError>
    ensures { OnOk result (statics.new ≡ statics.old ++ flat_map (static_cell T.none_of) fields.now) }
{
    for at in 0..fields.len() {
        push_static(statics, fields.at(at))?;
    }
    Ok(())
}

/// What the static fields hold at the start, class by class.
#[tactic(auto, using(crate::proofs::Gathered::gathered_more, crate::proofs::Gathered::gathered_none, crate::proofs::Gathered::all_gathered, crate::proofs::Celled::statics_are))]
pub fn first_statics<T: Tag>(alloc: Global, set: &ClassSet) -> Result<Seq<Word<T>>, AllocError>
    ensures { IfOk result (λ statics. statics ≡ looks.first_statics T.none_of set.now) }
{
    let mut statics = Seq::new(alloc);
    for number in 0..set.len() {
        push_statics(&mut statics, &set.class(ClassId(number)).fields)?;
    }
    Ok(statics)
}
