//! The initializers of classes, and the method that a run calls.

ghost use Rattle.std.specs.Prelude.{◌≡◌, ◌<◌, ◌++◌, IfOk, OnOk, Option, length, position, option_map, flat_map};
ghost use Rattle.set_lookups.specs.Lookups.{member_in};
ghost use Rattle.run_state.specs.SetLooks as looks;
ghost use Rattle.look_laws.specs.Shown.{first_with};
ghost use Rattle.program_links.specs.Before.{AreBefore};
ghost use Rattle.program_links.specs.Each.{Numbered};
ghost use Rattle.program_links.specs.Methods as methods;
ghost use Rattle.program_links.specs.RowTo.{StartsWith};
ghost use Rattle.program_links.specs.Starts.{start_of};

use crate::before::{Before, is_static, methods_in_front, sum};
use crate::fields::number;
use crate::natives::{is_text, takes_texts};
use class_model::{ClassDef, MethodDef};
use class_set::{ClassId, ClassSet};
use lists::Seq;
use std::alloc::{AllocError, Global};

fn is_initializer(method: &MethodDef) -> bool
    ensures { result ≡ looks.is_initializer method.now }
{
    is_text(&method.name, "<clinit>")
}

/// Whether a method is `main([Ljava/lang/String;)V`, static and not native.
fn is_main(method: &MethodDef) -> bool
    ensures { result ≡ looks.is_main method.now }
{
    is_text(&method.name, "main")
        && takes_texts(&method.desc)
        && is_static(method.flags)
        && method.flags & 256 == 0
}

fn place_of_initializer(class: &ClassDef) -> Option<usize>
    ensures { result ≡ position looks.is_initializer class.now.methods }
{
    class.methods.as_slice().iter().position(is_initializer)
}

pub fn place_of_main(class: &ClassDef) -> Option<usize>
    ensures { result ≡ position looks.is_main class.now.methods }
{
    class.methods.as_slice().iter().position(is_main)
}

/// The number of a method of a class, where there is one.
fn numbered(
    set: &ClassSet,
    before: &Seq<Before>,
    class: u32,
    place: Option<usize>,
) -> Result<Option<u32>, AllocError>
    requires rows { AreBefore set.now before.now (length set.now) }
    requires there { class < length set.now }
    ensures { IfOk result (λ n. option_map (methods.method_number set.now) (member_in class place) ≡ n) }
{
    match place {
        Some(index) => Ok(Some(number(sum(methods_in_front(set, before, class), index)?)?)),
        None => Ok(None),
    }
}

/// The number of the initializer of a class.
#[tactic(auto, using(crate::proofs::Started::first_at))]
fn initializer(set: &ClassSet, before: &Seq<Before>, class: u32) -> Result<Option<u32>, AllocError>
    requires rows { AreBefore set.now before.now (length set.now) }
    requires there { class < length set.now }
    ensures { IfOk result (StartsWith set.now class) }
{
    let place = place_of_initializer(set.class(ClassId(class)));
    numbered(set, before, class, place)
}

/// The number of the method that a run calls.
#[tactic(auto, using(crate::proofs::Started::first_at))]
pub fn main_method(
    set: &ClassSet,
    before: &Seq<Before>,
    class: u32,
) -> Result<Option<u32>, AllocError>
    requires rows { AreBefore set.now before.now (length set.now) }
    requires there { class < length set.now }
    ensures { IfOk result (λ n. option_map (methods.method_number set.now) (first_with set.now looks.is_main class) ≡ n) }
{
    let place = place_of_main(set.class(ClassId(class)));
    numbered(set, before, class, place)
}

/// The number of the initializer of each class.
#[tactic(auto, using(crate::proofs::EachMore::numbered_more, crate::proofs::EachMore::none_numbered))]
pub fn all_initializers(
    alloc: Global,
    set: &ClassSet,
    before: &Seq<Before>,
) -> Result<Seq<Option<u32>>, AllocError>
    requires rows { AreBefore set.now before.now (length set.now) }
    ensures { IfOk result (λ starts. Numbered (StartsWith set.now) starts (length set.now)) }
{
    let mut starts = Seq::new(alloc);
    for class in 0..set.len() {
        starts.push(initializer(set, before, class)?)?;
    }
    Ok(starts)
}

/// Puts the initializer of a class behind the others, if it has one.
fn push_start(
    numbers: &mut Seq<u32>,
    starts: &Seq<Option<u32>>,
    class: u32,
) -> Result<(), AllocError>
    ensures { OnOk result (numbers.new ≡ numbers.old ++ start_of starts.now class) }
{
    match starts.get(class as usize) {
        Some(Some(number)) => numbers.push(*number),
        _ => Ok(()),
    }
}

/// The initializers of a class and those above it, the lowest one first.
#[tactic(auto, using(crate::proofs::Gathered::gathered_more, crate::proofs::Gathered::gathered_none, crate::proofs::Gathered::all_gathered))]
pub fn starts_along(
    alloc: Global,
    starts: &Seq<Option<u32>>,
    classes: &Seq<u32>,
) -> Result<Seq<u32>, AllocError>
    ensures { IfOk result (λ numbers. numbers ≡ flat_map (start_of starts.now) classes.now) }
{
    let mut numbers = Seq::new(alloc);
    for at in 0..classes.len() {
        push_start(&mut numbers, starts, *classes.at(at))?;
    }
    Ok(numbers)
}
