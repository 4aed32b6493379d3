//! Declared frames.

ghost use Rattle.std.specs.Prelude.{◌≡◌, [], ◌∷◌, ◌++◌, List, false, reverse, IfOk, OnOk};
ghost use Rattle.std.specs.Cmp.Lexicographic.{pointwise};
ghost use Rattle.std.specs.Option.{option_copied};
ghost use Rattle.std.specs.List.{list_any};
ghost use Rattle.std.specs.List.Sorted.{IsNonDecreasingBy};
ghost use Rattle.class_model.specs.declared.class.VType.{VType as EntryType};
ghost use Rattle.class_set.specs.Assignable.{assignable, in_front, in_words, words_go, has_uninit_this};
ghost use Rattle.class_set.specs.Walk.{first_word, later_words, words_behind};
ghost use Rattle.verifier.specs.Set.{place_of as number_of};
ghost use Rattle.verifier.specs.Place.{IsPlace};
ghost use Rattle.verifier.specs.Frames.{declared_at, padded, types_of, entries_from, frame_of, goes, is_top, is_shaped};

use class_model::{Frame, VType};
use class_set::{ClassSet, any_uninit_this, is_long};
use lists::Seq;
use std::alloc::{AllocError, Global};
use type_rows::{Checked, Locals, Operands, TypeState, fits};

/// The number of the frames that stand in front of an instruction, among frames in order.
fn place(frames: &[(u32, Frame)], at: u32) -> usize
    requires { IsNonDecreasingBy number_of frames.now }
    ensures { IsPlace frames.now at result }
{
    frames.partition_point(|row| row.0 < at)
}

/// The frame that is declared at an instruction, among frames in order.
#[tactic(auto, using(crate::proofs::Declared::this_place, crate::proofs::Declared::other_place, crate::proofs::Declared::no_place))]
pub fn declared_at(frames: &[(u32, Frame)], at: u32) -> Option<&Frame>
    requires { IsNonDecreasingBy number_of frames.now }
    ensures { option_copied result ≡ declared_at frames.now at }
{
    match frames.get(place(frames, at)) {
        None => None,
        Some(row) => { if row.0 == at { Some(&row.1) } else { None } }
    }
}

/// Puts the words of an entry behind others.
fn push_words(words: &mut Vec<VType>, ty: &VType) -> Result<(), AllocError>
    ensures { OnOk result (words.new.items ≡ words.old.items ++ in_front ty.now []) }
{
    words.push(ty.clone()?)?;
    if is_long(ty) {
        words.push(VType::Top)?;
    }
    Ok(())
}

/// Locals word by word.
fn in_words(alloc: Global, entries: &[VType]) -> Result<Vec<VType>, AllocError>
    ensures { IfOk result (λ words. words.items ≡ in_words entries.now) }
{
    let mut words = Vec::new(alloc);
    for ty in entries {
        push_words(&mut words, ty)?;
    }
    Ok(words)
}

/// Fills locals up with Top.
#[tactic(auto, using(crate::proofs::Words::replicate_push))]
fn pad(words: &mut Vec<VType>, most: u16) -> Result<(), AllocError>
    ensures { OnOk result (words.new.items ≡ padded most words.old.items) }
{
    let missing = (most as usize).saturating_sub(words.len());
    for filled in 0..missing {
        words.push(VType::Top)?;
    }
    Ok(())
}

/// The operands of a frame.
fn operands_of(frame: &Frame) -> Result<Operands, AllocError>
    ensures { IfOk result (λ stack. stack ≡ reverse frame.now.stack) }
{
    Ok(Operands::from_lowest(frame.stack.clone()?.into_vec()))
}

/// The types that a frame says.
pub fn types_of(alloc: Global, method: &Checked, frame: &Frame) -> Result<TypeState, AllocError>
    ensures { IfOk result (λ types. types ≡ types_of method.now frame.now) }
{
    let mut words = in_words(alloc, frame.locals.as_slice())?;
    pad(&mut words, method.code().max_locals)?;
    Ok(TypeState {
        locals: Locals::from_vec(words),
        stack: operands_of(frame)?,
    })
}

/// Puts the entry of a word behind others, where the word is not the second of a long; whether the next one is.
#[tactic(auto, using(crate::proofs::Words::append_one))]
fn push_entry(entries: &mut Seq<VType>, in_long: bool, ty: &VType) -> Result<bool, AllocError>
    ensures { IfOk result (λ next. (rest : List EntryType) → entries.new ++ entries_from next rest ≡ entries.old ++ entries_from in_long (ty.now ∷ rest)) }
{
    if in_long {
        return Ok(false);
    }
    entries.push(ty.clone()?)?;
    Ok(is_long(ty))
}

/// Words as entries.
fn entries_of(alloc: Global, words: &[VType]) -> Result<Seq<VType>, AllocError>
    ensures { IfOk result (λ entries. entries ≡ entries_from false words.now) }
{
    let mut entries = Seq::new(alloc);
    let mut in_long = false;
    for ty in words {
        in_long = push_entry(&mut entries, in_long, ty)?;
    }
    Ok(entries)
}

/// The operands as a list with the lowest first.
fn stack_of(stack: &Operands) -> Result<Seq<VType>, AllocError>
    ensures { IfOk result (λ entries. entries ≡ reverse stack.now) }
{
    Ok(Seq::from_vec(stack.clone()?.into_lowest()))
}

/// The frame that says the types.
pub fn frame_of(alloc: Global, types: &TypeState) -> Result<Frame, AllocError>
    ensures { IfOk result (λ frame. frame ≡ frame_of types.now) }
{
    Ok(Frame {
        locals: entries_of(alloc, types.locals.as_slice())?,
        stack: stack_of(&types.stack)?,
    })
}

/// Whether the first word, Top where there is none, goes to a type.
fn first_goes(set: &ClassSet, words: &[VType], wanted: &VType) -> bool
    ensures { result ≡ assignable set.now (first_word words.now) wanted.now }
{
    match words.first() {
        None => set.assignable(&VType::Top, wanted),
        Some(ty) => set.assignable(ty, wanted),
    }
}

/// All but the first word.
fn later<'a>(words: &'a [VType]) -> &'a [VType]
    ensures { result.now ≡ later_words words.now }
{
    if words.is_empty() {
        return words;
    }
    &words[1..]
}

/// The words behind an entry.
fn behind<'a>(entry: &VType, words: &'a [VType]) -> &'a [VType]
    ensures { result.now ≡ words_behind entry.now words.now }
{
    let rest = later(words);
    if is_long(entry) {
        return later(rest);
    }
    rest
}

/// Whether words of locals go to the locals of a frame.
#[tactic(auto, using(class_set::proofs::Assigned::words_go_more))]
pub fn locals_go(set: &ClassSet, words: &[VType], entries: &[VType]) -> bool
    ensures { result ≡ words_go set.now words.now (in_words entries.now) }
{
    let mut rest = words;
    for wanted in entries {
        if !first_goes(set, rest, wanted) {
            return false;
        }
        rest = behind(wanted, rest);
    }
    true
}

#[tactic(auto, using(crate::proofs::Words::pointwise_reverse))]
fn operands_go(set: &ClassSet, stack: &Operands, entries: &[VType]) -> bool
    ensures { result ≡ pointwise (assignable set.now) stack.now (reverse entries.now) }
{
    set.operands_assignable(stack.as_slice(), entries)
}

/// Whether a frame holds the object of a constructor, not initialised.
fn has_uninit_this(frame: &Frame) -> bool
    ensures { result ≡ has_uninit_this frame.now.locals frame.now.stack }
{
    any_uninit_this(frame.locals.as_slice()) || any_uninit_this(frame.stack.as_slice())
}

/// Whether the types go to a frame.
pub fn goes(method: &Checked, types: &TypeState, frame: &Frame) -> bool
    ensures { result ≡ goes method.now types.now frame.now }
{
    operands_go(method.set(), &types.stack, frame.stack.as_slice())
        && locals_go(
            method.set(),
            types.locals.as_slice(),
            frame.locals.as_slice(),
        )
        && (!types.has_uninit_this() || has_uninit_this(frame))
}

fn is_top(ty: &VType) -> bool
    ensures { result ≡ is_top ty.now }
{
    matches!(ty, VType::Top)
}

fn any_top(types: &[VType]) -> bool
    ensures { result ≡ list_any is_top types.now }
{
    types.iter().any(|ty| is_top(ty))
}

/// Whether a frame has at most the words of the method, and no Top on its stack.
pub fn is_shaped(method: &Checked, frame: &Frame) -> bool
    ensures { result ≡ is_shaped method.now frame.now }
{
    let code = method.code();
    fits(frame.locals.as_slice(), code.max_locals)
        && fits(frame.stack.as_slice(), code.max_stack)
        && !any_top(frame.stack.as_slice())
}
