//! Attributes whose content is too long (JVMS 4.7), those outside before those in them.

ghost use Rattle.std.specs.Prelude.{◌≡◌, ◌∷◌, [], nat_lt, sum_by, option_map, None};
ghost use Rattle.class_limits.specs.Limits.{told, first_over};
ghost use Rattle.class_limits.specs.Lengths as lengths;

use crate::finder::{Finder, find_if, find_in};
use crate::layout::code_size;
use class_model::{ClassDef, CodeDef, Frame, MethodDef, VType};

/// The most bytes of the content of an attribute.
const MOST: u64 = 4_294_967_295;

#[tactic(auto, unfolding(crate::specs::Lengths::length_of), using(crate::proofs::LengthLaws::long_is))]
fn long(length: u64) -> Option<u64>
    ensures { result ≡ first_over 4294967295 (lengths.length_of length) }
{
    if length > MOST { Some(length) } else { None }
}

#[tactic(auto, using(crate::proofs::LengthLaws::long_none, crate::proofs::LengthLaws::long_some))]
fn long_if(length: Option<u64>) -> Option<u64>
    ensures { result ≡ first_over 4294967295 (lengths.lengths_if length) }
{
    long(length?)
}

/// The content of an attribute that is a table of rows of so many bytes, where there is a row.
#[tactic(auto, using(crate::proofs::LengthLaws::table_empty, crate::proofs::LengthLaws::table_some))]
fn table_length<T>(row: u64, rows: &[T]) -> Option<u64>
    ensures { result ≡ option_map told (lengths.table_length row rows.now) }
{
    if rows.is_empty() {
        return None;
    }
    Some(row.saturating_mul(rows.len() as u64).saturating_add(2))
}

fn type_length(ty: &VType) -> u64
    ensures { result ≡ lengths.type_length ty.now }
{
    match ty {
        VType::Ref(_) | VType::Uninit(_) => 3,
        VType::Top | VType::Int | VType::Long | VType::Null | VType::UninitThis => 1,
    }
}

#[tactic(auto, using(crate::proofs::LengthLaws::sum_none, crate::proofs::LengthLaws::sum_more, crate::proofs::LengthLaws::sum_all))]
fn types_length(types: &[VType]) -> u64
    ensures { result ≡ told (sum_by lengths.type_length types.now) }
{
    let mut length: u64 = 0;
    for ty in types {
        length = length.saturating_add(type_length(ty));
    }
    length
}

fn frame_length(row: &(u32, Frame)) -> u64
    ensures { result ≡ told (lengths.frame_length row.now) }
{
    types_length(row.1.locals.as_slice())
        .saturating_add(types_length(row.1.stack.as_slice()))
        .saturating_add(7)
}

#[tactic(auto, using(crate::proofs::LengthLaws::sum_none, crate::proofs::LengthLaws::sum_more, crate::proofs::LengthLaws::sum_all))]
fn frames_sum(rows: &[(u32, Frame)]) -> u64
    ensures { result ≡ told (sum_by lengths.frame_length rows.now) }
{
    let mut length: u64 = 0;
    for row in rows {
        length = length.saturating_add(frame_length(row));
    }
    length
}

/// The content of StackMapTable (JVMS 4.7.4), where there is a frame.
#[tactic(auto, using(crate::proofs::LengthLaws::frames_empty, crate::proofs::LengthLaws::frames_some))]
fn frames_length(rows: &[(u32, Frame)]) -> Option<u64>
    ensures { result ≡ option_map told (lengths.frames_length rows.now) }
{
    if rows.is_empty() {
        return None;
    }
    Some(frames_sum(rows).saturating_add(2))
}

/// An attribute with its name and its length, where it is there.
fn whole_length(content: Option<u64>) -> u64
    ensures { result ≡ told (lengths.whole_length content) }
{
    match content {
        Some(content) => content.saturating_add(6),
        None => 0,
    }
}

/// The content of Code (JVMS 4.7.3), by those of the attributes in it.
#[tactic(auto, unfolding(crate::specs::Lengths::code_length), using(crate::proofs::LengthLaws::whole_told))]
fn code_length(code: &CodeDef, frames: Option<u64>, lines: Option<u64>) -> u64
    requires frames_are { frames ≡ option_map told (lengths.frames_length code.now.frames) }
    requires lines_are { lines ≡ option_map told (lengths.table_length 4 code.now.lines) }
    ensures { result ≡ told (lengths.code_length code.now) }
{
    let handlers = (code.handlers.len() as u64).saturating_mul(8);
    code_size(code)
        .saturating_add(handlers)
        .saturating_add(whole_length(frames))
        .saturating_add(whole_length(lines))
        .saturating_add(12)
}

/// What finds the first attribute whose content is too long.
pub(crate) struct Lengths;

impl Finder<CodeDef> for Lengths {
    ghost found = { λ code. first_over 4294967295 (lengths.code_lengths code) };

    #[tactic(auto, using(crate::proofs::First::over_append, crate::proofs::LengthLaws::told_one, crate::proofs::LengthLaws::told_if))]
    fn find(&self, code: &CodeDef) -> Option<u64> {
        let frames = frames_length(code.frames.as_slice());
        let lines = table_length(4, code.lines.as_slice());
        long(code_length(code, frames, lines))
            .or(long_if(frames))
            .or(long_if(lines))
    }
}

impl Finder<MethodDef> for Lengths {
    ghost found = { λ method. first_over 4294967295 (lengths.method_lengths method) };

    #[tactic(auto, using(crate::proofs::First::over_append, crate::proofs::First::over_flat, crate::proofs::LengthLaws::told_if))]
    fn find(&self, method: &MethodDef) -> Option<u64> {
        find_if(self, &method.code).or(long_if(table_length(2, method.throws.as_slice())))
    }
}

/// The bytes of the first content of an attribute of a class that is too long. A constant and a source file are
/// never so.
#[tactic(auto, unfolding(crate::specs::Lengths::class_lengths), using(crate::proofs::First::over_append, crate::proofs::First::over_flat, crate::proofs::LengthLaws::told_if, crate::proofs::LengthLaws::short_fields, crate::proofs::LengthLaws::short_index))]
pub(crate) fn long_in_class(class: &ClassDef) -> Option<u64>
    ensures { result ≡ first_over 4294967295 (lengths.class_lengths class.now) }
{
    find_in(&Lengths, class.methods.as_slice()).or(long_if(table_length(8, class.inner.as_slice())))
}
