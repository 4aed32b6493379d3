//! Counts, and the sizes of code.

ghost use Rattle.std.specs.Prelude.{◌≡◌, ◌∷◌, [], nat_lt, length, Option, None, Some, flat_map, if◌then◌else◌};
ghost use Rattle.class_limits.specs.Limits.{first, first_over, first_that, bad_size, is_bad_size, codes_in};
ghost use Rattle.class_limits.specs.Counts as counts;

use crate::finder::{Finder, find_if, find_in};
use crate::layout::code_size;
use class_model::{ClassDef, CodeDef, Frame, MethodDef};

/// The most that a count of two bytes can be, and the most bytes of code.
const MOST: u64 = 65_535;

/// What finds the first count of two bytes that is too large.
pub(crate) struct Counts;

#[tactic(auto, unfolding(crate::specs::Counts::count_of, crate::specs::Limits::first_over))]
fn large<T>(items: &[T]) -> Option<u64>
    ensures { result ≡ first_over 65535 (counts.count_of items.now) }
{
    let count = items.len() as u64;
    if count > MOST { Some(count) } else { None }
}

impl Finder<(u32, Frame)> for Counts {
    ghost found = { λ row. first_over 65535 (counts.frame_counts row) };

    #[tactic(auto, using(crate::proofs::First::over_append))]
    fn find(&self, row: &(u32, Frame)) -> Option<u64> {
        large(row.1.locals.as_slice()).or(large(row.1.stack.as_slice()))
    }
}

impl Finder<CodeDef> for Counts {
    ghost found = { λ code. first_over 65535 (counts.code_counts code) };

    #[tactic(auto, using(crate::proofs::First::over_append, crate::proofs::First::over_flat))]
    fn find(&self, code: &CodeDef) -> Option<u64> {
        large(code.handlers.as_slice())
            .or(large(code.frames.as_slice()))
            .or(find_in(self, code.frames.as_slice()))
            .or(large(code.lines.as_slice()))
    }
}

impl Finder<MethodDef> for Counts {
    ghost found = { λ method. first_over 65535 (counts.method_counts method) };

    #[tactic(auto, using(crate::proofs::First::over_append, crate::proofs::First::over_flat))]
    fn find(&self, method: &MethodDef) -> Option<u64> {
        find_if(self, &method.code).or(large(method.throws.as_slice()))
    }
}

#[tactic(auto, unfolding(crate::specs::Counts::header_counts), using(crate::proofs::First::over_append))]
fn large_in_header(class: &ClassDef) -> Option<u64>
    ensures { result ≡ first_over 65535 (counts.header_counts class.now) }
{
    large(class.interfaces.as_slice())
        .or(large(class.fields.as_slice()))
        .or(large(class.methods.as_slice()))
}

/// The first count of two bytes of a class that is too large.
#[tactic(auto, unfolding(crate::specs::Counts::class_counts), using(crate::proofs::First::over_append, crate::proofs::First::over_flat))]
pub(crate) fn large_in_class(class: &ClassDef) -> Option<u64>
    ensures { result ≡ first_over 65535 (counts.class_counts class.now) }
{
    large_in_header(class)
        .or(find_in(&Counts, class.methods.as_slice()))
        .or(large(class.inner.as_slice()))
}

/// What finds the first code that is empty or too long.
pub(crate) struct CodeSizes;

impl Finder<CodeDef> for CodeSizes {
    ghost found = { λ code. bad_size (code ∷ []) };

    #[tactic(auto, using(crate::proofs::First::bad_one))]
    fn find(&self, code: &CodeDef) -> Option<u64> {
        let size = code_size(code);
        if size == 0 || size > MOST {
            Some(size)
        } else {
            None
        }
    }
}

impl Finder<MethodDef> for CodeSizes {
    ghost found = { λ method. bad_size (codes_in method) };

    #[tactic(auto, using(crate::proofs::First::bad_each))]
    fn find(&self, method: &MethodDef) -> Option<u64> {
        find_if(self, &method.code)
    }
}

/// The bytes of the first code of a class that is empty or too long.
#[tactic(auto, using(crate::proofs::First::bad_flat))]
pub(crate) fn bad_in_class(class: &ClassDef) -> Option<u64>
    ensures { result ≡ bad_size (flat_map codes_in class.now.methods) }
{
    find_in(&CodeSizes, class.methods.as_slice())
}
