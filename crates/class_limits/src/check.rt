//! The limits of a class, in order.

ghost use Rattle.class_limits.specs.Limits.{Tells, first_limit};

use crate::branches::far_in_methods;
use crate::codes::{bad_in_class, large_in_class};
use crate::limit::{EncodeKind, EncodeStop};
use crate::{lengths, texts};
use class_model::ClassDef;
use std::alloc::Global;

/// The first limit of the class file format that a class passes in the spelling that is written, that of the constant
/// pool aside (JVMS 4.11): the kinds are judged in the order of `EncodeKind`, each over the whole class, and the first
/// place in file order is told. Takes memory for the offsets of the instructions of one method at a time, and only
/// where its code has over 32,767 bytes.
#[tactic(auto, unfolding(crate::specs::Limits::first_limit))]
pub fn check_limits(alloc: Global, class: &ClassDef) -> Result<(), EncodeStop>
    ensures { Tells result (first_limit class.now) }
{
    if let Some(bytes) = texts::long_in_class(class) {
        return Err(EncodeStop::Limit(EncodeKind::Text, bytes));
    }
    if let Some(count) = large_in_class(class) {
        return Err(EncodeStop::Limit(EncodeKind::Count, count));
    }
    if let Some(bytes) = bad_in_class(class) {
        return Err(EncodeStop::Limit(EncodeKind::Code, bytes));
    }
    if let Some(distance) = far_in_methods(alloc, class.methods.as_slice())? {
        return Err(EncodeStop::Limit(EncodeKind::Branch, distance));
    }
    if let Some(bytes) = lengths::long_in_class(class) {
        return Err(EncodeStop::Limit(EncodeKind::Length, bytes));
    }
    Ok(())
}
