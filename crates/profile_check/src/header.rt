//! The rows of the profile on what stands before the members of a class.

ghost use Rattle.std.specs.Prelude.{◌≡◌};
ghost use Rattle.lists.specs.Texts.{units_of};
ghost use Rattle.profile_check.specs.Answer.{Tells};
ghost use Rattle.profile_check.specs.Mentions.{outside};
ghost use Rattle.profile_check.specs.Walks.{fault_if};
ghost use Rattle.profile_check.specs.Rows as row;

use crate::flags::has_bad_class_flags;
use crate::methods::is_interface;
use crate::names::is_text;
use crate::profile::{OutOfProfile, ProfileKind, ProfileStop};
use class_model::ClassDef;
use lists::Name;

/// The refusal of a class as a whole.
fn at_class(refused: bool, kind: ProfileKind) -> Result<(), ProfileStop>
    ensures { Tells result (fault_if refused kind outside) }
{
    if refused {
        return Err(ProfileStop::Out(OutOfProfile {
            kind,
            member: None,
            at: None,
        }));
    }
    Ok(())
}

pub fn check_version(class: &ClassDef) -> Result<(), ProfileStop>
    ensures { Tells result (row.version_row class.now) }
{
    let major = class.major;
    let known = major == 50 || major == 51 || major == 52;
    at_class(!known, ProfileKind::Version(major))
}

pub fn check_class_flags(class: &ClassDef) -> Result<(), ProfileStop>
    ensures { Tells result (row.class_flags_row class.now) }
{
    at_class(has_bad_class_flags(class.flags), ProfileKind::ClassFlags)
}

fn is_object(name: &Option<Name>) -> bool
    ensures { result ≡ row.is_object name.now }
{
    match name {
        Some(name) => is_text(name, "java/lang/Object"),
        None => false,
    }
}

fn has_bad_super(class: &ClassDef) -> bool
    ensures { result ≡ row.has_bad_super class.now }
{
    if is_text(&class.name, "java/lang/Object") {
        class.super_name.is_some() || is_interface(class)
    } else {
        class.super_name.is_none() || (is_interface(class) && !is_object(&class.super_name))
    }
}

pub fn check_super(class: &ClassDef) -> Result<(), ProfileStop>
    ensures { Tells result (row.super_row class.now) }
{
    at_class(has_bad_super(class), ProfileKind::Super)
}
