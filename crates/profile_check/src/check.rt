//! The whole check.

ghost use Rattle.std.specs.Prelude.{◌≡◌, ⊤, Err, MatchResult, OnOk, ◌⊎◌};
ghost use Rattle.profile_check.specs.declared.profile.OutOfProfile.{OutOfProfile as Fault};
ghost use Rattle.profile_check.specs.Answer.{Tells};
ghost use Rattle.profile_check.specs.First.{first};
ghost use Rattle.profile_check.specs.Rows as row;
ghost use Rattle.profile_check.specs.Profile.{Profile, FirstProfile, flag_rows, name_rows, method_rows, last_rows, rows, answer, IsCounted};

use crate::fields::{check_constants, check_field_flags};
use crate::header::{check_class_flags, check_super, check_version};
use crate::methods::{
    check_code_shape, check_initializers, check_interface_methods, check_method_flags,
    check_natives, check_params,
};
use crate::profile::{Names, ProfileStop};
use crate::rule::Rule;
use crate::twice::check_twice;
use crate::walk_class::walk_class;
use class_model::ClassDef;
use std::alloc::Global;

fn check_reserved(names: Names, class: &ClassDef) -> Result<(), ProfileStop>
    requires { IsCounted class.now }
    ensures { Tells result (row.reserved_row names class.now) }
{
    match names {
        Names::Source => walk_class(Rule::Reserved, class),
        Names::Written => Ok(()),
    }
}

fn check_flags(class: &ClassDef) -> Result<(), ProfileStop>
    requires { IsCounted class.now }
    ensures { Tells result (first (answer class.now) flag_rows) }
{
    check_version(class)?;
    check_class_flags(class)?;
    check_field_flags(class)?;
    check_method_flags(class)
}

fn check_names(names: Names, class: &ClassDef) -> Result<(), ProfileStop>
    requires { IsCounted class.now }
    ensures { Tells result (first (answer class.now) (name_rows names)) }
{
    walk_class(Rule::FloatType, class)?;
    walk_class(Rule::BadName, class)?;
    check_reserved(names, class)
}

fn check_methods(names: Names, class: &ClassDef) -> Result<(), ProfileStop>
    requires { IsCounted class.now }
    ensures { Tells result (first (answer class.now) (method_rows names)) }
{
    check_code_shape(class)?;
    check_natives(names, class)?;
    check_interface_methods(class)?;
    check_initializers(class)
}

fn check_rest(class: &ClassDef) -> Result<(), ProfileStop>
    requires { IsCounted class.now }
    ensures { Tells result (first (answer class.now) last_rows) }
{
    check_constants(class)?;
    check_twice(class)?;
    check_params(class)?;
    check_super(class)?;
    walk_class(Rule::OutName, class)?;
    walk_class(Rule::ArrayMember, class)
}

/// The rows one after the other.
fn check_rows(class: &ClassDef, names: Names) -> Result<(), ProfileStop>
    requires { IsCounted class.now }
    ensures { Tells result (first (answer class.now) (rows names)) }
{
    check_flags(class)?;
    check_names(names, class)?;
    check_methods(names, class)?;
    check_rest(class)
}

/// Whether a class is in the profile, this project's own rules: `Out` holds the first row that
/// refuses it, in the order of `ProfileKind`, with the first place in file order that the row refuses.
pub fn check_profile(_alloc: Global, class: &ClassDef, names: Names) -> Result<(), ProfileStop>
    requires { IsCounted class.now }
    ensures tells { Tells result (first (answer class.now) (rows names)) }
    ensures ok { OnOk result (Profile names class.now) }
    ensures passes { Profile names class.now → MatchResult result (λ _. ⊤) (λ stop. stop ≡ ProfileStop.Memory) }
    ensures out { (fault : Fault) → result ≡ Err (ProfileStop.Out fault) → FirstProfile names class.now fault }
    ensures refused { (fault : Fault) → FirstProfile names class.now fault → MatchResult result (λ _. ⊥) (λ stop. (stop ≡ ProfileStop.Out fault) ⊎ (stop ≡ ProfileStop.Memory)) }
{
    check_rows(class, names)
}
