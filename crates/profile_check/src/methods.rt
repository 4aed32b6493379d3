//! The rows of the profile on methods.

ghost use Rattle.std.specs.Prelude.{◌≡◌, ◌<◌, ◌+◌, length, option_map, IfSome};
ghost use Rattle.profile_check.specs.Answer.{Tells};
ghost use Rattle.profile_check.specs.Members as table;
ghost use Rattle.profile_check.specs.Rows as row;
ghost use Rattle.profile_check.specs.Profile.{IsCounted};

use crate::flags::{ABSTRACT, FINAL, INTERFACE, NATIVE, PUBLIC, STATIC, has, has_bad_method_flags};
use crate::names::{is_clinit, is_init};
use crate::natives::is_native;
use crate::profile::{Names, OutOfProfile, ProfileKind, ProfileStop};
use crate::types::{takes_many_words, takes_nothing};
use class_model::{ClassDef, MethodDef};

pub fn is_interface(class: &ClassDef) -> bool
    ensures { result ≡ table.is_interface class.now }
{
    has(class.flags, INTERFACE)
}

fn is_static(method: &MethodDef) -> bool
    ensures { result ≡ table.is_static method.now }
{
    has(method.flags, STATIC)
}

fn has_bad_code_shape(method: &MethodDef) -> bool
    ensures { result ≡ table.has_bad_code_shape method.now }
{
    if has(method.flags, ABSTRACT) || has(method.flags, NATIVE) {
        method.code.is_some()
    } else {
        method.code.is_none()
    }
}

fn is_bad_native(names: Names, class: &ClassDef, method: &MethodDef) -> bool
    ensures { result ≡ table.is_bad_native names class.now method.now }
{
    has(method.flags, NATIVE) && !(is_static(method) && is_native(names, class, method))
}

fn is_bad_in_interface(class: &ClassDef, method: &MethodDef) -> bool
    ensures { result ≡ table.is_bad_in_interface class.now method.now }
{
    is_interface(class)
        && !(is_clinit(&method.name) || (has(method.flags, PUBLIC) && has(method.flags, ABSTRACT)))
}

fn is_bad_init(class: &ClassDef, method: &MethodDef) -> bool
    ensures { result ≡ table.is_bad_init class.now method.now }
{
    is_init(&method.name)
        && (is_static(method)
            || has(method.flags, FINAL)
            || has(method.flags, ABSTRACT)
            || has(method.flags, NATIVE)
            || is_interface(class)
            || method.desc.result.is_some())
}

fn is_bad_clinit(method: &MethodDef) -> bool
    ensures { result ≡ table.is_bad_clinit method.now }
{
    is_clinit(&method.name) && !(is_static(method) && takes_nothing(&method.desc))
}

fn is_bad_initializer(class: &ClassDef, method: &MethodDef) -> bool
    ensures { result ≡ table.is_bad_initializer class.now method.now }
{
    is_bad_init(class, method) || is_bad_clinit(method)
}

fn has_many_words(method: &MethodDef) -> bool
    ensures { result ≡ table.has_many_words method.now }
{
    takes_many_words(method.desc.params.as_slice(), !is_static(method))
}

/// The refusal of a method with this number among the methods of a class.
fn at_method(class: &ClassDef, found: Option<usize>, kind: ProfileKind) -> Result<(), ProfileStop>
    requires counted { IsCounted class.now }
    requires within { IfSome found (λ k. k < length class.now.methods) }
    ensures { Tells result (row.fault_in kind (option_map (λ k. length class.now.fields + k) found)) }
{
    match found {
        Some(k) => Err(ProfileStop::Out(OutOfProfile {
            kind,
            member: Some((class.fields.len() + k) as u32),
            at: None,
        })),
        None => Ok(()),
    }
}

pub fn check_method_flags(class: &ClassDef) -> Result<(), ProfileStop>
    requires { IsCounted class.now }
    ensures { Tells result (row.method_flags_row class.now) }
{
    let found = class
        .methods
        .as_slice()
        .iter()
        .position(|method| has_bad_method_flags(method.flags));
    at_method(class, found, ProfileKind::MethodFlags)
}

pub fn check_code_shape(class: &ClassDef) -> Result<(), ProfileStop>
    requires { IsCounted class.now }
    ensures { Tells result (row.code_shape_row class.now) }
{
    let found = class
        .methods
        .as_slice()
        .iter()
        .position(|method| has_bad_code_shape(method));
    at_method(class, found, ProfileKind::CodeShape)
}

pub fn check_natives(names: Names, class: &ClassDef) -> Result<(), ProfileStop>
    requires { IsCounted class.now }
    ensures { Tells result (row.native_row names class.now) }
{
    let found = class
        .methods
        .as_slice()
        .iter()
        .position(|method| is_bad_native(names, class, method));
    at_method(class, found, ProfileKind::Native)
}

pub fn check_interface_methods(class: &ClassDef) -> Result<(), ProfileStop>
    requires { IsCounted class.now }
    ensures { Tells result (row.interface_method_row class.now) }
{
    let found = class
        .methods
        .as_slice()
        .iter()
        .position(|method| is_bad_in_interface(class, method));
    at_method(class, found, ProfileKind::InterfaceMethod)
}

pub fn check_initializers(class: &ClassDef) -> Result<(), ProfileStop>
    requires { IsCounted class.now }
    ensures { Tells result (row.initializer_row class.now) }
{
    let found = class
        .methods
        .as_slice()
        .iter()
        .position(|method| is_bad_initializer(class, method));
    at_method(class, found, ProfileKind::Initializer)
}

pub fn check_params(class: &ClassDef) -> Result<(), ProfileStop>
    requires { IsCounted class.now }
    ensures { Tells result (row.params_row class.now) }
{
    let found = class
        .methods
        .as_slice()
        .iter()
        .position(|method| has_many_words(method));
    at_method(class, found, ProfileKind::Params)
}
