//! What a name may be.

ghost use Rattle.std.specs.Prelude.{◌≡◌, List, ℕ, [], nat_eq};
ghost use Rattle.std.specs.List.{list_any};
ghost use Rattle.lists.specs.Texts.{units_of};
ghost use Rattle.profile_check.specs.Names as table;

use lists::Name;

/// The units of `phosphor/`, with which the class names begin that are kept for written classes.
const RESERVED_FRONT: [u16; 9] = [112, 104, 111, 115, 112, 104, 111, 114, 47];

/// The units of `$$PHOSPHOR`, which the names hold that are kept for written classes.
const RESERVED_PART: [u16; 10] = [36, 36, 80, 72, 79, 83, 80, 72, 79, 82];

/// Whether this is the name that a text spells.
pub fn is_text(name: &Name, text: &str) -> bool
    ensures { result ≡ table.same_name name.now (units_of text.now) }
{
    name.is(text)
}

/// Whether a unit is NUL or a surrogate.
fn is_bad_unit(unit: u16) -> bool
    ensures { result ≡ table.is_bad_unit unit }
{
    unit == 0 || (0xd800 <= unit && unit <= 0xdfff)
}

/// Whether a unit is `.`, `;` or `[`.
fn is_mark(unit: u16) -> bool
    ensures { result ≡ table.is_mark unit }
{
    unit == 46 || unit == 59 || unit == 91
}

fn is_slash(unit: u16) -> bool
    ensures { result ≡ table.is_slash unit }
{
    unit == 47
}

/// Whether a unit is `<` or `>`.
fn is_angle(unit: u16) -> bool
    ensures { result ≡ table.is_angle unit }
{
    unit == 60 || unit == 62
}

pub fn has_bad_unit(name: &Name) -> bool
    ensures { result ≡ table.has_bad_unit name.now }
{
    name.as_units().iter().any(|unit| is_bad_unit(*unit))
}

fn has_mark(name: &Name) -> bool
    ensures { result ≡ list_any table.is_mark name.now }
{
    name.as_units().iter().any(|unit| is_mark(*unit))
}

fn has_slash(name: &Name) -> bool
    ensures { result ≡ list_any table.is_slash name.now }
{
    name.as_units().iter().any(|unit| is_slash(*unit))
}

fn has_angle(name: &Name) -> bool
    ensures { result ≡ list_any table.is_angle name.now }
{
    name.as_units().iter().any(|unit| is_angle(*unit))
}

/// Whether a part of a class name is empty or has a mark.
fn has_bad_part(units: &[u16]) -> bool
    ensures { result ≡ list_any table.is_bad_part (table.parts_of units.now) }
{
    let mut empty = true;
    for unit in units {
        if is_slash(*unit) {
            if empty {
                return true;
            }
            empty = true;
        } else {
            if is_mark(*unit) {
                return true;
            }
            empty = false;
        }
    }
    empty
}

pub fn is_bad_class(name: &Name) -> bool
    ensures { result ≡ table.is_bad_class name.now }
{
    has_bad_part(name.as_units()) || has_bad_unit(name)
}

fn is_empty(name: &Name) -> bool
    ensures { result ≡ table.is_empty name.now }
{
    name.as_units().is_empty()
}

pub fn is_bad_member(name: &Name) -> bool
    ensures { result ≡ table.is_bad_member name.now }
{
    is_empty(name) || has_mark(name) || has_slash(name) || has_bad_unit(name)
}

pub fn is_init(name: &Name) -> bool
    ensures { result ≡ table.is_init name.now }
{
    is_text(name, "<init>")
}

pub fn is_clinit(name: &Name) -> bool
    ensures { result ≡ table.is_clinit name.now }
{
    is_text(name, "<clinit>")
}

pub fn is_bad_method(name: &Name) -> bool
    ensures { result ≡ table.is_bad_method name.now }
{
    is_bad_member(name) || (has_angle(name) && !(is_init(name) || is_clinit(name)))
}

/// Whether `$$PHOSPHOR` stands somewhere in a name.
fn holds_reserved(units: &[u16]) -> bool
    ensures { result ≡ table.is_reserved units.now }
{
    for start in 0..units.len() {
        if units[start..].starts_with(&RESERVED_PART) {
            return true;
        }
    }
    false
}

pub fn is_reserved(name: &Name) -> bool
    ensures { result ≡ table.is_reserved name.now }
{
    holds_reserved(name.as_units())
}

pub fn is_reserved_class(name: &Name) -> bool
    ensures { result ≡ table.is_reserved_class name.now }
{
    name.as_units().starts_with(&RESERVED_FRONT) || is_reserved(name)
}

/// Whether a name is one of the two of the Java library that are left out.
pub fn is_out(name: &Name) -> bool
    ensures { result ≡ table.is_out name.now }
{
    is_text(name, "java/lang/Cloneable") || is_text(name, "java/io/Serializable")
}
