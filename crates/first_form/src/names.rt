//! The names that a user's classes may have.

ghost use Rattle.std.specs.Prelude.{◌≡◌, ℕ, ◌<◌, ◌++◌, List, length, ◌↔◌, IsTrue};
ghost use Rattle.std.specs.List.{list_all};
ghost use Rattle.first_form.specs.Naming as spec;

use class_limits::text_size;
use lists::Name;
use small_base::is_base_name;

/// The most bytes of the name of a user's class.
const MOST_NAME_BYTES: u64 = 16_000;

/// The units of `phosphor/`, with which no class name of a user begins.
const RESERVED_FRONT: [u16; 9] = [112, 104, 111, 115, 112, 104, 111, 114, 47];

/// The units of `$$PHOSPHOR`, which no name of a user has.
const RESERVED_PART: [u16; 10] = [36, 36, 80, 72, 79, 83, 80, 72, 79, 82];

/// Whether a unit may stand in a part of a class name.
fn is_name_unit(unit: u16) -> bool
    ensures { result ≡ spec.is_name_unit unit }
{
    !(unit == 0 || unit == 46 || unit == 59 || unit == 91 || (0xD800 <= unit && unit <= 0xDFFF))
}

/// Whether each unit may stand in a part of a class name.
fn are_name_units(units: &[u16]) -> bool
    ensures { result ≡ list_all spec.is_name_unit units.now }
{
    units.iter().all(|unit| is_name_unit(*unit))
}

/// Whether units may stand between the `/` of a class name.
fn is_name_part(part: &[u16]) -> bool
    ensures { result ≡ spec.is_name_part part.now }
{
    !part.is_empty() && are_name_units(part)
}

/// Whether units are the parts of a class name, with `/` between them.
fn is_class_name(name: &[u16]) -> bool
    ensures { result ≡ spec.is_class_name name.now }
{
    name.split(|unit| *unit == 47)
        .all(|part| is_name_part(part))
}

/// Whether units begin with others.
fn begins(units: &[u16], front: &[u16]) -> bool
    ensures { IsTrue result ↔ ((rest : List ℕ) × (units.now ≡ front.now ++ rest)) }
{
    units.strip_prefix(front).is_some()
}

/// Whether units go on with others from some place on.
fn has_part(units: &[u16], part: &[u16]) -> bool
    requires { 0 < length part.now }
    ensures { IsTrue result ↔ ((place : ℕ) × spec.HasAt part.now units.now place) }
{
    for place in 0..units.len() {
        if begins(&units[place..], part) {
            return true;
        }
    }
    false
}

/// Whether a name is kept for written classes.
fn is_reserved(units: &[u16]) -> bool
    ensures { IsTrue result ↔ spec.IsReserved units.now }
{
    begins(units, &RESERVED_FRONT) || has_part(units, &RESERVED_PART)
}

/// Whether a class of a user may have this name.
pub(crate) fn is_user_name(name: &Name) -> bool
    ensures { IsTrue result ↔ spec.IsUserName name.now }
{
    let units = name.as_units();
    text_size(units) <= MOST_NAME_BYTES
        && is_class_name(units)
        && !is_reserved(units)
        && !is_base_name(name)
}
