//! Methods by the level where they stand.

ghost use Rattle.std.specs.Prelude.{◌≡◌, option_map};
ghost use Rattle.set_lookups.specs.Level as table;

use crate::ids::MethodId;

/// A method, and how many levels it stands above the first one.
#[derive(Clone, Copy, Debug, PartialEq, Eq)]
pub struct Near {
    pub level: u32,
    pub found: MethodId,
}

/// The one at the lower level, the first of two at the same.
pub fn closer(first: Option<Near>, second: Option<Near>) -> Option<Near>
    ensures { result ≡ table.closer first second }
{
    match (first, second) {
        (Some(a), Some(b)) if b.level < a.level => Some(b),
        (Some(a), _) => Some(a),
        (None, b) => b,
    }
}

/// The method that was found, if any.
pub fn found_in(near: Option<Near>) -> Option<MethodId>
    ensures { result ≡ option_map (λ near. near.found) near }
{
    match near {
        Some(near) => Some(near.found),
        None => None,
    }
}
