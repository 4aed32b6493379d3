//! Texts as UTF-16 units.

ghost use Rattle.std.specs.Prelude.{◌≡◌, ◌≢◌, ◌++◌, ◌↔◌, List, ℕ, IsTrue, IfOk, MatchOption};
ghost use Rattle.lists.specs.Texts.{units_of};

use std::alloc::{AllocError, Global};

/// The UTF-16 units of a text.
#[tactic(auto, using(std::proofs::lemmas::Str::chars_from_encodes))]
pub fn to_units(alloc: Global, text: &str) -> Result<Vec<u16>, AllocError>
    ensures { IfOk result (λ units. units.items ≡ units_of text.now) }
{
    let mut units = Vec::new(alloc);
    for c in text.chars() {
        let mut buffer = [0u16; 2];
        units.extend_from_slice(c.encode_utf16(&mut buffer))?;
    }
    Ok(units)
}

/// What stands behind a front, where the units have that front.
fn behind<'a>(units: &'a [u16], front: &[u16]) -> Option<&'a [u16]>
    ensures { MatchOption result ((rest : List ℕ) → units.now ≢ front.now ++ rest) (λ rest. units.now ≡ front.now ++ rest.now) }
{
    units.strip_prefix(front)
}

/// Whether units spell a text, with no memory taken.
#[tactic(auto, using(crate::proofs::Units::units_past_char))]
pub fn is_text(units: &[u16], text: &str) -> bool
    ensures { IsTrue result ↔ (units.now ≡ units_of text.now) }
{
    let mut rest = units;
    for c in text.chars() {
        let mut buffer = [0u16; 2];
        let Some(after) = behind(rest, c.encode_utf16(&mut buffer)) else {
            return false;
        };
        rest = after;
    }
    rest.is_empty()
}
