//! Texts and their UTF-16 units.

ghost use Rattle.std.specs.Prelude.{◌≡◌, ◌<◌, ◌^◌, ◌++◌, List, ℕ, IfOk, IfErr, OnOk, MatchOption};
ghost use Rattle.std.specs.List.{list_all};
ghost use Rattle.modified_utf8.specs.Text.{unit_bytes, IsText, IsWrongAt, BeginsWithNone};
ghost use Rattle.modified_utf8.specs.TextReading as reading;
ghost use Rattle.modified_utf8.specs.declared.text.TextStop.TheVariants.{Memory};

use lists::{Bytes, Seq, Units};
use std::alloc::{AllocError, AllocFailed, Global};
use thiserror::Error;

/// Why bytes were not read as a text.
#[derive(Clone, Copy, Debug, PartialEq, Eq, Error)]
pub enum TextStop {
    /// The first character that is no modified UTF-8 begins at this byte.
    #[error("no modified UTF-8 at byte {0}")]
    Bad(usize),
    #[error("out of memory")]
    Memory,
}

impl From<AllocError> for TextStop {
    ghost from_gives = { λ _ stop. stop ≡ Memory };

    fn from(_: AllocError) -> TextStop {
        TextStop::Memory
    }
}

impl<T: Drop> From<AllocFailed<T>> for TextStop {
    ghost from_gives = { λ _ stop. stop ≡ Memory };

    fn from(_: AllocFailed<T>) -> TextStop {
        TextStop::Memory
    }
}

/// The unit that begins here, with the number of its bytes.
#[tactic(auto, unfolding(crate::specs::TextReading::first_unit))]
fn first_unit(bytes: &[u8]) -> Option<(u16, usize)>
    ensures { result ≡ reading.first_unit bytes.now }
{
    match bytes {
        [b, ..] if 0 < *b && *b < 128 => Some((u16::from(*b), 1)),
        [b, c, ..] if 192 <= *b && *b < 224 && 128 <= *c && *c < 192 => {
            let unit = (u16::from(*b) - 192) * 64 + (u16::from(*c) - 128);
            if unit == 0 || 128 <= unit {
                Some((unit, 2))
            } else {
                None
            }
        }
        [b, c, d, ..] if 224 <= *b && *b < 240 && 128 <= *c && *c < 192 && 128 <= *d && *d < 192 =>
            {
                let unit = (u16::from(*b) - 224) * 4096
                    + (u16::from(*c) - 128) * 64
                    + (u16::from(*d) - 128);
                if 2048 <= unit { Some((unit, 3)) } else { None }
            }
        _ => None,
    }
}

/// The unit that begins here, with what stands behind it.
#[tactic(auto, using(crate::proofs::Units::unit_is, crate::proofs::Units::none_begins, crate::proofs::Units::unit_within))]
fn next_unit(bytes: &[u8]) -> Option<(u16, &[u8])>
    ensures { MatchOption result (BeginsWithNone bytes.now) (λ next. (next.0 < 2 ^ 16) × (bytes.now ≡ unit_bytes next.0 ++ next.1.now)) }
{
    let (unit, len) = first_unit(bytes)?;
    let (_, behind) = bytes.split_at(len);
    Some((unit, behind))
}

fn is_plain_byte(byte: u8) -> bool
    ensures { result ≡ reading.is_plain byte }
{
    0 < byte && byte < 128
}

/// Whether each byte is a unit by itself, as nearly all texts of class files are.
fn is_plain(bytes: &[u8]) -> bool
    ensures { result ≡ list_all reading.is_plain bytes.now }
{
    bytes.iter().all(|byte| is_plain_byte(*byte))
}

/// The units of such a text.
fn plain_units(alloc: Global, bytes: &[u8]) -> Result<Units, AllocError>
    ensures { IfOk result (λ units. units ≡ bytes.now) }
{
    let mut units = Vec::with_capacity(alloc, bytes.len())?;
    for byte in bytes {
        units.push(u16::from(*byte))?;
    }
    Ok(Seq::from_vec(units))
}

/// The units of any text, read one by one.
#[tactic(auto, using(crate::proofs::Texts::read_none, crate::proofs::Texts::read_more, crate::proofs::Texts::read_all, crate::proofs::Texts::read_wrong, crate::proofs::Texts::read_within, crate::proofs::Texts::wrong_is_read, crate::proofs::Texts::text_read))]
fn each_unit(alloc: Global, bytes: &[u8]) -> Result<Units, TextStop>
    ensures text { IfOk result (λ units. IsText bytes.now units) }
    ensures wrong { IfErr result (λ stop. reading.IsStopOf bytes.now stop) }
    ensures only { (units : List ℕ) → IsText bytes.now units → reading.IsOnly result units }
    ensures read { reading.Gives result (reading.read_text 0 bytes.now) }
{
    let mut units = Vec::with_capacity(alloc, bytes.len())?;
    let mut rest = bytes;
    while !rest.is_empty() {
        let Some((unit, behind)) = next_unit(rest) else {
            return Err(TextStop::Bad(bytes.len() - rest.len()));
        };
        units.push(unit)?;
        rest = behind;
    }
    Ok(Seq::from_vec(units))
}

/// The units of a text in modified UTF-8. `Bad` holds the place of the first byte of the first character that is
/// wrong: a byte that begins none, an overlong form, or one that is cut short.
#[tactic(auto, using(crate::proofs::Texts::plain_text, crate::proofs::Texts::plain_once, crate::proofs::Texts::plain_read))]
pub fn text_units(alloc: Global, bytes: &[u8]) -> Result<Units, TextStop>
    ensures text { IfOk result (λ units. IsText bytes.now units) }
    ensures wrong { IfErr result (λ stop. reading.IsStopOf bytes.now stop) }
    ensures only { (units : List ℕ) → IsText bytes.now units → reading.IsOnly result units }
    ensures read { reading.Gives result (reading.read_text 0 bytes.now) }
{
    if is_plain(bytes) {
        return Ok(plain_units(alloc, bytes)?);
    }
    each_unit(alloc, bytes)
}

#[tactic(auto, using(crate::proofs::Texts::read_none, crate::proofs::Texts::read_all, crate::proofs::Texts::read_wrong, crate::proofs::Texts::read_within))]
fn first_wrong(bytes: &[u8]) -> Option<usize>
    ensures { MatchOption result ((units : List ℕ) × IsText bytes.now units) (λ place. IsWrongAt bytes.now place) }
{
    let mut rest = bytes;
    while !rest.is_empty() {
        let Some((_, behind)) = next_unit(rest) else {
            return Some(bytes.len() - rest.len());
        };
        rest = behind;
    }
    None
}

/// The place of the first byte of the first character that is wrong, or `None` for a text. Takes no memory.
pub fn wrong_place(bytes: &[u8]) -> Option<usize>
    ensures { MatchOption result ((units : List ℕ) × IsText bytes.now units) (λ place. IsWrongAt bytes.now place) }
{
    if is_plain(bytes) {
        return None;
    }
    first_wrong(bytes)
}

/// Puts the bytes of a unit behind others.
fn push_unit(bytes: &mut Vec<u8>, unit: u16) -> Result<(), AllocError>
    ensures { OnOk result (bytes.new.items ≡ bytes.old.items ++ unit_bytes unit) }
{
    if 0 < unit && unit < 128 {
        bytes.push(unit as u8)?;
    } else if unit < 2048 {
        bytes.extend_from_slice(&[192 + (unit / 64) as u8, 128 + (unit % 64) as u8])?;
    } else {
        bytes.extend_from_slice(&[
            224 + (unit / 4096) as u8,
            128 + (unit / 64 % 64) as u8,
            128 + (unit % 64) as u8,
        ])?;
    }
    Ok(())
}

/// The text of these units in modified UTF-8.
pub fn units_text(alloc: Global, units: &[u16]) -> Result<Bytes, AllocError>
    ensures text { IfOk result (λ bytes. IsText bytes units.now) }
{
    let mut bytes = Vec::new(alloc);
    for unit in units {
        push_unit(&mut bytes, *unit)?;
    }
    Ok(Seq::from_vec(bytes))
}
