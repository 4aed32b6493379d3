//! Tests and changes of lists of types.

ghost use Rattle.std.specs.Prelude.{◌≡◌, ◌<◌, ◌≤◌, nat_le, length, sum_by, slice_set, slice_index_or, OnOk};
ghost use Rattle.std.specs.List.{list_any};
ghost use Rattle.class_set.specs.Assignable.{width, is_uninit};
ghost use Rattle.type_rows.specs.Calls.{is_same_uninit, turned, replaced};

use class_model::VType;
use std::alloc::AllocError;

/// The words of an entry.
pub fn width(ty: &VType) -> u16
    ensures words { result ≡ width ty.now }
    ensures most { result ≤ 2 }
{
    match ty {
        VType::Long => 2,
        _ => 1,
    }
}

fn is_uninit(at: u32, ty: &VType) -> bool
    ensures { result ≡ is_uninit at ty.now }
{
    matches!(ty, VType::Uninit(made) if *made == at)
}

/// Whether the entries have at most so many words.
#[tactic(auto, using(crate::proofs::Lists::sum_more))]
pub fn fits(types: &[VType], most: u16) -> bool
    ensures { result ≡ nat_le (sum_by width types.now) most }
{
    let mut left = most;
    for ty in types {
        let wide = width(ty);
        if left < wide {
            return false;
        }
        left -= wide;
    }
    true
}

pub fn any_uninit(types: &[VType], at: u32) -> bool
    ensures { result ≡ list_any (is_uninit at) types.now }
{
    types.iter().any(|ty| is_uninit(at, ty))
}

/// Whether an entry is the same object that is not initialised.
fn is_same_uninit(old: &VType, ty: &VType) -> bool
    ensures { result ≡ is_same_uninit old.now ty.now }
{
    match old {
        VType::UninitThis => matches!(ty, VType::UninitThis),
        VType::Uninit(at) => is_uninit(*at, ty),
        _ => false,
    }
}

/// Gives another type to an entry that is this object, not initialised.
fn replace_at(types: &mut [VType], at: usize, old: &VType, new: &VType) -> Result<(), AllocError>
    requires { at < length types.old }
    ensures { OnOk result (types.new ≡ slice_set types.old at (turned old.now new.now (slice_index_or types.old at old.now))) }
{
    if is_same_uninit(old, &types[at]) {
        types[at] = new.clone()?;
    }
    Ok(())
}

/// Gives another type to each entry that is this object, not initialised.
#[tactic(auto, using(crate::proofs::Lists::map_step, crate::proofs::Lists::map_whole))]
pub fn replace(types: &mut [VType], old: &VType, new: &VType) -> Result<(), AllocError>
    ensures { OnOk result (types.new ≡ replaced old.now new.now types.old) }
{
    for i in 0..types.len() {
        replace_at(types, i, old, new)?;
    }
    Ok(())
}
