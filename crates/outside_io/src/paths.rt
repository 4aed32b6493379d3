//! Lists of paths in order.

ghost use Rattle.std.specs.Prelude.{◌≡◌, IfOk};
ghost use Rattle.std.specs.BTreeSet.{keys};
ghost use Rattle.outside_io.specs.Files.{Ascend};

use lists::{Path, Seq};
use std::alloc::{AllocError, Global};
use std::collections::BTreeSet;

/// The paths of a set, ascending by bytes.
pub fn in_order(alloc: Global, found: BTreeSet<Path>) -> Result<Seq<Path>, AllocError>
    ensures all { IfOk result (λ paths. paths ≡ keys found) }
    ensures ascend { IfOk result (λ paths. Ascend paths) }
{
    let paths: Vec<Path> = found.into_iter().collect(alloc)?;
    Ok(Seq::from_vec(paths))
}
