//! Classes of one name.

ghost use Rattle.std.specs.Prelude.{◌≡◌, ◌∷◌, List, map, reverse, None, MatchResult, option_map, option_copied, IfOk, OnOk, nat_eq, if◌then◌else◌, Some, ⊤};
ghost use Rattle.std.specs.List.{list_any};
ghost use Rattle.std.specs.Cmp.Lexicographic.{pointwise};
ghost use Rattle.indexmap.specs.IndexSet.{insert_key};
ghost use Rattle.set_lookups.specs.Above.{same_name};
ghost use Rattle.set_lookups.specs.Needed.{duplicate};
ghost use Rattle.set_lookups.specs.declared.fault.HierarchyFault.TheVariants.{Duplicate};
ghost use Rattle.set_lookups.specs.Answer.{IsFault};

use crate::fault::HierarchyFault;
use class_model::ClassDef;
use indexmap::IndexSet;
use lists::Name;
use std::alloc::Global;

/// Puts a name before those that are there, and tells it where it is there already.
fn add_name<'a>(
    names: &mut IndexSet<Name>,
    name: &'a Name,
    again: Option<&'a Name>,
) -> Result<Option<&'a Name>, HierarchyFault>
    ensures keys { OnOk result (names.new.keys ≡ insert_key same_name names.old.keys name.entry.now) }
    ensures told { IfOk result (λ told. option_copied told ≡ (if list_any (same_name name.entry.now) names.old.keys then Some name.entry.now else option_copied again.entry)) }
    ensures err { MatchResult result (λ _. ⊤) (λ fault. fault ≡ HierarchyFault.Memory) }
{
    if names.insert(name.clone()?)? {
        Ok(again)
    } else {
        Ok(Some(name))
    }
}

/// The names of classes in their order, where no two classes have one name. Else the name that stands again and
/// whose first class comes first: the classes are taken from the last one on, so the last one told is the one.
pub fn index_names(alloc: Global, classes: &[ClassDef]) -> Result<IndexSet<Name>, HierarchyFault>
    ensures { MatchResult result
        (λ names. (duplicate classes.now ≡ None) × (names.keys ≡ map (λ class. class.name) classes.now))
        (IsFault (option_map Duplicate (duplicate classes.now))) }
{
    let mut names = IndexSet::new(alloc);
    let mut again = None;
    let mut at = classes.len();
    while at > 0 {
        at -= 1;
        again = add_name(&mut names, &classes[at].name, again)?;
    }
    if let Some(name) = again {
        return Err(HierarchyFault::Duplicate(name.clone()?));
    }
    names.reverse();
    Ok(names)
}
