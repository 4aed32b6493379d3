//! Laws of the definitions, each the contract of a function that does nothing.

ghost use Rattle.std.specs.Prelude.{◌≡◌, ℕ, List, codes, nat_eq, true};
ghost use Rattle.std.specs.List.{All, ends_with};
ghost use Rattle.std.specs.List.Sorted.{IsStrictlySortedBy};
ghost use Rattle.std.specs.Ordering.{nat_cmp};
ghost use Rattle.std.specs.Cmp.Lexicographic.{slice_cmp};
ghost use Rattle.class_model.specs.declared.class.ClassDef.{ClassDef};
ghost use Rattle.first_form.specs.FirstSet.{IsFirstSet};
ghost use Rattle.instrument_set.specs.WrittenPaths.{written_paths};

/// The paths of a written set ascend by their bytes, so that each stands once, and each ends in `.class`.
pub fn written_paths_ascend()
    ensures ascend { (set : List ClassDef) → IsFirstSet set → IsStrictlySortedBy (slice_cmp nat_cmp) (written_paths set) }
    ensures class_paths { (set : List ClassDef) → IsFirstSet set → All (λ (path : List ℕ). ends_with nat_eq path (codes ".class") ≡ true) (written_paths set) }
{}
