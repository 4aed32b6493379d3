//! Laws of the definitions, each the contract of a function that does nothing.

ghost use Rattle.std.specs.Prelude.{◌≡◌, List, ◌∷◌, ◌++◌};
ghost use Rattle.class_model.specs.declared.class.ClassDef.{ClassDef};
ghost use Rattle.class_set.specs.Closed.{Closed};
ghost use Rattle.profile_check.specs.declared.profile.Names.TheVariants.{Written};
ghost use Rattle.first_form.specs.Naming.{IsUserName};
ghost use Rattle.first_form.specs.FormOne.{FormOne};
ghost use Rattle.first_form_laws.specs.WrittenForm.{written_base, IsWrittenClass};
ghost use Rattle.first_form_laws.specs.Loading.{LoadsWell};

/// A closed set stays closed where two neighbours change places, and so in any other order.
pub fn neighbours_change_places()
    ensures { (front back : List ClassDef) (class next : ClassDef) → Closed (front ++ class ∷ next ∷ back) → Closed (front ++ next ∷ class ∷ back) }
{}

/// The classes that stand beside a written class load by themselves.
pub fn written_base_loads()
    ensures { LoadsWell written_base }
{}

/// They load with a written class of the first form among them, wherever it stands.
pub fn written_set_loads()
    ensures { (front back : List ClassDef) (class : ClassDef) → front ++ back ≡ written_base → IsWrittenClass class → LoadsWell (front ++ class ∷ back) }
{}

/// A written class of the first form that has a user's name may stand among them.
pub fn user_names_are_apart()
    ensures { (class : ClassDef) → FormOne Written class → IsUserName class.name → IsWrittenClass class }
{}
