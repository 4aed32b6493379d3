//! Laws of loading.

ghost use Rattle.std.specs.Prelude.{◌≡◌, List};
ghost use Rattle.class_model.specs.declared.class.ClassDef.{ClassDef};
ghost use Rattle.profile_check.specs.declared.profile.Names.{Names};
ghost use Rattle.set_loader.specs.declared.file.File.{File};
ghost use Rattle.set_loader.specs.declared.stop.LoadStop as model;
ghost use Rattle.set_loader.specs.Loads.{Loads, IsDue, Refuses};

/// The laws that files load as one set or have one refusal, and not both. It does nothing when it runs.
#[tactic(auto, using(crate::proofs::Refusals::one_set, crate::proofs::Refusals::loads_or_refused, crate::proofs::Refusals::one_refusal))]
pub fn one_answer()
    ensures one_set { (names : Names) (files : List File) (set other : List ClassDef) → Loads names files set → Loads names files other → set ≡ other }
    ensures apart { (names : Names) (files : List File) (set : List ClassDef) (stop : model.LoadStop) → Loads names files set → IsDue stop → Refuses names files stop → ⊥ }
    ensures one_refusal { (names : Names) (files : List File) (stop other : model.LoadStop) → IsDue stop → IsDue other → Refuses names files stop → Refuses names files other → stop ≡ other }
{}
