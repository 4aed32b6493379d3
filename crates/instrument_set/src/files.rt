//! The written files of a set.

ghost use Rattle.std.specs.Prelude.{◌≡◌, ℕ, All, IfOk, MatchResult, None, map};
ghost use Rattle.std.specs.List.{AllZip};
ghost use Rattle.class_shape.specs.Shaped.{Shaped};
ghost use Rattle.class_encoding.specs.Encoding.{limit_of};
ghost use Rattle.first_form.specs.FirstSet.{IsFirstSet, IsFirstConfig, HasObject, IsNotBuilt};
ghost use Rattle.instrument_set.specs.ClassFile.{IsClassFile};
ghost use Rattle.instrument_set.specs.Mirrors.{IsInstrumented};
ghost use Rattle.instrument_set.specs.Refusals.{Refuses, IsTold};
ghost use Rattle.instrument_set.specs.WrittenPaths.{written_paths};
ghost use Rattle.instrument_set.specs.WrittenSet.{IsPlain};

use crate::class_path::path_of_class;
use crate::set::rewrite_set;
use class_codec::{EncodeStop, encode_class};
use class_model::ClassDef;
use first_form::first_not_built;
use run_state::Config;
use set_loader::File;
use size_limits::LimitStop;
use std::alloc::{AllocError, Global};
use verifier::VerifiedSet;

/// The class file of a class that passes no limit of the format.
fn class_file(alloc: Global, class: &ClassDef) -> Result<File, AllocError>
    requires plain { IsPlain class.now.name }
    requires shaped { Shaped class.now }
    requires fits { limit_of class.now ≡ None }
    ensures { IfOk result (λ file. IsClassFile file class.now) }
{
    let path = path_of_class(alloc, &class.name)?;
    match encode_class(alloc, class) {
        Ok(bytes) => Ok(File { path, bytes }),
        Err(EncodeStop::Memory) => Err(AllocError),
        Err(EncodeStop::Limit(..)) => unreachable!(),
    }
}

/// The class file of each class, in their order.
fn class_files(alloc: Global, classes: &[ClassDef]) -> Result<Vec<File>, AllocError>
    requires plain { All (λ class. IsPlain class.name) classes.now }
    requires shaped { All Shaped classes.now }
    requires fit { All (λ class. limit_of class ≡ None) classes.now }
    ensures { IfOk result (λ files. AllZip IsClassFile files.items classes.now) }
{
    let mut files = Vec::new(alloc);
    for class in classes {
        files.push(class_file(alloc, class)?)?;
    }
    Ok(files)
}

/// The class files of the written set of a set that is built, in the order of their paths.
fn first_files(alloc: Global, set: &[ClassDef], config: &Config) -> Result<Vec<File>, AllocError>
    requires set { IsFirstSet set.now }
    requires config { IsFirstConfig config.now }
    ensures paths { IfOk result (λ files. map (λ f. f.path) files.items ≡ written_paths set.now) }
    ensures whole { IfOk result (λ files. IsInstrumented set.now config.now files.items) }
{
    let written = rewrite_set(alloc, set, config)?;
    let files = class_files(alloc, &written)?;
    Ok(files)
}

/// The class files of the written set of classes that are a closed set.
fn instrument_classes(
    alloc: Global,
    set: &[ClassDef],
    config: &Config,
) -> Result<Vec<File>, LimitStop>
    requires object { HasObject set.now }
    requires config { IsFirstConfig config.now }
    ensures refused { MatchResult result (λ files. IsFirstSet set.now) (Refuses set.now) }
    ensures told { (class : ℕ) → IsNotBuilt set.now class → MatchResult result (λ files. ⊥) (IsTold class) }
    ensures paths { IfOk result (λ files. map (λ f. f.path) files.items ≡ written_paths set.now) }
    ensures whole { IfOk result (λ files. IsInstrumented set.now config.now files.items) }
{
    match first_not_built(alloc, set)? {
        Some(class) => Err(LimitStop::NotBuilt { class }),
        None => Ok(first_files(alloc, set, config)?),
    }
}

/// The class files of the written set of a set, in the order of their paths: the small base as it
/// stands, the class of reports, and the written class of the user's, where there is one.
///
/// `NotBuilt` tells the first class of a set that is not built yet: a set of another than the small base, or of more than
/// one class of the first form before it.
pub fn instrument(alloc: Global, set: &VerifiedSet, config: &Config) -> Result<Vec<File>, LimitStop>
    requires { IsFirstConfig config.now }
    // Files come for a set that is built; a refusal is the one that is due.
    ensures refused { MatchResult result (λ files. IsFirstSet set.now) (Refuses set.now) }
    // A set that is not built is refused, with its first class that is not, unless memory runs out.
    ensures told { (class : ℕ) → IsNotBuilt set.now class → MatchResult result (λ files. ⊥) (IsTold class) }
    ensures paths { IfOk result (λ files. map (λ f. f.path) files.items ≡ written_paths set.now) }
    // The files load as written classes, which do what the tagged machine does with the set.
    ensures whole { IfOk result (λ files. IsInstrumented set.now config.now files.items) }
{
    instrument_classes(alloc, set.set().classes(), config)
}
