//! The written set of a set of the first form.

ghost use Rattle.std.specs.Prelude.{◌≡◌, ◌≤◌, List, length, insert, map, All, IfOk, OnOk, IfSome, slice_get};
ghost use Rattle.std.specs.List.{AllZip};
ghost use Rattle.profile_check.specs.declared.profile.Names.TheVariants as names;
ghost use Rattle.first_form.specs.FormOne.{FormOne};
ghost use Rattle.first_form.specs.FirstSet.{IsFirstSet, IsFirstConfig};
ghost use Rattle.set_loader.specs.declared.file.File.{File};
ghost use Rattle.set_loader.specs.Loads.{IsFileOf, Loads};
ghost use Rattle.instrument_set.specs.Marking.{marks_of};
ghost use Rattle.instrument_set.specs.Mirrors.{Mirrors};
ghost use Rattle.instrument_set.specs.WrittenPaths.{written_paths};
ghost use Rattle.instrument_set.specs.WrittenSet as spec;

use crate::class_path::comes_before;
use crate::marks::Marks;
use crate::rewrite::rewrite_class;
use class_model::ClassDef;
use first_form::report_class;
use run_state::Config;
use small_base::{before_base, small_base};
use std::alloc::{AllocError, Global};

/// What the lists say of `read` and `write`.
fn marks(config: &Config) -> Marks
    ensures { result ≡ marks_of config.now }
{
    let read = match config.sources.as_slice() {
        [source, ..] => source.tag,
        [] => 0,
    };
    Marks {
        read,
        write: !config.sinks.is_empty(),
    }
}

/// The place of a class among classes in the order of their paths.
fn place_of(alloc: Global, class: &ClassDef, classes: &[ClassDef]) -> Result<usize, AllocError>
    requires plain { spec.IsPlain class.now.name }
    requires others_plain { All (λ other. spec.IsPlain other.name) classes.now }
    ensures within { IfOk result (λ at. at ≤ length classes.now) }
    ensures there { IfOk result (λ at. insert classes.now at class.now ≡ spec.insert_class class.now classes.now) }
{
    for (at, other) in classes.iter().enumerate() {
        if comes_before(alloc, class, other)? {
            return Ok(at);
        }
    }
    Ok(classes.len())
}

/// Puts a class among classes in the order of their paths.
fn put_class(alloc: Global, class: ClassDef, classes: &mut Vec<ClassDef>) -> Result<(), AllocError>
    requires plain { spec.IsPlain class.name }
    requires others_plain { All (λ other. spec.IsPlain other.name) classes.old.items }
    ensures { OnOk result (classes.new.items ≡ spec.insert_class class classes.old.items) }
{
    let at = place_of(alloc, &class, classes)?;
    classes.insert(at, class)?;
    Ok(())
}

/// The classes that stand beside the written class of a user.
fn written_base(alloc: Global) -> Result<Vec<ClassDef>, AllocError>
    ensures { IfOk result (λ classes. classes.items ≡ spec.written_base) }
{
    let mut classes = small_base(alloc)?;
    put_class(alloc, report_class(alloc)?, &mut classes)?;
    Ok(classes)
}

/// The written set of the classes before the small base.
fn with_written(
    alloc: Global,
    classes: &[ClassDef],
    marks: Marks,
) -> Result<Vec<ClassDef>, AllocError>
    requires { IfSome (slice_get classes.now 0) (FormOne names.Source) }
    ensures { IfOk result (λ written. written.items ≡ spec.with_written marks classes.now) }
{
    match classes {
        [class, ..] => {
            let mut written = written_base(alloc)?;
            put_class(alloc, rewrite_class(alloc, class, marks)?, &mut written)?;
            Ok(written)
        }
        [] => written_base(alloc),
    }
}

/// The written set of a set.
fn written_set(alloc: Global, set: &[ClassDef], marks: Marks) -> Result<Vec<ClassDef>, AllocError>
    requires { IsFirstSet set.now }
    ensures { IfOk result (λ written. written.items ≡ spec.written_set marks set.now) }
{
    match before_base(set) {
        Some(classes) => with_written(alloc, classes, marks),
        None => unreachable!(),
    }
}

/// The written set of a set: the small base as it stands, the class of reports, and the written class of
/// the user's, where there is one. The classes are in the order of their paths.
pub(crate) fn rewrite_set(
    alloc: Global,
    set: &[ClassDef],
    config: &Config,
) -> Result<Vec<ClassDef>, AllocError>
    requires set { IsFirstSet set.now }
    requires config { IsFirstConfig config.now }
    ensures exact { IfOk result (λ written. written.items ≡ spec.written_set (marks_of config.now) set.now) }
    ensures mirrors { IfOk result (λ written. Mirrors set.now config.now written.items) }
    ensures paths { IfOk result (λ written. map (λ c. spec.path_of c.name) written.items ≡ written_paths set.now) }
    // Files that are class files of these classes, in this order, load with the names of written classes.
    ensures loads { IfOk result (λ written. (files : List File) → AllZip IsFileOf files written.items → Loads names.Written files written.items) }
{
    let written = written_set(alloc, set, marks(config))?;
    Ok(written)
}
