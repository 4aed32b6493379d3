//! The base behind the classes of the files.

ghost use Rattle.std.specs.Prelude.{◌≡◌, IfOk};
ghost use Rattle.set_lookups.specs.Above.{same_name};
ghost use Rattle.small_base.specs.Members.{object_name};
ghost use Rattle.set_loader.specs.Loads.{has_object, with_base};

use class_model::ClassDef;
use lists::Seq;
use small_base::small_base;
use std::alloc::{AllocError, Global};

fn is_object(class: &ClassDef) -> bool
    ensures { result ≡ same_name class.now.name object_name }
{
    class.name.is("java/lang/Object")
}

/// Whether a class is named `java/lang/Object`.
#[tactic(auto, unfolding(crate::specs::Loads::has_object))]
fn has_object(classes: &[ClassDef]) -> bool
    ensures { result ≡ has_object classes.now }
{
    classes.iter().any(|class| is_object(class))
}

/// The classes with the small base behind them, where none of them is `java/lang/Object`.
#[tactic(auto, unfolding(crate::specs::Loads::with_base))]
pub(crate) fn complete(
    alloc: Global,
    mut classes: Vec<ClassDef>,
) -> Result<Seq<ClassDef>, AllocError>
    ensures { IfOk result (λ set. set ≡ with_base classes.items) }
{
    if !has_object(&classes) {
        classes.append(&mut small_base(alloc)?)?;
    }
    Ok(Seq::from_vec(classes))
}
