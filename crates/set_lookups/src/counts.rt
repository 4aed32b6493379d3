//! Counts by which classes and members are numbered.

ghost use Rattle.std.specs.Prelude.{◌≡◌, ◌↔◌, IsTrue, All, IfSome};
ghost use Rattle.set_lookups.specs.Counts.{IsCounted, IsCodeCounted, AreCounted};

use class_model::{ClassDef, CodeDef, MethodDef};

/// The most fields, methods, interfaces, instructions and handlers that a class file can have
/// (JVMS 4.1, 4.7.3).
const MOST: usize = 65_535;

fn is_code_counted(code: &CodeDef) -> bool
    ensures { IsTrue result ↔ IsCodeCounted code.now }
{
    code.insns.len() <= MOST && code.handlers.len() <= MOST
}

fn is_method_counted(method: &MethodDef) -> bool
    ensures { IsTrue result ↔ IfSome method.now.code IsCodeCounted }
{
    match &method.code {
        Some(code) => is_code_counted(code),
        None => true,
    }
}

fn are_methods_counted(methods: &[MethodDef]) -> bool
    ensures { IsTrue result ↔ All (λ method. IfSome method.code IsCodeCounted) methods.now }
{
    for method in methods {
        if !is_method_counted(method) {
            return false;
        }
    }
    true
}

fn is_counted(class: &ClassDef) -> bool
    ensures { IsTrue result ↔ IsCounted class.now }
{
    class.interfaces.len() <= MOST
        && class.fields.len() <= MOST
        && class.methods.len() <= MOST
        && are_methods_counted(class.methods.as_slice())
}

fn is_each_counted(classes: &[ClassDef]) -> bool
    ensures { IsTrue result ↔ All IsCounted classes.now }
{
    for class in classes {
        if !is_counted(class) {
            return false;
        }
    }
    true
}

/// The most classes that a set can have.
const MOST_CLASSES: usize = 1_001_000;

/// Whether classes have the counts that a set and a class file can have: what `link_classes` requires.
pub fn are_counted(classes: &[ClassDef]) -> bool
    ensures { IsTrue result ↔ AreCounted classes.now }
{
    classes.len() <= MOST_CLASSES && is_each_counted(classes)
}
