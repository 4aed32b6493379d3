//! The method whose code is checked.

ghost use Rattle.std.specs.Prelude.{◌≡◌, IfOk};
ghost use Rattle.set_lookups.specs.Lookups.{object_name};
ghost use Rattle.type_rows.specs.Method.{string_name, throwable_name};

use class_model::{ClassDef, CodeDef, MethodDef};
use class_set::ClassSet;
use lists::Name;
use std::alloc::{AllocError, Global};
use std::marker::Model;

/// A method with its code, its class and the set, and the names that the rules know.
#[derive(Drop)]
pub struct Checked<'a> {
    set: &'a ClassSet,
    number: u32,
    class: &'a ClassDef,
    method: &'a MethodDef,
    code: &'a CodeDef,
    object: Name,
    string: Name,
    throwable: Name,
}

impl<'a> Model for Checked<'a> {
    ghost use Rattle.std.specs.Prelude.{◌≡◌};
    ghost use Rattle.set_lookups.specs.Lookups.{object_name};
    ghost use Rattle.type_rows.specs.Method.{Method, string_name, throwable_name};

    ghost Value = { Method };

    ghost view = { λ c. record { set = c.set.now; number = c.number; class = c.class.now; method = c.method.now; code = c.code.now } };

    ghost invariant = { λ c. (c.object ≡ object_name) × (c.string ≡ string_name) × (c.throwable ≡ throwable_name) };
}

impl<'a> Checked<'a> {
    /// The method of a class of the set, with its code.
    pub fn new(
        alloc: Global,
        set: &'a ClassSet,
        number: u32,
        class: &'a ClassDef,
        method: &'a MethodDef,
        code: &'a CodeDef,
    ) -> Result<Checked<'a>, AllocError>
        ensures { IfOk result (λ checked. checked ≡ record { set = set.now; number = number; class = class.now; method = method.now; code = code.now }) }
    {
        Ok(Checked {
            set,
            number,
            class,
            method,
            code,
            object: Name::from_str(alloc, "java/lang/Object")?,
            string: Name::from_str(alloc, "java/lang/String")?,
            throwable: Name::from_str(alloc, "java/lang/Throwable")?,
        })
    }

    pub fn set(&self) -> &ClassSet
        ensures { result.now ≡ self.now.set }
    {
        self.set
    }

    /// The number of the method's class.
    pub fn number(&self) -> u32
        ensures { result ≡ self.now.number }
    {
        self.number
    }

    pub fn class(&self) -> &ClassDef
        ensures { result.now ≡ self.now.class }
    {
        self.class
    }

    pub fn method(&self) -> &MethodDef
        ensures { result.now ≡ self.now.method }
    {
        self.method
    }

    pub fn code(&self) -> &CodeDef
        ensures { result.now ≡ self.now.code }
    {
        self.code
    }

    /// `java/lang/Object`.
    pub fn object(&self) -> &Name
        ensures { result.now ≡ object_name }
    {
        &self.object
    }

    /// `java/lang/String`.
    pub fn string(&self) -> &Name
        ensures { result.now ≡ string_name }
    {
        &self.string
    }

    /// `java/lang/Throwable`.
    pub fn throwable(&self) -> &Name
        ensures { result.now ≡ throwable_name }
    {
        &self.throwable
    }
}
