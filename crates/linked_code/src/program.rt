//! Programs.

ghost use Rattle.std.specs.Prelude.{◌≡◌};
ghost use Rattle.linked_code.specs.Numbered.{class_at, method_at, type_at};

use crate::native::Native;
use crate::op::Op;
use class_model::Primitive;
use lists::{Seq, Units};
use machine_words::Word;

/// What a value of a type keeps of an int.
#[derive(Clone, Copy, Debug, PartialEq, Eq)]
pub enum Narrowing {
    Whole,
    Byte,
    Char,
    Short,
    Boolean,
}

/// An exception handler: the instructions from `start` on and before `end`, and the number of the class that it catches,
/// `None` for every one.
#[derive(Clone, Copy, Debug)]
pub struct Handler {
    pub start: u32,
    pub end: u32,
    pub target: u32,
    pub caught: Option<u32>,
}

/// A method: its class's number, the words of its arguments and of all locals, the most words of its operand stack, its code and
/// handlers. A native has no code. `begins` is its class where it is that class's initializer.
#[derive(Drop)]
pub struct Method {
    pub class: u32,
    pub params: u32,
    pub locals: u32,
    pub room: u32,
    pub code: Seq<Op>,
    pub handlers: Seq<Handler>,
    pub native: Option<Native>,
    pub begins: Option<u32>,
    pub narrowing: Narrowing,
}

/// The method that a call on an object enters, by the number of what is called: a name and a descriptor.
#[derive(Clone, Copy, Debug)]
pub struct Selection {
    pub selector: u32,
    pub method: u32,
}

/// A class: its type, the classes that it is a subtype of, itself among them, its direct superclass, the fields of a fresh
/// object, the initializers of the class and its superclasses, its own first, by the numbers of these methods, and the methods
/// that its objects have.
#[derive(Drop)]
pub struct LinkedClass<T> {
    pub ty: u32,
    pub fits: Seq<u32>,
    pub above: Option<u32>,
    pub fresh: Seq<Word<T>>,
    pub starts: Seq<u32>,
    pub selects: Seq<Selection>,
}

/// A type: whether it is an array, of which numbers if it is an array of numbers, the type of its elements, what a value of it
/// keeps of an int, its default value, the class whose methods a receiver of it has, the class that its name has without its
/// dimensions, and the types that it fits.
#[derive(Drop)]
pub struct LinkedType<T> {
    pub is_array: bool,
    pub numbers: Option<Primitive>,
    pub element: u32,
    pub narrowing: Narrowing,
    pub default: Word<T>,
    pub receiver: u32,
    pub base: u32,
    pub fits: Seq<u32>,
}

/// A call on an object: the words of its arguments with the receiver, the method that it resolves to, whether it is of a
/// constructor, the number of its name and descriptor, and the type that it is made on.
#[derive(Clone, Copy, Debug)]
pub struct Call {
    pub words: u32,
    pub resolved: Option<u32>,
    pub is_constructor: bool,
    pub selector: u32,
    pub ty: u32,
}

/// The targets of a tableswitch.
#[derive(Drop)]
pub struct Table {
    pub low: i32,
    pub default: u32,
    pub targets: Seq<u32>,
}

/// The rows of a lookupswitch.
#[derive(Drop)]
pub struct Rows {
    pub default: u32,
    pub rows: Seq<(i32, u32)>,
}

/// The numbers of the exception classes of the machine.
#[derive(Clone, Copy, Debug)]
pub struct FaultClasses {
    pub arithmetic: u32,
    pub null_pointer: u32,
    pub incompatible_change: u32,
    pub negative_size: u32,
    pub class_cast: u32,
    pub array_index: u32,
    pub array_store: u32,
}

/// A set of classes, linked: what the numbers in its code name. A number past the last method, class or type is that of one
/// that has nothing, so that each number is one of something.
#[derive(Drop)]
pub struct Program<T> {
    pub main: Option<u32>,
    /// The type of the array that `main` is called with.
    pub arguments: u32,
    /// The classes of what the machine itself throws.
    pub faults: FaultClasses,
    pub methods: Seq<Method>,
    pub no_method: Method,
    pub classes: Seq<LinkedClass<T>>,
    pub no_class: LinkedClass<T>,
    pub types: Seq<LinkedType<T>>,
    pub no_type: LinkedType<T>,
    pub tables: Seq<Table>,
    pub rows: Seq<Rows>,
    pub calls: Seq<Call>,
    /// The text constants.
    pub texts: Seq<Units>,
    /// The class of a text constant's object, the type of its array of characters, and the place of the field that holds that.
    pub string: u32,
    pub chars: u32,
    pub value: Option<u32>,
    /// What the static fields hold at the start.
    pub statics: Seq<Word<T>>,
}

impl<T> Program<T> {
    /// The method of a number.
    pub fn method(&self, number: u32) -> &Method
        ensures { result.now ≡ method_at self.now number }
    {
        match self.methods.get(number as usize) {
            Some(method) => method,
            None => &self.no_method,
        }
    }

    /// The class of a number.
    pub fn class(&self, number: u32) -> &LinkedClass<T>
        ensures { result.now ≡ class_at self.now number }
    {
        match self.classes.get(number as usize) {
            Some(class) => class,
            None => &self.no_class,
        }
    }

    /// The type of a number.
    pub fn ty(&self, number: u32) -> &LinkedType<T>
        ensures { result.now ≡ type_at self.now number }
    {
        match self.types.get(number as usize) {
            Some(ty) => ty,
            None => &self.no_type,
        }
    }
}
