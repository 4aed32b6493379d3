//! Entries of the constant pool.

ghost use Rattle.std.specs.Prelude.{◌≡◌};

use lists::{Bytes, Plain, Same};
use std::alloc::AllocError;

/// An entry of the constant pool (JVMS 4.4). Other entries stand in it by their indices; a Float and a Double
/// hold the bytes of their value as they stand in the file.
#[derive(Debug, PartialEq, Eq, Hash, Drop)]
pub enum Entry {
    /// The bytes of a text in modified UTF-8.
    Utf8(Bytes),
    Integer(i32),
    Float([u8; 4]),
    Long(i64),
    Double([u8; 8]),
    /// The index of the class's name.
    Class(u16),
    /// A String entry: the index of its text.
    Text(u16),
    /// The indices of a class and of a name with a type.
    Field(u16, u16),
    /// The indices of a class and of a name with a type.
    Method(u16, u16),
    /// The indices of a class and of a name with a type.
    InterfaceMethod(u16, u16),
    /// The indices of a name and of a descriptor.
    NameAndType(u16, u16),
    /// A MethodHandle entry: its kind and the index of a member.
    Handle(u8, u16),
    /// The index of a descriptor.
    MethodType(u16),
    /// An InvokeDynamic entry: the number of a bootstrap method and the index of a name with a type.
    Dynamic(u16, u16),
}

impl Clone for Entry {
    ghost is_clone = { λ entry copy. copy ≡ entry };

    fn clone(&self) -> Result<Entry, AllocError> {
        match self {
            Entry::Utf8(text) => Ok(Entry::Utf8(text.clone()?)),
            Entry::Integer(n) => Ok(Entry::Integer(*n)),
            Entry::Float(bits) => Ok(Entry::Float(*bits)),
            Entry::Long(n) => Ok(Entry::Long(*n)),
            Entry::Double(bits) => Ok(Entry::Double(*bits)),
            Entry::Class(name) => Ok(Entry::Class(*name)),
            Entry::Text(text) => Ok(Entry::Text(*text)),
            Entry::Field(class, member) => Ok(Entry::Field(*class, *member)),
            Entry::Method(class, member) => Ok(Entry::Method(*class, *member)),
            Entry::InterfaceMethod(class, member) => Ok(Entry::InterfaceMethod(*class, *member)),
            Entry::NameAndType(name, ty) => Ok(Entry::NameAndType(*name, *ty)),
            Entry::Handle(kind, member) => Ok(Entry::Handle(*kind, *member)),
            Entry::MethodType(ty) => Ok(Entry::MethodType(*ty)),
            Entry::Dynamic(bootstrap, member) => Ok(Entry::Dynamic(*bootstrap, *member)),
        }
    }
}

impl Plain for Entry {
    ghost copies = { λ x y same. same };
}

impl Same for Entry {
    fn same(&self, other: &Entry) -> bool {
        self == other
    }
}
