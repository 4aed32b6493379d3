//! Access flags (JVMS 4.1, 4.5, 4.6).

ghost use Rattle.std.specs.Prelude.{◌≡◌};
ghost use Rattle.set_lookups.specs.Flags as table;

use class_model::{ClassDef, MethodDef};

pub fn is_private(flags: u16) -> bool
    ensures { result ≡ table.is_private flags }
{
    flags & 2 != 0
}

pub fn is_static(flags: u16) -> bool
    ensures { result ≡ table.is_static flags }
{
    flags & 8 != 0
}

pub fn is_final(flags: u16) -> bool
    ensures { result ≡ table.is_final flags }
{
    flags & 16 != 0
}

pub fn is_abstract(flags: u16) -> bool
    ensures { result ≡ table.is_abstract flags }
{
    flags & 1024 != 0
}

pub fn is_interface(class: &ClassDef) -> bool
    ensures { result ≡ table.is_interface class.now }
{
    class.flags & 512 != 0
}

/// Whether a method is neither private nor static.
pub fn is_inherited(method: &MethodDef) -> bool
    ensures { result ≡ table.is_inherited method.now }
{
    !is_private(method.flags) && !is_static(method.flags)
}
