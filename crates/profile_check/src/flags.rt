//! Access flags (JVMS 4.1, 4.5, 4.6).

ghost use Rattle.std.specs.Prelude.{◌≡◌};
ghost use Rattle.profile_check.specs.Flags as table;

pub const PUBLIC: u16 = 0x0001;

const PRIVATE: u16 = 0x0002;

const PROTECTED: u16 = 0x0004;

pub const STATIC: u16 = 0x0008;

pub const FINAL: u16 = 0x0010;

pub const NATIVE: u16 = 0x0100;

pub const INTERFACE: u16 = 0x0200;

pub const ABSTRACT: u16 = 0x0400;

/// What a class may be: public, final, super, an interface, abstract, synthetic.
const CLASS_ALLOWED: u16 = 0x1631;

/// What a field may be: public, private, protected, static, final, volatile, transient, synthetic.
const FIELD_ALLOWED: u16 = 0x10df;

/// What a method may be: public, private, protected, static, final, a bridge, of variable arguments,
/// native, abstract, strict, synthetic.
const METHOD_ALLOWED: u16 = 0x1ddf;

/// Whether a flag is set.
pub fn has(flags: u16, flag: u16) -> bool
    ensures { result ≡ table.has flags flag }
{
    flags & flag != 0
}

/// Whether a flag other than the allowed ones is set.
fn has_other(flags: u16, allowed: u16) -> bool
    ensures { result ≡ table.has_other flags allowed }
{
    flags | allowed != allowed
}

/// Whether two of public, private and protected are set.
fn has_two_kinds_of_access(flags: u16) -> bool
    ensures { result ≡ table.has_two_kinds_of_access flags }
{
    (has(flags, PUBLIC) && has(flags, PRIVATE))
        || (has(flags, PUBLIC) && has(flags, PROTECTED))
        || (has(flags, PRIVATE) && has(flags, PROTECTED))
}

pub fn has_bad_class_flags(flags: u16) -> bool
    ensures { result ≡ table.has_bad_class_flags flags }
{
    has_other(flags, CLASS_ALLOWED)
        || (has(flags, INTERFACE) && !has(flags, ABSTRACT))
        || (has(flags, ABSTRACT) && has(flags, FINAL))
}

/// Whether a field is what one of an interface has to be.
fn is_interface_constant(flags: u16) -> bool
    ensures { result ≡ table.is_interface_constant flags }
{
    has(flags, PUBLIC) && has(flags, STATIC) && has(flags, FINAL)
}

pub fn has_bad_field_flags(in_interface: bool, flags: u16) -> bool
    ensures { result ≡ table.has_bad_field_flags in_interface flags }
{
    has_other(flags, FIELD_ALLOWED)
        || has_two_kinds_of_access(flags)
        || (in_interface && !is_interface_constant(flags))
}

/// Whether a flag is set with which a method is not abstract.
fn is_concrete(flags: u16) -> bool
    ensures { result ≡ table.is_concrete flags }
{
    has(flags, PRIVATE) || has(flags, STATIC) || has(flags, FINAL) || has(flags, NATIVE)
}

pub fn has_bad_method_flags(flags: u16) -> bool
    ensures { result ≡ table.has_bad_method_flags flags }
{
    has_other(flags, METHOD_ALLOWED)
        || has_two_kinds_of_access(flags)
        || (has(flags, ABSTRACT) && is_concrete(flags))
}
