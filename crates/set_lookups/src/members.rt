//! Which members look-ups take.

ghost use Rattle.std.specs.Prelude.{◌≡◌, ◌<◌, ◌^◌, IfSome};
ghost use Rattle.set_lookups.specs.Wanted.{passes};

use class_model::MethodDef;

/// Which methods of a name and a descriptor are looked for.
#[derive(Clone, Copy, Debug, PartialEq, Eq)]
pub enum Wanted {
    /// All, as resolution does.
    Any,
    /// Those that are neither static nor private, as selection does.
    Inherited,
    /// Those of them that are final, which classes below cannot have again.
    Final,
}

/// A place in a list of at most 2^32 items, as a number of 32 bits.
pub fn number_of(place: Option<usize>) -> Option<u32>
    requires { IfSome place (λ k. k < 2 ^ 32) }
    ensures { result ≡ place }
{
    match place {
        Some(number) => Some(number as u32),
        None => None,
    }
}

/// Whether a look-up takes a method.
pub fn is_wanted(method: &MethodDef, wanted: Wanted) -> bool
    ensures { result ≡ passes wanted method.now }
{
    match wanted {
        Wanted::Any => true,
        Wanted::Inherited => method.flags & 2 == 0 && method.flags & 8 == 0,
        Wanted::Final => method.flags & 16 != 0 && method.flags & 2 == 0 && method.flags & 8 == 0,
    }
}
