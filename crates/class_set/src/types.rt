//! Tests of verification types.

ghost use Rattle.std.specs.Prelude.{◌≡◌};
ghost use Rattle.std.specs.List.{list_any};
ghost use Rattle.class_set.specs.Assignable.{is_int, is_long, is_uninit_this};

use class_model::VType;

/// Whether the type is an int.
pub fn is_int(ty: &VType) -> bool
    ensures { result ≡ is_int ty.now }
{
    matches!(ty, VType::Int)
}

/// Whether the type is a long, which has two words.
pub fn is_long(ty: &VType) -> bool
    ensures { result ≡ is_long ty.now }
{
    matches!(ty, VType::Long)
}

/// Whether the type is the object of a constructor, not initialised.
pub fn is_uninit_this(ty: &VType) -> bool
    ensures { result ≡ is_uninit_this ty.now }
{
    matches!(ty, VType::UninitThis)
}

/// Whether one of the types is the object of a constructor, not initialised.
pub fn any_uninit_this(types: &[VType]) -> bool
    ensures { result ≡ list_any is_uninit_this types.now }
{
    types.iter().any(|ty| is_uninit_this(ty))
}
