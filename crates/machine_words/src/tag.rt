//! Tags.

ghost use Rattle.std.specs.Prelude.{◌≡◌, pos, OnOk, IfOk};
ghost use Rattle.run_state.specs.Numbers.{int_or};

use std::alloc::AllocError;

/// A tag beside a number or an object. Joining may take memory.
pub trait Tag: Copy + Drop {
    ghost none_of: { Self };

    ghost join_of: { Self → Self → Self };

    fn none() -> Self
        ensures { result ≡ none_of };

    fn join(self, other: Self) -> Result<Self, AllocError>
        ensures { IfOk result (λ t. t ≡ join_of self other) };
}

/// No tag.
#[derive(Clone, Copy, PartialEq, Eq, Debug)]
pub struct NoTag;

impl Tag for NoTag {
    ghost none_of = { record {} };

    ghost join_of = { λ a b. record {} };

    fn none() -> Self {
        NoTag
    }

    fn join(self, _other: Self) -> Result<Self, AllocError> {
        Ok(NoTag)
    }
}

impl Tag for i32 {
    ghost none_of = { pos 0 };

    ghost join_of = { λ a b. int_or a b };

    fn none() -> Self {
        0
    }

    fn join(self, other: Self) -> Result<Self, AllocError> {
        Ok(self | other)
    }
}
