//! The tag of the plain machine.

ghost use Rattle.std.specs.Prelude.{◌≡◌, IfOk};

use machine_words::Tag;
use std::alloc::AllocError;
use std::marker::Model;

/// No tag, seen as the definition's plain machine has it.
#[derive(Clone, Copy)]
pub struct Untagged;

impl Model for Untagged {
    ghost Value = { Unit {0} };

    ghost view = { λ _. tt };

    ghost inverse = { λ _. record {} };
}

impl Tag for Untagged {
    ghost none_of = { tt };

    ghost join_of = { λ a b. tt };

    fn none() -> Self {
        Untagged
    }

    fn join(self, _other: Self) -> Result<Self, AllocError> {
        Ok(Untagged)
    }
}
