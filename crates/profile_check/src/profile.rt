//! The profile and its refusals.

ghost use Rattle.std.specs.Prelude.{◌≡◌};
ghost use Rattle.profile_check.specs.declared.profile.ProfileStop.TheVariants.{Memory};

use lists::Name;
use std::alloc::{AllocError, AllocFailed};
use thiserror::Error;

/// Whose names a class may have: a user's class, or a written one, which may have reserved names.
#[derive(Clone, Copy, Debug, PartialEq, Eq)]
pub enum Names {
    Source,
    Written,
}

/// The rows of the profile, in the order in which they are judged. All are this project's own rules.
#[derive(Debug, PartialEq, Eq, Drop)]
pub enum ProfileKind {
    /// The major version, which is not 50, 51 or 52.
    Version(u16),
    ClassFlags,
    FieldFlags,
    MethodFlags,
    FloatType,
    BadName,
    /// The reserved name.
    Reserved(Name),
    CodeShape,
    Native,
    InterfaceMethod,
    Initializer,
    Constant,
    TwiceMember,
    Params,
    Super,
    OutName,
    ArrayMember,
}

/// The first row that refuses a class, with the first place in file order that it refuses. `member`
/// counts the fields and then the methods, `at` is the number of an instruction. Each is `None` where
/// the place is in none.
#[derive(Debug, PartialEq, Eq, Drop)]
pub struct OutOfProfile {
    pub kind: ProfileKind,
    pub member: Option<u32>,
    pub at: Option<u32>,
}

/// Why a class was not found to be in the profile.
#[derive(Debug, PartialEq, Eq, Drop, Error)]
pub enum ProfileStop {
    #[error("not in the profile")]
    Out(OutOfProfile),
    #[error("out of memory")]
    Memory,
}

impl From<AllocError> for ProfileStop {
    ghost from_gives = { λ _ stop. stop ≡ Memory };

    fn from(_: AllocError) -> ProfileStop {
        ProfileStop::Memory
    }
}

impl<T: Drop> From<AllocFailed<T>> for ProfileStop {
    ghost from_gives = { λ _ stop. stop ≡ Memory };

    fn from(_: AllocFailed<T>) -> ProfileStop {
        ProfileStop::Memory
    }
}
