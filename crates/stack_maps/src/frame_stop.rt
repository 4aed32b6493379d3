//! Why bytes are no table of frames.

ghost use Rattle.std.specs.Prelude.{◌≡◌};
ghost use Rattle.stack_maps.specs.declared.frame_stop.FrameStop.TheVariants.{Memory};

use std::alloc::{AllocError, AllocFailed};
use thiserror::Error;

/// The first bad place of a table of frames, as an offset in its bytes, or want of memory.
#[derive(Clone, Copy, Debug, PartialEq, Eq, Error)]
pub enum FrameStop {
    /// The first byte of a field that is not there in full.
    #[error("byte {0}: short")]
    Short(usize),
    /// A type byte of a frame that JVMS 4.7.4 reserves, 128 to 246.
    #[error("byte {0}: reserved frame type {1}")]
    Reserved(usize, u8),
    /// A tag of no type, or of float or double, which are left out.
    #[error("byte {0}: type tag {1}")]
    BadTag(usize, u8),
    /// The type byte of a frame that chops more locals than there are.
    #[error("byte {0}: chops too many locals")]
    Underflow(usize),
    /// The offset delta that brings a frame's offset past 65,535; where the type byte holds it, that byte.
    #[error("byte {0}: offset over 65535")]
    Offset(usize),
    /// Memory ran out.
    #[error("out of memory")]
    Memory,
}

impl From<AllocError> for FrameStop {
    ghost from_gives = { λ _ e. e ≡ Memory };

    fn from(_: AllocError) -> FrameStop {
        FrameStop::Memory
    }
}

impl<T: Drop> From<AllocFailed<T>> for FrameStop {
    ghost from_gives = { λ _ e. e ≡ Memory };

    fn from(_: AllocFailed<T>) -> FrameStop {
        FrameStop::Memory
    }
}
