//! What a command that is done leaves.

use lists::Bytes;

/// What a command that is done leaves for standard error, and its status.
#[derive(Drop)]
pub(crate) enum Done {
    /// Nothing, and status 0.
    Silent,
    /// The lines of a run, and the status of its ending.
    Ran { status: u8, lines: Bytes },
}
