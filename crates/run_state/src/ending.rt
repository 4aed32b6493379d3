//! How a run ends.

use set_lookups::ClassId;

/// How a run stands: it goes on, or has ended in one of the four ways that a run can end. A class is told by its id
/// in the set that runs (this project's own rule; JVMS 5.5 for a class whose beginning fails).
#[derive(Clone, Copy, Debug, PartialEq, Eq)]
pub enum Ending {
    /// It has a further step.
    Running,
    /// `main` has returned.
    Returned,
    /// It was ended by `exit`, with this status.
    Exit(i32),
    /// A throwable of this class left `main`.
    Uncaught(ClassId),
    /// A throwable, whose class comes second, left the `<clinit>` of the first class.
    InitFailed(ClassId, ClassId),
}
