//! What the lists of sources and sinks say of the natives that the first form calls.

/// The marks of `read` and `write`.
#[derive(Clone, Copy)]
pub(crate) struct Marks {
    /// The tag of what `read` gives: 0 where it is no source.
    pub(crate) read: i32,
    /// Whether `write` is a sink.
    pub(crate) write: bool,
}
