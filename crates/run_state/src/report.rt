//! Reports.

/// What a listed sink tells of one argument as it is entered (this project's own): the sink's number, the
/// argument's number from 0 with the receiver first, and the argument's tag.
#[derive(Clone, Copy, Debug, PartialEq, Eq)]
pub struct Report {
    pub sink: i32,
    pub argument: i32,
    pub tag: i32,
}
