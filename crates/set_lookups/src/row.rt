//! What the index keeps of a class.

use lists::Seq;

/// The numbers of a class's superclass and of its interfaces, in its order.
#[derive(Debug, Drop)]
pub struct Row {
    pub superclass: Option<u32>,
    pub interfaces: Seq<u32>,
}
