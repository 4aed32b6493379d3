//! What is known of an instruction.

use class_model::Frame;
use type_rows::TypeState;

/// An instruction's frame, and the types that fall on to the next instruction.
#[derive(Debug, Drop)]
pub struct Typing {
    pub frame: Frame,
    pub falls_on: Option<TypeState>,
}
