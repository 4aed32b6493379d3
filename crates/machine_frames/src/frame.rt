//! Frames.

use machine_words::{Locals, Stack};

/// A frame (JVMS 2.6): the number of its method, that of the next instruction, the locals and the operand stack.
#[derive(Drop)]
pub struct Frame<T> {
    pub method: u32,
    pub next: usize,
    pub locals: Locals<T>,
    pub stack: Stack<T>,
}
