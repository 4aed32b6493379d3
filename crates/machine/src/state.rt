//! The state of a machine.

ghost use Rattle.std.specs.Prelude.{◌≡◌, Some, None};

use crate::begun::Begun;
use crate::callers::Callers;
use lists::Seq;
use machine_frames::Frame;
use machine_heap::Heap;
use machine_words::Locals;
use run_state::Report;
use std::alloc::Global;

/// What the root frame does next: it begins the main class, makes an array, calls `main`, waits for it.
#[derive(Clone, Copy, Debug, PartialEq, Eq)]
pub enum Phase {
    Begins,
    Makes,
    Calls,
    Waits,
}

/// How a run stands, where classes are numbers of the program. `Stuck` comes only where an operand is missing or of another
/// kind.
#[derive(Clone, Copy, Debug, PartialEq, Eq)]
pub enum Ending {
    Running,
    Returned,
    Exit(i32),
    Uncaught(u32),
    /// The class that failed to begin, and the exception's.
    InitFailed(u32, u32),
    Stuck,
}

/// What a step answers: a step was made, or the run waits for a byte of its input, or it had ended.
#[derive(Clone, Copy, Debug, PartialEq, Eq)]
pub enum Turn {
    Went,
    Wants,
    Ended,
}

/// A text constant that was made into a String: the number of the text, and the place of the object.
#[derive(Clone, Copy, Debug)]
pub struct Literal {
    pub text: u32,
    pub place: u64,
}

/// The data that frames share (JVMS 2.5): the heap, the static fields, and the literals.
#[derive(Drop)]
pub struct Areas<T> {
    pub heap: Heap<T>,
    pub statics: Locals<T>,
    pub literals: Seq<Literal>,
}

/// A machine at some step. `framed` tells whether there is a top frame; where there is none and the run goes on, it is the root
/// frame's turn. `fed` is the next byte of the input, where it is known.
#[derive(Drop)]
pub struct Machine<T> {
    pub alloc: Global,
    pub framed: bool,
    pub top: Frame<T>,
    pub below: Callers<T>,
    pub areas: Areas<T>,
    pub begun: Begun,
    pub phase: Phase,
    pub fed: Option<u8>,
    pub console: Seq<u8>,
    pub reports: Seq<Report>,
    pub ending: Ending,
}

impl<T> Machine<T> {
    /// Gives the next byte of the input, once the one before was taken.
    pub fn feed(&mut self, byte: u8)
        requires { self.old.fed ≡ None }
        ensures { self.new ≡ record self.old { fed = Some byte } }
    {
        self.fed = Some(byte);
    }
}
