//! The frames below the top one.

ghost use Rattle.std.specs.Prelude.{◌≡◌, ◌≤◌, ◌+◌, [], ◌∷◌, ◌++◌, drop, length, reverse, vec_len, OnOk, OnErr, MatchOption};
ghost use Rattle.std.specs.Vec.{vec_capacity};
ghost use Rattle.machine.specs.Called.{MatchHead, given_to};

use machine_frames::Frame;
use machine_words::Word;
use std::alloc::{AllocError, Global};
use std::marker::Model;
use std::mem;

/// The frames that wait below the top one, seen with the uppermost first.
#[derive(Drop)]
pub struct Callers<T> {
    frames: Vec<Frame<T>>,
}

impl<T> Model for Callers<T> {
    ghost use Rattle.std.specs.Prelude.{List, reverse};
    ghost use Rattle.machine_frames.specs.declared.frame.Frame.{Frame};

    ghost Value = { List (Frame T) };

    ghost view = { λ c. reverse c.frames.items };
}

impl<T: Copy + Drop> Callers<T> {
    pub fn new(alloc: Global) -> Callers<T>
        ensures { result ≡ [] }
    {
        Callers {
            frames: Vec::new(alloc),
        }
    }

    /// Takes the uppermost frame.
    pub fn pop(&mut self) -> Option<Frame<T>>
        ensures { MatchOption result ((self.old ≡ []) × (self.new ≡ [])) (λ f. self.old ≡ f ∷ self.new) }
    {
        self.frames.pop()
    }

    /// Puts a frame above. A refusal leaves them as they were.
    pub fn push(&mut self, frame: Frame<T>) -> Result<(), AllocError>
        ensures ok { OnOk result (self.new ≡ frame ∷ self.old) }
        ensures err { OnErr result (self.new ≡ self.old) }
    {
        self.frames.push(frame)?;
        Ok(())
    }

    /// Takes the uppermost frame and puts another in its place.
    pub fn exchange(&mut self, frame: &mut Frame<T>)
        ensures { MatchHead self.old (self.new ≡ []) (λ f fs. (self.new ≡ frame.old ∷ fs) × (frame.new ≡ f)) }
    {
        if self.frames.is_empty() {
            return;
        }
        let upper = self.frames.take_last();
        let lower = mem::replace(frame, upper);
        self.frames.push_reserved(lower);
    }

    /// Gives a value to the uppermost frame. A refusal leaves the frames as they were.
    pub fn give(&mut self, value: Word<T>) -> Result<(), AllocError>
        ensures ok { OnOk result (self.new ≡ given_to value self.old) }
        ensures err { OnErr result (self.new ≡ self.old) }
    {
        if self.frames.is_empty() {
            return Ok(());
        }
        let mut upper = self.frames.take_last();
        let given = upper.stack.push_value(value);
        self.frames.push_reserved(upper);
        given
    }

    /// Puts frames above the given one, the last of them first: the first of them takes its place. A refusal leaves all as it was.
    pub fn lay(&mut self, top: &mut Frame<T>, frames: Vec<Frame<T>>) -> Result<(), AllocError>
        ensures ok { OnOk result (top.new ∷ self.new ≡ frames.items ++ (top.old ∷ self.old)) }
        ensures err { OnErr result ((top.new ≡ top.old) × (self.new ≡ self.old)) }
    {
        let mut frames = frames;
        self.frames.reserve(frames.len())?;
        lay_on(&mut self.frames, top, &mut frames);
        Ok(())
    }

    /// Takes so many frames off, the given one first: the next of them takes its place.
    pub fn take_off(&mut self, top: &mut Frame<T>, count: usize)
        requires { count ≤ length self.old }
        ensures { top.new ∷ self.new ≡ drop count (top.old ∷ self.old) }
    {
        take_from(&mut self.frames, top, count);
    }

    /// Takes all frames.
    pub fn clear(&mut self)
        ensures { self.new ≡ [] }
    {
        self.frames.clear();
    }
}

/// Puts frames above the given one, where there is room for them.
fn lay_on<T: Copy + Drop>(below: &mut Vec<Frame<T>>, top: &mut Frame<T>, frames: &mut Vec<Frame<T>>)
    requires { vec_len below.old + vec_len frames.old ≤ vec_capacity below.old }
    ensures { top.new ∷ reverse below.new.items ≡ frames.old.items ++ (top.old ∷ reverse below.old.items) }
{
    for laid in 0..frames.len() {
        let upper = frames.take_last();
        let lower = mem::replace(top, upper);
        below.push_reserved(lower);
    }
}

/// Takes so many frames off.
fn take_from<T: Copy + Drop>(below: &mut Vec<Frame<T>>, top: &mut Frame<T>, count: usize)
    requires { count ≤ vec_len below.old }
    ensures { top.new ∷ reverse below.new.items ≡ drop count (top.old ∷ reverse below.old.items) }
{
    for taken in 0..count {
        *top = below.take_last();
    }
}
