//! The classes that have begun.

ghost use Rattle.std.specs.Prelude.{◌≡◌, ◌<◌, ◌≤◌, ◌+◌, [], ◌∷◌, ◌++◌, length, reverse, vec_len, OnOk, OnErr, IfOk};
ghost use Rattle.std.specs.Vec.{vec_capacity};
ghost use Rattle.machine.specs.Marked.{AreMarked};
ghost use Rattle.linked_code.specs.Kept as kept;

use crate::catching::is_among;
use std::alloc::{AllocError, Global};
use std::marker::Model;

/// The numbers of the classes that have begun, seen with the last first. A mark for each class of the program makes the question
/// for one of them short.
#[derive(Drop)]
pub struct Begun {
    classes: Vec<u32>,
    marks: Vec<bool>,
}

impl Model for Begun {
    ghost use Rattle.std.specs.Prelude.{ℕ, List, reverse};

    ghost Value = { List ℕ };

    ghost use Rattle.machine.specs.Marked.{AreMarked};

    ghost view = { λ b. reverse b.classes.items };

    ghost invariant = { λ b. AreMarked (reverse b.classes.items) b.marks.items };
}

impl Begun {
    /// None of so many classes.
    pub fn new(alloc: Global, count: usize) -> Result<Begun, AllocError>
        ensures { IfOk result (λ b. b ≡ []) }
    {
        Ok(Begun {
            classes: Vec::new(alloc),
            marks: vec![in alloc; false; count]?,
        })
    }

    pub fn contains(&self, class: u32) -> bool
        ensures { result ≡ kept.is_among self.now class }
    {
        match self.marks.get(class as usize) {
            Some(mark) => *mark,
            None => is_among(self.classes.as_slice(), class),
        }
    }

    /// Puts these classes in front. A refusal leaves them as they were.
    pub fn mark_all(&mut self, classes: &[u32]) -> Result<(), AllocError>
        ensures ok { OnOk result (self.new ≡ classes.now ++ self.old) }
        ensures err { OnErr result (self.new ≡ self.old) }
    {
        self.classes.reserve(classes.len())?;
        mark_each(&mut self.classes, &mut self.marks, classes);
        Ok(())
    }
}

/// Marks classes, where there is room for them.
fn mark_each(classes: &mut Vec<u32>, marks: &mut Vec<bool>, others: &[u32])
    requires room { vec_len classes.old + length others.now ≤ vec_capacity classes.old }
    requires marked { AreMarked (reverse classes.old.items) marks.old.items }
    ensures items { reverse classes.new.items ≡ others.now ++ reverse classes.old.items }
    ensures marked { AreMarked (reverse classes.new.items) marks.new.items }
{
    for behind in 0..others.len() {
        mark_one(classes, marks, others[others.len() - 1 - behind]);
    }
}

/// Marks a class, where there is room for it.
fn mark_one(classes: &mut Vec<u32>, marks: &mut Vec<bool>, class: u32)
    requires room { vec_len classes.old < vec_capacity classes.old }
    requires marked { AreMarked (reverse classes.old.items) marks.old.items }
    ensures items { reverse classes.new.items ≡ class ∷ reverse classes.old.items }
    ensures len { vec_len classes.new ≡ vec_len classes.old + 1 }
    ensures capacity { vec_capacity classes.new ≡ vec_capacity classes.old }
    ensures marked { AreMarked (reverse classes.new.items) marks.new.items }
{
    classes.push_reserved(class);
    let at = class as usize;
    if at < marks.len() {
        marks[at] = true;
    }
}
