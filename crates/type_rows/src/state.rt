//! The types at an instruction.

ghost use Rattle.std.specs.Prelude.{◌≡◌, [], ◌∷◌, length, slice_get, slice_set, sum_by, nat_le, reverse, OnOk, OnErr, IfOk, MatchOption};
ghost use Rattle.std.specs.Option.{option_copied};
ghost use Rattle.std.specs.List.{list_any};
ghost use Rattle.class_set.specs.Assignable.{width, is_long, is_uninit, is_uninit_this, has_uninit_this};
ghost use Rattle.type_rows.specs.Locals.{word_at, cut, stored};
ghost use Rattle.type_rows.specs.Calls.{replaced};

use crate::types::{any_uninit, fits, replace};
use class_model::VType;
use class_set::{any_uninit_this, is_long};
use lists::Plain;
use std::alloc::{AllocError, Global};
use std::marker::Model;

/// The operands, which contracts see as a list with the topmost first. A long is one entry.
#[derive(Debug, Drop)]
pub struct Operands {
    entries: Vec<VType>,
}

impl Model for Operands {
    ghost use Rattle.std.specs.Prelude.{List, reverse};
    ghost use Rattle.class_model.specs.declared.class.VType.{VType};

    ghost Value = { List VType };

    ghost view = { λ s. reverse s.entries.items };
}

impl Operands {
    /// No operand. Takes no memory.
    pub fn new(alloc: Global) -> Operands
        ensures { result ≡ [] }
    {
        Operands {
            entries: Vec::new(alloc),
        }
    }

    /// The operands that stand in a list with the lowest first.
    pub fn from_lowest(entries: Vec<VType>) -> Operands
        ensures { result ≡ reverse entries.items }
    {
        Operands { entries }
    }

    /// The entries, the lowest first, given back. Takes no memory.
    pub fn into_lowest(self) -> Vec<VType>
        ensures { reverse result.items ≡ self }
    {
        let Operands { entries } = self;
        entries
    }

    /// The entries, the lowest first.
    pub fn as_slice(&self) -> &[VType]
        ensures { reverse result.now ≡ self.now }
    {
        self.entries.as_slice()
    }

    /// Puts an operand on top. A refusal leaves the operands as they were.
    pub fn push(&mut self, ty: VType) -> Result<(), AllocError>
        ensures ok { OnOk result (self.new ≡ ty ∷ self.old) }
        ensures err { OnErr result (self.new ≡ self.old) }
    {
        self.entries.push(ty)?;
        Ok(())
    }

    /// Takes the topmost operand, if there is one.
    pub fn pop(&mut self) -> Option<VType>
        ensures { MatchOption result ((self.old ≡ []) × (self.new ≡ [])) (λ ty. self.old ≡ ty ∷ self.new) }
    {
        self.entries.pop()
    }

    /// Whether the operands have at most so many words.
    #[tactic(auto, using(crate::proofs::Lists::sum_reverse))]
    pub fn fits(&self, most: u16) -> bool
        ensures { result ≡ nat_le (sum_by width self.now) most }
    {
        fits(self.entries.as_slice(), most)
    }

    /// Whether an operand is the object that the `new` of this number made, not initialised.
    #[tactic(auto, using(crate::proofs::Lists::any_reverse))]
    pub fn has_uninit(&self, at: u32) -> bool
        ensures { result ≡ list_any (is_uninit at) self.now }
    {
        any_uninit(self.entries.as_slice(), at)
    }

    #[tactic(auto, using(crate::proofs::Lists::any_reverse))]
    fn has_uninit_this(&self) -> bool
        ensures { result ≡ list_any is_uninit_this self.now }
    {
        any_uninit_this(self.entries.as_slice())
    }

    /// Gives another type to each operand that is this object, not initialised.
    #[tactic(auto, using(crate::proofs::Lists::replaced_reverse))]
    pub fn replace(&mut self, old: &VType, new: &VType) -> Result<(), AllocError>
        ensures { OnOk result (self.new ≡ replaced old.now new.now self.old) }
    {
        replace(&mut self.entries, old, new)?;
        Ok(())
    }
}

impl Clone for Operands {
    ghost is_clone = { λ s t. t ≡ s };

    fn clone(&self) -> Result<Operands, AllocError> {
        Ok(Operands {
            entries: self.entries.clone()?,
        })
    }
}

impl Plain for Operands {
    ghost copies = { λ x y same. same };
}

/// The locals word by word, which contracts see as a list. The second word of a long is Top.
#[derive(Debug, Drop)]
pub struct Locals {
    words: Vec<VType>,
}

impl Model for Locals {
    ghost use Rattle.std.specs.Prelude.{List};
    ghost use Rattle.class_model.specs.declared.class.VType.{VType};

    ghost Value = { List VType };

    ghost view = { λ l. l.words.items };
}

impl Locals {
    /// These words. Takes no memory.
    pub fn from_vec(words: Vec<VType>) -> Locals
        ensures { result ≡ words.items }
    {
        Locals { words }
    }

    pub fn as_slice(&self) -> &[VType]
        ensures { result.now ≡ self.now }
    {
        self.words.as_slice()
    }

    /// The word of a number, if it is there.
    pub fn get(&self, slot: u16) -> Option<&VType>
        ensures { option_copied result ≡ slice_get self.now slot }
    {
        self.words.get(slot as usize)
    }

    /// Puts a type into a word that is there.
    #[tactic(auto, using(crate::proofs::Lists::set_past))]
    fn set(&mut self, slot: usize, ty: VType)
        ensures { self.new ≡ slice_set self.old slot ty }
    {
        if slot < self.words.len() {
            self.words[slot] = ty;
        }
    }

    fn is_long_at(&self, slot: usize) -> bool
        ensures { result ≡ is_long (word_at self.now slot) }
    {
        match self.words.get(slot) {
            Some(ty) => is_long(ty),
            None => false,
        }
    }

    /// Makes Top of a long whose second word is this one.
    fn cut(&mut self, slot: usize)
        ensures { self.new ≡ cut slot self.old }
    {
        if slot > 0 && self.is_long_at(slot - 1) {
            self.set(slot - 1, VType::Top);
        }
    }

    /// Stores a type, whose second word is Top where it is a long.
    pub fn store(&mut self, slot: u16, ty: VType)
        ensures { self.new ≡ stored slot ty self.old }
    {
        let slot = slot as usize;
        self.cut(slot);
        if is_long(&ty) {
            self.set(slot + 1, VType::Top);
        }
        self.set(slot, ty);
    }

    /// Gives another type to each word that is this object, not initialised.
    pub fn replace(&mut self, old: &VType, new: &VType) -> Result<(), AllocError>
        ensures { OnOk result (self.new ≡ replaced old.now new.now self.old) }
    {
        replace(&mut self.words, old, new)
    }
}

impl Clone for Locals {
    ghost is_clone = { λ s t. t ≡ s };

    fn clone(&self) -> Result<Locals, AllocError> {
        Ok(Locals {
            words: self.words.clone()?,
        })
    }
}

impl Plain for Locals {
    ghost copies = { λ x y same. same };
}

/// The types that an instruction finds (JVMS 4.10.1.4): the locals word by word, the second word of a long being Top, and
/// the operands.
#[derive(Debug, Drop)]
pub struct TypeState {
    pub locals: Locals,
    pub stack: Operands,
}

impl TypeState {
    /// Whether the object of a constructor is not initialised yet: the flag of JVMS 4.10.1.4.
    pub fn has_uninit_this(&self) -> bool
        ensures { result ≡ has_uninit_this self.now.locals self.now.stack }
    {
        any_uninit_this(self.locals.as_slice()) || self.stack.has_uninit_this()
    }

    /// A copy.
    pub fn copied(&self) -> Result<TypeState, AllocError>
        ensures { IfOk result (λ copy. copy ≡ self.now) }
    {
        Ok(TypeState {
            locals: self.locals.clone()?,
            stack: self.stack.clone()?,
        })
    }
}
