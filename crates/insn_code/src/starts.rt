//! Where the instructions of code begin.

ghost use Rattle.std.specs.Prelude.{◌≡◌, ◌+◌, ◌<◌, ◌≤◌, ◌++◌, ◌∷◌, [], length, IfOk};
ghost use Rattle.insn_code.specs.Offsets.{Offsets, number_at};

use lists::Seq;
use std::alloc::{AllocError, Global};
use std::marker::Model;

/// The offsets in bytes at which the instructions of code begin (JVMS 4.7.3), which finds the number of the
/// instruction at an offset in constant time. Contracts see the offsets, and how many bytes the instructions take.
#[derive(Debug, Drop)]
pub struct Starts {
    starts: Seq<u32>,
    numbers: Vec<Option<u16>>,
}

impl Model for Starts {
    ghost use Rattle.std.specs.Prelude.{length};
    ghost use Rattle.insn_code.specs.Offsets.{Offsets, HasNumbers};

    ghost Value = { Offsets };

    ghost view = { λ s. record { starts = s.starts; size = length s.numbers.items } };

    ghost invariant = { λ s. HasNumbers s.starts s.numbers.items };
}

impl Starts {
    /// The offsets of no instruction. Takes no memory.
    #[tactic(auto, using(crate::proofs::Numbers::none))]
    pub(crate) fn new(alloc: Global) -> Starts
        ensures { result ≡ record { starts = []; size = 0 } }
    {
        Starts {
            starts: Seq::new(alloc),
            numbers: Vec::new(alloc),
        }
    }

    /// How many bytes the instructions take.
    pub fn size(&self) -> usize
        ensures value { result ≡ self.now.size }
        ensures small { result ≤ 65535 }
    {
        self.numbers.len()
    }

    /// How many instructions there are.
    pub fn count(&self) -> u32
        ensures { result ≡ length self.now.starts }
    {
        self.starts.len() as u32
    }

    /// The offsets with one more instruction, of so many bytes.
    #[tactic(auto, using(crate::proofs::Numbers::one_more))]
    pub(crate) fn with_insn(self, size: usize) -> Result<Starts, AllocError>
        requires some { 0 < size }
        requires room { self.size + size ≤ 65535 }
        ensures { IfOk result (λ s. s ≡ record { starts = self.starts ++ self.size ∷ []; size = self.size + size }) }
    {
        let Starts {
            mut starts,
            mut numbers,
        } = self;
        let at = numbers.len();
        let number = starts.len();
        starts.push(at as u32)?;
        numbers.push(Some(number as u16))?;
        numbers.resize(at + size, None)?;
        Ok(Starts { starts, numbers })
    }

    /// The number of the instruction whose opcode stands at an offset, if any.
    pub fn number(&self, offset: i64) -> Option<u32>
        ensures { result ≡ number_at self.now.starts offset }
    {
        let at = usize::try_from(offset).ok()?;
        let number = (*self.numbers.get(at)?)?;
        Some(u32::from(number))
    }
}
