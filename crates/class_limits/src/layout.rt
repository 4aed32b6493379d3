//! Where the instructions of code stand.

ghost use Rattle.std.specs.Prelude.{◌≡◌, ◌≤◌, ◌<◌, ◌+◌, IfOk, Some, length, slice_get};
ghost use Rattle.class_limits.specs.Sizes as sizes;
ghost use Rattle.class_limits.specs.Limits.{told};

use crate::size::size_at;
use class_model::{CodeDef, Insn};
use lists::Seq;
use std::alloc::{AllocError, Global};
use std::marker::Model;

/// The offsets in bytes at which the instructions of code begin (JVMS 4.7.3), in the spelling that is written.
#[derive(Debug, Drop)]
pub struct Layout {
    wide_goto: bool,
    starts: Seq<u32>,
    size: u32,
}

impl Model for Layout {
    ghost use Rattle.class_limits.specs.Sizes.{CodeLayout};

    ghost Value = { CodeLayout };

    ghost view = { λ l. record { wide_goto = l.wide_goto; starts = l.starts; size = l.size } };
}

/// The offset behind instructions that stand at the front of code.
#[tactic(auto, unfolding(crate::specs::Sizes::end_from), using(crate::proofs::Offsets::ends_more, crate::proofs::Offsets::ends_all))]
fn end_of(wide_goto: bool, insns: &[Insn]) -> u64
    ensures { result ≡ told (sizes.end_from wide_goto 0 insns.now) }
{
    let mut pc: u64 = 0;
    for insn in insns {
        pc = pc.saturating_add(size_at(wide_goto, pc, insn));
    }
    pc
}

/// Whether each Goto of code is `goto_w`: the code with `goto` would be over 32,767 bytes. Takes no memory.
#[tactic(auto, unfolding(crate::specs::Sizes::uses_wide_goto))]
pub fn uses_wide_goto(code: &CodeDef) -> bool
    ensures { result ≡ sizes.uses_wide_goto code.now }
{
    end_of(false, code.insns.as_slice()) > 32_767
}

/// How many bytes the instructions of code take in the spelling that is written; a number past 64 bits is their
/// greatest. Takes no memory.
#[tactic(auto, unfolding(crate::specs::Sizes::uses_wide_goto, crate::specs::Sizes::code_size))]
pub fn code_size(code: &CodeDef) -> u64
    ensures { result ≡ told (sizes.code_size code.now) }
{
    let insns = code.insns.as_slice();
    let size = end_of(false, insns);
    if size > 32_767 {
        end_of(true, insns)
    } else {
        size
    }
}

/// The offsets of instructions of at most 65,535 bytes, and the offset behind them.
#[tactic(auto, unfolding(crate::specs::Sizes::end_from, crate::specs::Sizes::offsets_from), using(crate::proofs::Offsets::size_within, crate::proofs::Offsets::starts_more, crate::proofs::Offsets::starts_all))]
fn starts_of(alloc: Global, wide_goto: bool, insns: &[Insn]) -> Result<(Seq<u32>, u32), AllocError>
    requires { sizes.end_from wide_goto 0 insns.now ≤ 65535 }
    ensures { IfOk result (λ found. (found.0 ≡ sizes.offsets_from wide_goto 0 insns.now) × (found.1 ≡ sizes.end_from wide_goto 0 insns.now)) }
{
    let mut starts = Seq::new(alloc);
    let mut pc: u32 = 0;
    for insn in insns {
        starts.push(pc)?;
        pc += size_at(wide_goto, u64::from(pc), insn) as u32;
    }
    Ok((starts, pc))
}

impl Layout {
    /// The layout of code that is within its limit.
    #[tactic(auto, unfolding(crate::specs::Sizes::layout_of, crate::specs::Sizes::code_size, crate::specs::Sizes::offsets_of))]
    pub fn of(alloc: Global, code: &CodeDef) -> Result<Layout, AllocError>
        requires { sizes.code_size code.now ≤ 65535 }
        ensures { IfOk result (λ layout. layout ≡ sizes.layout_of code.now) }
    {
        let wide_goto = uses_wide_goto(code);
        let (starts, size) = starts_of(alloc, wide_goto, code.insns.as_slice())?;
        Ok(Layout {
            wide_goto,
            starts,
            size,
        })
    }

    /// Whether each Goto is `goto_w`.
    pub fn wide_goto(&self) -> bool
        ensures { result ≡ self.now.wide_goto }
    {
        self.wide_goto
    }

    /// How many bytes the instructions take.
    pub fn size(&self) -> u32
        ensures { result ≡ self.now.size }
    {
        self.size
    }

    /// The offset of an instruction, `None` where there is none of this number.
    pub fn start(&self, number: u32) -> Option<u32>
        ensures { result ≡ slice_get self.now.starts number }
    {
        self.starts.get(number as usize).copied()
    }

    /// The offset of an instruction that is there.
    pub(crate) fn start_of(&self, at: usize) -> u32
        requires { at < length self.now.starts }
        ensures { slice_get self.now.starts at ≡ Some result }
    {
        *self.starts.at(at)
    }

    /// The offset of an instruction; behind the last instruction stands the code's end.
    pub fn offset(&self, number: u32) -> u32
        ensures { result ≡ sizes.offset_at self.now number }
    {
        match self.start(number) {
            Some(start) => start,
            None => self.size,
        }
    }
}
