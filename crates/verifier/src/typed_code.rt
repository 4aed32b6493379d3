//! The check of a method's code.

ghost use Rattle.std.specs.Prelude.{◌≡◌, ◌++◌, ◌∷◌, [], IfOk, IfErr, OnOk, slice_get};
ghost use Rattle.std.specs.Option.{option_copied};
ghost use Rattle.verifier.specs.declared.typed_code.VerifyStop.TheVariants.{Memory};
ghost use Rattle.verifier.specs.Set.{IsCheckable};
ghost use Rattle.verifier.specs.Verifies.{Stops};
ghost use Rattle.verifier.specs.Typed.{IsTyped};

use crate::check::judge;
use crate::first::first_frame;
use crate::frames::types_of;
use crate::typing::Typing;
use class_model::Frame;
use std::alloc::{AllocError, AllocFailed, Global};
use std::marker::Model;
use type_rows::{Checked, Halt, VerifyRule};

/// A method's first frame, and one for each instruction. In a frame a long is one entry, and the locals have as many words
/// as the method.
#[derive(Debug, Drop)]
pub struct TypedCode {
    first: Frame,
    frames: Vec<Frame>,
}

impl Model for TypedCode {
    ghost use Rattle.verifier.specs.Typed.{Typed};

    ghost Value = { Typed };

    ghost view = { λ t. record { first = t.first; frames = t.frames.items } };
}

impl TypedCode {
    /// The frame of the instruction of a number, `None` past the last one. Takes no memory.
    pub fn frame(&self, at: u32) -> Option<&Frame>
        ensures { option_copied result ≡ slice_get self.now.frames at }
    {
        self.frames.get(at as usize)
    }

    /// The first frame of the method (JVMS 4.10.1.6). Takes no memory.
    pub fn first(&self) -> &Frame
        ensures { result.now ≡ self.now.first }
    {
        &self.first
    }
}

/// Why a method's code has no frames.
#[derive(Clone, Copy, Debug, PartialEq, Eq)]
pub enum VerifyStop {
    /// The first instruction that fails, and the first rule that fails there.
    Unverified { at: u32, rule: VerifyRule },
    Memory,
}

impl From<AllocError> for VerifyStop {
    ghost from_gives = { λ _ stop. stop ≡ Memory };

    fn from(_: AllocError) -> VerifyStop {
        VerifyStop::Memory
    }
}

impl<T: Drop> From<AllocFailed<T>> for VerifyStop {
    ghost from_gives = { λ _ stop. stop ≡ Memory };

    fn from(_: AllocFailed<T>) -> VerifyStop {
        VerifyStop::Memory
    }
}

/// One more frame.
fn put(frames: &mut Vec<Frame>, frame: Frame) -> Result<(), AllocError>
    ensures { OnOk result (frames.new.items ≡ frames.old.items ++ frame ∷ []) }
{
    frames.push(frame)?;
    Ok(())
}

/// Checks code, one instruction after the other.
#[tactic(auto, using(crate::proofs::Typings::starts, crate::proofs::Typings::stopped))]
pub fn check_code(alloc: Global, method: &Checked) -> Result<TypedCode, VerifyStop>
    requires { IsCheckable method.now.code }
    ensures ok { IfOk result (λ typed. IsTyped method.now typed) }
    ensures err { IfErr result (λ stop. Stops method.now stop) }
{
    let first = first_frame(alloc, method)?;
    let mut frames = Vec::new(alloc);
    let mut came = Some(types_of(alloc, method, &first)?);
    for (i, insn) in method.code().insns.as_slice().iter().enumerate() {
        match judge(alloc, method, &first, i as u32, insn, came) {
            Ok(Typing { frame, falls_on }) => {
                put(&mut frames, frame)?;
                came = falls_on;
            }
            Err(Halt::Broken(rule)) => {
                return Err(VerifyStop::Unverified { at: i as u32, rule });
            }
            Err(Halt::Memory) => return Err(VerifyStop::Memory),
        }
    }
    Ok(TypedCode { first, frames })
}
