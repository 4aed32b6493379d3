//! Branches, and where an instruction goes on.

ghost use Rattle.std.specs.Prelude.{◌≡◌, Ok, OnOk, IfErr};
ghost use Rattle.type_rows.specs.Halts.{Halts};
ghost use Rattle.type_rows.specs.Jumps.{falls, row_of_reference, row_of_references};

use crate::operands::take_kind;
use crate::rule::Halt;
use crate::state::TypeState;
use class_model::{Insn, Kind};

/// Takes a reference.
#[tactic(auto, using(crate::proofs::Steps::halts_on))]
pub fn take_reference(state: &mut TypeState) -> Result<(), Halt>
    ensures ok { OnOk result (row_of_reference state.old ≡ Ok state.new) }
    ensures err { IfErr result (λ halt. Halts halt (row_of_reference state.old)) }
{
    let _ = take_kind(Kind::Ref, state)?;
    Ok(())
}

/// Takes two references.
#[tactic(auto, using(crate::proofs::Steps::halts_on))]
pub fn take_references(state: &mut TypeState) -> Result<(), Halt>
    ensures ok { OnOk result (row_of_references state.old ≡ Ok state.new) }
    ensures err { IfErr result (λ halt. Halts halt (row_of_references state.old)) }
{
    take_reference(state)?;
    take_reference(state)
}

/// Whether the instruction can go on to the next one.
#[tactic(auto, unfolding(crate::specs::Jumps::falls))]
pub fn falls(insn: &Insn) -> bool
    ensures { result ≡ falls insn.now }
{
    !matches!(
        insn,
        Insn::Goto(_)
            | Insn::TableSwitch { .. }
            | Insn::LookupSwitch { .. }
            | Insn::Return(_)
            | Insn::Athrow
    )
}
