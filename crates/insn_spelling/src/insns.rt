//! Instructions one after the other.

ghost use Rattle.std.specs.Prelude.{List, length};
ghost use Rattle.class_limits.specs.Sizes.{CodeLayout};
ghost use Rattle.class_model.specs.declared.insn.Insn.{Insn as Instruction};
ghost use Rattle.insn_code.specs.Linking.{IsCode};
ghost use Rattle.pool_names.specs.Adding.{Writes};
ghost use Rattle.pool_names.specs.Claims.{Claims};
ghost use Rattle.insn_spelling.specs.Conditions.{FitsTexts, Writable, WritableInsns, offsets};
ghost use Rattle.insn_spelling.specs.Spelling.{spell_insn, spell_insns};

use crate::index::put_index;
use crate::raw::raw_insn;
use class_limits::Layout;
use class_model::Insn;
use const_pool::PoolStop;
use opcode_table::encode_insn;
use pool_names::PoolWriter;
use std::alloc::Global;

/// Puts an instruction whose opcode stands at `pc` behind other bytes.
#[tactic(auto, using(crate::proofs::WellFormed::well_formed), unfolding(crate::specs::Spelling::spell_insn))]
fn put_insn(
    alloc: Global,
    pool: &mut PoolWriter,
    out: &mut Vec<u8>,
    layout: &Layout,
    pc: u32,
    insn: &Insn,
) -> Result<(), PoolStop>
    requires writable { Writable layout.now (length layout.now.starts) pc insn.now }
    requires texts { FitsTexts insn.now }
    ensures { Writes result pool.new out.old.items out.new.items (spell_insn layout.now pc insn.now pool.old) }
{
    let index = put_index(alloc, pool, insn)?;
    let raw = raw_insn(alloc, layout, pc, index, insn)?;
    encode_insn(&raw, pc as usize, out)?;
    Ok(())
}

/// Puts the instructions of code behind other bytes, in their fixed spelling, and what they name into the pool. `Full`
/// where the pool would need an index over 65,534.
pub fn put_insns(
    alloc: Global,
    pool: &mut PoolWriter,
    out: &mut Vec<u8>,
    layout: &Layout,
    insns: &[Insn],
) -> Result<(), PoolStop>
    requires { WritableInsns layout.now insns.now }
    ensures { Writes result pool.new out.old.items out.new.items (spell_insns layout.now insns.now pool.old) }
{
    for (number, insn) in insns.iter().enumerate() {
        put_insn(alloc, pool, out, layout, layout.offset(number as u32), insn)?;
    }
    Ok(())
}

/// The law that what is written for instructions is that code, in each pool that extends the one afterwards. It does
/// nothing when it runs.
pub fn written_code()
    ensures { (layout : CodeLayout) (insns : List Instruction) → WritableInsns layout insns → Claims (λ r text. IsCode r layout.size text (insns, offsets layout)) (spell_insns layout insns) }
{}
