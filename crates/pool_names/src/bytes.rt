//! Numbers, the highest byte first.

ghost use Rattle.std.specs.Prelude.{◌≡◌, ◌++◌, List, Option, OnOk, Ok};
ghost use Rattle.std.specs.Int.{w16, w32, to_be_bytes};
ghost use Rattle.const_pool.specs.Pool.{Pool};
ghost use Rattle.pool_names.specs.Adding.{spell_u16, spell_u32};

use std::alloc::AllocError;

/// Puts a number of two bytes behind others.
#[tactic(auto, unfolding(crate::specs::Adding::spell_u16))]
pub fn put_u16(out: &mut Vec<u8>, n: u16) -> Result<(), AllocError>
    ensures put { OnOk result (out.new.items ≡ out.old.items ++ to_be_bytes w16 n) }
    ensures spelled { (pool : Pool) → spell_u16 n pool ≡ Ok (pool, to_be_bytes w16 n) }
{
    out.extend_from_slice(&n.to_be_bytes())?;
    Ok(())
}

/// Puts a number of four bytes behind others.
#[tactic(auto, unfolding(crate::specs::Adding::spell_u32))]
pub fn put_u32(out: &mut Vec<u8>, n: u32) -> Result<(), AllocError>
    ensures put { OnOk result (out.new.items ≡ out.old.items ++ to_be_bytes w32 n) }
    ensures spelled { (pool : Pool) → spell_u32 n pool ≡ Ok (pool, to_be_bytes w32 n) }
{
    out.extend_from_slice(&n.to_be_bytes())?;
    Ok(())
}
