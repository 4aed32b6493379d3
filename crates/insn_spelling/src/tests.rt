ghost use Rattle.std.specs.Prelude.{◌≤◌, IfOk};
ghost use Rattle.class_limits.specs.Sizes.{code_size, layout_of};
ghost use Rattle.insn_spelling.specs.Conditions.{WritableInsns};

use crate::{put_insns, written_code};
use class_limits::Layout;
use class_model::{CodeDef, Insn};
use const_pool::PoolStop;
use lists::Seq;
use pool_names::PoolWriter;
use std::alloc::{AllocError, Global};
use std::test::Fail;

/// Adds one to a local without end.
fn looped(alloc: Global) -> Result<CodeDef, AllocError>
    ensures size { IfOk result (λ code. code_size code ≤ 65535) }
    ensures writable { IfOk result (λ code. WritableInsns (layout_of code) code.insns) }
{
    let mut insns = Seq::new(alloc);
    insns.push(Insn::Iinc(0, 1))?;
    insns.push(Insn::Goto(0))?;
    Ok(CodeDef {
        max_stack: 0,
        max_locals: 1,
        insns,
        handlers: Seq::new(alloc),
        frames: Seq::new(alloc),
        lines: Seq::new(alloc),
    })
}

#[test]
fn instructions(rt: HostRuntime) -> Result<(), PoolStop> {
    let alloc = rt.alloc();
    let code = looped(alloc)?;
    let layout = Layout::of(alloc, &code)?;
    let mut pool = PoolWriter::new(alloc)?;
    let mut out = Vec::new(alloc);
    put_insns(alloc, &mut pool, &mut out, &layout, code.insns.as_slice())?;
    written_code();
    // iinc 0 1, and a goto back to it.
    assert_eq!(rt; out.as_slice(), [132, 0, 1, 167, 255, 253].as_slice());
    Ok(())
}
