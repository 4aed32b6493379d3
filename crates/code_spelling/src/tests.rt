ghost use Rattle.std.specs.Prelude.{IfOk};
ghost use Rattle.code_spelling.specs.Writable.{WritableCode};

use crate::{code_content, written_content};
use class_model::{CodeDef, Frame, Insn, VType};
use const_pool::PoolStop;
use lists::Seq;
use pool_names::PoolWriter;
use std::alloc::{AllocError, Global};
use std::test::Fail;

/// Adds one to a local without end, at line 5.
fn looped(alloc: Global) -> Result<CodeDef, AllocError>
    ensures { IfOk result (λ code. WritableCode code) }
{
    let mut insns = Seq::new(alloc);
    insns.push(Insn::Iinc(0, 1))?;
    insns.push(Insn::Goto(0))?;
    let mut locals = Seq::new(alloc);
    locals.push(VType::Int)?;
    let stack = Seq::new(alloc);
    let mut frames = Seq::new(alloc);
    frames.push((0, Frame { locals, stack }))?;
    let mut lines = Seq::new(alloc);
    lines.push((0, 5))?;
    let handlers = Seq::new(alloc);
    Ok(CodeDef {
        max_stack: 0,
        max_locals: 1,
        insns,
        handlers,
        frames,
        lines,
    })
}

#[test]
fn content(rt: HostRuntime) -> Result<(), PoolStop> {
    let alloc = rt.alloc();
    let code = looped(alloc)?;
    let mut pool = PoolWriter::new(alloc)?;
    let content = code_content(alloc, &mut pool, &code)?;
    written_content();
    let start = [0, 0, 0, 1, 0, 0, 0, 6, 132, 0, 1, 167, 255, 253, 0, 0, 0, 2];
    let frames = [0, 1, 0, 0, 0, 10, 0, 1, 255, 0, 0, 0, 1, 1, 0, 0];
    let lines = [0, 2, 0, 0, 0, 6, 0, 1, 0, 0, 0, 5];
    assert_eq!(rt; content.get(..18), Some(start.as_slice()));
    assert_eq!(rt; content.get(18..34), Some(frames.as_slice()));
    assert_eq!(rt; content.get(34..), Some(lines.as_slice()));
    Ok(())
}
