//! Handlers (JVMS 4.7.3) and lines (4.7.12).

ghost use Rattle.std.specs.Prelude.{◌≡◌, ◌++◌, ◌≤◌, List, All, OnOk, IfOk, Ok};
ghost use Rattle.std.specs.Int.{w16, to_be_bytes};
ghost use Rattle.const_pool.specs.Pool.{Pool};
ghost use Rattle.class_limits.specs.Sizes.{offset_at};
ghost use Rattle.pool_names.specs.Adding.{Puts, Writes, behind, spell_u16, spell_each};
ghost use Rattle.pool_names.specs.Spelling.{spell_class};
ghost use Rattle.class_spelling.specs.Forms.{spell_optional};
ghost use Rattle.insn_spelling.specs.Conditions.{Small};
ghost use Rattle.code_spelling.specs.Tables as spelling;
ghost use Rattle.code_spelling.specs.Writable.{FitsCount, FitsHandler};

use class_limits::Layout;
use class_model::Handler;
use const_pool::PoolStop;
use lists::Name;
use pool_names::{PoolWriter, put_class, put_u16};
use std::alloc::{AllocError, Global};

/// Puts a count of two bytes behind other bytes.
pub(crate) fn put_count(out: &mut Vec<u8>, count: usize) -> Result<(), AllocError>
    requires { count ≤ 65535 }
    ensures put { OnOk result (out.new.items ≡ out.old.items ++ to_be_bytes w16 count) }
    ensures spelled { (pool : Pool) → spell_u16 count pool ≡ Ok (pool, to_be_bytes w16 count) }
{
    put_u16(out, count as u16)
}

/// Puts the offset of an instruction, by its number, behind other bytes.
pub(crate) fn put_offset(out: &mut Vec<u8>, layout: &Layout, number: u32) -> Result<(), AllocError>
    requires { Small layout.now }
    ensures put { OnOk result (out.new.items ≡ out.old.items ++ to_be_bytes w16 (offset_at layout.now number)) }
    ensures spelled { (pool : Pool) → spelling.spell_offset layout.now number pool ≡ Ok (pool, to_be_bytes w16 (offset_at layout.now number)) }
{
    put_u16(out, layout.offset(number) as u16)
}

/// The index of the class that a handler is for, 0 where it is for every class.
fn put_caught(alloc: Global, pool: &mut PoolWriter, handler: &Handler) -> Result<u16, PoolStop>
    requires { FitsHandler handler.now }
    ensures { Puts result pool.new (spell_optional spell_class handler.now.caught pool.old) }
{
    match &handler.caught {
        None => Ok(0),
        Some(name) => put_class(alloc, pool, name),
    }
}

/// Puts an entry of the exception table behind other bytes.
#[tactic(auto, unfolding(crate::specs::Tables::spell_handler, class_spelling::specs::Forms::spell_index))]
fn put_handler(
    alloc: Global,
    pool: &mut PoolWriter,
    out: &mut Vec<u8>,
    layout: &Layout,
    handler: &Handler,
) -> Result<(), PoolStop>
    requires small { Small layout.now }
    requires texts { FitsHandler handler.now }
    ensures { Writes result pool.new out.old.items out.new.items (spelling.spell_handler layout.now handler.now pool.old) }
{
    put_offset(out, layout, handler.start)?;
    put_offset(out, layout, handler.end)?;
    put_offset(out, layout, handler.target)?;
    let caught = put_caught(alloc, pool, handler)?;
    put_u16(out, caught)?;
    Ok(())
}

fn put_each_handler(
    alloc: Global,
    pool: &mut PoolWriter,
    out: &mut Vec<u8>,
    layout: &Layout,
    handlers: &[Handler],
) -> Result<(), PoolStop>
    requires small { Small layout.now }
    requires texts { All FitsHandler handlers.now }
    ensures { Writes result pool.new out.old.items out.new.items (spell_each (spelling.spell_handler layout.now) handlers.now pool.old) }
{
    for handler in handlers {
        put_handler(alloc, pool, out, layout, handler)?;
    }
    Ok(())
}

/// Puts the exception table behind other bytes.
#[tactic(auto, unfolding(class_spelling::specs::Forms::spell_table))]
pub(crate) fn put_handlers(
    alloc: Global,
    pool: &mut PoolWriter,
    out: &mut Vec<u8>,
    layout: &Layout,
    handlers: &[Handler],
) -> Result<(), PoolStop>
    requires small { Small layout.now }
    requires count { FitsCount handlers.now }
    requires texts { All FitsHandler handlers.now }
    ensures { Writes result pool.new out.old.items out.new.items (spelling.spell_handlers layout.now handlers.now pool.old) }
{
    put_count(out, handlers.len())?;
    put_each_handler(alloc, pool, out, layout, handlers)
}

/// Puts a row of a LineNumberTable behind other bytes.
#[tactic(auto, unfolding(crate::specs::Tables::spell_line))]
fn put_line(out: &mut Vec<u8>, layout: &Layout, row: &(u32, u16)) -> Result<(), AllocError>
    requires { Small layout.now }
    ensures { (pool : Pool) → OnOk result (behind out.old.items (spelling.spell_line layout.now row.now pool) ≡ Ok (pool, out.new.items)) }
{
    let (number, line) = row;
    put_offset(out, layout, *number)?;
    put_u16(out, *line)
}

fn put_each_line(out: &mut Vec<u8>, layout: &Layout, lines: &[(u32, u16)]) -> Result<(), AllocError>
    requires { Small layout.now }
    ensures { (pool : Pool) → OnOk result (behind out.old.items (spell_each (spelling.spell_line layout.now) lines.now pool) ≡ Ok (pool, out.new.items)) }
{
    for row in lines {
        put_line(out, layout, row)?;
    }
    Ok(())
}

/// The content of a LineNumberTable. It names nothing of the constant pool.
#[tactic(auto, unfolding(class_spelling::specs::Forms::spell_table))]
pub(crate) fn lines_content(
    alloc: Global,
    layout: &Layout,
    lines: &[(u32, u16)],
) -> Result<Vec<u8>, AllocError>
    requires small { Small layout.now }
    requires count { FitsCount lines.now }
    ensures { (pool : Pool) → IfOk result (λ content. spelling.spell_lines layout.now lines.now pool ≡ Ok (pool, content.items)) }
{
    let mut content = Vec::new(alloc);
    put_count(&mut content, lines.len())?;
    put_each_line(&mut content, layout, lines)?;
    Ok(content)
}
