//! The content of a Code attribute (JVMS 4.7.3).

ghost use Rattle.std.specs.Prelude.{◌<◌, ◌^◌, ℕ, List, IfOk, length};
ghost use Rattle.class_file.specs.declared.method.MethodHead.{MethodHead};
ghost use Rattle.class_model.specs.declared.class.CodeDef.{CodeDef as Code};
ghost use Rattle.class_limits.specs.Sizes.{layout_of};
ghost use Rattle.pool_names.specs.Adding.{PutsBy, Writes};
ghost use Rattle.pool_names.specs.Claims.{Claims};
ghost use Rattle.code_attribute.specs.CodeContent.{IsCodeContent};
ghost use Rattle.code_spelling.specs.Content.{spell_content, spell_code};
ghost use Rattle.code_spelling.specs.Writable.{FitsCode, WritableCode};

use crate::attributes::put_attributes;
use crate::tables::put_handlers;
use class_limits::Layout;
use class_model::CodeDef;
use const_pool::PoolStop;
use insn_spelling::put_insns;
use pool_names::{PoolWriter, put_u16, put_u32};
use std::alloc::Global;

/// Puts the content behind other bytes: the maxima, the instructions with their length, handlers, and attributes.
#[tactic(auto, unfolding(crate::specs::Content::spell_content))]
fn put_content(
    alloc: Global,
    pool: &mut PoolWriter,
    out: &mut Vec<u8>,
    layout: &Layout,
    code: &CodeDef,
) -> Result<(), PoolStop>
    requires { FitsCode layout.now code.now }
    ensures { Writes result pool.new out.old.items out.new.items (spell_content layout.now code.now pool.old) }
{
    put_u16(out, code.max_stack)?;
    put_u16(out, code.max_locals)?;
    put_u32(out, layout.size())?;
    put_insns(alloc, pool, out, layout, code.insns.as_slice())?;
    put_handlers(alloc, pool, out, layout, code.handlers.as_slice())?;
    put_attributes(
        alloc,
        pool,
        out,
        layout,
        code.frames.as_slice(),
        code.lines.as_slice(),
    )
}

/// The content of a Code attribute in its fixed spelling, and what it names in the pool. `Full` where the pool would
/// need an index over 65,534.
pub fn code_content(
    alloc: Global,
    pool: &mut PoolWriter,
    code: &CodeDef,
) -> Result<Vec<u8>, PoolStop>
    requires { WritableCode code.now }
    ensures spelled { PutsBy (λ content. content.items) result pool.new (spell_code code.now pool.old) }
    ensures short { IfOk result (λ content. length content.items < 2 ^ 32) }
{
    let layout = Layout::of(alloc, code)?;
    let mut content = Vec::new(alloc);
    put_content(alloc, pool, &mut content, &layout, code)?;
    Ok(content)
}

/// The law that what is spelled for a code is the content of its Code attribute, in each pool that extends the one
/// afterwards. It does nothing when it runs.
pub fn written_content()
    ensures { (class : List ℕ) (head : MethodHead) (code : Code) → WritableCode code → Claims (λ r text. IsCodeContent r class head text code) (spell_code code) }
{}
