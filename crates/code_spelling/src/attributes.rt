//! The attributes of code: StackMapTable (JVMS 4.7.4) and LineNumberTable (4.7.12), each only where it has a row.

ghost use Rattle.std.specs.Prelude.{◌≡◌, ◌++◌, ◌<◌, ◌≤◌, ◌^◌, ℕ, List, All, IfOk, IfSome, OnOk, Ok, length};
ghost use Rattle.class_limits.specs.Lengths.{frames_length};
ghost use Rattle.const_pool.specs.Pool.{Pool};
ghost use Rattle.code_attribute.specs.CodeContent.{stack_map_table, line_number_table};
ghost use Rattle.pool_names.specs.Adding.{Writes};
ghost use Rattle.class_spelling.specs.Forms.{attribute_bytes, framed, count_any, spell_attribute, spell_when_any};
ghost use Rattle.insn_spelling.specs.Conditions.{Small};
ghost use Rattle.code_spelling.specs.Tables.{spell_lines};
ghost use Rattle.code_spelling.specs.Frames.{spell_frames};
ghost use Rattle.code_spelling.specs.Content.{spell_code_attributes};
ghost use Rattle.code_spelling.specs.Writable.{FitsCount, FitsFrame, Ordered, FitsRows};

use crate::frames::frames_content;
use crate::tables::lines_content;
use class_limits::Layout;
use class_model::Frame;
use const_pool::PoolStop;
use pool_names::{PoolWriter, put_ascii, put_u16, put_u32};
use std::alloc::{AllocError, Global};

/// Puts an attribute behind other bytes: the index of its name, the length of its content, and the content.
#[tactic(auto, unfolding(class_spelling::specs::Forms::framed))]
fn put_attribute(out: &mut Vec<u8>, name: u16, content: &[u8]) -> Result<(), AllocError>
    requires { length content.now < 2 ^ 32 }
    ensures put { OnOk result (out.new.items ≡ out.old.items ++ attribute_bytes name content.now) }
    ensures spelled { OnOk result ((pool : Pool) → framed name content.now pool ≡ Ok (pool, attribute_bytes name content.now)) }
{
    put_u16(out, name)?;
    put_u32(out, content.len() as u32)?;
    out.extend_from_slice(content)?;
    Ok(())
}

/// Puts a LineNumberTable behind other bytes.
#[tactic(auto, unfolding(class_spelling::specs::Forms::spell_attribute))]
fn put_line_attribute(
    alloc: Global,
    pool: &mut PoolWriter,
    out: &mut Vec<u8>,
    layout: &Layout,
    lines: &[(u32, u16)],
) -> Result<(), PoolStop>
    requires small { Small layout.now }
    requires count { FitsCount lines.now }
    ensures { Writes result pool.new out.old.items out.new.items (spell_attribute line_number_table (spell_lines layout.now lines.now) pool.old) }
{
    let name = put_ascii(alloc, pool, b"LineNumberTable")?;
    let content = lines_content(alloc, layout, lines)?;
    put_attribute(out, name, content.as_slice())?;
    Ok(())
}

/// Puts a LineNumberTable behind other bytes where it has a row.
#[tactic(auto, unfolding(class_spelling::specs::Forms::spell_when_any))]
fn put_lines_if_any(
    alloc: Global,
    pool: &mut PoolWriter,
    out: &mut Vec<u8>,
    layout: &Layout,
    lines: &[(u32, u16)],
) -> Result<(), PoolStop>
    requires small { Small layout.now }
    requires count { FitsCount lines.now }
    ensures { Writes result pool.new out.old.items out.new.items (spell_when_any line_number_table (spell_lines layout.now) lines.now pool.old) }
{
    match lines {
        [] => Ok(()),
        [..] => put_line_attribute(alloc, pool, out, layout, lines),
    }
}

/// Puts a StackMapTable behind other bytes.
#[tactic(auto, unfolding(class_spelling::specs::Forms::spell_attribute))]
fn put_frame_attribute(
    alloc: Global,
    pool: &mut PoolWriter,
    out: &mut Vec<u8>,
    layout: &Layout,
    rows: &[(u32, Frame)],
) -> Result<(), PoolStop>
    requires small { Small layout.now }
    requires fits { FitsRows layout.now rows.now }
    ensures { Writes result pool.new out.old.items out.new.items (spell_attribute stack_map_table (spell_frames layout.now rows.now) pool.old) }
{
    let name = put_ascii(alloc, pool, b"StackMapTable")?;
    let content = frames_content(alloc, pool, layout, rows)?;
    put_attribute(out, name, content.as_slice())?;
    Ok(())
}

/// Puts a StackMapTable behind other bytes where it has a row.
#[tactic(auto, unfolding(class_spelling::specs::Forms::spell_when_any))]
fn put_frames_if_any(
    alloc: Global,
    pool: &mut PoolWriter,
    out: &mut Vec<u8>,
    layout: &Layout,
    rows: &[(u32, Frame)],
) -> Result<(), PoolStop>
    requires small { Small layout.now }
    requires fits { FitsRows layout.now rows.now }
    ensures { Writes result pool.new out.old.items out.new.items (spell_when_any stack_map_table (spell_frames layout.now) rows.now pool.old) }
{
    match rows {
        [] => Ok(()),
        [..] => put_frame_attribute(alloc, pool, out, layout, rows),
    }
}

/// How many attributes stand for a list, which has one where it is not empty.
fn count_of<T>(items: &[T]) -> u16
    ensures count { result ≡ count_any items.now }
    ensures most { result ≤ 1 }
{
    match items {
        [] => 0,
        [..] => 1,
    }
}

/// Puts the table of attributes behind other bytes.
#[tactic(auto, unfolding(crate::specs::Content::spell_code_attributes))]
pub(crate) fn put_attributes(
    alloc: Global,
    pool: &mut PoolWriter,
    out: &mut Vec<u8>,
    layout: &Layout,
    frames: &[(u32, Frame)],
    lines: &[(u32, u16)],
) -> Result<(), PoolStop>
    requires small { Small layout.now }
    requires frames { FitsRows layout.now frames.now }
    requires lines { FitsCount lines.now }
    ensures { Writes result pool.new out.old.items out.new.items (spell_code_attributes layout.now frames.now lines.now pool.old) }
{
    put_u16(out, count_of(frames) + count_of(lines))?;
    put_frames_if_any(alloc, pool, out, layout, frames)?;
    put_lines_if_any(alloc, pool, out, layout, lines)
}
