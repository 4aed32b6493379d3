//! Frames (JVMS 4.7.4).

ghost use Rattle.std.specs.Prelude.{◌≡◌, ◌≤◌, All, zip, map, ◌∷◌};
ghost use Rattle.class_limits.specs.Sizes.{offset_at};
ghost use Rattle.pool_names.specs.Adding.{PutsBy, Writes, spell_each};
ghost use Rattle.insn_spelling.specs.Conditions.{Small};
ghost use Rattle.code_spelling.specs.Frames as spelling;
ghost use Rattle.code_spelling.specs.Writable.{FitsCount, FitsVType, FitsVTypes, FitsFrame, Ordered};

use crate::tables::{put_count, put_offset};
use class_limits::Layout;
use class_model::{Frame, VType};
use const_pool::PoolStop;
use pool_names::{PoolWriter, put_type, put_u16};
use std::alloc::Global;

/// Puts a verification type behind other bytes: its tag, and the index of a class or an offset.
#[tactic(auto, unfolding(crate::specs::Frames::spell_vtype, class_spelling::specs::Forms::spell_index))]
fn put_vtype(
    alloc: Global,
    pool: &mut PoolWriter,
    out: &mut Vec<u8>,
    layout: &Layout,
    ty: &VType,
) -> Result<(), PoolStop>
    requires small { Small layout.now }
    requires texts { FitsVType ty.now }
    ensures { Writes result pool.new out.old.items out.new.items (spelling.spell_vtype layout.now ty.now pool.old) }
{
    match ty {
        VType::Top => out.push(0)?,
        VType::Int => out.push(1)?,
        VType::Long => out.push(4)?,
        VType::Null => out.push(5)?,
        VType::UninitThis => out.push(6)?,
        VType::Ref(ty) => {
            let index = put_type(alloc, pool, ty)?;
            out.push(7)?;
            put_u16(out, index)?;
        }
        VType::Uninit(at) => {
            out.push(8)?;
            put_offset(out, layout, *at)?;
        }
    }
    Ok(())
}

fn put_each_vtype(
    alloc: Global,
    pool: &mut PoolWriter,
    out: &mut Vec<u8>,
    layout: &Layout,
    types: &[VType],
) -> Result<(), PoolStop>
    requires small { Small layout.now }
    requires texts { All FitsVType types.now }
    ensures { Writes result pool.new out.old.items out.new.items (spell_each (spelling.spell_vtype layout.now) types.now pool.old) }
{
    for ty in types {
        put_vtype(alloc, pool, out, layout, ty)?;
    }
    Ok(())
}

/// Puts types behind other bytes, with their count before them.
#[tactic(auto, unfolding(class_spelling::specs::Forms::spell_table))]
fn put_vtypes(
    alloc: Global,
    pool: &mut PoolWriter,
    out: &mut Vec<u8>,
    layout: &Layout,
    types: &[VType],
) -> Result<(), PoolStop>
    requires small { Small layout.now }
    requires fits { FitsVTypes types.now }
    ensures { Writes result pool.new out.old.items out.new.items (spelling.spell_vtypes layout.now types.now pool.old) }
{
    put_count(out, types.len())?;
    put_each_vtype(alloc, pool, out, layout, types)
}

/// Puts a full frame behind other bytes, whose offset is at least `next`.
#[tactic(auto, unfolding(crate::specs::Frames::spell_frame))]
fn put_frame(
    alloc: Global,
    pool: &mut PoolWriter,
    out: &mut Vec<u8>,
    layout: &Layout,
    next: u32,
    row: &(u32, Frame),
) -> Result<(), PoolStop>
    requires small { Small layout.now }
    requires behind { next ≤ offset_at layout.now row.now.0 }
    requires fits { FitsFrame row.now }
    ensures { Writes result pool.new out.old.items out.new.items (spelling.spell_frame layout.now (next, row.now) pool.old) }
{
    let (number, frame) = row;
    out.push(255)?;
    put_u16(out, (layout.offset(*number) - next) as u16)?;
    put_vtypes(alloc, pool, out, layout, frame.locals.as_slice())?;
    put_vtypes(alloc, pool, out, layout, frame.stack.as_slice())
}

fn put_each_frame(
    alloc: Global,
    pool: &mut PoolWriter,
    out: &mut Vec<u8>,
    layout: &Layout,
    rows: &[(u32, Frame)],
) -> Result<(), PoolStop>
    requires small { Small layout.now }
    requires ordered { Ordered layout.now 0 rows.now }
    requires fits { All FitsFrame rows.now }
    ensures { Writes result pool.new out.old.items out.new.items (spell_each (spelling.spell_frame layout.now) (spelling.placed_rows layout.now rows.now) pool.old) }
{
    let mut next: u32 = 0;
    for row in rows {
        put_frame(alloc, pool, out, layout, next, row)?;
        next = layout.offset(row.0) + 1;
    }
    Ok(())
}

/// The content of a StackMapTable.
#[tactic(auto, unfolding(crate::specs::Frames::spell_frames))]
pub(crate) fn frames_content(
    alloc: Global,
    pool: &mut PoolWriter,
    layout: &Layout,
    rows: &[(u32, Frame)],
) -> Result<Vec<u8>, PoolStop>
    requires small { Small layout.now }
    requires ordered { Ordered layout.now 0 rows.now }
    requires count { FitsCount rows.now }
    requires fits { All FitsFrame rows.now }
    ensures { PutsBy (λ content. content.items) result pool.new (spelling.spell_frames layout.now rows.now pool.old) }
{
    let mut content = Vec::new(alloc);
    put_count(&mut content, rows.len())?;
    put_each_frame(alloc, pool, &mut content, layout, rows)?;
    Ok(content)
}
