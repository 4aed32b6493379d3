//! Code (JVMS 4.7.3), with its frames (4.7.4) and lines (4.7.12).

ghost use Rattle.std.specs.Prelude.{◌≡◌, ◌↔◌, length, map, pos, IsTrue, All};
ghost use Rattle.class_shape.specs.ShapedInsn.{IsTarget, ShapedInsn, Ascend, AscendAbove};
ghost use Rattle.class_shape.specs.Shaped as shape;

use crate::insn::is_shaped_insn;
use crate::types::is_reference_type;
use class_model::{CodeDef, Frame, Handler, Insn, VType};

fn are_shaped_insns(insns: &[Insn]) -> bool
    ensures { IsTrue result ↔ All (ShapedInsn (length insns.now)) insns.now }
{
    insns.iter().all(|insn| is_shaped_insn(insns.len(), insn))
}

fn is_shaped_handler(count: usize, handler: &Handler) -> bool
    ensures { IsTrue result ↔ shape.ShapedHandler count handler.now }
{
    handler.start < handler.end
        && handler.end as usize <= count
        && (handler.target as usize) < count
}

fn are_shaped_handlers(count: usize, handlers: &[Handler]) -> bool
    ensures { IsTrue result ↔ All (shape.ShapedHandler count) handlers.now }
{
    handlers
        .iter()
        .all(|handler| is_shaped_handler(count, handler))
}

fn makes_object(insns: &[Insn], at: u32) -> bool
    ensures { IsTrue result ↔ shape.MakesObject insns.now at }
{
    matches!(insns.get(at as usize), Some(Insn::New(_)))
}

fn is_shaped_type(insns: &[Insn], ty: &VType) -> bool
    ensures { IsTrue result ↔ shape.ShapedType insns.now ty.now }
{
    match ty {
        VType::Ref(ty) => is_reference_type(ty),
        VType::Uninit(at) => makes_object(insns, *at),
        _ => true,
    }
}

fn are_shaped_types(insns: &[Insn], types: &[VType]) -> bool
    ensures { IsTrue result ↔ All (shape.ShapedType insns.now) types.now }
{
    types.iter().all(|ty| is_shaped_type(insns, ty))
}

fn is_shaped_frame(insns: &[Insn], row: &(u32, Frame)) -> bool
    ensures { IsTrue result ↔ shape.ShapedFrame insns.now row.now }
{
    (row.0 as usize) < insns.len()
        && are_shaped_types(insns, row.1.locals.as_slice())
        && are_shaped_types(insns, row.1.stack.as_slice())
}

fn are_shaped_frames(insns: &[Insn], frames: &[(u32, Frame)]) -> bool
    ensures { IsTrue result ↔ All (shape.ShapedFrame insns.now) frames.now }
{
    frames.iter().all(|row| is_shaped_frame(insns, row))
}

/// Whether the places of frames ascend strictly from `last` on.
#[tactic(auto, using(crate::proofs::Ascending::left_none, crate::proofs::Ascending::left_more, crate::proofs::Ascending::left_broken, crate::proofs::Ascending::left_all))]
fn ascend_above(last: u32, frames: &[(u32, Frame)]) -> bool
    ensures { IsTrue result ↔ AscendAbove (pos last) (map shape.place_of frames.now) }
{
    let mut last = last;
    for row in frames {
        if row.0 <= last {
            return false;
        }
        last = row.0;
    }
    true
}

fn ascend(frames: &[(u32, Frame)]) -> bool
    ensures { IsTrue result ↔ Ascend (map shape.place_of frames.now) }
{
    match frames {
        [] => true,
        [first, rest @ ..] => ascend_above(first.0, rest),
    }
}

fn are_shaped_lines(count: usize, lines: &[(u32, u16)]) -> bool
    ensures { IsTrue result ↔ All (λ row. IsTarget count row.0) lines.now }
{
    lines.iter().all(|row| (row.0 as usize) < count)
}

/// Whether code is shaped.
pub fn is_shaped_code(code: &CodeDef) -> bool
    ensures { IsTrue result ↔ shape.ShapedCode code.now }
{
    let insns = code.insns.as_slice();
    are_shaped_insns(insns)
        && are_shaped_handlers(insns.len(), code.handlers.as_slice())
        && are_shaped_frames(insns, code.frames.as_slice())
        && ascend(code.frames.as_slice())
        && are_shaped_lines(insns.len(), code.lines.as_slice())
}
