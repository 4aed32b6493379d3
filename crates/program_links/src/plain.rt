//! Instructions that name nothing: each is its own linked one.

ghost use Rattle.std.specs.Prelude.{◌≡◌, Some, MatchOption};
ghost use Rattle.program_links.specs.Plain.{Names, plain_insn};

use class_model::Insn;
use linked_code::Op;
use machine_frames::FrameOp;

/// The linked form of an instruction that names nothing. `None` for one that names something.
pub fn plain_op(insn: &Insn) -> Option<Op>
    ensures { MatchOption result (Names insn.now) (λ op. plain_insn op ≡ Some insn.now) }
{
    match insn {
        Insn::Bin(width, op) => Some(Op::Frame(FrameOp::Bin(*width, *op))),
        Insn::Shift(width, op) => Some(Op::Frame(FrameOp::Shift(*width, *op))),
        Insn::Neg(width) => Some(Op::Frame(FrameOp::Neg(*width))),
        Insn::Iinc(local, step) => Some(Op::Frame(FrameOp::Iinc(*local, *step))),
        Insn::Convert(conv) => Some(Op::Frame(FrameOp::Convert(*conv))),
        Insn::Lcmp => Some(Op::Frame(FrameOp::Lcmp)),
        Insn::If(cond, target) => Some(Op::Frame(FrameOp::If(*cond, *target))),
        Insn::IfInt(cond, target) => Some(Op::Frame(FrameOp::IfInt(*cond, *target))),
        Insn::IfRef(same, target) => Some(Op::Frame(FrameOp::IfRef(*same, *target))),
        Insn::IfNull(null, target) => Some(Op::Frame(FrameOp::IfNull(*null, *target))),
        Insn::Goto(target) => Some(Op::Frame(FrameOp::Goto(*target))),
        Insn::Return(None) => Some(Op::Return),
        Insn::Return(Some(kind)) => Some(Op::ReturnValue(*kind)),
        Insn::ArrayLength => Some(Op::ArrayLength),
        Insn::ArrayLoad(elem) => Some(Op::ArrayLoad(*elem)),
        Insn::ArrayStore(elem) => Some(Op::ArrayStore(*elem)),
        Insn::Athrow => Some(Op::Throw),
        Insn::Nop => Some(Op::Frame(FrameOp::Nop)),
        Insn::PushNull => Some(Op::Frame(FrameOp::PushNull)),
        Insn::PushInt(value) => Some(Op::Frame(FrameOp::PushInt(*value))),
        Insn::PushLong(value) => Some(Op::Frame(FrameOp::PushLong(*value))),
        Insn::Load(kind, local) => Some(Op::Frame(FrameOp::Load(*kind, *local))),
        Insn::Store(kind, local) => Some(Op::Frame(FrameOp::Store(*kind, *local))),
        Insn::Stack(op) => Some(Op::Frame(FrameOp::Stack(*op))),
        _ => None,
    }
}
