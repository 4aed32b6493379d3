//! Runs of instructions of one frame, which is where most steps are made: the code is borrowed once, and nothing else is touched.

ghost use Rattle.std.specs.Prelude.{◌≡◌, ◌<◌, ◌≤◌, Some, length, slice_get, IfOk, IfSome, OnErr};
ghost use Rattle.machine.specs.Ran.{Runs, RunsWithin};

use linked_code::Op;
use machine_frames::{Flow, Frame, FrameOp, advance};
use machine_words::Tag;
use std::alloc::AllocError;

/// How far a frame came: so many steps, and whether the last of them found no operand.
#[derive(Clone, Copy, Debug)]
pub struct Ran {
    pub steps: u64,
    pub stuck: bool,
}

/// The instruction of a number, where it concerns the frame alone.
fn frame_op_at(code: &[Op], at: usize) -> Option<FrameOp>
    ensures there { IfSome result (λ op. slice_get code.now at ≡ Some (Op.Frame op)) }
    ensures within { IfSome result (λ op. at < length code.now) }
{
    if at >= code.len() {
        return None;
    }
    match code.get(at).copied() {
        Some(Op::Frame(op)) => Some(op),
        _ => None,
    }
}

/// Makes at most so many steps, as long as they concern the frame alone. It stops in front of an instruction that does not, one
/// that throws, and the end of the code. Where memory is refused, the frame stays behind the steps that were made.
pub fn run_frame<T: Tag>(frame: &mut Frame<T>, code: &[Op], limit: u64) -> Result<Ran, AllocError>
    ensures ok { IfOk result (λ ran. (ran.steps ≤ limit) × Runs T.none_of T.join_of code.now frame.old ran.steps ran.stuck frame.new) }
    ensures err { OnErr result (RunsWithin T.none_of T.join_of code.now frame.old limit frame.new) }
{
    for steps in 0..limit {
        let Some(op) = frame_op_at(code, frame.next) else {
            return Ok(Ran {
                steps,
                stuck: false,
            });
        };
        match advance(frame, op)? {
            Flow::Next => {}
            Flow::Throws(_) => {
                return Ok(Ran {
                    steps,
                    stuck: false,
                });
            }
            Flow::Stuck => {
                return Ok(Ran {
                    steps: steps + 1,
                    stuck: true,
                });
            }
        }
    }
    Ok(Ran {
        steps: limit,
        stuck: false,
    })
}
