use crate::*;
use class_model::{BinOp, Cond, Kind, StackOp, Width};
use machine_words::{Locals, Stack, Word};
use std::alloc::{AllocError, Global};
use std::test::Fail;

fn frame(alloc: Global) -> Result<Frame<i32>, AllocError> {
    Ok(Frame {
        method: 0,
        next: 0,
        locals: Locals::new(alloc, 4)?,
        stack: Stack::new(alloc),
    })
}

fn run(frame: &mut Frame<i32>, ops: &[FrameOp]) -> Result<Flow, AllocError> {
    for op in ops {
        if frame.next >= 1000 {
            return Ok(Flow::Stuck);
        }
        let flow = advance(frame, *op)?;
        if flow != Flow::Next {
            return Ok(flow);
        }
    }
    Ok(Flow::Next)
}

fn top(frame: &Frame<i32>) -> Option<i32> {
    match frame.stack.int_at(0) {
        Some((v, _)) => Some(v),
        None => None,
    }
}

#[test]
fn instructions_of_a_frame(rt: HostRuntime) -> Result<(), Fail> {
    let mut frame = frame(rt.alloc())?;
    let ops = [
        FrameOp::PushLong(-7),
        FrameOp::PushLong(2),
        FrameOp::Bin(Width::Long, BinOp::Rem),
        FrameOp::Store(Kind::Long, 1),
        FrameOp::PushInt(3),
        FrameOp::PushInt(4),
        FrameOp::Stack(StackOp::DupX1),
        FrameOp::Bin(Width::Int, BinOp::Sub),
        FrameOp::Bin(Width::Int, BinOp::Mul),
    ];
    assert_eq!(rt; run(&mut frame, &ops)?, Flow::Next);
    assert_eq!(rt; top(&frame), Some(-4));
    assert_eq!(rt; frame.next, 9);
    assert_eq!(rt; run(&mut frame, &[FrameOp::If(Cond::Lt, 2)])?, Flow::Next);
    assert_eq!(rt; frame.next, 2);
    assert_eq!(rt; run(&mut frame, &[FrameOp::Lcmp])?, Flow::Stuck);
    Ok(())
}

#[test]
fn a_division_by_zero(rt: HostRuntime) -> Result<(), Fail> {
    let mut frame = frame(rt.alloc())?;
    let divides = [
        FrameOp::PushInt(1),
        FrameOp::PushInt(0),
        FrameOp::Bin(Width::Int, BinOp::Div),
    ];
    assert_eq!(rt; run(&mut frame, &divides)?, Flow::Throws(Fault::Arithmetic));
    Ok(())
}

#[test]
fn switches(rt: HostRuntime) -> Result<(), Fail> {
    let mut frame = frame(rt.alloc())?;
    frame.stack.push(Word::num(1, 0))?;
    frame.stack.push(Word::num(0, 0))?;
    frame.next = 0;
    assert_eq!(rt; table_switch(&mut frame, -1, 9, &[5, 6]), Flow::Next);
    assert_eq!(rt; frame.next, 6);
    assert_eq!(rt;
        lookup_switch(&mut frame, 9, &[(-3, 1), (1, 7)]),
        Flow::Next
    );
    assert_eq!(rt; frame.next, 7);
    assert!(rt; pop_kind(&mut frame.stack, Kind::Int).is_none());
    assert!(rt; pop_place(&mut frame.stack).is_none());
    Ok(())
}
