//! The command `run`.

use super::{answers, answers_on, sum_folder, words_of};
use crate::phosphor;
use lists::Seq;
use outside_io::{MemSink, MemSource};
use std::alloc::Global;
use std::process::Abort;
use std::test::Fail;

/// The sum on two bytes, on one, and with no step.
#[test]
fn the_sum(rt: HostRuntime) -> Result<(), Fail> {
    let alloc = rt.alloc();
    let mut folder = sum_folder(alloc, None)?;
    for (text, given, status, console, line) in [
        (
            "run in A 000008",
            [0x41, 0x01].as_slice(),
            0,
            "B",
            "returned\n",
        ),
        ("run in/ A 100", [0x41].as_slice(), 0, "@", "returned\n"),
        ("run in A 7", [0x41, 0x01].as_slice(), 7, "B", "running\n"),
        ("run in A 6", [0x41, 0x01].as_slice(), 7, "", "running\n"),
        ("run in A 0", [0x41, 0x01].as_slice(), 7, "", "running\n"),
    ] {
        answers_on(&rt, alloc, text, &mut folder, given, status, console, line)?;
    }
    Ok(())
}

#[test]
fn a_main_that_is_not_there(rt: HostRuntime) -> Result<(), Fail> {
    let alloc = rt.alloc();
    let mut folder = sum_folder(alloc, None)?;
    for (text, line) in [
        ("run in a.B 1", "refused: no main: a/B\n"),
        (
            "run in java.lang.Object 1",
            "refused: no main: java/lang/Object\n",
        ),
    ] {
        answers(&rt, alloc, text, &mut folder, 2, "", line)?;
    }
    Ok(())
}

/// Sees what comes of the sum where these calls of standard input fail, and standard output holds so many bytes.
fn fails(
    rt: &impl Abort,
    alloc: Global,
    failing: Option<u64>,
    room: u64,
    status: u8,
    line: &str,
) -> Result<(), Fail> {
    let mut folder = sum_folder(alloc, None)?;
    let words = words_of(alloc, "run in A 100")?;
    let mut calls = Vec::new(alloc);
    if let Some(call) = failing {
        calls.push(call)?;
    }
    let given = Seq::from_vec(Vec::from_slice(alloc, &[0x41, 0x01])?);
    let mut input = MemSource::new(given, calls);
    let mut out = MemSink::new(alloc, room, Vec::new(alloc))?;
    let mut err = MemSink::new(alloc, 1_000, Vec::new(alloc))?;
    let answer = phosphor(
        alloc,
        words.as_slice(),
        &mut folder,
        &mut input,
        &mut out,
        &mut err,
    );
    assert_eq!(rt; answer, status);
    assert!(rt; err.held() == line.as_bytes());
    assert!(rt; out.held().is_empty());
    Ok(())
}

#[test]
fn streams_that_fail(rt: HostRuntime) -> Result<(), Fail> {
    let alloc = rt.alloc();
    fails(&rt, alloc, Some(1), 100, 3, "read fault: input\n")?;
    fails(&rt, alloc, None, 0, 4, "write fault: out\n")
}
