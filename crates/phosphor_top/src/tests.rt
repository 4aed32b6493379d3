//! The top call over devices in memory.

mod check;
mod instrument;
mod making;
mod run;

use crate::phosphor;
use lists::Seq;
use making::sum;
use outside_io::{Folder, MemFolder, MemSink, MemSource};
use std::alloc::Global;
use std::process::Abort;
use std::test::Fail;

const LISTS: &str =
    "{\"sources\":[{\"class\":\"sys/Native\",\"name\":\"read\",\"descriptor\":\"()I\",\"tag\":1}],\"sinks\":[{\"class\":\"sys/Native\",\"name\":\"write\",\"descriptor\":\"(I)V\"}]}";

/// The lists of the sum: `read` with tag 1, and `write`.
fn lists() -> &'static [u8] {
    LISTS.as_bytes()
}

fn usage() -> &'static str {
    "usage: phosphor instrument IN OUT CONFIG | run DIR MAIN STEPS | run-tagged DIR MAIN CONFIG STEPS | check DIR | sample N OUT\n"
}

fn empty_folder(alloc: Global) -> Result<MemFolder, Fail> {
    let folder = MemFolder::new(alloc, Vec::new(alloc), 100, 1_000_000, Vec::new(alloc))?;
    Ok(folder)
}

/// A folder that holds the class file of the sum and its lists, whose call of this number fails.
/// Each file took one call, so the first call of a command has number 2.
fn sum_folder(alloc: Global, failing: Option<u64>) -> Result<MemFolder, Fail> {
    let mut list = Vec::new(alloc);
    if let Some(call) = failing {
        list.push(call)?;
    }
    let mut folder = MemFolder::new(alloc, Vec::new(alloc), 100, 1_000_000, list)?;
    folder.write("in/A.class", sum())?;
    folder.write("c.json", lists())?;
    Ok(folder)
}

/// The words of a command, joined by blanks.
fn words_of(alloc: Global, text: &str) -> Result<Vec<String>, Fail> {
    let mut words = Vec::new(alloc);
    for word in text.split_whitespace() {
        words.push(String::from_str(alloc, word)?)?;
    }
    Ok(words)
}

/// Sees that a command answers this status, and what it writes to standard output and standard error.
fn answers(
    rt: &impl Abort,
    alloc: Global,
    text: &str,
    folder: &mut MemFolder,
    status: u8,
    written: &str,
    line: &str,
) -> Result<(), Fail> {
    answers_on(rt, alloc, text, folder, &[], status, written, line)
}

/// The same, with what is given on standard input.
fn answers_on(
    rt: &impl Abort,
    alloc: Global,
    text: &str,
    folder: &mut MemFolder,
    given: &[u8],
    status: u8,
    written: &str,
    line: &str,
) -> Result<(), Fail> {
    let words = words_of(alloc, text)?;
    let given = Seq::from_vec(Vec::from_slice(alloc, given)?);
    let mut input = MemSource::new(given, Vec::new(alloc));
    let mut out = MemSink::new(alloc, 1_000, Vec::new(alloc))?;
    let mut err = MemSink::new(alloc, 1_000, Vec::new(alloc))?;
    let answer = phosphor(
        alloc,
        words.as_slice(),
        folder,
        &mut input,
        &mut out,
        &mut err,
    );
    assert!(rt; err.held() == line.as_bytes(), "the line before {line:?}");
    assert!(rt;
        out.held() == written.as_bytes(),
        "the text before {written:?}"
    );
    assert_eq!(rt; answer, status, "the status with {line:?}");
    Ok(())
}

#[test]
fn words_that_are_no_command(rt: HostRuntime) -> Result<(), Fail> {
    let alloc = rt.alloc();
    let mut folder = empty_folder(alloc)?;
    for text in [
        "",
        "run in A",
        "run / A 1",
        "run in A -1",
        "run in A 1234567890123456789",
        "--help",
        "instrument in out",
        "instrument // out c",
        "check",
        "check /",
        "check in out",
    ] {
        answers(&rt, alloc, text, &mut folder, 1, "", usage())?;
    }
    Ok(())
}

#[test]
fn a_line_that_is_not_taken(rt: HostRuntime) -> Result<(), Fail> {
    let alloc = rt.alloc();
    let mut folder = empty_folder(alloc)?;
    let mut input = MemSource::new(Seq::new(alloc), Vec::new(alloc));
    let mut out = MemSink::new(alloc, 0, Vec::new(alloc))?;
    let mut err = MemSink::new(alloc, 0, Vec::new(alloc))?;
    let status = phosphor(alloc, &[], &mut folder, &mut input, &mut out, &mut err);
    assert_eq!(rt; status, 4);
    Ok(())
}
