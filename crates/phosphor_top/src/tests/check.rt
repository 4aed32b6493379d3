//! The command `check`.

use super::making::{class_file, early_sum, sum, sum_with};
use super::{answers, empty_folder, sum_folder, words_of};
use crate::phosphor;
use lists::Seq;
use outside_io::{Folder, MemFolder, MemSink, MemSource};
use std::alloc::Global;
use std::process::Abort;
use std::test::Fail;

fn passes(rt: &impl Abort, alloc: Global, folder: &mut MemFolder, text: &str) -> Result<(), Fail> {
    answers(rt, alloc, "check in", folder, 0, text, "")
}

/// Sees that a folder with these files is refused with this line.
fn refuses(
    rt: &impl Abort,
    alloc: Global,
    files: &[(&str, &[u8])],
    line: &str,
) -> Result<(), Fail> {
    let mut folder = empty_folder(alloc)?;
    for (path, bytes) in files {
        folder.write(path, bytes)?;
    }
    answers(rt, alloc, "check in/", &mut folder, 2, "", line)
}

#[test]
fn the_sum(rt: HostRuntime) -> Result<(), Fail> {
    let alloc = rt.alloc();
    let mut folder = sum_folder(alloc, None)?;
    folder.write("in/A.txt", b"no class file".as_slice())?;
    passes(&rt, alloc, &mut folder, "ok 1 classes\n")
}

#[test]
fn an_empty_folder(rt: HostRuntime) -> Result<(), Fail> {
    let alloc = rt.alloc();
    passes(&rt, alloc, &mut empty_folder(alloc)?, "ok 0 classes\n")
}

/// A written class may have a reserved name.
#[test]
fn a_reserved_name(rt: HostRuntime) -> Result<(), Fail> {
    let alloc = rt.alloc();
    let mut folder = empty_folder(alloc)?;
    let class = class_file(alloc, "phosphor/X", "java/lang/Object")?;
    folder.write("in/X.class", class.as_slice())?;
    passes(&rt, alloc, &mut folder, "ok 1 classes\n")
}

#[test]
fn the_sum_with_its_addition_moved(rt: HostRuntime) -> Result<(), Fail> {
    let alloc = rt.alloc();
    let early = early_sum(alloc)?;
    let line = "refused: A.main([Ljava/lang/String;)V: instruction 1: operand\n";
    refuses(&rt, alloc, &[("in/A.class", early.as_slice())], line)
}

#[test]
fn a_superclass_that_is_absent(rt: HostRuntime) -> Result<(), Fail> {
    let alloc = rt.alloc();
    let class = class_file(alloc, "X", "Y")?;
    let files = [("in/X.class", class.as_slice())];
    refuses(&rt, alloc, &files, "refused: set: missing Y\n")
}

#[test]
fn a_bad_name(rt: HostRuntime) -> Result<(), Fail> {
    let alloc = rt.alloc();
    let class = class_file(alloc, "../x", "java/lang/Object")?;
    let files = [("in/A.class", class.as_slice())];
    refuses(&rt, alloc, &files, "refused: A.class: profile: bad name\n")
}

#[test]
fn a_later_version(rt: HostRuntime) -> Result<(), Fail> {
    let alloc = rt.alloc();
    let class = sum_with(alloc, 7, 53)?;
    let files = [("in/A.class", class.as_slice())];
    let line = "refused: A.class: profile: version 53\n";
    refuses(&rt, alloc, &files, line)
}

#[test]
fn a_cycle(rt: HostRuntime) -> Result<(), Fail> {
    let alloc = rt.alloc();
    let first = class_file(alloc, "A", "B")?;
    let second = class_file(alloc, "B", "A")?;
    let files = [
        ("in/A.class", first.as_slice()),
        ("in/B.class", second.as_slice()),
    ];
    refuses(&rt, alloc, &files, "refused: set: cycle A\n")
}

#[test]
fn a_class_twice(rt: HostRuntime) -> Result<(), Fail> {
    let alloc = rt.alloc();
    let files = [("in/A.class", sum()), ("in/b/B.class", sum())];
    refuses(&rt, alloc, &files, "refused: set: duplicate A\n")
}

#[test]
fn a_file_that_is_cut(rt: HostRuntime) -> Result<(), Fail> {
    let alloc = rt.alloc();
    let head = [0xCA, 0xFE, 0xBA, 0xBE, 0, 0, 0, 52, 0];
    let files = [("in/A.class", head.as_slice())];
    refuses(&rt, alloc, &files, "refused: A.class: byte 8: short\n")
}

#[test]
fn each_call_of_the_folder_fails_in_turn(rt: HostRuntime) -> Result<(), Fail> {
    let alloc = rt.alloc();
    for (call, line) in [
        (2, "read fault: list in\n"),
        (3, "read fault: in/A.class\n"),
    ] {
        let mut folder = sum_folder(alloc, Some(call))?;
        answers(&rt, alloc, "check in", &mut folder, 3, "", line)?;
    }
    Ok(())
}

#[test]
fn standard_output_fails(rt: HostRuntime) -> Result<(), Fail> {
    let alloc = rt.alloc();
    let mut folder = sum_folder(alloc, None)?;
    let words = words_of(alloc, "check in")?;
    let mut input = MemSource::new(Seq::new(alloc), Vec::new(alloc));
    let mut out = MemSink::new(alloc, 0, Vec::new(alloc))?;
    let mut err = MemSink::new(alloc, 1_000, Vec::new(alloc))?;
    let status = phosphor(
        alloc,
        words.as_slice(),
        &mut folder,
        &mut input,
        &mut out,
        &mut err,
    );
    assert_eq!(rt; status, 4);
    assert!(rt; err.held() == b"write fault: out\n".as_slice());
    Ok(())
}
