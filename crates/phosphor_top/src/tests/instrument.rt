//! The command `instrument`: the worked rows of the first form.

use super::making::{class_file, sum, sum_with};
use super::{answers, answers_on, empty_folder, lists, sum_folder};
use outside_io::{Folder, MemFolder};
use std::alloc::Global;
use std::process::Abort;
use std::test::Fail;

/// The paths that are written for the sum, in their order: its class, the small base and the class of
/// reports.
fn written_paths() -> [&'static str; 23] {
    [
        "out/A.class",
        "out/java/io/IOException.class",
        "out/java/lang/ArithmeticException.class",
        "out/java/lang/ArrayIndexOutOfBoundsException.class",
        "out/java/lang/ArrayStoreException.class",
        "out/java/lang/ClassCastException.class",
        "out/java/lang/Error.class",
        "out/java/lang/Exception.class",
        "out/java/lang/IllegalArgumentException.class",
        "out/java/lang/IllegalStateException.class",
        "out/java/lang/IncompatibleClassChangeError.class",
        "out/java/lang/IndexOutOfBoundsException.class",
        "out/java/lang/LinkageError.class",
        "out/java/lang/NegativeArraySizeException.class",
        "out/java/lang/NullPointerException.class",
        "out/java/lang/NumberFormatException.class",
        "out/java/lang/Object.class",
        "out/java/lang/RuntimeException.class",
        "out/java/lang/String.class",
        "out/java/lang/System.class",
        "out/java/lang/Throwable.class",
        "out/phosphor/Report.class",
        "out/sys/Native.class",
    ]
}

fn instrument(
    rt: &impl Abort,
    alloc: Global,
    folder: &mut MemFolder,
    status: u8,
    line: &str,
) -> Result<(), Fail> {
    let text = "instrument in out c.json";
    answers(rt, alloc, text, folder, status, "", line)
}

/// The sum is instrumented, and what is written runs: it reports the tag of the byte that it writes.
#[test]
fn sum_of_two_bytes(rt: HostRuntime) -> Result<(), Fail> {
    let alloc = rt.alloc();
    let mut folder = sum_folder(alloc, None)?;
    instrument(&rt, alloc, &mut folder, 0, "")?;
    let lines = "report 0 0 1\nreturned\n";
    for (given, console) in [([0x41, 0x01].as_slice(), "B"), ([0x41].as_slice(), "@")] {
        answers_on(
            &rt,
            alloc,
            "run out A 100",
            &mut folder,
            given,
            0,
            console,
            lines,
        )?;
    }
    Ok(())
}

/// How many of the paths that are written for the sum are there.
fn written(folder: &MemFolder) -> usize {
    let mut count = 0usize;
    for path in written_paths() {
        if folder.file(path).is_some() {
            count = count.saturating_add(1);
        }
    }
    count
}

#[test]
fn the_written_folder(rt: HostRuntime) -> Result<(), Fail> {
    let alloc = rt.alloc();
    let mut folder = sum_folder(alloc, None)?;
    instrument(&rt, alloc, &mut folder, 0, "")?;
    assert_eq!(rt; folder.list(alloc, "out")?.len(), 23);
    assert_eq!(rt; written(&folder), 23);
    answers(
        &rt,
        alloc,
        "check out",
        &mut folder,
        0,
        "ok 23 classes\n",
        "",
    )
}

#[test]
fn a_folder_without_classes(rt: HostRuntime) -> Result<(), Fail> {
    let alloc = rt.alloc();
    let mut folder = empty_folder(alloc)?;
    folder.write("c.json", lists())?;
    instrument(&rt, alloc, &mut folder, 0, "")?;
    assert_eq!(rt; folder.list(alloc, "out")?.len(), 22);
    assert_eq!(rt; written(&folder), 22);
    Ok(())
}

#[test]
fn lists_that_are_not_there(rt: HostRuntime) -> Result<(), Fail> {
    let alloc = rt.alloc();
    let mut folder = empty_folder(alloc)?;
    folder.write("in/A.class", sum())?;
    instrument(&rt, alloc, &mut folder, 2, "refused: no file: c.json\n")
}

#[test]
fn lists_that_are_not_built(rt: HostRuntime) -> Result<(), Fail> {
    let alloc = rt.alloc();
    let mut folder = sum_folder(alloc, None)?;
    folder.write("c.json", b"[".as_slice())?;
    instrument(&rt, alloc, &mut folder, 2, "refused: config: not built\n")?;
    assert_eq!(rt; folder.list(alloc, "out")?.len(), 0);
    Ok(())
}

fn refuses(rt: &impl Abort, alloc: Global, bytes: &[u8], line: &str) -> Result<(), Fail> {
    let mut folder = sum_folder(alloc, None)?;
    folder.write("in/A.class", bytes)?;
    instrument(rt, alloc, &mut folder, 2, line)?;
    assert_eq!(rt; folder.list(alloc, "out")?.len(), 0);
    Ok(())
}

#[test]
fn a_file_that_is_no_class(rt: HostRuntime) -> Result<(), Fail> {
    let alloc = rt.alloc();
    refuses(&rt, alloc, b"", "refused: A.class: byte 0: short\n")?;
    let head = [0xCA, 0xFE, 0xBA, 0xBE, 0, 0, 0, 52, 0];
    refuses(&rt, alloc, &head, "refused: A.class: byte 8: short\n")?;
    let longer = sum_with(alloc, 193, 0)?;
    refuses(
        &rt,
        alloc,
        &longer,
        "refused: A.class: byte 193: trailing\n",
    )?;
    let tag = sum_with(alloc, 10, 2)?;
    refuses(&rt, alloc, &tag, "refused: A.class: byte 10: pool tag 2\n")
}

#[test]
fn a_later_version(rt: HostRuntime) -> Result<(), Fail> {
    let alloc = rt.alloc();
    let major = sum_with(alloc, 7, 53)?;
    let line = "refused: A.class: profile: version 53\n";
    refuses(&rt, alloc, &major, line)
}

#[test]
fn a_reserved_name(rt: HostRuntime) -> Result<(), Fail> {
    let alloc = rt.alloc();
    let class = class_file(alloc, "phosphor/X", "java/lang/Object")?;
    let line = "refused: A.class: profile: reserved phosphor/X\n";
    refuses(&rt, alloc, class.as_slice(), line)
}

#[test]
fn two_classes(rt: HostRuntime) -> Result<(), Fail> {
    let alloc = rt.alloc();
    let mut folder = sum_folder(alloc, None)?;
    let class = class_file(alloc, "B", "java/lang/Object")?;
    folder.write("in/b/B.class", class.as_slice())?;
    instrument(&rt, alloc, &mut folder, 2, "refused: not built: B\n")?;
    folder.write("out/x", b"x".as_slice())?;
    instrument(&rt, alloc, &mut folder, 2, "refused: not empty: out\n")
}

#[test]
fn an_output_folder_with_a_file(rt: HostRuntime) -> Result<(), Fail> {
    let alloc = rt.alloc();
    let mut folder = sum_folder(alloc, None)?;
    folder.write("out/x", b"x".as_slice())?;
    answers(
        &rt,
        alloc,
        "instrument in/ out// c.json",
        &mut folder,
        2,
        "",
        "refused: not empty: out\n",
    )?;
    assert_eq!(rt; folder.list(alloc, "out")?.len(), 1);
    Ok(())
}

#[test]
fn each_read_of_the_folder_fails_in_turn(rt: HostRuntime) -> Result<(), Fail> {
    let alloc = rt.alloc();
    for (call, line) in [
        (2, "read fault: list in\n"),
        (3, "read fault: in/A.class\n"),
        (4, "read fault: c.json\n"),
        (5, "read fault: list out\n"),
    ] {
        let mut folder = sum_folder(alloc, Some(call))?;
        instrument(&rt, alloc, &mut folder, 3, line)?;
    }
    Ok(())
}

#[test]
fn each_write_of_the_folder_fails_in_turn(rt: HostRuntime) -> Result<(), Fail> {
    let alloc = rt.alloc();
    let mut call = 6u64;
    for path in written_paths() {
        let mut folder = sum_folder(alloc, Some(call))?;
        let line = format!(in alloc; "write fault: {path}\n")?;
        instrument(&rt, alloc, &mut folder, 4, line.as_str())?;
        call = call.saturating_add(1);
    }
    Ok(())
}

#[test]
fn a_third_write_that_fails(rt: HostRuntime) -> Result<(), Fail> {
    let alloc = rt.alloc();
    let mut whole = sum_folder(alloc, None)?;
    instrument(&rt, alloc, &mut whole, 0, "")?;
    let mut folder = sum_folder(alloc, Some(8))?;
    let third = "out/java/lang/ArithmeticException.class";
    let line = "write fault: out/java/lang/ArithmeticException.class\n";
    instrument(&rt, alloc, &mut folder, 4, line)?;
    for path in ["out/A.class", "out/java/io/IOException.class"] {
        assert!(rt; folder.file(path) == whole.file(path), "{path}");
    }
    let all = whole.file(third).ok_or("no third file")?;
    let left = folder.file(third).unwrap_or_default();
    assert!(rt; all.starts_with(left));
    assert!(rt; folder.list(alloc, "out")?.len() <= 3);
    Ok(())
}

#[test]
fn a_class_file_over_the_size(rt: HostRuntime) -> Result<(), Fail> {
    let alloc = rt.alloc();
    let bytes = vec![in alloc; 0u8; 16_777_217]?;
    let mut folder = MemFolder::new(alloc, Vec::new(alloc), 4, 16_777_300, Vec::new(alloc))?;
    folder.write("in/A.class", bytes.as_slice())?;
    instrument(&rt, alloc, &mut folder, 10, "file too long: in/A.class\n")
}
