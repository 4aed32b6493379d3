use crate::{
    ByteSink, ByteSource, DirFolder, Folder, IoStop, MemFolder, MemSink, MemSource, StdSink,
    StdSource,
};
use lists::{Bytes, Path, Seq};
use std::alloc::Global;
use std::fs;
use std::os::unix::fs::symlink;
use std::process::Abort;
use std::test::Fail;

fn assert_list<F: Folder>(
    rt: &impl Abort,
    alloc: Global,
    folder: &mut F,
    dir: &str,
    want: &[&str],
) -> Result<(), Fail> {
    let paths = folder.list(alloc, dir)?;
    assert_eq!(rt; paths.len(), want.len(), "in {dir}");
    for (path, name) in paths.as_slice().iter().zip(want) {
        assert_eq!(rt; path.as_str(), *name);
    }
    Ok(())
}

fn assert_file<F: Folder>(
    rt: &impl Abort,
    alloc: Global,
    folder: &mut F,
    path: &str,
    want: Option<&str>,
) {
    match (folder.read(alloc, path), want) {
        (Ok(bytes), Some(text)) => assert_eq!(rt; bytes.as_slice(), text.as_bytes()),
        (Err(IoStop::Absent), None) => {}
        _ => assert!(rt; false, "at {path}"),
    }
}

fn write_all<F: Folder>(folder: &mut F, paths: &[&str]) -> Result<(), Fail> {
    for path in paths {
        folder.write(path, path.as_bytes())?;
    }
    Ok(())
}

// Leaves an empty folder of this name, also where an earlier run left files.
fn fresh(rt: &HostRuntime, name: &str) -> Result<(), Fail> {
    let _ = fs::remove_dir_all(rt, name);
    fs::create_dir(rt, name)?;
    Ok(())
}

#[test]
fn real_folder(rt: HostRuntime) -> Result<(), Fail> {
    let alloc = rt.alloc();
    fresh(&rt, "real")?;
    let mut folder = DirFolder::new(&rt);
    write_all(
        &mut folder,
        &[
            "real/b/c/D",
            "real/b0",
            "real/b.x",
            "real/A.class",
            "real/b/E",
            "real/b0",
        ],
    )?;
    fs::create_dir(&rt, "real/empty")?;
    for (dir, want) in [
        ("real", ["A.class", "b.x", "b/E", "b/c/D", "b0"].as_slice()),
        ("real/b", ["E", "c/D"].as_slice()),
        ("real/b0", [].as_slice()),
        ("real/empty", [].as_slice()),
        ("real/none", [].as_slice()),
    ] {
        assert_list(&rt, alloc, &mut folder, dir, want)?;
    }
    folder.write("real/b0", b"new".as_slice())?;
    for (path, want) in [
        ("real/b/c/D", Some("real/b/c/D")),
        ("real/b0", Some("new")),
        ("real/b0/x", None),
        ("real/b", None),
        ("real/none", None),
    ] {
        assert_file(&rt, alloc, &mut folder, path, want);
    }
    for path in ["real/b", "real/b0/x"] {
        assert!(rt; folder.write(path, b"x".as_slice()).is_err());
    }
    fs::remove_dir_all(&rt, "real")?;
    Ok(())
}

#[test]
fn links_are_not_followed(rt: HostRuntime) -> Result<(), Fail> {
    let alloc = rt.alloc();
    fresh(&rt, "linked")?;
    let mut folder = DirFolder::new(&rt);
    write_all(&mut folder, &["linked/in/b/F"])?;
    symlink(&rt, "in", "linked/to")?;
    symlink(&rt, "F", "linked/in/b/one")?;
    assert_list(&rt, alloc, &mut folder, "linked", &["in/b/F"])?;
    for dir in ["linked/to", "linked/to/", "linked/to/b"] {
        assert_list(&rt, alloc, &mut folder, dir, &[])?;
    }
    for path in ["linked/to/b/F", "linked/in/b/one", "linked/to/new"] {
        assert_file(&rt, alloc, &mut folder, path, None);
        assert!(rt; folder.write(path, b"x".as_slice()).is_err());
    }
    assert_file(
        &rt,
        alloc,
        &mut folder,
        "linked/in/b/F",
        Some("linked/in/b/F"),
    );
    fs::remove_dir_all(&rt, "linked")?;
    Ok(())
}

#[test]
fn real_limits(rt: HostRuntime) -> Result<(), Fail> {
    let alloc = rt.alloc();
    fresh(&rt, "limits")?;
    let mut folder = DirFolder::new(&rt);
    let mut path = String::from_str(alloc, "limits/in")?;
    for _ in 0..64 {
        path.push_str("/d")?;
    }
    write_all(&mut folder, &[path.as_str()])?;
    assert!(rt; folder.list(alloc, "limits/in").is_ok());
    fs::remove_file(&rt, path.as_str())?;
    path.push_str("/d")?;
    fs::create_dir_all(&rt, path.as_str())?;
    assert!(rt; matches!(folder.list(alloc, "limits/in"), Err(IoStop::Failed)));
    let mut bytes = Vec::new(alloc);
    bytes.resize(16_777_216, 7)?;
    folder.write("limits/most", bytes.as_slice())?;
    assert!(rt; folder.read(alloc, "limits/most").is_ok());
    bytes.push(7)?;
    folder.write("limits/more", bytes.as_slice())?;
    assert!(rt;
        matches!(
            folder.read(alloc, "limits/more"),
            Err(IoStop::TooLong { taken: 16_777_217 })
        )
    );
    fs::remove_dir_all(&rt, "limits")?;
    Ok(())
}

#[test]
fn real_streams(rt: HostRuntime) -> Result<(), Fail> {
    fresh(&rt, "streams")?;
    let mut sink = StdSink::new(fs::create(&rt, "streams/a")?);
    sink.write(b"one ".as_slice())?;
    sink.write(b"two".as_slice())?;
    let mut source = StdSource::new(fs::open(&rt, "streams/a")?);
    let mut buffer = [0u8; 16];
    assert_eq!(rt; source.read(&mut buffer)?, 7);
    assert_eq!(rt; &buffer[..7], b"one two".as_slice());
    assert_eq!(rt; source.read(&mut buffer)?, 0);
    let mut source = StdSource::new(fs::open(&rt, "streams")?);
    assert!(rt; source.read(&mut buffer).is_err());
    let mut sink = StdSink::new(fs::open(&rt, "streams/a")?);
    assert!(rt; sink.write(b"x".as_slice()).is_err());
    fs::remove_dir_all(&rt, "streams")?;
    Ok(())
}

#[test]
fn source_in_memory(rt: HostRuntime) -> Result<(), Fail> {
    let alloc = rt.alloc();
    let bytes = Seq::from_vec(b"hello".as_slice().to_vec(alloc)?);
    let mut source = MemSource::new(bytes, [1, 4].as_slice().to_vec(alloc)?);
    let mut buffer = [0u8; 2];
    for want in [
        Some("he"),
        None,
        Some("ll"),
        Some("o"),
        None,
        Some(""),
        Some(""),
    ] {
        match (source.read(&mut buffer), want) {
            (Ok(count), Some(text)) => assert_eq!(rt; &buffer[..count], text.as_bytes()),
            (Err(IoStop::Failed), None) => {}
            _ => assert!(rt; false),
        }
    }
    Ok(())
}

#[test]
fn sink_in_memory(rt: HostRuntime) -> Result<(), Fail> {
    let alloc = rt.alloc();
    let mut sink = MemSink::new(alloc, 5, [1].as_slice().to_vec(alloc)?)?;
    for (text, fails) in [
        ("ab", false),
        ("c", true),
        ("cde!", true),
        ("cde", false),
        ("", false),
        ("f", true),
    ] {
        assert_eq!(rt; sink.write(text.as_bytes()).is_err(), fails);
    }
    assert_eq!(rt; sink.held(), b"abcde".as_slice());
    Ok(())
}

// A folder of files that hold their own paths.
fn memory(
    rt: &impl Abort,
    alloc: Global,
    paths: &[&str],
    files_room: u64,
    bytes_room: u64,
    failing: &[u64],
) -> Result<MemFolder, Fail> {
    let mut files: Vec<(Path, Bytes)> = Vec::new(alloc);
    for path in paths {
        let bytes = Seq::from_vec(path.as_bytes().to_vec(alloc)?);
        files.push((Path::from_str(alloc, path)?, bytes))?;
    }
    assert!(rt; MemFolder::fits(files.as_slice(), files_room, bytes_room));
    let failing = failing.to_vec(alloc)?;
    Ok(MemFolder::new(alloc, files, files_room, bytes_room, failing)?)
}

#[test]
fn folder_in_memory(rt: HostRuntime) -> Result<(), Fail> {
    let alloc = rt.alloc();
    let mut folder = memory(
        &rt,
        alloc,
        &["in/b/c", "in/b.x", "inner", "in/A"],
        9,
        99,
        &[],
    )?;
    write_all(&mut folder, &["out/A", "in/b/0", "out/A"])?;
    for (dir, want) in [
        ("in", ["A", "b.x", "b/0", "b/c"].as_slice()),
        ("in/b", ["0", "c"].as_slice()),
        ("out", ["A"].as_slice()),
        ("none", [].as_slice()),
    ] {
        assert_list(&rt, alloc, &mut folder, dir, want)?;
    }
    folder.write("out/A", b"new".as_slice())?;
    for (path, want) in [
        ("in/A", Some("in/A")),
        ("out/A", Some("new")),
        ("out", None),
    ] {
        assert_file(&rt, alloc, &mut folder, path, want);
    }
    assert!(rt; matches!(folder.file("out/A"), Some([110, 101, 119])));
    let mut empty = memory(&rt, alloc, &[], 0, 0, &[])?;
    assert_list(&rt, alloc, &mut empty, "in", &[])?;
    assert!(rt; empty.write("", b"".as_slice()).is_err());
    Ok(())
}

#[test]
fn failing_calls_and_rooms(rt: HostRuntime) -> Result<(), Fail> {
    let alloc = rt.alloc();
    // the rooms, the failing calls, and which calls fail: list, read, two writes of 4 bytes
    for (files_room, bytes_room, failing, fails) in [
        (3, 16, [].as_slice(), [false, false, false, false]),
        (2, 16, [].as_slice(), [false, false, false, true]),
        (1, 16, [].as_slice(), [false, false, true, true]),
        (3, 15, [].as_slice(), [false, false, false, true]),
        (3, 11, [].as_slice(), [false, false, true, true]),
        (3, 16, [0, 2, 4].as_slice(), [true, false, true, false]),
        (2, 12, [3, 1].as_slice(), [false, true, false, true]),
    ] {
        let mut folder = memory(&rt, alloc, &["in/A"], files_room, bytes_room, failing)?;
        let list = folder.list(alloc, "in").is_err();
        let read = folder.read(alloc, "in/A").is_err();
        let replace = folder.write("in/A", b"".as_slice()).is_err();
        let write = folder.write("in/B", b"".as_slice()).is_err();
        assert_eq!(rt; [list, read, replace, write], fails);
        assert_eq!(rt; folder.read_faults(), u64::from(list) + u64::from(read));
        assert_eq!(rt;
            folder.write_faults(),
            u64::from(replace) + u64::from(write)
        );
    }
    Ok(())
}
