//! A real folder.

ghost use Rattle.std.specs.Prelude.{IfErr, None};
ghost use Rattle.outside_io.specs.Files.{Lists, Reads};

use crate::folder::{Folder, MOST_BYTES, MOST_FILES};
use crate::paths::in_order;
use crate::stop::IoStop;
use lists::{Bytes, Path, Seq};
use std::alloc::{AllocError, Global};
use std::collections::BTreeSet;
use std::fs::Metadata;
use std::io::{ErrorKind, Read};
use std::rt::Files;
use std::{fs, io, str};

/// How many folders may be nested below the one that is listed.
const DEEPEST: u32 = 64;

/// The folders and files of a runtime. A path that is not absolute begins at the folder in which
/// the program runs.
///
/// It tells nothing of its files, and counts each error of the runtime. A file is a regular file:
/// no link is followed, wherever it stands in a path, so that what is reached through one is not
/// there, and writing through one is a fault. A link that takes a folder's place in the midst of a
/// call may still be followed, since no call of the runtime can refuse it.
#[derive(Drop)]
pub struct DirFolder<R> {
    rt: R,
    read_faults: u64,
    write_faults: u64,
}

/// A folder that is still to be listed: its path behind the first folder's, and how deep it is.
#[derive(Drop)]
struct Pending {
    path: String,
    depth: u32,
}

/// What a walk has found, and the folders that are left.
#[derive(Drop)]
struct Walk {
    found: BTreeSet<Path>,
    pending: Vec<Pending>,
}

/// Two paths joined by a `/`, where the first is not empty.
fn joined(alloc: Global, front: &str, name: &str) -> Result<String, AllocError> {
    let mut path = String::from_str(alloc, front)?;
    if !front.is_empty() {
        path.push('/')?;
    }
    path.push_str(name)?;
    Ok(path)
}

/// Whether an error says that nothing stands at a path.
fn is_absence(error: &io::Error) -> bool {
    let kind = error.kind();
    kind == ErrorKind::NotFound || kind == ErrorKind::NotADirectory
}

/// What stands at a path, with links in it not followed: `None` where nothing does, or something
/// behind a link.
fn stands_at<R: Files>(rt: &R, path: &str) -> io::Result<Option<Metadata>> {
    for (place, _) in path.match_indices('/') {
        if let Some(front) = path.get(..place)
            && !front.is_empty()
        {
            match rt.symlink_metadata(front) {
                Ok(found) => {
                    if !found.is_dir() {
                        return Ok(None);
                    }
                }
                Err(error) => return none_at_absence(error),
            }
        }
    }
    match rt.symlink_metadata(path) {
        Ok(found) => Ok(Some(found)),
        Err(error) => none_at_absence(error),
    }
}

fn none_at_absence(error: io::Error) -> io::Result<Option<Metadata>> {
    if is_absence(&error) {
        Ok(None)
    } else {
        Err(error)
    }
}

/// Notes one name of a folder: a file is found, a folder is pending, a link is neither.
fn note<R: Files>(
    rt: &R,
    alloc: Global,
    dir: &str,
    walk: &mut Walk,
    at: &Pending,
    name: &[u8],
) -> Result<(), IoStop>
    ensures { IfErr result (λ stop. Lists None dir.now (Err stop)) }
{
    let Ok(name) = str::from_utf8(name) else {
        return Err(IoStop::Failed);
    };
    let path = joined(alloc, at.path.as_str(), name)?;
    let whole = joined(alloc, dir, path.as_str())?;
    let Ok(found) = rt.symlink_metadata(whole.as_str()) else {
        return Err(IoStop::Failed);
    };
    if found.is_dir() {
        if at.depth >= DEEPEST {
            return Err(IoStop::Failed);
        }
        walk.pending.push(Pending {
            path,
            depth: at.depth + 1,
        })?;
    } else if found.is_file() {
        walk.found.insert(Path::from_string(path))?;
        if walk.found.len() > MOST_FILES {
            return Err(IoStop::TooMany { seen: 1_000_001 });
        }
    }
    Ok(())
}

/// Notes each name of one folder.
fn list_one<R: Files>(
    rt: &R,
    alloc: Global,
    dir: &str,
    walk: &mut Walk,
    at: &Pending,
) -> Result<(), IoStop>
    ensures { IfErr result (λ stop. Lists None dir.now (Err stop)) }
{
    let whole = joined(alloc, dir, at.path.as_str())?;
    let Ok(mut names) = rt.open_dir(whole.as_str()) else {
        return Err(IoStop::Failed);
    };
    let mut buffer = [0u8; 4096];
    for _ in 0..u64::MAX {
        let Ok(count) = names.read(&mut buffer) else {
            return Err(IoStop::Failed);
        };
        if count == 0 {
            return Ok(());
        }
        for name in buffer[..count].split(|byte| *byte == 0) {
            if !name.is_empty() && name != b".".as_slice() && name != b"..".as_slice() {
                note(rt, alloc, dir, walk, at, name)?;
            }
        }
    }
    Err(IoStop::Failed)
}

/// Lists the folders that are left, and those that are found meanwhile.
fn walk_on<R: Files>(rt: &R, alloc: Global, dir: &str, walk: &mut Walk) -> Result<(), IoStop>
    ensures { IfErr result (λ stop. Lists None dir.now (Err stop)) }
{
    for _ in 0..u64::MAX {
        let Some(at) = walk.pending.pop() else {
            return Ok(());
        };
        list_one(rt, alloc, dir, walk, &at)?;
    }
    Err(IoStop::Failed)
}

/// The paths of all files below a folder that is there.
fn walk_from<R: Files>(rt: &R, alloc: Global, dir: &str) -> Result<Seq<Path>, IoStop>
    ensures { Lists None dir.now result }
{
    let mut walk = Walk {
        found: BTreeSet::new(alloc),
        pending: Vec::new(alloc),
    };
    walk.pending.push(Pending {
        path: String::new(alloc),
        depth: 0,
    })?;
    walk_on(rt, alloc, dir, &mut walk)?;
    let Walk { found, pending: _ } = walk;
    let paths = in_order(alloc, found)?;
    if paths.len() > MOST_FILES {
        return Err(IoStop::TooMany { seen: 1_000_001 });
    }
    Ok(paths)
}

/// The paths of all files below a folder, of which there are none where it is not there.
fn list_below<R: Files>(rt: &R, alloc: Global, dir: &str) -> Result<Seq<Path>, IoStop>
    ensures { Lists None dir.now result }
{
    match stands_at(rt, dir) {
        Ok(Some(found)) if found.is_dir() => walk_from(rt, alloc, dir),
        Ok(_) => Ok(in_order(alloc, BTreeSet::new(alloc))?),
        Err(_) => Err(IoStop::Failed),
    }
}

/// The bytes of a regular file.
fn read_whole<R: Files>(rt: &R, alloc: Global, path: &str) -> Result<Bytes, IoStop>
    ensures { Reads None path.now result }
{
    let len = match stands_at(rt, path) {
        Ok(Some(found)) if found.is_file() => found.len(),
        Ok(_) => return Err(IoStop::Absent),
        Err(_) => return Err(IoStop::Failed),
    };
    let Ok(file) = fs::open(rt, path) else {
        return Err(IoStop::Failed);
    };
    let mut bytes = Vec::with_capacity(alloc, len.min(MOST_BYTES as u64) as usize)?;
    match file.take(16_777_217).read_to_end(&mut bytes) {
        Ok(_) => {}
        Err(error) if error.kind() == ErrorKind::OutOfMemory => return Err(IoStop::Memory),
        Err(_) => return Err(IoStop::Failed),
    }
    if bytes.len() > MOST_BYTES {
        return Err(IoStop::TooLong { taken: 16_777_217 });
    }
    Ok(Seq::from_vec(bytes))
}

/// Makes the folders of a path that are missing.
fn make_folders<R: Files>(rt: &R, path: &str) -> io::Result<()> {
    for (place, _) in path.match_indices('/') {
        if let Some(front) = path.get(..place)
            && !front.is_empty()
        {
            match rt.symlink_metadata(front) {
                Ok(found) if found.is_dir() => {}
                Ok(_) => return Err(io::Error::from(ErrorKind::NotADirectory)),
                Err(error) if error.kind() == ErrorKind::NotFound => rt.create_dir(front)?,
                Err(error) => return Err(error),
            }
        }
    }
    Ok(())
}

/// Writes a regular file, and makes the folders of its path that are missing.
fn write_whole<R: Files>(rt: &R, path: &str, bytes: &[u8]) -> io::Result<()> {
    make_folders(rt, path)?;
    match rt.symlink_metadata(path) {
        Ok(found) if found.is_file() => {}
        Ok(_) => return Err(io::Error::from(ErrorKind::InvalidInput)),
        Err(error) if error.kind() == ErrorKind::NotFound => {}
        Err(error) => return Err(error),
    }
    fs::write(rt, path, bytes)
}

impl<R: Files + Drop> DirFolder<R> {
    /// The folders and files of this runtime, with no fault counted. Takes no memory.
    pub fn new(rt: R) -> DirFolder<R> {
        DirFolder {
            rt,
            read_faults: 0,
            write_faults: 0,
        }
    }
}

impl<R: Files + Drop> Folder for DirFolder<R> {
    ghost files = { λ _. None };

    ghost read_faults = { λ s. s.read_faults };

    ghost write_faults = { λ s. s.write_faults };

    /// More than 64 nested folders and a name that is not UTF-8 are faults.
    fn list(&mut self, alloc: Global, dir: &str) -> Result<Seq<Path>, IoStop> {
        match list_below(&self.rt, alloc, dir) {
            Ok(paths) => Ok(paths),
            Err(IoStop::Failed) => {
                self.read_faults = self.read_faults.saturating_add(1);
                Err(IoStop::Failed)
            }
            Err(stop) => Err(stop),
        }
    }

    /// What is no regular file is absent.
    fn read(&mut self, alloc: Global, path: &str) -> Result<Bytes, IoStop> {
        match read_whole(&self.rt, alloc, path) {
            Ok(bytes) => Ok(bytes),
            Err(IoStop::Failed) => {
                self.read_faults = self.read_faults.saturating_add(1);
                Err(IoStop::Failed)
            }
            Err(stop) => Err(stop),
        }
    }

    /// Makes the folders of the path that are missing. Want of memory is a fault.
    fn write(&mut self, path: &str, bytes: &[u8]) -> Result<(), IoStop> {
        match write_whole(&self.rt, path, bytes) {
            Ok(()) => Ok(()),
            Err(_) => {
                self.write_faults = self.write_faults.saturating_add(1);
                Err(IoStop::Failed)
            }
        }
    }
}
