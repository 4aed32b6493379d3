//! Writing files.

ghost use Rattle.std.specs.Prelude.{◌≡◌, ◌≤◌, ◌<◌, length, map, IfErr, IfOk, IfSome};
ghost use Rattle.outside_io.specs.Causes.{Rose};
ghost use Rattle.command_parts.specs.Stops.{HasCause};
ghost use Rattle.command_parts.specs.Writing.{Writes, WritesFront};
ghost use Rattle.command_parts.specs.Writing.{placed as placed_in};

use crate::look::path_in;
use crate::stop::Stop;
use outside_io::Folder;
use set_loader::File;
use std::alloc::{AllocError, Global};

/// Files with their whole paths in a folder.
pub fn placed(alloc: Global, dir: &str, files: Vec<File>) -> Result<Vec<File>, AllocError>
    ensures { IfOk result (λ whole. whole.items ≡ map (placed_in dir.now) files.items) }
{
    let mut whole = Vec::new(alloc);
    for File { path, bytes } in files {
        let path = path_in(alloc, dir, path.as_str())?;
        whole.push(File { path, bytes })?;
    }
    Ok(whole)
}

/// Writes files at their whole paths, in order, until one fails, and answers the number of that one.
fn write_front<F: Folder>(folder: &mut F, files: &[File]) -> Option<usize>
    ensures writes { WritesFront (F.files folder.old) (F.files folder.new) files.now result }
    ensures within { IfSome result (λ failed. failed < length files.now) }
    ensures fault { IfSome result (λ failed. Rose (F.write_faults folder.old) (F.write_faults folder.new)) }
    ensures read_count { F.read_faults folder.old ≤ F.read_faults folder.new }
    ensures write_count { F.write_faults folder.old ≤ F.write_faults folder.new }
{
    for (i, file) in files.iter().enumerate() {
        if folder
            .write(file.path.as_str(), file.bytes.as_slice())
            .is_err()
        {
            return Some(i);
        }
    }
    None
}

/// Writes files at their whole paths, in order, until one fails. Takes no memory.
///
/// Refuses with `WriteFault` alone, which has the path of the file that failed. Those before it are
/// then whole, of it there is at most a prefix, and all else is as before.
pub fn write_files<F: Folder>(folder: &mut F, mut files: Vec<File>) -> Result<(), Stop>
    ensures writes { Writes (F.files folder.old) (F.files folder.new) files.items result }
    ensures cause { IfErr result (λ stop. HasCause stop (F.read_faults folder.old) (F.read_faults folder.new)
        (F.write_faults folder.old) (F.write_faults folder.new)) }
    ensures read_count { F.read_faults folder.old ≤ F.read_faults folder.new }
    ensures write_count { F.write_faults folder.old ≤ F.write_faults folder.new }
{
    match write_front(folder, files.as_slice()) {
        None => Ok(()),
        Some(failed) => Err(Stop::WriteFault(files.swap_remove(failed).path)),
    }
}
