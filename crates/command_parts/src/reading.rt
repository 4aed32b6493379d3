//! Reading the class files of a folder.

ghost use Rattle.std.specs.Prelude.{◌≡◌, ◌≤◌, filter, IfOk, IfSome, MatchResult, vec_len};
ghost use Rattle.command_parts.specs.Folders.{below, is_class_path, ReadsClassFiles, ReadsFile, RefusesClassFiles, RefusesRead};
ghost use Rattle.command_parts.specs.Looks.{Looked};

use crate::look::{list_folder, path_in, read_at};
use crate::stop::Stop;
use lists::{Path, Seq};
use outside_io::Folder;
use set_loader::File;
use std::alloc::{AllocError, Global};

/// Whether a path ends in `.class`.
fn is_class_path(path: &Path) -> bool
    ensures { result ≡ is_class_path path.now }
{
    path.as_str().as_bytes().ends_with(b".class")
}

/// The paths that end in `.class`, in order.
fn class_paths(alloc: Global, paths: Seq<Path>) -> Result<Vec<Path>, AllocError>
    ensures { IfOk result (λ classes. classes.items ≡ filter is_class_path paths) }
{
    let mut classes = Vec::new(alloc);
    for path in paths.into_vec() {
        if is_class_path(&path) {
            classes.push(path)?;
        }
    }
    Ok(classes)
}

/// A listed file.
fn read_listed<F: Folder>(
    alloc: Global,
    folder: &mut F,
    dir: &str,
    path: &Path,
) -> Result<File, Stop>
    ensures looked { Looked (F.files folder.old) (F.files folder.new) (F.read_faults folder.old)
        (F.read_faults folder.new) (F.write_faults folder.old) (F.write_faults folder.new) result }
    ensures gives { IfSome (F.files folder.old) (λ files. MatchResult result (ReadsFile files dir.now path.now) (RefusesRead files (below dir.now path.now) path.now)) }
{
    let whole = path_in(alloc, dir, path.as_str())?;
    let name = path.clone()?;
    let bytes = read_at(alloc, folder, whole, name)?;
    Ok(File {
        path: path.clone()?,
        bytes,
    })
}

/// The class files of a folder, those whose path ends in `.class`, by path. Their paths are relative
/// to the folder.
///
/// Refuses with `TooManyFiles` where the folder holds more than 1,000,000 files; with `FileTooLong`
/// at the first of its class files that has more than 16,777,216 bytes; with `ListFault`,
/// `ReadFault` or `Memory`.
pub fn class_files<F: Folder>(alloc: Global, folder: &mut F, dir: &str) -> Result<Vec<File>, Stop>
    ensures looked { Looked (F.files folder.old) (F.files folder.new) (F.read_faults folder.old)
        (F.read_faults folder.new) (F.write_faults folder.old) (F.write_faults folder.new) result }
    ensures few { IfOk result (λ files. vec_len files ≤ 1000000) }
    ensures gives { IfSome (F.files folder.old) (λ files. MatchResult result (λ list. ReadsClassFiles files dir.now list.items) (RefusesClassFiles files dir.now)) }
{
    let paths = list_folder(alloc, folder, dir)?;
    let classes = class_paths(alloc, paths)?;
    let mut files = Vec::new(alloc);
    for path in &classes {
        let file = read_listed(alloc, folder, dir, path)?;
        files.push(file)?;
    }
    Ok(files)
}
