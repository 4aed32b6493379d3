//! Looking at a folder: its paths, one file, whether it is empty.

ghost use Rattle.std.specs.Prelude.{◌≡◌, ◌≤◌, length, IfOk, IfSome, MatchResult};
ghost use Rattle.command_parts.specs.Folders.{below, HasFew, IsEmpty, ReadsBytes, RefusesFull, RefusesList, RefusesRead};
ghost use Rattle.command_parts.specs.Looks.{Looked};

use crate::stop::Stop;
use lists::{Bytes, Path, Seq};
use outside_io::{Folder, IoStop};
use std::alloc::{AllocError, Global};

/// The path of a file in a folder.
pub(crate) fn path_in(alloc: Global, dir: &str, path: &str) -> Result<Path, AllocError>
    ensures { IfOk result (λ whole. whole ≡ below dir.now path.now) }
{
    let mut whole = String::from_str(alloc, dir)?;
    whole.push('/')?;
    whole.push_str(path)?;
    Ok(Path::from_string(whole))
}

/// The paths of all files in a folder, ascending.
pub(crate) fn list_folder<F: Folder>(
    alloc: Global,
    folder: &mut F,
    dir: &str,
) -> Result<Seq<Path>, Stop>
    ensures looked { Looked (F.files folder.old) (F.files folder.new) (F.read_faults folder.old)
        (F.read_faults folder.new) (F.write_faults folder.old) (F.write_faults folder.new) result }
    ensures few { IfOk result (λ paths. length paths ≤ 1000000) }
    ensures gives { IfSome (F.files folder.old) (λ files. MatchResult result (HasFew files dir.now) (RefusesList files dir.now)) }
{
    let name = Path::from_str(alloc, dir)?;
    match folder.list(alloc, dir) {
        Ok(paths) => Ok(paths),
        Err(IoStop::Failed) => Err(Stop::ListFault(name)),
        Err(IoStop::Memory) => Err(Stop::Memory),
        Err(IoStop::TooMany { .. }) => Err(Stop::TooManyFiles(name)),
        Err(IoStop::Absent | IoStop::TooLong { .. }) => unreachable!(),
    }
}

/// The bytes of the file at a whole path. Where it is absent, the refusal has the name.
pub(crate) fn read_at<F: Folder>(
    alloc: Global,
    folder: &mut F,
    whole: Path,
    name: Path,
) -> Result<Bytes, Stop>
    ensures looked { Looked (F.files folder.old) (F.files folder.new) (F.read_faults folder.old)
        (F.read_faults folder.new) (F.write_faults folder.old) (F.write_faults folder.new) result }
    ensures gives { IfSome (F.files folder.old) (λ files. MatchResult result (ReadsBytes files whole) (RefusesRead files whole name)) }
{
    match folder.read(alloc, whole.as_str()) {
        Ok(bytes) => Ok(bytes),
        Err(IoStop::Failed) => Err(Stop::ReadFault(whole)),
        Err(IoStop::Memory) => Err(Stop::Memory),
        Err(IoStop::Absent) => Err(Stop::NoFile(name)),
        Err(IoStop::TooLong { .. }) => Err(Stop::FileTooLong(whole)),
        Err(IoStop::TooMany { .. }) => unreachable!(),
    }
}

/// The bytes of a file that a word names.
///
/// Refuses with `NoFile` where there is none, with `FileTooLong` where it has more than 16,777,216
/// bytes, with `ReadFault`, or with `Memory`.
pub fn read_named<F: Folder>(alloc: Global, folder: &mut F, path: &str) -> Result<Bytes, Stop>
    ensures looked { Looked (F.files folder.old) (F.files folder.new) (F.read_faults folder.old)
        (F.read_faults folder.new) (F.write_faults folder.old) (F.write_faults folder.new) result }
    ensures gives { IfSome (F.files folder.old) (λ files. MatchResult result (ReadsBytes files path.now) (RefusesRead files path.now path.now)) }
{
    let name = Path::from_str(alloc, path)?;
    let whole = Path::from_str(alloc, path)?;
    read_at(alloc, folder, whole, name)
}

/// Sees that a folder holds no file.
///
/// Refuses with `NotEmpty` where it holds one, with `ListFault`, or with `Memory`.
pub fn see_empty<F: Folder>(alloc: Global, folder: &mut F, dir: &str) -> Result<(), Stop>
    ensures looked { Looked (F.files folder.old) (F.files folder.new) (F.read_faults folder.old)
        (F.read_faults folder.new) (F.write_faults folder.old) (F.write_faults folder.new) result }
    ensures gives { IfSome (F.files folder.old) (λ files. MatchResult result (λ _. IsEmpty files dir.now) (RefusesFull files dir.now)) }
{
    let name = Path::from_str(alloc, dir)?;
    match list_folder(alloc, folder, dir) {
        Ok(paths) => {
            if paths.is_empty() {
                Ok(())
            } else {
                Err(Stop::NotEmpty(name))
            }
        }
        Err(Stop::TooManyFiles(_)) => Err(Stop::NotEmpty(name)),
        Err(stop) => Err(stop),
    }
}
