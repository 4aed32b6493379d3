//! What commands share: the load of a folder, and the lists.

ghost use Rattle.std.specs.Prelude.{◌≤◌, length, IfOk, IfSome, MatchResult};
ghost use Rattle.first_form.specs.FirstSet.{IsFirstConfig};
ghost use Rattle.set_loader.specs.Loads.{Loads};
ghost use Rattle.source_sink.specs.Reads.{Reads};
ghost use Rattle.command_parts.specs.Looks.{Looked};
ghost use Rattle.phosphor_top.specs.Configuring.{Configures, RefusesBytes, RefusesConfig};
ghost use Rattle.phosphor_top.specs.Loading.{LoadsFrom, RefusesFiles, RefusesLoad};

use command_parts::{Stop, class_files, load_line, read_named};
use outside_io::Folder;
use profile_check::Names;
use run_state::Config;
use set_loader::{File, LoadStop, load_set};
use source_sink::{ConfigFault, read_config};
use std::alloc::Global;
use verifier::VerifiedSet;

/// The set of files, or the refusal that names one of them.
pub(crate) fn load(alloc: Global, files: &[File], names: Names) -> Result<VerifiedSet, Stop>
    requires { length files.now ≤ 1000000 }
    ensures { MatchResult result (λ set. Loads names files.now set) (RefusesFiles names files.now) }
{
    match load_set(alloc, files, names) {
        Ok(set) => Ok(set),
        Err(LoadStop::Memory) => Err(Stop::Memory),
        Err(stop) => Err(Stop::NotLoaded(load_line(alloc, &stop, files)?)),
    }
}

/// The lists that bytes spell.
fn configure(alloc: Global, bytes: &[u8]) -> Result<Config, Stop>
    ensures gives { MatchResult result (Reads bytes.now) (RefusesBytes bytes.now) }
    ensures first { IfOk result IsFirstConfig }
{
    match read_config(alloc, bytes) {
        Ok(config) => Ok(config),
        Err(ConfigFault::NotBuilt) => Err(Stop::ConfigNotBuilt),
        Err(ConfigFault::Memory) => Err(Stop::Memory),
    }
}

/// The loaded set of a folder.
pub(crate) fn load_folder<F: Folder>(
    alloc: Global,
    folder: &mut F,
    dir: &str,
    names: Names,
) -> Result<VerifiedSet, Stop>
    ensures looked { Looked (F.files folder.old) (F.files folder.new) (F.read_faults folder.old)
        (F.read_faults folder.new) (F.write_faults folder.old) (F.write_faults folder.new) result }
    ensures gives { IfSome (F.files folder.old) (λ files. MatchResult result (LoadsFrom names files dir.now) (RefusesLoad names files dir.now)) }
{
    let files = class_files(alloc, folder, dir)?;
    load(alloc, files.as_slice(), names)
}

/// The lists of a file.
pub(crate) fn read_lists<F: Folder>(
    alloc: Global,
    folder: &mut F,
    path: &str,
) -> Result<Config, Stop>
    ensures looked { Looked (F.files folder.old) (F.files folder.new) (F.read_faults folder.old)
        (F.read_faults folder.new) (F.write_faults folder.old) (F.write_faults folder.new) result }
    ensures gives { IfSome (F.files folder.old) (λ files. MatchResult result (Configures files path.now) (RefusesConfig files path.now)) }
    ensures first { IfOk result IsFirstConfig }
{
    let bytes = read_named(alloc, folder, path)?;
    configure(alloc, bytes.as_slice())
}
