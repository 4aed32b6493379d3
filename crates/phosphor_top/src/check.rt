//! The command `check`, in the order of its work.

ghost use Rattle.std.specs.Prelude.{◌≡◌, ◌≢◌, IfErr, IfOk, IfSome, MatchResult, string_bytes};
ghost use Rattle.command_parts.specs.declared.stop.Stop.{Stop as StopValue};
ghost use Rattle.outside_io.specs.Files.{Stay};
ghost use Rattle.command_parts.specs.Lines as lines;
ghost use Rattle.command_parts.specs.Looks.{Looked};
ghost use Rattle.phosphor_top.specs.Check.{Causes, Ends, Passes, Refuses};
ghost use Rattle.phosphor_top.specs.Endings.{IfTold};
ghost use Rattle.phosphor_top.specs.Verdict.{IsVerdict};

use crate::parts::load;
use command_parts::{Stop, class_files, put};
use outside_io::{ByteSink, Folder};
use profile_check::Names;
use std::alloc::{AllocError, Global};

/// The number of class files of a folder that load as written classes.
fn count_loaded<F: Folder>(alloc: Global, folder: &mut F, dir: &str) -> Result<usize, Stop>
    ensures looked { Looked (F.files folder.old) (F.files folder.new) (F.read_faults folder.old)
        (F.read_faults folder.new) (F.write_faults folder.old) (F.write_faults folder.new) result }
    ensures gives { IfSome (F.files folder.old) (λ files. MatchResult result (Passes dir.now files) (Refuses dir.now files)) }
{
    let files = class_files(alloc, folder, dir)?;
    load(alloc, files.as_slice(), Names::Written)?;
    Ok(files.len())
}

/// The line of so many class files that load.
fn ok_line(alloc: Global, count: usize) -> Result<String, AllocError>
    ensures { IfOk result (λ line. string_bytes line ≡ lines.ok_line count) }
{
    format!(in alloc; "ok {count} classes\n")
}

/// Loads a folder and writes the number of its class files to standard output. The line is made
/// before anything of it is written.
pub(crate) fn check<F: Folder, O: ByteSink>(
    alloc: Global,
    folder: &mut F,
    out: &mut O,
    dir: &str,
) -> Result<(), Stop>
    ensures ends { IfTold (F.files folder.old) (F.files folder.new) (λ old new. Ends dir.now old new (O.held out.old) (O.held out.new) result) }
    ensures kept { Stay (F.files folder.old) (F.files folder.new) }
    ensures cause { IfErr result (λ stop. Causes stop (F.read_faults folder.old) (F.read_faults folder.new)
        (O.faults out.old) (O.faults out.new)) }
    ensures silent { IfErr result (λ stop. stop ≢ Stop.OutputFault → out.new ≡ out.old) }
    ensures barred { IfSome (F.files folder.old) (λ files. (refusal : StopValue) → IsVerdict refusal → Refuses dir.now files refusal → out.new ≡ out.old) }
{
    let count = count_loaded(alloc, folder, dir)?;
    let line = ok_line(alloc, count)?;
    put(out, line.as_bytes())
}
