//! The command `instrument`, in the order of its work.

ghost use Rattle.std.specs.Prelude.{IfErr, IfOk, IfSome, MatchResult};
ghost use Rattle.command_parts.specs.Looks.{Looked};
ghost use Rattle.command_parts.specs.Stops.{HasCause};
ghost use Rattle.first_form.specs.FirstSet.{IsFirstConfig};
ghost use Rattle.phosphor_top.specs.Endings.{IfTold};
ghost use Rattle.phosphor_top.specs.Instrument.{AreInputs, Ends, IsMade, IsMadeBelow, IsPrepared, IsReady, Refuses, RefusesSet};
ghost use Rattle.phosphor_top.specs.Words.{paths_of};

use crate::parts::{load_folder, read_lists};
use crate::words::Instrument;
use command_parts::{Stop, placed, see_empty, write_files};
use instrument_set::instrument as instrumented;
use outside_io::Folder;
use profile_check::Names;
use run_state::Config;
use set_loader::File;
use set_lookups::ClassId;
use size_limits::LimitStop;
use std::alloc::Global;
use verifier::VerifiedSet;

/// The files that are written of a set, or the refusal of it.
fn make(alloc: Global, set: &VerifiedSet, config: &Config) -> Result<Vec<File>, Stop>
    requires { IsFirstConfig config.now }
    ensures { MatchResult result (λ files. IsMade set.now config.now files.items) (RefusesSet set.now) }
{
    match instrumented(alloc, set, config) {
        Ok(files) => Ok(files),
        Err(LimitStop::NotBuilt { class }) => {
            let class = set.set().class(ClassId(class));
            Err(Stop::NotBuilt(class.name.clone()?))
        }
        Err(LimitStop::Memory) => Err(Stop::Memory),
        Err(LimitStop::Limit { .. }) => unreachable!(),
    }
}

/// What a set is instrumented by.
#[derive(Drop)]
struct Inputs {
    set: VerifiedSet,
    config: Config,
}

/// Loads a folder and reads the lists.
fn read_inputs<F: Folder>(
    alloc: Global,
    folder: &mut F,
    words: Instrument<'_>,
) -> Result<Inputs, Stop>
    ensures looked { Looked (F.files folder.old) (F.files folder.new) (F.read_faults folder.old)
        (F.read_faults folder.new) (F.write_faults folder.old) (F.write_faults folder.new) result }
    ensures gives { IfSome (F.files folder.old) (λ files. MatchResult result
        (λ inputs. AreInputs (paths_of words.entry) files inputs.set inputs.config) (Refuses (paths_of words.entry) files)) }
    ensures first { IfOk result (λ inputs. IsFirstConfig inputs.config) }
{
    let set = load_folder(alloc, folder, words.input, Names::Source)?;
    let config = read_lists(alloc, folder, words.config)?;
    Ok(Inputs { set, config })
}

/// Reads what is needed, and sees that the output folder is empty.
fn make_ready<F: Folder>(
    alloc: Global,
    folder: &mut F,
    words: Instrument<'_>,
) -> Result<Inputs, Stop>
    ensures looked { Looked (F.files folder.old) (F.files folder.new) (F.read_faults folder.old)
        (F.read_faults folder.new) (F.write_faults folder.old) (F.write_faults folder.new) result }
    ensures gives { IfSome (F.files folder.old) (λ files. MatchResult result
        (λ inputs. IsReady (paths_of words.entry) files inputs.set inputs.config) (Refuses (paths_of words.entry) files)) }
    ensures first { IfOk result (λ inputs. IsFirstConfig inputs.config) }
{
    let inputs = read_inputs(alloc, folder, words)?;
    see_empty(alloc, folder, words.output)?;
    Ok(inputs)
}

/// The files that are written of a set, each at its path below a folder, or the refusal of the set.
fn make_below(
    alloc: Global,
    dir: &str,
    set: &VerifiedSet,
    config: &Config,
) -> Result<Vec<File>, Stop>
    requires { IsFirstConfig config.now }
    ensures { MatchResult result (λ whole. IsMadeBelow dir.now set.now config.now whole.items) (RefusesSet set.now) }
{
    let files = make(alloc, set, config)?;
    Ok(placed(alloc, dir, files)?)
}

/// Makes the files that are to be written, by path, where all is ready.
fn prepare<F: Folder>(
    alloc: Global,
    folder: &mut F,
    words: Instrument<'_>,
) -> Result<Vec<File>, Stop>
    ensures looked { Looked (F.files folder.old) (F.files folder.new) (F.read_faults folder.old)
        (F.read_faults folder.new) (F.write_faults folder.old) (F.write_faults folder.new) result }
    ensures gives { IfSome (F.files folder.old) (λ files. MatchResult result
        (λ whole. IsPrepared (paths_of words.entry) files whole.items) (Refuses (paths_of words.entry) files)) }
{
    let inputs = make_ready(alloc, folder, words)?;
    make_below(alloc, words.output, &inputs.set, &inputs.config)
}

/// Writes the instrumented folder. Everything is made before the first write.
pub(crate) fn instrument<F: Folder>(
    alloc: Global,
    folder: &mut F,
    words: Instrument<'_>,
) -> Result<(), Stop>
    ensures ends { IfTold (F.files folder.old) (F.files folder.new) (λ old new. Ends (paths_of words.entry) old new result) }
    ensures cause { IfErr result (λ stop. HasCause stop (F.read_faults folder.old) (F.read_faults folder.new)
        (F.write_faults folder.old) (F.write_faults folder.new)) }
{
    let files = prepare(alloc, folder, words)?;
    write_files(folder, files)
}
