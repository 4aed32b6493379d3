//! The command `run`, in the order of its work.

ghost use Rattle.std.specs.Prelude.{◌≡◌, ◌≤◌, ◌<◌, ℕ, List, length, IfErr, IfOk, IfSome, MatchResult};
ghost use Rattle.run_state.specs.Observation.{HasMain};
ghost use Rattle.program_links.specs.Mains.{IsMainOf};
ghost use Rattle.program_links.specs.WorldOf.{name_at};
ghost use Rattle.outside_io.specs.Files.{Stay};
ghost use Rattle.plain_machine.specs.Standing.{IsOfSame, StandsAt, main_of, set_of, state_at};
ghost use Rattle.run_console.specs.Runs.{IfTold};
ghost use Rattle.command_parts.specs.declared.stop.Stop.{Stop as StopValue};
ghost use Rattle.phosphor_top.specs.Commands.{class_named, slash_for_dot};
ghost use Rattle.phosphor_top.specs.Endings as endings;
ghost use Rattle.phosphor_top.specs.Run.{Causes, Ends, HasRunTo, IsDoneOf, IsFresh, IsRunDone, IsRunStop, Puts, RanSet, Refuses, RefusesMain, Went};
ghost use Rattle.phosphor_top.specs.Verdict.{IsVerdict};
ghost use Rattle.phosphor_top.specs.Words.{program_of};

use crate::done::Done;
use crate::parts::load_folder;
use crate::words::Run;
use class_set::ClassSet;
use command_parts::{Stop, run_lines, run_status};
use lists::Name;
use outside_io::{ByteSink, ByteSource, Folder};
use plain_machine::PlainRun;
use profile_check::Names;
use program_links::find_main;
use run_console::{RunStop, run_plain};
use set_lookups::ClassId;
use std::alloc::{AllocError, Global};
use verifier::VerifiedSet;

/// A unit of the name of a class that a word names: a dot is read as a slash.
fn slashed(unit: u16) -> u16
    ensures { result ≡ slash_for_dot unit }
{
    if unit == 46 { 47 } else { unit }
}

/// The name of the class that a word names.
fn class_word(alloc: Global, word: &str) -> Result<Name, AllocError>
    ensures { IfOk result (λ name. name ≡ class_named word.now) }
{
    let dotted = Name::from_str(alloc, word)?;
    let mut units = Vec::with_capacity(alloc, dotted.len())?;
    for unit in dotted.as_units() {
        units.push(slashed(*unit))?;
    }
    Name::from_vec(alloc, units)
}

/// The class that a word names, where it has a `main` that can be run.
fn main_class(alloc: Global, set: &VerifiedSet, word: &str) -> Result<ClassId, Stop>
    ensures { MatchResult result (IsMainOf set.now (class_named word.now)) (RefusesMain set.now (class_named word.now)) }
{
    let name = class_word(alloc, word)?;
    match find_main(set.set(), &name) {
        Some(class) => Ok(class),
        None => Err(Stop::NoMain(name)),
    }
}

/// Makes the steps of a run over the streams.
fn drive<I: ByteSource, O: ByteSink>(
    run: &mut PlainRun<'_>,
    input: &mut I,
    out: &mut O,
    steps: u64,
) -> Result<(), Stop>
    requires { IsFresh run.old }
    ensures ran { IfOk result (λ _. IfTold (I.left input.old) (I.left input.new) (HasRunTo run.old run.new steps)) }
    ensures same { IsOfSame run.old run.new }
    ensures stops { IfErr result IsRunStop }
    ensures put { Puts (I.left input.old) (O.held out.old) (O.held out.new) (set_of run.old) (main_of run.old) steps result }
    ensures cause { IfErr result (λ stop. Causes stop 0 0 (I.faults input.old) (I.faults input.new) (O.faults out.old) (O.faults out.new)) }
    ensures reads { I.faults input.old ≤ I.faults input.new }
{
    match run_plain(run, input, out, steps) {
        Ok(()) => Ok(()),
        Err(RunStop::ReadFault) => Err(Stop::InputFault),
        Err(RunStop::WriteFault) => Err(Stop::OutputFault),
        Err(RunStop::Memory) => Err(Stop::Memory),
    }
}

/// The lines of a run and the status of its ending.
fn report(alloc: Global, set: &ClassSet, run: &PlainRun<'_>) -> Result<Done, Stop>
    ensures end { IfOk result IsRunDone }
    ensures memory { IfErr result (λ stop. stop ≡ Stop.Memory) }
    ensures done { IfOk result (λ done. (input : List ℕ) (k : ℕ) → set.now ≡ set_of run.now → StandsAt run.now input k → IsDoneOf set.now (state_at run.now input k) done) }
{
    let ending = run.ending();
    let lines = run_lines(alloc, set, run.reports(), ending)?;
    Ok(Done::Ran {
        status: run_status(ending),
        lines,
    })
}

/// Makes the steps of a run over the streams, and tells how it stands after them.
fn finish<I: ByteSource, O: ByteSink>(
    alloc: Global,
    set: &ClassSet,
    run: &mut PlainRun<'_>,
    input: &mut I,
    out: &mut O,
    steps: u64,
) -> Result<Done, Stop>
    requires of { set.now ≡ set_of run.old }
    requires fresh { IsFresh run.old }
    ensures end { IfOk result IsRunDone }
    ensures went { Went set.now (main_of run.old) steps (record { input = I.left input.old; output = O.held out.old })
        (record { input = I.left input.new; output = O.held out.new }) result }
    ensures cause { IfErr result (λ stop. Causes stop 0 0 (I.faults input.old) (I.faults input.new) (O.faults out.old) (O.faults out.new)) }
{
    drive(run, input, out, steps)?;
    report(alloc, set, run)
}

/// Runs the `main` of a class.
fn run_main<I: ByteSource, O: ByteSink>(
    alloc: Global,
    set: &VerifiedSet,
    main: ClassId,
    steps: u64,
    input: &mut I,
    out: &mut O,
) -> Result<Done, Stop>
    requires there { main.0 < length set.now }
    requires has { HasMain set.now (name_at set.now main.0) }
    ensures end { IfOk result IsRunDone }
    ensures went { Went set.now (name_at set.now main.0) steps (record { input = I.left input.old; output = O.held out.old })
        (record { input = I.left input.new; output = O.held out.new }) result }
    ensures cause { IfErr result (λ stop. Causes stop 0 0 (I.faults input.old) (I.faults input.new) (O.faults out.old) (O.faults out.new)) }
{
    let mut run = PlainRun::start(alloc, set, main)?;
    finish(alloc, set.set(), &mut run, input, out, steps)
}

/// Runs the class of a set that the words name.
fn run_set<I: ByteSource, O: ByteSink>(
    alloc: Global,
    set: &VerifiedSet,
    words: Run<'_>,
    input: &mut I,
    out: &mut O,
) -> Result<Done, Stop>
    ensures end { IfOk result IsRunDone }
    ensures ran { RanSet set.now (program_of words.entry) (record { input = I.left input.old; output = O.held out.old })
        (record { input = I.left input.new; output = O.held out.new }) result }
    ensures barred { (HasMain set.now (program_of words.entry).main → ⊥) → out.new ≡ out.old }
    ensures cause { IfErr result (λ stop. Causes stop 0 0 (I.faults input.old) (I.faults input.new) (O.faults out.old) (O.faults out.new)) }
{
    let main = main_class(alloc, set, words.main)?;
    run_main(alloc, set, main, words.steps, input, out)
}

/// Loads a folder and runs the class that the words name, over the streams.
pub(crate) fn run<F: Folder, I: ByteSource, O: ByteSink>(
    alloc: Global,
    folder: &mut F,
    input: &mut I,
    out: &mut O,
    words: Run<'_>,
) -> Result<Done, Stop>
    ensures ends { endings.IfTold (F.files folder.old) (F.files folder.new) (λ old new. Ends (program_of words.entry) old new
        (record { input = I.left input.old; output = O.held out.old }) (record { input = I.left input.new; output = O.held out.new }) result) }
    ensures kept { Stay (F.files folder.old) (F.files folder.new) }
    ensures end { IfOk result IsRunDone }
    ensures cause { IfErr result (λ stop. Causes stop (F.read_faults folder.old) (F.read_faults folder.new)
        (I.faults input.old) (I.faults input.new) (O.faults out.old) (O.faults out.new)) }
    ensures barred { IfSome (F.files folder.old) (λ files. (refusal : StopValue) → IsVerdict refusal → Refuses (program_of words.entry) files refusal → out.new ≡ out.old) }
{
    let set = load_folder(alloc, folder, words.dir, Names::Written)?;
    run_set(alloc, &set, words, input, out)
}
