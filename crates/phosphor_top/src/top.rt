//! The top call.

ghost use Rattle.std.specs.Prelude.{◌≡◌, ◌≢◌, ◌≤◌, [], ◌∷◌, ◌⊎◌, Contains, IfErr, IfOk, IfSome, Err, map, string_bytes};
ghost use Rattle.outside_io.specs.Causes.{Rose};
ghost use Rattle.outside_io.specs.Files.{Stay};
ghost use Rattle.command_parts.specs.Lines.{usage_line, memory_line, input_fault_line, output_fault_line};
ghost use Rattle.command_parts.specs.Told.{Took, TookReadFault, TookWriteFault};
ghost use Rattle.phosphor_top.specs.Answers.{HasConsole, HasFront, IsBarred, IsChecked, IsComplete, IsDue, IsRefusal, IsRefused, IsRunWhole, IsStopped, IsWhole, Tells};
ghost use Rattle.phosphor_top.specs.Commands.{IsCheck, IsCommand, IsInstrument, IsNoCommand, IsRun};
ghost use Rattle.phosphor_top.specs.Endings.{Causes, IfTold, IsRunEnd, Obeys, OnlyRun, silent_outcome};
ghost use Rattle.phosphor_top.specs.Run.{IsEnd};

use crate::check::check;
use crate::done::Done;
use crate::instrument::instrument;
use crate::run::run;
use crate::words::{Command, command_of};
use command_parts::{Stop, tell};
use outside_io::{ByteSink, ByteSource, Folder};
use std::alloc::Global;

/// Does what the words say, or finds that they are no command.
fn obey<F: Folder, I: ByteSource, O: ByteSink>(
    alloc: Global,
    words: &[String],
    folder: &mut F,
    input: &mut I,
    out: &mut O,
) -> Result<Done, Stop>
    ensures obeys { IfTold (F.files folder.old) (F.files folder.new) (λ old new. Obeys (map string_bytes words.now) old new
        (record { input = I.left input.old; output = O.held out.old }) (record { input = I.left input.new; output = O.held out.new }) result) }
    ensures spelled { IfOk result (λ _. IsCommand (map string_bytes words.now)) }
    ensures no_command { IsNoCommand (map string_bytes words.now) → result ≡ Err Stop.Usage }
    ensures end { IfOk result IsRunEnd }
    ensures only { IfOk result (OnlyRun (map string_bytes words.now)) }
    ensures cause { IfErr result (Causes (map string_bytes words.now)
        (record { reads = F.read_faults folder.old; writes = F.write_faults folder.old; input = I.faults input.old; out = O.faults out.old })
        (record { reads = F.read_faults folder.new; writes = F.write_faults folder.new; input = I.faults input.new; out = O.faults out.new })) }
    ensures looked { IsCheck (map string_bytes words.now) ⊎ IsRun (map string_bytes words.now) → Stay (F.files folder.old) (F.files folder.new) }
    ensures no_input { (IsRun (map string_bytes words.now) → ⊥) → input.new ≡ input.old }
    ensures no_output { (IsCheck (map string_bytes words.now) ⊎ IsRun (map string_bytes words.now) → ⊥) → out.new ≡ out.old }
    ensures silent { IfErr result (λ stop. stop ≢ Stop.OutputFault → (IsRun (map string_bytes words.now) → ⊥) → out.new ≡ out.old) }
    ensures barred { IfSome (F.files folder.old) (λ files. IsBarred (map string_bytes words.now) files → out.new ≡ out.old) }
{
    match command_of(words) {
        Some(Command::Instrument(paths)) => silent(instrument(alloc, folder, paths)),
        Some(Command::Check(dir)) => silent(check(alloc, folder, out, dir)),
        Some(Command::Run(program)) => run(alloc, folder, input, out, program),
        None => Err(Stop::Usage),
    }
}

/// The outcome of a command that has nothing for standard error where it is done.
fn silent(outcome: Result<(), Stop>) -> Result<Done, Stop>
    ensures { result ≡ silent_outcome outcome }
{
    match outcome {
        Ok(()) => Ok(Done::Silent),
        Err(stop) => Err(stop),
    }
}

/// Writes the lines of a run, and answers the status of its ending, or 4 where they could not be written whole.
fn answer_run<E: ByteSink>(err: &mut E, status: u8, lines: &[u8]) -> u8
    ensures counted { E.faults err.old ≤ E.faults err.new }
    ensures told { ((result ≡ status) × Took (E.held err.old) (E.held err.new) lines.now) ⊎ ((result ≡ 4) × Rose (E.faults err.old) (E.faults err.new)) }
{
    match err.write(lines) {
        Ok(()) => status,
        Err(_) => 4,
    }
}

/// The status of an outcome. The lines of a run, or the line of a command that was stopped, are written to standard error.
fn answer<E: ByteSink>(err: &mut E, outcome: Result<Done, Stop>) -> u8
    ensures { Tells outcome (E.held err.old) (E.held err.new) (E.faults err.old) (E.faults err.new) result }
{
    match outcome {
        Ok(Done::Silent) => 0,
        Ok(Done::Ran { status, lines }) => answer_run(err, status, lines.as_slice()),
        Err(stop) => tell(err, &stop),
    }
}

/// Phosphor, over devices that are handed in: does the command that the words spell, and answers its
/// status. This project's own rules:
///
/// | status | comes |
/// |---|---|
/// | 0 | the command is done; a run has returned, or exited with 0 |
/// | 1 | the words are no command |
/// | 2 | the folder does not load; or the lists are absent or refused, the output folder is not empty, or a class is not built; or no class of the name has a `main` |
/// | 3 | a folder could not be listed, or a file or `input` not read |
/// | 4 | a file could not be written, `out` did not take what it gets, or `err` not its line |
/// | 5 | memory ran out |
/// | 7 | a run goes on after its steps |
/// | 8 | an exception left `main` or the initializer of a class |
/// | 9 | a run exited with another number than 0 |
/// | 10 | a folder holds more than 1,000,000 files, or a file more than 16,777,216 bytes |
///
/// `err` gets the lines of a run that is done; at each other status but 0, one line that says why. Statuses 1, 2 and 10
/// come exactly where they are due, and those of a run by its ending; they yield to 3, 4 and 5.
pub fn phosphor<F: Folder, I: ByteSource, O: ByteSink, E: ByteSink>(
    alloc: Global,
    words: &[String],
    folder: &mut F,
    input: &mut I,
    out: &mut O,
    err: &mut E,
) -> u8
    ensures statuses { Contains (0 ∷ 1 ∷ 2 ∷ 3 ∷ 4 ∷ 5 ∷ 7 ∷ 8 ∷ 9 ∷ 10 ∷ []) result }

    // Status 0 of `instrument`: the folder has the instrumented set under the output folder, and no other difference. Of
    // `check`: `out` has the number of class files, and the folder is as before. Statuses 0, 7, 8 and 9 of `run`: the streams
    // got and gave what its steps did, and `err` has its reports and its ending.
    ensures spelled { IsEnd result → IsCommand (map string_bytes words.now) }
    ensures done { result ≡ 0 → (IsRun (map string_bytes words.now) → ⊥) → Took (E.held err.old) (E.held err.new) [] }
    ensures ended { IsEnd result → result ≢ 0 → IsRun (map string_bytes words.now) }
    ensures whole { result ≡ 0 → IfTold (F.files folder.old) (F.files folder.new) (IsWhole (map string_bytes words.now)) }
    ensures checked { result ≡ 0 → IfTold (F.files folder.old) (F.files folder.new) (IsChecked (map string_bytes words.now) (O.held out.old) (O.held out.new)) }
    ensures ran { IsEnd result → IfTold (F.files folder.old) (F.files folder.new) (IsRunWhole (map string_bytes words.now)
        (record { input = I.left input.old; output = O.held out.old }) (record { input = I.left input.new; output = O.held out.new })
        (E.held err.old) (E.held err.new) result) }

    // Status 1 comes exactly where the words are no command.
    ensures usage { result ≡ 1 → IsNoCommand (map string_bytes words.now) × Took (E.held err.old) (E.held err.new) usage_line }
    ensures no_command { IsNoCommand (map string_bytes words.now) → (result ≡ 1) ⊎ ((result ≡ 4) × Rose (E.faults err.old) (E.faults err.new)) }

    // Statuses 2 and 10 come exactly where the verdict says.
    ensures refused { IsRefusal result → IfSome (F.files folder.old) (λ files.
        IsRefused (map string_bytes words.now) files (E.held err.old) (E.held err.new) result) }
    ensures due { IfSome (F.files folder.old) (λ files. IsDue (map string_bytes words.now) files (E.held err.old) (E.held err.new) result) }
    ensures complete { IfSome (F.files folder.old) (λ files. IsComplete (map string_bytes words.now) files
        (record { reads = F.read_faults folder.old; writes = F.write_faults folder.old; input = I.faults input.old; out = O.faults out.old })
        (record { reads = F.read_faults folder.new; writes = F.write_faults folder.new; input = I.faults input.new; out = O.faults out.new })
        (E.faults err.old) (E.faults err.new) result) }

    // A fault is answered only where a count of faults rose in this call, and only of a device that the command works with.
    ensures read_fault { result ≡ 3 → (Rose (F.read_faults folder.old) (F.read_faults folder.new)
        × TookReadFault (E.held err.old) (E.held err.new))
        ⊎ (IsRun (map string_bytes words.now) × Rose (I.faults input.old) (I.faults input.new)
        × Took (E.held err.old) (E.held err.new) input_fault_line) }
    ensures write_fault { result ≡ 4 → Rose (E.faults err.old) (E.faults err.new)
        ⊎ (IsInstrument (map string_bytes words.now) × Rose (F.write_faults folder.old) (F.write_faults folder.new)
        × TookWriteFault (E.held err.old) (E.held err.new))
        ⊎ ((IsCheck (map string_bytes words.now) ⊎ IsRun (map string_bytes words.now)) × Rose (O.faults out.old) (O.faults out.new)
        × Took (E.held err.old) (E.held err.new) output_fault_line) }
    ensures memory { result ≡ 5 → Took (E.held err.old) (E.held err.new) memory_line }

    // Only a write of `instrument` changes the folder, and one that is stopped leaves whole files and at most one prefix.
    ensures kept { result ≢ 0 → result ≢ 4 → Stay (F.files folder.old) (F.files folder.new) }
    ensures looked { IsCheck (map string_bytes words.now) ⊎ IsRun (map string_bytes words.now) → Stay (F.files folder.old) (F.files folder.new) }
    ensures stopped { result ≡ 4 → IfTold (F.files folder.old) (F.files folder.new) (IsStopped (map string_bytes words.now)
        (E.held err.old) (E.held err.new) (E.faults err.old) (E.faults err.new)) }

    // `input` is read by `run` alone. `out` is written by `check` and `run` alone, where the verdict passes, and gets a front of
    // its line or of the console even where that fails.
    ensures input { (IsRun (map string_bytes words.now) → ⊥) → input.new ≡ input.old }
    ensures output { (IsCheck (map string_bytes words.now) ⊎ IsRun (map string_bytes words.now) → ⊥) → out.new ≡ out.old }
    ensures silent { result ≢ 0 → result ≢ 4 → (IsRun (map string_bytes words.now) → ⊥) → out.new ≡ out.old }
    ensures barred { IfSome (F.files folder.old) (λ files. IsBarred (map string_bytes words.now) files → out.new ≡ out.old) }
    ensures front { IfSome (F.files folder.old) (λ files. HasFront (map string_bytes words.now) files (O.held out.old) (O.held out.new)) }
    ensures console { IfSome (F.files folder.old) (λ files. HasConsole (map string_bytes words.now) files
        (record { input = I.left input.old; output = O.held out.old }) (record { input = I.left input.new; output = O.held out.new })) }
{
    let outcome = obey(alloc, words, folder, input, out);
    answer(err, outcome)
}
