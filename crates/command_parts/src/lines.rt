//! What a command leaves on standard error, with its status, and on standard output.

ghost use Rattle.std.specs.Prelude.{◌≡◌, ◌++◌, ◌∷◌, []};
ghost use Rattle.modified_utf8.specs.Text.{text_bytes, unit_bytes};
ghost use Rattle.command_parts.specs.Stops as told;
ghost use Rattle.command_parts.specs.Told.{Puts, Says, Told};

use crate::stop::Stop;
use lists::{Name, Path};
use outside_io::ByteSink;

const USAGE: &str =
    "usage: phosphor instrument IN OUT CONFIG | run DIR MAIN STEPS | run-tagged DIR MAIN CONFIG STEPS | check DIR | sample N OUT";

/// The status of a stop.
fn status_of(stop: &Stop) -> u8
    ensures { result ≡ told.status_of stop.now }
{
    match stop {
        Stop::Usage => 1,
        Stop::NotLoaded(_)
        | Stop::ConfigNotBuilt
        | Stop::NotBuilt(_)
        | Stop::NoFile(_)
        | Stop::NoMain(_)
        | Stop::NotEmpty(_) => 2,
        Stop::ListFault(_) | Stop::ReadFault(_) | Stop::InputFault => 3,
        Stop::WriteFault(_) | Stop::OutputFault => 4,
        Stop::Memory => 5,
        Stop::TooManyFiles(_) | Stop::FileTooLong(_) => 10,
    }
}

/// Writes one piece of a line.
fn say<E: ByteSink>(err: &mut E, text: &[u8]) -> bool
    ensures { Says (E.held err.old) (E.held err.new) (E.faults err.old) (E.faults err.new) text.now result }
{
    err.write(text).is_ok()
}

/// Writes the bytes of one unit, as they stand in a class file (JVMS 4.4.7).
fn say_unit<E: ByteSink>(err: &mut E, unit: u16) -> bool
    ensures { Says (E.held err.old) (E.held err.new) (E.faults err.old) (E.faults err.new) (unit_bytes unit) result }
{
    if 0 < unit && unit < 128 {
        say(err, &[unit as u8])
    } else if unit < 2048 {
        say(err, &[192 + (unit / 64) as u8, 128 + (unit % 64) as u8])
    } else {
        say(
            err,
            &[
                224 + (unit / 4096) as u8,
                128 + (unit / 64 % 64) as u8,
                128 + (unit % 64) as u8,
            ],
        )
    }
}

/// Writes a name unit by unit, until one fails.
fn say_name<E: ByteSink>(err: &mut E, name: &Name) -> bool
    ensures { Says (E.held err.old) (E.held err.new) (E.faults err.old) (E.faults err.new) (text_bytes name.now) result }
{
    for unit in name.as_units() {
        if !say_unit(err, *unit) {
            return false;
        }
    }
    true
}

/// Writes a line that names nothing. Each line is written piece by piece, until a piece fails.
fn say_text<E: ByteSink>(err: &mut E, text: &str) -> bool
    ensures { Says (E.held err.old) (E.held err.new) (E.faults err.old) (E.faults err.new) (text.now ++ 10 ∷ []) result }
{
    say(err, text.as_bytes()) && say(err, b"\n")
}

/// Writes a line that names a file or a folder.
fn say_path<E: ByteSink>(err: &mut E, front: &str, path: &Path) -> bool
    ensures { Says (E.held err.old) (E.held err.new) (E.faults err.old) (E.faults err.new) (front.now ++ path.now ++ 10 ∷ []) result }
{
    say(err, front.as_bytes()) && say(err, path.as_str().as_bytes()) && say(err, b"\n")
}

/// Writes a line that names a class.
fn say_class<E: ByteSink>(err: &mut E, front: &str, class: &Name) -> bool
    ensures { Says (E.held err.old) (E.held err.new) (E.faults err.old) (E.faults err.new) (front.now ++ text_bytes class.now ++ 10 ∷ []) result }
{
    say(err, front.as_bytes()) && say_name(err, class) && say(err, b"\n")
}

/// Writes the line of a stop. It takes no memory, so that it can be told when none is left.
fn say_stop<E: ByteSink>(err: &mut E, stop: &Stop) -> bool
    ensures { Says (E.held err.old) (E.held err.new) (E.faults err.old) (E.faults err.new) (told.line_of stop.now) result }
{
    match stop {
        Stop::Usage => say_text(err, USAGE),
        Stop::ListFault(dir) => say_path(err, "read fault: list ", dir),
        Stop::ReadFault(path) => say_path(err, "read fault: ", path),
        Stop::InputFault => say_text(err, "read fault: input"),
        Stop::WriteFault(path) => say_path(err, "write fault: ", path),
        Stop::OutputFault => say_text(err, "write fault: out"),
        Stop::TooManyFiles(dir) => say_path(err, "too many files: ", dir),
        Stop::FileTooLong(path) => say_path(err, "file too long: ", path),
        Stop::NotLoaded(line) => say(err, line.as_slice()),
        Stop::ConfigNotBuilt => say_text(err, "refused: config: not built"),
        Stop::NotBuilt(class) => say_class(err, "refused: not built: ", class),
        Stop::NoFile(path) => say_path(err, "refused: no file: ", path),
        Stop::NoMain(main) => say_class(err, "refused: no main: ", main),
        Stop::NotEmpty(dir) => say_path(err, "refused: not empty: ", dir),
        Stop::Memory => say_text(err, "out of memory"),
    }
}

/// Writes the line of a stop and answers its status, or 4 where the line could not be written whole.
pub fn tell<E: ByteSink>(err: &mut E, stop: &Stop) -> u8
    ensures { Told stop.now (E.held err.old) (E.held err.new) (E.faults err.old) (E.faults err.new) result }
{
    if say_stop(err, stop) {
        status_of(stop)
    } else {
        4
    }
}

/// Writes a text to standard output. Takes no memory.
///
/// Refuses with `OutputFault` alone, and then standard output has a front of the text, perhaps none.
pub fn put<O: ByteSink>(out: &mut O, text: &[u8]) -> Result<(), Stop>
    ensures { Puts (O.held out.old) (O.held out.new) (O.faults out.old) (O.faults out.new) text.now result }
{
    match out.write(text) {
        Ok(()) => Ok(()),
        Err(_) => Err(Stop::OutputFault),
    }
}
