//! A folder of files, as a program sees it.

ghost use Rattle.std.specs.Prelude.{ℕ, Option};
ghost use Rattle.outside_io.specs.Causes.{Counts, Grows, HasCause};
ghost use Rattle.outside_io.specs.Files.{Files, Lists, Reads, Stay, Writes};

use crate::stop::IoStop;
use lists::{Bytes, Path, Seq};
use std::alloc::Global;

/// The most files that a list tells.
pub const MOST_FILES: usize = 1_000_000;

/// The most bytes that are read of one file.
pub const MOST_BYTES: usize = 16_777_216;

/// A folder of files. A path is a text with parts joined by `/`.
///
/// Contracts see three things of a folder: its files, where it tells them; how often `list` and
/// `read` have failed; and how often `write` has. No call lets either count fall, and a count that
/// stands at 2^64 - 1, its last value, stays there and counts as risen.
pub trait Folder {
    /// The files, where they are told. What is told before a call is told after it.
    ghost files: { Self → Option Files };

    /// How often `list` and `read` have failed.
    ghost read_faults: { Self → ℕ };

    /// How often `write` has failed.
    ghost write_faults: { Self → ℕ };

    /// The paths of all files below a folder, relative to it, each once and ascending by bytes. A
    /// folder that is not there holds no file.
    ///
    /// Refuses with `Failed`, `Memory`, or `TooMany` where there are more than 1,000,000 files.
    fn list(&mut self, alloc: Global, dir: &str) -> Result<Seq<Path>, IoStop>
        ensures answer { Lists (files self.old) dir.now result }
        ensures files { Stay (files self.old) (files self.new) }
        ensures cause { Counts (read_faults self.old) (read_faults self.new) result }
        ensures writes { Grows (write_faults self.old) (write_faults self.new) };

    /// The bytes of a file.
    ///
    /// Refuses with `Failed`, `Memory`, `Absent` where there is no file at the path, or `TooLong`
    /// where the file has more than 16,777,216 bytes.
    fn read(&mut self, alloc: Global, path: &str) -> Result<Bytes, IoStop>
        ensures answer { Reads (files self.old) path.now result }
        ensures files { Stay (files self.old) (files self.new) }
        ensures cause { Counts (read_faults self.old) (read_faults self.new) result }
        ensures writes { Grows (write_faults self.old) (write_faults self.new) };

    /// Makes a file of these bytes, in place of one that is there.
    ///
    /// Refuses with `Failed` alone. The files are then as before, or as before with a front of the
    /// bytes at the path.
    fn write(&mut self, path: &str, bytes: &[u8]) -> Result<(), IoStop>
        ensures files { Writes (files self.old) (files self.new) path.now bytes.now result }
        ensures cause { HasCause (write_faults self.old) (write_faults self.new) result }
        ensures reads { Grows (read_faults self.old) (read_faults self.new) };
}
