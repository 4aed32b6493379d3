//! Bytes that come in and bytes that go out, as a program sees them.

ghost use Rattle.std.specs.Prelude.{List, ℕ, ◌<◌, length, Option};
ghost use Rattle.std.specs.Io.{ReadsAtMost};
ghost use Rattle.std.specs.Io.KnownBytes.{ReadConsumes};
ghost use Rattle.outside_io.specs.Causes.{HasCause};
ghost use Rattle.outside_io.specs.Streams.{IsZeroAtEnd, Takes};

use crate::stop::IoStop;

/// Bytes that come in.
///
/// Contracts see what is left, where it is told, and how often a read has failed. The count does
/// not fall, and one that stands at 2^64 - 1, its last value, stays there and counts as risen.
pub trait ByteSource {
    /// What is left, where it is told. What is told before a call is told after it.
    ghost left: { Self → Option (List ℕ) };

    /// How often a read has failed.
    ghost faults: { Self → ℕ };

    /// Takes bytes from the front of what is left, puts them at the front of the buffer, and
    /// answers how many. 0 is the end of input.
    ///
    /// Refuses with `Failed` alone, and then nothing was taken.
    fn read(&mut self, buf: &mut [u8]) -> Result<usize, IoStop>
        requires { 0 < length buf.old }
        ensures bound { ReadsAtMost result buf.new }
        ensures bytes { ReadConsumes (left self.old) (left self.new) result buf.new }
        ensures end { IsZeroAtEnd (left self.old) result }
        ensures cause { HasCause (faults self.old) (faults self.new) result };
}

/// Bytes that go out.
///
/// Contracts see what the sink holds, where it is told, and how often a write has failed, a count
/// like that of a source.
pub trait ByteSink {
    /// What it holds, where it is told. What is told before a call is told after it.
    ghost held: { Self → Option (List ℕ) };

    /// How often a write has failed.
    ghost faults: { Self → ℕ };

    /// Puts the bytes behind what the sink holds.
    ///
    /// Refuses with `Failed` alone, and then a front of the bytes, perhaps none, was put there.
    fn write(&mut self, bytes: &[u8]) -> Result<(), IoStop>
        ensures bytes { Takes (held self.old) (held self.new) bytes.now result }
        ensures cause { HasCause (faults self.old) (faults self.new) result };
}
