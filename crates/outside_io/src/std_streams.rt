//! A source and a sink over any reader and writer, as standard input and output.

ghost use Rattle.std.specs.Prelude.{None};

use crate::stop::IoStop;
use crate::streams::{ByteSink, ByteSource};
use std::io::{Read, Write};

/// A source over any reader. It tells nothing of what is left, and counts each error of the reader.
#[derive(Drop)]
pub struct StdSource<R> {
    reader: R,
    faults: u64,
}

impl<R: Read + Drop> StdSource<R> {
    /// A source over this reader, with no fault counted. Takes no memory.
    pub fn new(reader: R) -> StdSource<R> {
        StdSource { reader, faults: 0 }
    }
}

impl<R: Read + Drop> ByteSource for StdSource<R> {
    ghost left = { λ _. None };

    ghost faults = { λ s. s.faults };

    fn read(&mut self, buf: &mut [u8]) -> Result<usize, IoStop> {
        match self.reader.read(buf) {
            Ok(count) => Ok(count),
            Err(_) => {
                self.faults = self.faults.saturating_add(1);
                Err(IoStop::Failed)
            }
        }
    }
}

/// A sink over any writer. It tells nothing of what it holds, and counts each error of the writer.
#[derive(Drop)]
pub struct StdSink<W> {
    writer: W,
    faults: u64,
}

impl<W: Write + Drop> StdSink<W> {
    /// A sink over this writer, with no fault counted. Takes no memory.
    pub fn new(writer: W) -> StdSink<W> {
        StdSink { writer, faults: 0 }
    }
}

impl<W: Write + Drop> ByteSink for StdSink<W> {
    ghost held = { λ _. None };

    ghost faults = { λ s. s.faults };

    fn write(&mut self, bytes: &[u8]) -> Result<(), IoStop> {
        match self.writer.write_all(bytes) {
            Ok(()) => Ok(()),
            Err(_) => {
                self.faults = self.faults.saturating_add(1);
                Err(IoStop::Failed)
            }
        }
    }
}
