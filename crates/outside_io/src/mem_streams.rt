//! A source and a sink in memory, of which chosen calls fail.

ghost use Rattle.std.specs.Prelude.{◌≡◌, [], ◌++◌, ◌+◌, ◌<◌, ◌↔◌, ◌⊎◌, drop, length, Contains, Some, IsErr, min, take, IfOk, OnOk, OnErr};
ghost use Rattle.std.specs.Io.{ReadsAtMost};
ghost use Rattle.std.specs.Io.KnownBytes.{ReadConsumes};
ghost use Rattle.outside_io.specs.Causes.{HasCause};
ghost use Rattle.outside_io.specs.MemoryKinds.{after};
ghost use Rattle.outside_io.specs.Streams.{IsZeroAtEnd, Takes};

use crate::calls::Calls;
use crate::stop::IoStop;
use crate::streams::{ByteSink, ByteSource};
use lists::Bytes;
use std::alloc::{AllocError, Global};
use std::marker::Model;

/// Copies as much of the bytes as the buffer holds to its front, and answers how much.
fn copy_front(bytes: &[u8], buf: &mut [u8]) -> usize
    ensures count { result ≡ min (length bytes.now) (length buf.old) }
    ensures front { take result buf.new ≡ take result bytes.now }
{
    let count = bytes.len().min(buf.len());
    buf[..count].copy_from_slice(&bytes[..count]);
    count
}

/// A source in memory. The calls whose numbers, from 0, are in a list fail.
#[derive(Drop)]
pub struct MemSource {
    bytes: Bytes,
    taken: usize,
    calls: Calls,
    faults: u64,
}

impl Model for MemSource {
    ghost use Rattle.std.specs.Prelude.{◌≤◌, drop, length};
    ghost use Rattle.outside_io.specs.MemoryKinds.{SourceState};

    ghost Value = { SourceState };

    ghost view = { λ s. record { left = drop s.taken s.bytes; call = s.calls.next; failing = s.calls.failing.items; faults = s.faults } };

    ghost invariant = { λ s. s.taken ≤ length s.bytes };
}

impl MemSource {
    /// A source of these bytes. Takes no memory.
    pub fn new(bytes: Bytes, failing: Vec<u64>) -> MemSource
        ensures { result ≡ record { left = bytes; call = 0; failing = failing.items; faults = 0 } }
    {
        MemSource {
            bytes,
            taken: 0,
            calls: Calls::new(failing),
            faults: 0,
        }
    }
}

impl ByteSource for MemSource {
    ghost left = { λ s. Some s.left };

    ghost faults = { λ s. s.faults };

    /// Gives as many bytes as the buffer holds or are left. Fails exactly at the listed calls, and
    /// then counts one fault.
    fn read(&mut self, buf: &mut [u8]) -> Result<usize, IoStop>
        requires { 0 < length buf.old }
        ensures bound { ReadsAtMost result buf.new }
        ensures bytes { ReadConsumes (Some self.old.left) (Some self.new.left) result buf.new }
        ensures end { IsZeroAtEnd (Some self.old.left) result }
        ensures cause { HasCause self.old.faults self.new.faults result }

        ensures fails { IsErr result ↔ Contains self.old.failing self.old.call }
        ensures ok { IfOk result (λ count. (count ≡ min (length self.old.left) (length buf.old))
            × (self.new ≡ record self.old { left = drop count self.old.left; call = after self.old.call })) }
        ensures err { OnErr result (self.new ≡ record self.old { call = after self.old.call; faults = after self.old.faults }) }
    {
        if self.calls.fails() {
            self.faults = self.faults.saturating_add(1);
            return Err(IoStop::Failed);
        }
        let count = copy_front(&self.bytes.as_slice()[self.taken..], buf);
        self.taken += count;
        Ok(count)
    }
}

/// A sink in memory, which takes the memory of all writes when it is made. The calls whose numbers,
/// from 0, are in a list fail, and so do those that would bring it past its capacity.
#[derive(Drop)]
pub struct MemSink {
    bytes: Vec<u8>,
    capacity: u64,
    calls: Calls,
    faults: u64,
}

impl Model for MemSink {
    ghost use Rattle.std.specs.Prelude.{◌≤◌, vec_capacity, vec_len};
    ghost use Rattle.outside_io.specs.MemoryKinds.{SinkState};

    ghost Value = { SinkState };

    ghost view = { λ s. record { held = s.bytes.items; capacity = s.capacity; call = s.calls.next; failing = s.calls.failing.items; faults = s.faults } };

    ghost invariant = { λ s. (s.capacity ≤ vec_capacity s.bytes) × (vec_len s.bytes ≤ s.capacity) };
}

impl MemSink {
    /// An empty sink for at most `capacity` bytes.
    pub fn new(alloc: Global, capacity: u64, failing: Vec<u64>) -> Result<MemSink, AllocError>
        ensures { IfOk result (λ s. s ≡ record { held = []; capacity = capacity; call = 0; failing = failing.items; faults = 0 }) }
    {
        Ok(MemSink {
            bytes: Vec::with_capacity(alloc, capacity as usize)?,
            capacity,
            calls: Calls::new(failing),
            faults: 0,
        })
    }

    /// The bytes that it holds. Takes no memory.
    pub fn held(&self) -> &[u8]
        ensures { result.now ≡ self.now.held }
    {
        self.bytes.as_slice()
    }
}

impl ByteSink for MemSink {
    ghost held = { λ s. Some s.held };

    ghost faults = { λ s. s.faults };

    /// Takes all of the bytes. Fails exactly at the listed calls and where the capacity would be
    /// passed; then it counts one fault, and holds what it held.
    fn write(&mut self, bytes: &[u8]) -> Result<(), IoStop>
        ensures bytes { Takes (Some self.old.held) (Some self.new.held) bytes.now result }
        ensures cause { HasCause self.old.faults self.new.faults result }

        ensures fails { IsErr result ↔ (Contains self.old.failing self.old.call
            ⊎ (self.old.capacity < length self.old.held + length bytes.now)) }
        ensures ok { OnOk result (self.new ≡ record self.old { held = self.old.held ++ bytes.now; call = after self.old.call }) }
        ensures err { OnErr result (self.new ≡ record self.old { call = after self.old.call; faults = after self.old.faults }) }
    {
        let fails = self.calls.fails();
        let room = self.capacity - self.bytes.len() as u64;
        if fails || room < bytes.len() as u64 {
            self.faults = self.faults.saturating_add(1);
            return Err(IoStop::Failed);
        }
        self.bytes.extend_from_slice(bytes).unwrap();
        Ok(())
    }
}
