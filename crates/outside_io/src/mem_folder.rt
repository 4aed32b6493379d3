//! A folder in memory, of which chosen calls fail.

ghost use Rattle.std.specs.Prelude.{◌≡◌, ◌+◌, ◌<◌, ◌≤◌, ◌↔◌, ◌⊎◌, ◌∷◌, ◌++◌, [], length, Contains, IfOk, IsErr, IsErrOf, IsTrue, OnErr, OnOk, Some, option_map};
ghost use Rattle.std.specs.FinMap.{get};
ghost use Rattle.outside_io.specs.Causes.{Counts, Grows, HasCause};
ghost use Rattle.outside_io.specs.Files.{Lists, Reads, Stay, Writes};
ghost use Rattle.outside_io.specs.MemoryKinds.{Differ, Fits, Lack, after, bytes_of, files_of};

use crate::calls::Calls;
use crate::folder::{Folder, MOST_BYTES, MOST_FILES};
use crate::stop::IoStop;
use crate::write_log::WriteLog;
use lists::{Bytes, Path, Same, Seq};
use std::alloc::{AllocError, Global};
use std::marker::Model;

/// A folder in memory, which takes the memory of all writes when it is made. The calls whose
/// numbers, from 0, are in a list fail, and so do the writes that would bring it past its room.
///
/// Its files are all that were given or written, replaced ones counted; its bytes are those of
/// their paths and contents.
#[derive(Drop)]
pub struct MemFolder {
    log: WriteLog,
    calls: Calls,
    read_faults: u64,
    write_faults: u64,
}

impl Model for MemFolder {
    ghost use Rattle.outside_io.specs.MemoryKinds.{FolderState};

    ghost Value = { FolderState };

    ghost view = { λ s. record { written = s.log.written; files_room = s.log.files_room; bytes_room = s.log.bytes_room; call = s.calls.next; failing = s.calls.failing.items; read_faults = s.read_faults; write_faults = s.write_faults } };
}

/// Whether none of the files has this path.
fn lack(files: &[(Path, Bytes)], path: &Path) -> bool
    ensures { IsTrue result ↔ Lack path.now files.now }
{
    for (other, _) in files {
        if other.same(path) {
            return false;
        }
    }
    true
}

/// Whether no two of the files have one path.
fn differ(files: &[(Path, Bytes)]) -> bool
    ensures { IsTrue result ↔ Differ files.now }
{
    for (i, (path, _)) in files.iter().enumerate() {
        if !lack(&files[i + 1..], path) {
            return false;
        }
    }
    true
}

/// Whether the bytes of the paths and contents are at most so many.
fn bytes_fit(files: &[(Path, Bytes)], bytes_room: u64) -> bool
    ensures { IsTrue result ↔ (bytes_of files.now ≤ bytes_room) }
{
    let mut room = bytes_room;
    for (path, bytes) in files {
        let path_len = path.as_str().len() as u64;
        let len = bytes.len() as u64;
        if room < path_len || room - path_len < len {
            return false;
        }
        room = room - path_len - len;
    }
    true
}

impl MemFolder {
    /// Whether a folder may be made of these files and rooms: no two have one path, and the rooms
    /// hold them.
    pub fn fits(files: &[(Path, Bytes)], files_room: u64, bytes_room: u64) -> bool
        ensures { IsTrue result ↔ Fits files.now files_room bytes_room }
    {
        files.len() as u64 <= files_room && bytes_fit(files, bytes_room) && differ(files)
    }

    /// A folder of these files, which with all that will be written are at most `files_room`, of
    /// at most `bytes_room` bytes of paths and contents.
    pub fn new(
        alloc: Global,
        files: Vec<(Path, Bytes)>,
        files_room: u64,
        bytes_room: u64,
        failing: Vec<u64>,
    ) -> Result<MemFolder, AllocError>
        requires { Fits files.items files_room bytes_room }
        ensures { IfOk result (λ s. s ≡ record { written = files.items; files_room = files_room; bytes_room = bytes_room; call = 0; failing = failing.items; read_faults = 0; write_faults = 0 }) }
    {
        let mut log = WriteLog::new(alloc, files_room, bytes_room)?;
        for (path, bytes) in &files {
            log.push(path.as_str(), bytes.as_slice());
        }
        Ok(MemFolder {
            log,
            calls: Calls::new(failing),
            read_faults: 0,
            write_faults: 0,
        })
    }

    /// The bytes of the file at a path. Takes no memory, and is no numbered call.
    pub fn file(&self, path: &str) -> Option<&[u8]>
        ensures { option_map (λ b. b.now) result ≡ get (files_of self.now.written) path.now }
    {
        self.log.latest(path)
    }

    /// How often `list` and `read` have failed. Takes no memory.
    pub fn read_faults(&self) -> u64
        ensures { result ≡ self.now.read_faults }
    {
        self.read_faults
    }

    /// How often `write` has failed. Takes no memory.
    pub fn write_faults(&self) -> u64
        ensures { result ≡ self.now.write_faults }
    {
        self.write_faults
    }
}

impl Folder for MemFolder {
    ghost files = { λ s. Some (files_of s.written) };

    ghost read_faults = { λ s. s.read_faults };

    ghost write_faults = { λ s. s.write_faults };

    /// Fails exactly at the listed calls, and then counts one fault; no other call counts one.
    fn list(&mut self, alloc: Global, dir: &str) -> Result<Seq<Path>, IoStop>
        ensures answer { Lists (Some (files_of self.old.written)) dir.now result }
        ensures files { Stay (Some (files_of self.old.written)) (Some (files_of self.new.written)) }
        ensures cause { Counts self.old.read_faults self.new.read_faults result }
        ensures writes { Grows self.old.write_faults self.new.write_faults }

        ensures fails { IsErrOf result IoStop.Failed ↔ Contains self.old.failing self.old.call }
        ensures failed { IsErrOf result IoStop.Failed → self.new ≡ record self.old { call = after self.old.call; read_faults = after self.old.read_faults } }
        ensures other { ¬ (IsErrOf result IoStop.Failed) → self.new ≡ record self.old { call = after self.old.call } }
    {
        if self.calls.fails() {
            self.read_faults = self.read_faults.saturating_add(1);
            return Err(IoStop::Failed);
        }
        let paths = self.log.below(alloc, dir)?;
        if paths.len() > MOST_FILES {
            return Err(IoStop::TooMany { seen: 1_000_001 });
        }
        Ok(paths)
    }

    /// Fails exactly at the listed calls, and then counts one fault; no other call counts one.
    fn read(&mut self, alloc: Global, path: &str) -> Result<Bytes, IoStop>
        ensures answer { Reads (Some (files_of self.old.written)) path.now result }
        ensures files { Stay (Some (files_of self.old.written)) (Some (files_of self.new.written)) }
        ensures cause { Counts self.old.read_faults self.new.read_faults result }
        ensures writes { Grows self.old.write_faults self.new.write_faults }

        ensures fails { IsErrOf result IoStop.Failed ↔ Contains self.old.failing self.old.call }
        ensures failed { IsErrOf result IoStop.Failed → self.new ≡ record self.old { call = after self.old.call; read_faults = after self.old.read_faults } }
        ensures other { ¬ (IsErrOf result IoStop.Failed) → self.new ≡ record self.old { call = after self.old.call } }
    {
        if self.calls.fails() {
            self.read_faults = self.read_faults.saturating_add(1);
            return Err(IoStop::Failed);
        }
        let Some(bytes) = self.log.latest(path) else {
            return Err(IoStop::Absent);
        };
        if bytes.len() > MOST_BYTES {
            return Err(IoStop::TooLong { taken: 16_777_217 });
        }
        Ok(Seq::from_vec(Vec::from_slice(alloc, bytes)?))
    }

    /// Fails exactly at the listed calls and where a room would be passed; then it counts one
    /// fault, and the files are as before.
    #[tactic(auto, using(crate::proofs::Logs::files_after_write))]
    fn write(&mut self, path: &str, bytes: &[u8]) -> Result<(), IoStop>
        ensures files { Writes (Some (files_of self.old.written)) (Some (files_of self.new.written)) path.now bytes.now result }
        ensures cause { HasCause self.old.write_faults self.new.write_faults result }
        ensures reads { Grows self.old.read_faults self.new.read_faults }

        ensures fails { IsErr result ↔ (Contains self.old.failing self.old.call
            ⊎ ((self.old.files_room < length self.old.written + 1)
            ⊎ (self.old.bytes_room < bytes_of self.old.written + length path.now + length bytes.now))) }
        ensures ok { OnOk result (self.new ≡ record self.old { written = self.old.written ++ (path.now, bytes.now) ∷ []; call = after self.old.call }) }
        ensures err { OnErr result (self.new ≡ record self.old { call = after self.old.call; write_faults = after self.old.write_faults }) }
    {
        let fails = self.calls.fails();
        if fails || !self.log.has_room(path, bytes) {
            self.write_faults = self.write_faults.saturating_add(1);
            return Err(IoStop::Failed);
        }
        self.log.push(path, bytes);
        Ok(())
    }
}
