//! The writes of a folder in memory, whose memory was taken before the first.

ghost use Rattle.std.specs.Prelude.{◌≡◌, ◌≢◌, ◌↔◌, ℕ, List, [], ◌∷◌, ◌++◌, length, IfOk, IsTrue, MatchOption, OnOk, option_map};
ghost use Rattle.std.specs.BTreeSet.{keys};
ghost use Rattle.std.specs.FinMap.{get};
ghost use Rattle.std.specs.Str.{IsUtf8};
ghost use Rattle.outside_io.specs.Files.{Ascend, AreBelow};
ghost use Rattle.outside_io.specs.MemoryKinds.{files_of};
ghost use Rattle.outside_io.specs.WriteLog.{AddsName, AreTexts, HasRoom, log_of, taken};

use crate::paths::in_order;
use lists::{Path, Seq};
use std::alloc::{AllocError, Global};
use std::collections::BTreeSet;
use std::marker::Model;
use std::str;

/// The writes that a folder in memory was made with or got, oldest first, replaced ones too.
#[derive(Drop)]
pub struct WriteLog {
    text: Vec<u8>,
    sizes: Vec<(usize, usize)>,
    files_room: u64,
    bytes_room: u64,
}

impl Model for WriteLog {
    ghost use Rattle.std.specs.Prelude.{◌≡◌, ◌≤◌, length, vec_capacity, vec_len};
    ghost use Rattle.outside_io.specs.WriteLog.{AddsName, AreTexts, LogState, log_of, taken};

    ghost Value = { LogState };

    ghost view = { λ s. record { written = log_of s.sizes.items s.text.items; files_room = s.files_room; bytes_room = s.bytes_room } };

    ghost invariant = { λ s. (taken s.sizes.items ≡ length s.text.items)
        × AreTexts (log_of s.sizes.items s.text.items)
        × (vec_len s.text ≤ s.bytes_room) × (s.bytes_room ≤ vec_capacity s.text)
        × (vec_len s.sizes ≤ s.files_room) × (s.files_room ≤ vec_capacity s.sizes) };
}

/// The newest bytes that were written at a path.
fn latest_in<'a>(sizes: &[(usize, usize)], text: &'a [u8], path: &[u8]) -> Option<&'a [u8]>
    requires { taken sizes.now ≡ length text.now }
    ensures { option_map (λ b. b.now) result ≡ get (files_of (log_of sizes.now text.now)) path.now }
{
    let mut found = None;
    let mut rest = text;
    for (path_len, len) in sizes {
        let (name, more) = rest.split_at(*path_len);
        let (bytes, more) = more.split_at(*len);
        if path == name {
            found = Some(bytes);
        }
        rest = more;
    }
    found
}

/// What stands behind a folder's path and a `/` in a path that has more there.
fn name_below<'a>(dir: &str, path: &'a [u8]) -> Option<&'a str>
    requires { IsUtf8 path.now }
    ensures { MatchOption result ((name : List ℕ) → name ≢ [] → path.now ≢ dir.now ++ 47 ∷ name) (λ name. (name.now ≢ []) × (path.now ≡ dir.now ++ 47 ∷ name.now)) }
{
    let path = str::from_utf8(path).ok()?;
    let name = path.strip_prefix(dir)?.strip_prefix("/")?;
    if name.is_empty() { None } else { Some(name) }
}

/// Puts the name that a path has below a folder into a set, if it has one.
fn add_name(
    alloc: Global,
    found: &mut BTreeSet<Path>,
    dir: &str,
    path: &[u8],
) -> Result<(), AllocError>
    requires { IsUtf8 path.now }
    ensures { OnOk result (AddsName dir.now path.now found.old found.new) }
{
    if let Some(name) = name_below(dir, path) {
        found.insert(Path::from_str(alloc, name)?)?;
    }
    Ok(())
}

/// The names below a folder of all paths of a log.
fn names_in(
    alloc: Global,
    sizes: &[(usize, usize)],
    text: &[u8],
    dir: &str,
) -> Result<BTreeSet<Path>, AllocError>
    requires whole { taken sizes.now ≡ length text.now }
    requires texts { AreTexts (log_of sizes.now text.now) }
    ensures { IfOk result (λ found. AreBelow dir.now (files_of (log_of sizes.now text.now)) (keys found)) }
{
    let mut found = BTreeSet::new(alloc);
    let mut rest = text;
    for (path_len, len) in sizes {
        let (path, more) = rest.split_at(*path_len);
        add_name(alloc, &mut found, dir, path)?;
        let (_, more) = more.split_at(*len);
        rest = more;
    }
    Ok(found)
}

impl WriteLog {
    /// A log of no writes, with room for so many, of so many bytes of paths and contents.
    pub fn new(alloc: Global, files_room: u64, bytes_room: u64) -> Result<WriteLog, AllocError>
        ensures { IfOk result (λ log. log ≡ record { written = []; files_room = files_room; bytes_room = bytes_room }) }
    {
        Ok(WriteLog {
            text: Vec::with_capacity(alloc, bytes_room as usize)?,
            sizes: Vec::with_capacity(alloc, files_room as usize)?,
            files_room,
            bytes_room,
        })
    }

    /// The newest bytes at a path. Takes no memory.
    pub fn latest(&self, path: &str) -> Option<&[u8]>
        ensures { option_map (λ b. b.now) result ≡ get (files_of self.now.written) path.now }
    {
        latest_in(&self.sizes, &self.text, path.as_bytes())
    }

    /// What the paths of all files below a folder have behind its path and a `/`, each once and
    /// ascending by bytes.
    pub fn below(&self, alloc: Global, dir: &str) -> Result<Seq<Path>, AllocError>
        ensures ascend { IfOk result Ascend }
        ensures all { IfOk result (AreBelow dir.now (files_of self.now.written)) }
    {
        let found = names_in(alloc, &self.sizes, &self.text, dir)?;
        in_order(alloc, found)
    }

    /// Whether one more write is within both rooms.
    pub fn has_room(&self, path: &str, bytes: &[u8]) -> bool
        ensures { IsTrue result ↔ HasRoom self.now path.now bytes.now }
    {
        let room = self.bytes_room - self.text.len() as u64;
        (self.sizes.len() as u64) < self.files_room
            && path.len() as u64 <= room
            && bytes.len() as u64 <= room - path.len() as u64
    }

    /// Puts a write behind the others. Takes no memory.
    pub fn push(&mut self, path: &str, bytes: &[u8])
        requires { HasRoom self.old path.now bytes.now }
        ensures { self.new ≡ record self.old { written = self.old.written ++ (path.now, bytes.now) ∷ [] } }
    {
        self.sizes.push((path.len(), bytes.len())).unwrap();
        self.text.extend_from_slice(path.as_bytes()).unwrap();
        self.text.extend_from_slice(bytes).unwrap();
    }
}
