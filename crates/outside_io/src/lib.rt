//! What a program takes from outside: a folder of files, bytes that come in, bytes that go out.
//!
//! Each device is a trait, so that what stands above is proved once for all of them. The memory
//! kinds serve tests; the kinds over a real folder and over standard streams are the edge.
#![tactic(auto)]

mod calls;
mod dir_folder;
mod folder;
mod mem_folder;
mod mem_streams;
mod paths;
mod std_streams;
mod stop;
mod streams;
#[cfg(test)]
mod tests;
mod write_log;

pub use dir_folder::DirFolder;
pub use folder::Folder;
pub use mem_folder::MemFolder;
pub use mem_streams::{MemSink, MemSource};
pub use std_streams::{StdSink, StdSource};
pub use stop::IoStop;
pub use streams::{ByteSink, ByteSource};
