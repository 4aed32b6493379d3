//! Class files.

use lists::{Bytes, Path};

/// A class file: its path, relative to the folder that it stands in, and its bytes.
#[derive(Debug, Drop)]
pub struct File {
    pub path: Path,
    pub bytes: Bytes,
}
