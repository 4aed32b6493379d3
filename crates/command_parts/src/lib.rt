//! What commands share: reading the class files of a folder, seeing that one is empty, writing files, the
//! line that a command leaves where it stops, and the lines of a run.
#![tactic(auto)]

mod kinds;
mod laws;
mod lines;
mod load_lines;
mod look;
mod reading;
mod runs;
mod stop;
mod write;

pub use laws::written_class_files;
pub use lines::{put, tell};
pub use load_lines::load_line;
pub use look::{read_named, see_empty};
pub use reading::class_files;
pub use runs::{run_lines, run_status};
pub use stop::Stop;
pub use write::{placed, write_files};

#[cfg(test)]
mod tests;
