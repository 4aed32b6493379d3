//! Why a program is not run.

use outside_io::IoStop;
use run_console::RunStop;
use set_loader::LoadStop;
use std::alloc::{AllocError, AllocFailed};

/// Why a program is not run to the end of its steps.
#[derive(Clone, Copy, Debug, PartialEq, Eq)]
pub enum RowStop {
    /// The words are not three for each program.
    Words,
    /// The files of a folder do not load.
    Load,
    /// The class is not there, or has no `main` that can be run.
    Main,
    /// The folder or a stream failed.
    Device,
    Memory,
}

impl RowStop {
    /// A line that says it.
    pub fn text(self) -> &'static str {
        match self {
            RowStop::Words => "no numeral, class and folder\n",
            RowStop::Load => "the classes do not load\n",
            RowStop::Main => "no main\n",
            RowStop::Device => "a device failed\n",
            RowStop::Memory => "out of memory\n",
        }
    }
}

impl From<AllocError> for RowStop {
    fn from(_: AllocError) -> RowStop {
        RowStop::Memory
    }
}

impl<T: Drop> From<AllocFailed<T>> for RowStop {
    fn from(_: AllocFailed<T>) -> RowStop {
        RowStop::Memory
    }
}

impl From<IoStop> for RowStop {
    fn from(_: IoStop) -> RowStop {
        RowStop::Device
    }
}

impl From<LoadStop> for RowStop {
    fn from(_: LoadStop) -> RowStop {
        RowStop::Load
    }
}

impl From<RunStop> for RowStop {
    fn from(_: RunStop) -> RowStop {
        RowStop::Device
    }
}
