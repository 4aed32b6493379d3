//! Runs programs over standard input and output. Each three words name one: the most steps, the class and the folder of
//! its class files. Behind the console of each stands a line of how it stands then; each takes its input where the one
//! before it has stopped.
//!
//! The sources of the programs in `data` stand beside them; three were put together by `bench/class_files.py`.
#![tactic(auto)]

mod endings;
mod rows;
mod stop;

use crate::rows::{Row, run_row};
use crate::stop::RowStop;
use outside_io::{ByteSink, ByteSource, DirFolder, Folder, StdSink, StdSource};
use std::alloc::Global;
use std::env;
use std::process::ExitCode;

/// What three words name.
fn row_of(words: &[String]) -> Option<Row<'_>> {
    let [steps, class, folder] = words else {
        return None;
    };
    let Ok(steps) = steps.parse::<u64>() else {
        return None;
    };
    Some(Row {
        steps,
        class: class.as_str(),
        folder: folder.as_str(),
    })
}

/// Runs the programs that words name, in order, to the first that can not be run.
fn run_rows<F: Folder, I: ByteSource, O: ByteSink>(
    alloc: Global,
    words: &[String],
    folder: &mut F,
    input: &mut I,
    out: &mut O,
) -> Result<(), RowStop> {
    for three in words.chunks(3) {
        let Some(row) = row_of(three) else {
            return Err(RowStop::Words);
        };
        run_row(alloc, &row, folder, input, out)?;
    }
    Ok(())
}

fn words(rt: &HostRuntime) -> Result<Vec<String>, RowStop> {
    let found: Result<Vec<String>, _> = match env::args(rt) {
        Ok(words) => words.skip(1).collect(rt.alloc()),
        Err(_) => return Err(RowStop::Memory),
    };
    match found {
        Ok(words) => Ok(words),
        Err(_) => Err(RowStop::Memory),
    }
}

fn main(rt: HostRuntime) -> ExitCode {
    let Ok(words) = words(&rt) else {
        return ExitCode::from(5);
    };
    let mut input = StdSource::new(rt.stdin());
    let mut out = StdSink::new(rt.stdout());
    let alloc = rt.alloc();
    let mut folder = DirFolder::new(rt);
    match run_rows(alloc, words.as_slice(), &mut folder, &mut input, &mut out) {
        Ok(()) => ExitCode::from(0),
        Err(stop) => {
            let _ = out.write(stop.text().as_bytes());
            ExitCode::from(1)
        }
    }
}
