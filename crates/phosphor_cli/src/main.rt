//! The program `phosphor`: the real devices, and the words of the command line.
#![tactic(auto)]

use outside_io::{DirFolder, StdSink, StdSource};
use phosphor_top::phosphor;
use std::process::ExitCode;
use std::{env, io};

/// The words behind the program's name.
fn words(rt: &HostRuntime) -> io::Result<Vec<String>> {
    let words: Vec<String> = env::args(rt)?.skip(1).collect(rt.alloc())?;
    Ok(words)
}

fn main(rt: HostRuntime) -> ExitCode {
    let Ok(words) = words(&rt) else {
        let _ = eprintln!(rt; "out of memory");
        return ExitCode::from(5);
    };
    let mut input = StdSource::new(rt.stdin());
    let mut out = StdSink::new(rt.stdout());
    let mut err = StdSink::new(rt.stderr());
    let alloc = rt.alloc();
    let mut folder = DirFolder::new(rt);
    ExitCode::from(phosphor(
        alloc,
        words.as_slice(),
        &mut folder,
        &mut input,
        &mut out,
        &mut err,
    ))
}
