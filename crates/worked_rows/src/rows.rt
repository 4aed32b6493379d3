//! One program of a folder.

ghost use Rattle.std.specs.Prelude.{◌≤◌, IfOk, vec_len};

use crate::endings::ending_text;
use crate::stop::RowStop;
use lists::Name;
use outside_io::{ByteSink, ByteSource, Folder};
use plain_machine::PlainRun;
use profile_check::Names;
use program_links::find_main;
use run_console::run_plain;
use set_loader::{File, load_set};
use std::alloc::Global;
use verifier::VerifiedSet;

/// A program, and how far it is run.
#[derive(Clone, Copy)]
pub struct Row<'a> {
    pub steps: u64,
    pub class: &'a str,
    pub folder: &'a str,
}

/// The class files of a folder, as many as can be loaded.
fn class_files<F: Folder>(alloc: Global, folder: &mut F, dir: &str) -> Result<Vec<File>, RowStop>
    ensures few { IfOk result (λ files. vec_len files ≤ 1000000) }
{
    let mut files = Vec::new(alloc);
    for path in folder.list(alloc, dir)?.into_vec() {
        if path.as_str().ends_with(".class") {
            let whole = format!(in alloc; "{dir}/{}", path.as_str())?;
            let bytes = folder.read(alloc, whole.as_str())?;
            files.push(File { path, bytes })?;
        }
    }
    if files.len() > 1_000_000 {
        return Err(RowStop::Device);
    }
    Ok(files)
}

fn load<F: Folder>(alloc: Global, folder: &mut F, dir: &str) -> Result<VerifiedSet, RowStop> {
    let files = class_files(alloc, folder, dir)?;
    Ok(load_set(alloc, files.as_slice(), Names::Written)?)
}

/// Runs a class of a set, writes its console, and answers how it stands, in words.
fn run_class<I: ByteSource, O: ByteSink>(
    alloc: Global,
    set: &VerifiedSet,
    row: &Row<'_>,
    input: &mut I,
    out: &mut O,
) -> Result<Vec<u8>, RowStop> {
    let name = Name::from_str(alloc, row.class)?;
    let Some(main) = find_main(set.set(), &name) else {
        return Err(RowStop::Main);
    };
    let mut run = PlainRun::start(alloc, set, main)?;
    run_plain(&mut run, input, out, row.steps)?;
    Ok(ending_text(alloc, set.set(), run.ending())?)
}

/// Loads the program of a row and runs it over the streams, and writes a line of how it stands then.
pub fn run_row<F: Folder, I: ByteSource, O: ByteSink>(
    alloc: Global,
    row: &Row<'_>,
    folder: &mut F,
    input: &mut I,
    out: &mut O,
) -> Result<(), RowStop> {
    let set = load(alloc, folder, row.folder)?;
    let ending = run_class(alloc, &set, row, input, out)?;
    let head = format!(in alloc; "\n{}: ", row.folder)?;
    out.write(head.as_bytes())?;
    out.write(ending.as_slice())?;
    out.write(b"\n")?;
    Ok(())
}
