//! The lines of a run, and the status of its ending.

ghost use Rattle.std.specs.Prelude.{◌≡◌, ◌++◌, flat_map, IfOk, OnOk};
ghost use Rattle.command_parts.specs.RunLines as lines;

use crate::load_lines::{add, add_name};
use class_set::ClassSet;
use lists::{Bytes, Seq};
use run_state::{Ending, Report};
use set_lookups::ClassId;
use std::alloc::{AllocError, Global};

/// Puts the line of a report behind others: the sink, the argument and the tag.
fn add_report(alloc: Global, text: &mut Vec<u8>, report: &Report) -> Result<(), AllocError>
    ensures { OnOk result (text.new.items ≡ text.old.items ++ lines.report_line report.now) }
{
    let sink = report.sink.to_string(alloc)?;
    let argument = report.argument.to_string(alloc)?;
    let tag = report.tag.to_string(alloc)?;
    add(text, "report ")?;
    add(text, &sink)?;
    add(text, " ")?;
    add(text, &argument)?;
    add(text, " ")?;
    add(text, &tag)?;
    text.push(b'\n')?;
    Ok(())
}

fn add_reports(alloc: Global, text: &mut Vec<u8>, reports: &[Report]) -> Result<(), AllocError>
    ensures { OnOk result (text.new.items ≡ text.old.items ++ flat_map lines.report_line reports.now) }
{
    for report in reports {
        add_report(alloc, text, report)?;
    }
    Ok(())
}

/// Puts the name of a class of the set behind others.
fn add_class(
    alloc: Global,
    text: &mut Vec<u8>,
    set: &ClassSet,
    class: ClassId,
) -> Result<(), AllocError>
    ensures { OnOk result (text.new.items ≡ text.old.items ++ lines.class_text set.now class.0) }
{
    match set.classes().get(class.0 as usize) {
        Some(class) => add_name(alloc, text, &class.name),
        None => Ok(()),
    }
}

fn add_exit(
    alloc: Global,
    text: &mut Vec<u8>,
    set: &ClassSet,
    status: i32,
) -> Result<(), AllocError>
    ensures { OnOk result (text.new.items ≡ text.old.items ++ lines.ending_line set.now (Ending.Exit status)) }
{
    let status = status.to_string(alloc)?;
    add(text, "exit ")?;
    add(text, &status)?;
    text.push(b'\n')?;
    Ok(())
}

fn add_uncaught(
    alloc: Global,
    text: &mut Vec<u8>,
    set: &ClassSet,
    class: ClassId,
) -> Result<(), AllocError>
    ensures { OnOk result (text.new.items ≡ text.old.items ++ lines.ending_line set.now (Ending.Uncaught class)) }
{
    add(text, "uncaught ")?;
    add_class(alloc, text, set, class)?;
    text.push(b'\n')?;
    Ok(())
}

/// Puts the names of two classes behind others.
#[tactic(auto, unfolding(crate::specs::RunLines::two_classes))]
fn add_classes(
    alloc: Global,
    text: &mut Vec<u8>,
    set: &ClassSet,
    class: ClassId,
    other: ClassId,
) -> Result<(), AllocError>
    ensures { OnOk result (text.new.items ≡ text.old.items ++ lines.two_classes set.now class.0 other.0) }
{
    add_class(alloc, text, set, class)?;
    add(text, " ")?;
    add_class(alloc, text, set, other)
}

fn add_init_failed(
    alloc: Global,
    text: &mut Vec<u8>,
    set: &ClassSet,
    class: ClassId,
    exception: ClassId,
) -> Result<(), AllocError>
    ensures { OnOk result (text.new.items ≡ text.old.items ++ lines.ending_line set.now (Ending.InitFailed class exception)) }
{
    add(text, "init ")?;
    add(text, "failed ")?;
    add_classes(alloc, text, set, class, exception)?;
    text.push(b'\n')?;
    Ok(())
}

/// Puts the line of an ending behind others.
fn add_ending(
    alloc: Global,
    text: &mut Vec<u8>,
    set: &ClassSet,
    ending: Ending,
) -> Result<(), AllocError>
    ensures { OnOk result (text.new.items ≡ text.old.items ++ lines.ending_line set.now ending) }
{
    match ending {
        Ending::Running => add(text, "running\n"),
        Ending::Returned => add(text, "returned\n"),
        Ending::Exit(status) => add_exit(alloc, text, set, status),
        Ending::Uncaught(class) => add_uncaught(alloc, text, set, class),
        Ending::InitFailed(class, exception) => {
            add_init_failed(alloc, text, set, class, exception)
        }
    }
}

/// The lines of a run of a set: a line for each report, in order, and one for the ending.
pub fn run_lines(
    alloc: Global,
    set: &ClassSet,
    reports: &[Report],
    ending: Ending,
) -> Result<Bytes, AllocError>
    ensures { IfOk result (λ text. text ≡ lines.run_lines set.now reports.now ending) }
{
    let mut text = Vec::new(alloc);
    add_reports(alloc, &mut text, reports)?;
    add_ending(alloc, &mut text, set, ending)?;
    Ok(Seq::from_vec(text))
}

/// The status of an ending: 0 where `main` returned or the program exited with 0, 7 where it goes on, 8 for an exception
/// that nothing caught, 9 for another exit.
pub fn run_status(ending: Ending) -> u8
    ensures { result ≡ lines.run_status ending }
{
    match ending {
        Ending::Running => 7,
        Ending::Returned | Ending::Exit(0) => 0,
        Ending::Exit(_) => 9,
        Ending::Uncaught(_) | Ending::InitFailed(_, _) => 8,
    }
}
