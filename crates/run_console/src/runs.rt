//! Runs over a source and a sink.

ghost use Rattle.std.specs.Prelude.{◌≡◌, ◌≢◌, ◌≤◌, ℕ, List, IfErr};
ghost use Rattle.outside_io.specs.Streams.{Takes};
ghost use Rattle.plain_machine.specs.Standing.{IsOfSame, console_of};
ghost use Rattle.run_console.specs.Runs.{IfRan, IfTold, Runs, StandsBefore, Tells};
ghost use Rattle.run_console.specs.Streams.{HasCause};

use crate::advance::advance;
use crate::stop::RunStop;
use outside_io::{ByteSink, ByteSource};
use plain_machine::PlainRun;

/// Makes so many steps, or those to the run's end, and then writes its console. One byte of the source is taken where the run waits for
/// one; a source that has ended is the end of the input.
///
/// Refuses with `ReadFault` where the source failed, and with `Memory`: the run then stands after some of the steps. Refuses with
/// `WriteFault` where the sink failed: the steps are made then.
#[tactic(auto, using(crate::proofs::Rounds::tells))]
pub fn run_plain<I: ByteSource, O: ByteSink>(
    run: &mut PlainRun<'_>,
    input: &mut I,
    out: &mut O,
    steps: u64,
) -> Result<(), RunStop>
    ensures ran { IfRan result (IfTold (I.left input.old) (I.left input.new) (Runs run.old run.new steps)) }
    ensures same { IsOfSame run.old run.new }
    ensures tells { (input : List ℕ) (k : ℕ) (left : List ℕ) → StandsBefore run.new input k left → Tells run.new input k left }

    // The sink has all of the console, or a front of it where it failed, or nothing.
    ensures console { IfRan result (Takes (O.held out.old) (O.held out.new) (console_of run.new) result) }
    ensures silent { IfErr result (λ stop. stop ≢ RunStop.WriteFault → out.new ≡ out.old) }

    // A fault is answered only where that device's count rose in this call.
    ensures cause { IfErr result (HasCause (I.faults input.old) (I.faults input.new) (O.faults out.old) (O.faults out.new)) }
    ensures reads { I.faults input.old ≤ I.faults input.new }
    ensures writes { O.faults out.old ≤ O.faults out.new }
{
    advance(run, input, steps)?;
    match out.write(run.console()) {
        Ok(()) => Ok(()),
        Err(_) => Err(RunStop::WriteFault),
    }
}
