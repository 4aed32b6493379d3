//! Steps of a run over a source.

ghost use Rattle.std.specs.Prelude.{◌≡◌, ◌≢◌, ◌<◌, ◌≤◌, IfErr, IfOk, OnOk};
ghost use Rattle.plain_machine.specs.Standing.{IsOfSame};
ghost use Rattle.run_console.specs.Runs.{Advances, IfTold, Runs};
ghost use Rattle.run_console.specs.Streams.{HasCause};

use crate::reading::read_on;
use crate::stop::RunStop;
use outside_io::ByteSource;
use plain_machine::{PlainRun, Turn};

/// One step, for which a byte of the source is taken where the run waits for one; none where the run has ended. Answers how many.
fn step_on<I: ByteSource>(run: &mut PlainRun<'_>, input: &mut I) -> Result<u64, RunStop>
    ensures few { IfOk result (λ made. made ≤ 1) }
    ensures ok { IfOk result (λ made. IfTold (I.left input.old) (I.left input.new) (Advances run.old run.new made)) }
    ensures same { IsOfSame run.old run.new }
    ensures count { I.faults input.old ≤ I.faults input.new }
    ensures cause { IfErr result (HasCause (I.faults input.old) (I.faults input.new) 0 0) }
    ensures no_write { IfErr result (λ stop. stop ≢ RunStop.WriteFault) }
{
    match run.step()? {
        Turn::Went => Ok(1),
        Turn::Wants => read_on(run, input),
        Turn::Ended => Ok(0),
    }
}

/// At least one step and at most so many; none where the run has ended. Answers how many.
fn go_on<I: ByteSource>(run: &mut PlainRun<'_>, input: &mut I, limit: u64) -> Result<u64, RunStop>
    requires { 0 < limit }
    ensures few { IfOk result (λ made. made ≤ limit) }
    ensures ok { IfOk result (λ made. IfTold (I.left input.old) (I.left input.new) (Advances run.old run.new made)) }
    ensures same { IsOfSame run.old run.new }
    ensures count { I.faults input.old ≤ I.faults input.new }
    ensures cause { IfErr result (HasCause (I.faults input.old) (I.faults input.new) 0 0) }
    ensures no_write { IfErr result (λ stop. stop ≢ RunStop.WriteFault) }
{
    let first = step_on(run, input)?;
    if first == 0 {
        return Ok(0);
    }
    let more = run.run(limit - first)?;
    Ok(first + more)
}

/// Makes so many steps, or those to the run's end.
pub fn advance<I: ByteSource>(
    run: &mut PlainRun<'_>,
    input: &mut I,
    steps: u64,
) -> Result<(), RunStop>
    ensures ok { OnOk result (IfTold (I.left input.old) (I.left input.new) (Runs run.old run.new steps)) }
    ensures same { IsOfSame run.old run.new }
    ensures count { I.faults input.old ≤ I.faults input.new }
    ensures cause { IfErr result (HasCause (I.faults input.old) (I.faults input.new) 0 0) }
    ensures no_write { IfErr result (λ stop. stop ≢ RunStop.WriteFault) }
{
    let mut made = 0;
    while made < steps {
        let more = go_on(run, input, steps - made)?;
        if more == 0 {
            return Ok(());
        }
        made += more;
    }
    Ok(())
}
