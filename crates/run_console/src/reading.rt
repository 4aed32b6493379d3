//! A byte of a source, for a run that waits for one.

ghost use Rattle.std.specs.Prelude.{◌≡◌, ◌≢◌, ◌≤◌, IfErr, IfOk};
ghost use Rattle.outside_io.specs.Causes.{Rose};
ghost use Rattle.plain_machine.specs.Standing.{IsOfSame, IsWaiting};
ghost use Rattle.run_console.specs.Runs.{Advances, Gives, IfTold};
ghost use Rattle.run_console.specs.Streams.{HasCause};

use crate::stop::RunStop;
use outside_io::ByteSource;
use plain_machine::{PlainRun, Turn};

/// Takes the next byte, or finds that the source has ended.
#[tactic(auto, using(crate::proofs::Bytes::gives_first, crate::proofs::Bytes::gives_none))]
fn take_byte<I: ByteSource>(input: &mut I) -> Result<Option<u8>, RunStop>
    ensures gives { IfOk result (λ byte. IfTold (I.left input.old) (I.left input.new) (Gives byte)) }
    ensures count { I.faults input.old ≤ I.faults input.new }
    ensures fault { IfErr result (λ stop. (stop ≡ RunStop.ReadFault) × Rose (I.faults input.old) (I.faults input.new)) }
{
    let mut buffer = [0u8];
    match input.read(&mut buffer) {
        Ok(0) => Ok(None),
        Ok(_) => Ok(Some(buffer[0])),
        Err(_) => Err(RunStop::ReadFault),
    }
}

/// Feeds a run that waits with the next byte of a source, or with its end, and makes the step that takes it. Answers that one step was
/// made.
pub fn read_on<I: ByteSource>(run: &mut PlainRun<'_>, input: &mut I) -> Result<u64, RunStop>
    requires { IsWaiting run.old }
    ensures few { IfOk result (λ made. made ≤ 1) }
    ensures ok { IfOk result (λ made. IfTold (I.left input.old) (I.left input.new) (Advances run.old run.new made)) }
    ensures same { IsOfSame run.old run.new }
    ensures count { I.faults input.old ≤ I.faults input.new }
    ensures cause { IfErr result (HasCause (I.faults input.old) (I.faults input.new) 0 0) }
    ensures no_write { IfErr result (λ stop. stop ≢ RunStop.WriteFault) }
{
    let byte = take_byte(input)?;
    run.feed(byte);
    match run.step()? {
        Turn::Went => Ok(1),
        Turn::Wants => Ok(0),
        Turn::Ended => Ok(0),
    }
}
