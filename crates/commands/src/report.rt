ghost use Rattle.std.specs.Prelude.{◌≡◌, IfOk};
ghost use Rattle.commands.specs.Told.{log_line};
ghost use Rattle.commands.specs.code.Stops.{ending_of_stop};
ghost use Rattle.commands.specs.code.Tries.{EndsStopped};
ghost use Rattle.commands.specs.declared.stop.RunStop.TheVariants as stop;

use crate::ended::Ended;
use crate::stop::RunStop;
use given_files::{GivenStop as Given, push_told, report, tell};
use sched_base::{Desk, NoMemory};
use std::alloc::Global;

/// The line that tells which line of the log is refused.
fn log_text(alloc: Global, line: u64) -> Result<Vec<u8>, NoMemory>
    ensures { IfOk result (λ v. v.items ≡ log_line line) }
{
    let mut bytes = Vec::new(alloc);
    push_told(&mut bytes, b"log refused line ", line)?;
    bytes.extend_from_slice(b"\n")?;
    Ok(bytes)
}

fn end_log_refused<D: Desk>(alloc: Global, desk: &mut D, line: u64) -> Ended
    ensures { EndsStopped (stop.LogRefused line) result (D.state desk.old) (D.state desk.new) }
{
    match log_text(alloc, line) {
        Ok(text) => {
            report(desk, text.as_slice());
            Ended::LogRefused
        }
        Err(_) => {
            report(desk, b"no memory\n");
            Ended::NoMemory
        }
    }
}

fn ended_of(stop: Given) -> Ended
    ensures { result ≡ ending_of_stop stop }
{
    match stop {
        Given::Fault => Ended::Fault,
        Given::NoMemory => Ended::NoMemory,
        Given::ModelRefused(_) => Ended::ModelRefused,
        Given::ScheduleRefused(_) => Ended::ScheduleRefused,
    }
}

fn end_given<D: Desk>(alloc: Global, desk: &mut D, given: Given) -> Ended
    ensures { EndsStopped (stop.Given given) result (D.state desk.old) (D.state desk.new) }
{
    ended_of(tell(alloc, desk, given))
}

/// The ending of a command that came to no answer, with its line on standard error.
pub fn end_stopped<D: Desk>(alloc: Global, desk: &mut D, stop: RunStop) -> Ended
    ensures { EndsStopped stop result (D.state desk.old) (D.state desk.new) }
{
    match stop {
        RunStop::Given(given) => end_given(alloc, desk, given),
        RunStop::LogRefused(line) => end_log_refused(alloc, desk, line),
        RunStop::LogTooLong => {
            report(desk, b"log too long\n");
            Ended::LogRefused
        }
    }
}
