ghost use Rattle.std.specs.Prelude.{◌≡◌, IfOk};
ghost use Rattle.last_plan.specs.Told.{log_line};
ghost use Rattle.last_plan.specs.code.Ended.{ending_of_given, EndsStopped};
ghost use Rattle.last_plan.specs.declared.stop.PlanStop.TheVariants as stop;

use crate::ended::Ended;
use crate::stop::PlanStop;
use crate::texts::push_place;
use given_files::{GivenStop as Given, push_told, report, tell};
use sched_base::{Desk, NoMemory};
use std::alloc::Global;

/// The line that tells which line of the log is refused, and where it begins.
fn log_text(alloc: Global, line: u64, at: u128) -> Result<Vec<u8>, NoMemory>
    ensures { IfOk result (λ v. v.items ≡ log_line line at) }
{
    let mut bytes = Vec::new(alloc);
    push_told(&mut bytes, b"log refused line ", line)?;
    push_place(&mut bytes, at)?;
    Ok(bytes)
}

fn end_refused<D: Desk>(alloc: Global, desk: &mut D, line: u64, at: u128) -> Ended
    ensures { EndsStopped (stop.Refused line at) result (D.state desk.old) (D.state desk.new) }
{
    match log_text(alloc, line, at) {
        Ok(text) => {
            report(desk, text.as_slice());
            Ended::LogRefused
        }
        Err(_) => {
            report(desk, b"no memory\n");
            Ended::NoMemory
        }
    }
}

fn ended_of(stop: Given) -> Ended
    ensures { result ≡ ending_of_given stop }
{
    match stop {
        Given::Fault => Ended::Fault,
        Given::NoMemory => Ended::NoMemory,
        Given::ModelRefused(_) => Ended::ModelRefused,
        // No schedule is read.
        Given::ScheduleRefused(_) => Ended::LogRefused,
    }
}

fn end_given<D: Desk>(alloc: Global, desk: &mut D, given: Given) -> Ended
    ensures { EndsStopped (stop.Given given) result (D.state desk.old) (D.state desk.new) }
{
    ended_of(tell(alloc, desk, given))
}

/// The ending of a run that told nothing of the log, with its line on standard error.
pub fn end_stopped<D: Desk>(alloc: Global, desk: &mut D, stop: PlanStop) -> Ended
    ensures { EndsStopped stop result (D.state desk.old) (D.state desk.new) }
{
    match stop {
        PlanStop::Given(given) => end_given(alloc, desk, given),
        PlanStop::Refused { line, at } => end_refused(alloc, desk, line, at),
        PlanStop::TooLong => {
            report(desk, b"log too long\n");
            Ended::LogRefused
        }
    }
}
